//! What a session does in one thread: it knows what is newest before it acts, and what it knows
//! after is the newest.
ghost use Rattle.std.specs.Prelude.{◌≡◌, ◌<◌, ◌+◌, [], ◌∷◌, Option, Some, None, true, false, IfOk, IfErr, OnOk, IfSome, IfNone};
ghost use Rattle.tx_core.specs.declared.event.Event.TheVariants as events;
ghost use Rattle.tx_core.specs.Histories.{last};
ghost use Rattle.tx_transaction.specs.Sessions.{begun, can_draw, declaration, exceeds, finish_of, is_declared};
ghost use Rattle.tx_journal.specs.Known.{Known};
ghost use Rattle.tx_client.specs.Calls.{Seated};
ghost use Rattle.tx_plan.specs.declared.body.Body.TheVariants as body;
ghost use Rattle.tx_network.specs.Networks.{network_state, with_events, Foresees, Met, NotesDeclared};
ghost use Rattle.tx_engine.specs.declared.slots.SessionSlot.TheVariants as session_slot;
ghost use Rattle.tx_engine.specs.Slots.{Acts, Serves, NotesPlaced};
ghost use Rattle.tx_engine.specs.Semantics.{declared_in, placed_in};

use crate::slots::SessionSlot;
use std::alloc::Global;
use std::mem::replace;
use tx_cells::Families;
use tx_client::{Miss, Session, Terms, ask};
use tx_core::{Answer, Body, Declaration, Get, Outcome, Starts};
use tx_journal::{JournalId, Seat};
use tx_network::Network;
use tx_steps::Delivery;
use tx_types::{Fault, Key, Ts};

/// A session begins.
pub(crate) fn begin_at<J: JournalId, F: Families>(
    alloc: Global,
    mut seat: Seat<J>,
    network: &mut Network<J, F>,
) -> (Session<J>, Ts)
    requires ticks { 0 < seat.ticks }
    ensures state { result.0.state ≡ begun result.1 }
    ensures acts { Acts seat result.0.seat network.old network.new ((result.1 ≡ last network.old.newest + 1)
        × (network_state network.new ≡ with_events (network_state network.old) (events.Began (last network.old.newest
        + 1) ∷ events.Drawn seat.seat (last network.old.newest + 1) ∷ network.old.newest))) }
{
    seat.learn(network.newest());
    let Ok(mut session) = Session::begin(alloc, seat) else {
        unreachable!()
    };
    let start = session.start();
    network.set_newest(session.tell());
    network.drew(start);
    network.began(start);
    (session, start)
}

// What a session has declared, where steps are kept. Memory for that may be refused.
fn declaration_of<J: JournalId, F: Families>(
    alloc: Global,
    session: &Session<J>,
    network: &Network<J, F>,
    terms: &Terms,
) -> Result<Option<Declaration>, Fault>
    ensures { Foresees network.now.trace (declaration session.now.state.start session.now.state.placed
        session.now.state.buffer terms.now) result }
{
    if network.is_traced() {
        let transaction = session.transaction();
        transaction.declaration(alloc, transaction.placed(), terms)
    } else {
        Ok(None)
    }
}

// A session has declared this, if it declared anything.
fn note_copy<J: JournalId, F: Families>(
    network: &mut Network<J, F>,
    copy: Result<Option<Declaration>, Fault>,
)
    ensures same { network.new ≡ record network.old { trace = network.new.trace } }
    ensures notes { (d : Option Declaration) → Foresees network.old.trace d copy
        → NotesDeclared d network.old.trace network.new.trace }
{
    match copy {
        Ok(None) => {}
        Ok(Some(of)) => network.declared(&of),
        Err(_) => network.lose_trace(),
    }
}

// A session has declared its buffer under these terms: if there was anything to declare, it drew a
// number, and then declared with it.
fn note_declared<J: JournalId, F: Families>(
    alloc: Global,
    session: &Session<J>,
    network: &mut Network<J, F>,
    terms: &Terms,
)
    requires { is_declared session.now.state ≡ true }
    ensures same { network.new ≡ record network.old { trace = network.new.trace } }
    ensures notes { NotesPlaced (declaration session.now.state.start session.now.state.placed session.now.state.buffer
        terms.now) network.old.trace network.new.trace }
{
    if !session.has_primary() {
        return;
    }
    network.drew(session.transaction().placed());
    let copy = declaration_of(alloc, session, network, terms);
    note_copy(network, copy);
}

/// A session declares its buffer. A refusal is no event, and leaves its state as it was.
pub(crate) fn declare_at<J: JournalId, F: Families>(
    alloc: Global,
    session: &mut Session<J>,
    network: &mut Network<J, F>,
    terms: Terms,
) -> Result<(), Fault>
    requires undeclared { is_declared session.old.state ≡ false }
    requires ticks { 0 < session.old.seat.ticks }
    ensures ok { OnOk result ((exceeds session.old.state.buffer terms ≡ false)
        × Acts session.old.seat session.new.seat network.old network.new ((session.new.state
        ≡ record session.old.state {
          declared = Some terms;
          placed = placed_in network.old.newest session.old.state.buffer;
        })
        × (network_state network.new ≡ with_events (network_state network.old)
        (declared_in session.old.seat.seat network.old.newest
        (declaration session.old.state.start (placed_in network.old.newest session.old.state.buffer)
        session.old.state.buffer terms))))) }
    ensures err { IfErr result (λ e. (e ≡ Fault.TooManyKeys) × (exceeds session.old.state.buffer terms ≡ true)
        × (session.new.state ≡ session.old.state) × Acts session.old.seat session.new.seat network.old network.new
        (network_state network.new ≡ network_state network.old)) }
{
    session.learn_told(network.newest());
    match session.declare(terms) {
        Ok(()) => {
            network.set_newest(session.tell());
            note_declared(alloc, session, network, &terms);
            Ok(())
        }
        Err(fault) => {
            network.set_newest(session.tell());
            Err(fault)
        }
    }
}

/// A session draws its commit timestamp.
pub(crate) fn draw_at<J: JournalId, F: Families>(
    session: &mut Session<J>,
    network: &mut Network<J, F>,
) -> Ts
    requires can { can_draw session.old.state ≡ true }
    requires ticks { 0 < session.old.seat.ticks }
    ensures state { session.new.state ≡ record session.old.state { drawn = Some result } }
    ensures acts { Acts session.old.seat session.new.seat network.old network.new ((result
        ≡ last network.old.newest + 1) × (network_state network.new
        ≡ with_events (network_state network.old) (events.Drawn session.old.seat.seat (last network.old.newest + 1)
        ∷ network.old.newest))) }
{
    session.learn_told(network.newest());
    let Ok(commit) = session.draw_commit() else {
        unreachable!()
    };
    network.set_newest(session.tell());
    network.drew(commit);
    commit
}

/// The live session of a slot answers its outcome, where it has one, and leaves a free seat there.
/// The session is moved out of its slot once, and where it has no outcome not at all.
pub(crate) fn finish_in<J: JournalId, F: Families>(
    slot: &mut SessionSlot<Seat<J>, Session<J>>,
    network: &mut Network<J, F>,
) -> Option<Outcome>
    requires live { (s : Seated) × (slot.old ≡ session_slot.Live s) }
    ensures ended { IfSome result (λ o. (s : Seated) × (seat : Known) × (slot.old ≡ session_slot.Live s)
        × (slot.new ≡ session_slot.Free seat) × (finish_of s.state ≡ Some o)
        × Acts s.seat seat network.old network.new (network_state network.new
        ≡ with_events (network_state network.old) (events.Answered s.state.start o ∷ network.old.newest))) }
    ensures open_yet { IfNone result ((s t : Seated) × (slot.old ≡ session_slot.Live s)
        × (slot.new ≡ session_slot.Live t) × (finish_of s.state ≡ None) × (t.state ≡ s.state)
        × Acts s.seat t.seat network.old network.new (network_state network.new ≡ network_state network.old)) }
{
    let SessionSlot::Live(session) = slot else {
        unreachable!()
    };
    session.learn_told(network.newest());
    if session.transaction().outcome().is_none() {
        network.set_newest(session.tell());
        return None;
    }
    let SessionSlot::Live(session) = replace(slot, SessionSlot::Lent) else {
        unreachable!()
    };
    let start = session.start();
    let Ok((outcome, mut seat)) = session.finish() else {
        unreachable!()
    };
    network.set_newest(seat.tell());
    network.answered(start, &outcome);
    *slot = SessionSlot::Free(seat);
    Some(outcome)
}

/// The seat for what no session does draws so many ticks. Spent, it draws none.
pub(crate) fn tick_at<J: JournalId, F: Families>(
    system_seat: &mut Seat<J>,
    network: &mut Network<J, F>,
    ticks: u32,
) -> Option<Ts>
    requires some { 0 < ticks }
    ensures drawn { IfSome result (λ t. (system_seat.old.ticks ≡ system_seat.new.ticks + ticks)
        × Serves system_seat.old system_seat.new network.old network.new ((t ≡ last network.old.newest + ticks)
        × (network_state network.new ≡ with_events (network_state network.old)
        (events.Drawn system_seat.old.seat (last network.old.newest + ticks) ∷ network.old.newest)))) }
    ensures spent { IfNone result ((system_seat.old.ticks < ticks) × (system_seat.new.ticks ≡ system_seat.old.ticks)
        × Serves system_seat.old system_seat.new network.old network.new (network_state network.new
        ≡ network_state network.old)) }
{
    system_seat.learn(network.newest());
    let Ok(last) = system_seat.draw(ticks) else {
        return None;
    };
    network.set_newest(system_seat.tell());
    network.drew(last);
    Some(last)
}

/// The seat for what no session does reads a key at a timestamp.
pub(crate) fn read_at<J: JournalId, F: Families>(
    alloc: Global,
    system_seat: &mut Seat<J>,
    network: &mut Network<J, F>,
    key: Key,
    at: Ts,
) -> Result<Answer, Miss>
    ensures ticks { system_seat.new.ticks ≡ system_seat.old.ticks }
    ensures serves { Serves system_seat.old system_seat.new network.old network.new
        (Met J.bounds (network_state network.old) (body.Get record {
          key = key;
          at = at;
          bypass = [];
        }) result (network_state network.new)) }
{
    network.set_delivery(Delivery::Taken);
    let body = Body::Get(Get {
        key,
        at,
        bypass: Starts::new(alloc),
    });
    ask(system_seat, body, network)
}

/// A session stops.
pub(crate) fn stop_at<J: JournalId, F: Families>(
    mut session: Session<J>,
    network: &mut Network<J, F>,
) -> Seat<J>
    ensures acts { Acts session.seat result network.old network.new (network_state network.new
        ≡ with_events (network_state network.old) (events.Stopped session.seat.seat ∷ network.old.newest)) }
{
    session.learn_told(network.newest());
    let mut seat = session.stop();
    network.set_newest(seat.tell());
    seat
}
