//! What live sessions do. Each function makes the step that `Semantics.antt` defines. What a line
//! does to a session alone, and what it sends, tx_ops says; here it is done in one thread, over the
//! network.
ghost use Rattle.std.specs.Prelude.{◌≡◌, ◌<◌};
ghost use Rattle.tx_client.specs.Calls.{Seated};
ghost use Rattle.tx_engine.specs.Slots.{ActsIn, Did};
ghost use Rattle.tx_engine.specs.declared.slots.SessionSlot.TheVariants as session_slot;
ghost use Rattle.tx_types.specs.Lengths.{is_key as key_test};
ghost use Rattle.tx_engine.specs.Semantics.{declares, draws, edits, is_sent, is_too_many, sends};
ghost use Rattle.tx_network.specs.Networks.{network_state};
ghost use Rattle.tx_steps.specs.Steps.{acted, called, delivered};

mod delivery;
mod versions;

use crate::acts::{declare_at, draw_at};
pub(crate) use crate::operations::delivery::deliver;
pub(crate) use crate::operations::versions::versions;
use crate::slots::SessionSlot;
use std::alloc::Global;
use tx_cells::Families;
use tx_client::{Phase, Session, Terms};
use tx_journal::{JournalId, Seat};
use tx_network::Network;
use tx_ops::act;
use tx_reply::ScriptReply;
use tx_steps::{Call, Delivery, Op};
use tx_types::{Cause, Ts};

pub(crate) fn is_key(key: &str) -> bool
    ensures { result ≡ key_test key.now }
{
    tx_types::is_key(key.as_bytes())
}

// A timestamp of this number.
fn stamp(number: Option<u64>) -> Option<Ts>
    ensures { result ≡ number }
{
    match number {
        Some(number) => Some(Ts::new(number)),
        None => None,
    }
}

// A session declares its buffer, once.
#[inline(never)]
fn declare<J: JournalId, F: Families>(
    alloc: Global,
    session: &mut Session<J>,
    network: &mut Network<J, F>,
    terms: Terms,
) -> Result<ScriptReply, Cause>
    requires ticks { 0 < session.old.seat.ticks }
    ensures { Did J.bounds (λ refused engine k s. declares refused engine k s J.bounds terms) result session.old
        session.new network.old network.new }
{
    if session.is_declared() {
        return Err(Cause::Order);
    }
    match declare_at(alloc, session, network, terms) {
        Ok(()) => Ok(ScriptReply::Fine),
        Err(_) => Ok(ScriptReply::TooManyKeys),
    }
}

// A session draws its commit timestamp, where its state allows it.
#[inline(never)]
fn draw<J: JournalId, F: Families>(
    session: &mut Session<J>,
    network: &mut Network<J, F>,
) -> Result<ScriptReply, Cause>
    requires ticks { 0 < session.old.seat.ticks }
    ensures { Did J.bounds (λ refused engine k s. draws refused engine k s J.bounds) result session.old session.new
        network.old network.new }
{
    if !session.can_draw() {
        return Err(Cause::Order);
    }
    Ok(ScriptReply::Drawn(draw_at(session, network)))
}

// What a live session does by itself in its slot: what makes an event knows what is newest first,
// and what is newest afterwards is what it knows.
fn edit<J: JournalId, F: Families>(
    alloc: Global,
    session: &mut Session<J>,
    network: &mut Network<J, F>,
    op: &Op<&str>,
) -> Result<ScriptReply, Cause>
    requires ticks { 0 < session.old.seat.ticks }
    ensures { Did J.bounds (λ refused engine k s. edits refused engine k s J.bounds (acted op.now)) result session.old
        session.new network.old network.new }
{
    match *op {
        Op::Declare(mode, ttl, max_commit) => {
            let terms = Terms {
                mode,
                ttl,
                max_commit: stamp(max_commit),
            };
            declare(alloc, session, network, terms)
        }
        Op::Draw => draw(session, network),
        _ => act(alloc, session, op),
    }
}

// Whether a request is sent for it.
fn is_sent<J: JournalId>(session: &Session<J>, call: &Call<&str>) -> bool
    ensures { result ≡ is_sent session.now.state (called call.now) }
{
    let transaction = session.transaction();
    match *call {
        Call::Get(key) => !transaction.is_known(key.as_bytes()),
        Call::Scan(from, to, _) => from < to,
        Call::Prewrite => session.is_declared() && transaction.is_due(Phase::Prewrite),
        Call::Commit => session.can_commit() && transaction.is_due(Phase::Commit),
        Call::Abort => session.can_abort() && transaction.is_due(Phase::Abort),
        Call::Heartbeat(_) => session.has_primary(),
    }
}

// Whether it would be held as one request too many.
fn is_too_many<J: JournalId, F: Families>(
    session: &Session<J>,
    network: &Network<J, F>,
    call: &Call<&str>,
    delivery: &Delivery<&str>,
) -> bool
    ensures { result ≡ is_too_many (network_state network.now) session.now.state (called call.now)
        (delivered delivery.now) }
{
    network.is_crowded(*delivery) && is_sent(session, call)
}

// What a live session sends. `Name` where it is to be held under a name that is in use, or not of 1
// to 64 bytes; `Sessions` where it would be held as one more than 1,024.
fn send<J: JournalId, F: Families>(
    alloc: Global,
    session: &mut Session<J>,
    network: &mut Network<J, F>,
    call: &Call<&str>,
    delivery: &Delivery<&str>,
) -> Result<ScriptReply, Cause>
    ensures { Did J.bounds (λ refused engine k s. sends refused engine k s J.bounds (called call.now)
        (delivered delivery.now)) result session.old session.new network.old network.new }
{
    if !network.may_go(*delivery) {
        return Err(Cause::Name);
    }
    if is_too_many(session, network, call, delivery) {
        return Err(Cause::Sessions);
    }
    network.set_delivery(*delivery);
    tx_ops::send(alloc, session, call, network)
}

/// The live session of a slot does something by itself there. A slot with none stays as it is, and
/// the step is not allowed: `Name`.
pub(crate) fn edit_in<J: JournalId, F: Families>(
    alloc: Global,
    slot: &mut SessionSlot<Seat<J>, Session<J>>,
    network: &mut Network<J, F>,
    op: &Op<&str>,
) -> Result<ScriptReply, Cause>
    requires ticks { (s : Seated) → slot.old ≡ session_slot.Live s → 0 < s.seat.ticks }
    ensures { ActsIn J.bounds (λ refused engine k s. edits refused engine k s J.bounds (acted op.now)) slot.old slot.new
        result network.old network.new }
{
    match slot {
        SessionSlot::Live(session) => edit(alloc, session, network, op),
        _ => Err(Cause::Name),
    }
}

/// The live session of a slot sends something. A slot with none stays as it is, and the step is not
/// allowed: `Name`.
pub(crate) fn send_in<J: JournalId, F: Families>(
    alloc: Global,
    slot: &mut SessionSlot<Seat<J>, Session<J>>,
    network: &mut Network<J, F>,
    call: &Call<&str>,
    delivery: &Delivery<&str>,
) -> Result<ScriptReply, Cause>
    ensures { ActsIn J.bounds (λ refused engine k s. sends refused engine k s J.bounds (called call.now)
        (delivered delivery.now)) slot.old slot.new result network.old network.new }
{
    match slot {
        SessionSlot::Live(session) => send(alloc, session, network, call, delivery),
        _ => Err(Cause::Name),
    }
}
