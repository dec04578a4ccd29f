//! What is entered is declared, and carried to its end.
ghost use Rattle.std.specs.Prelude.{◌≡◌, ◌⊎◌, false, None, OnOk, IfErr};
ghost use Rattle.tx_core.specs.Histories.{declared};
ghost use Rattle.tx_transaction.specs.Sessions.{is_declared};
ghost use Rattle.tx_journal.specs.Senders.{IsSender};
ghost use Rattle.tx_update.specs.Stops.{IsOwnRefusal};
ghost use Rattle.tx_update.specs.Updates.{HasOutcome, SeatGoesOn, Follows, MayHaveDeclared, Wrote};
ghost use Rattle.tx_embed.specs.Transactions.{NamesEntered};

use crate::session::{Begun, Running};
use std::alloc::Global;
use std::marker::Brand;
use tx_client::{Session, Terms};
use tx_journal::{JournalId, Reply, Request, Seat, Sender};
use tx_update::Stop;

// A session after what was done in it, the seat that resolved for it, and how that went.
type Done<J> = (Session<J>, Seat<J>, Result<(), Stop>);

// Carries what is declared to its end, from where the call picks.
fn carried<J: JournalId, S: Sender<Request<J>, Reply<J>>, B: Begun>(
    alloc: Global,
    session: Session<J>,
    resolver: Seat<J>,
    sender: &mut S,
) -> Done<J>
    requires way { IsSender J.bounds S.fits S.sends S.keys_between }
    requires session { session ≡ B.session }
    requires resolver { resolver ≡ B.resolver }
    ensures session { Follows B.session result.0 }
    ensures resolver { SeatGoesOn B.resolver result.1 }
    ensures ended { OnOk result.2 (HasOutcome result.0) }
    ensures stopped { IfErr result.2 (λ stop. IsOwnRefusal stop ⊎ HasOutcome result.0) }
    ensures names { IfErr result.2 (NamesEntered B.session.state.buffer) }
{
    let mut running = Running::<'_, J, S, B>::new(alloc, session, resolver, sender);
    let done = running.carry_or_take_back();
    let (session, resolver) = running.into_parts();
    (session, resolver, done)
}

// Carries what is declared to its end.
fn carry<J: JournalId, S: Sender<Request<J>, Reply<J>>>(
    alloc: Global,
    session: Session<J>,
    resolver: Seat<J>,
    sender: &mut S,
) -> Done<J>
    requires way { IsSender J.bounds S.fits S.sends S.keys_between }
    ensures session { Follows session result.0 }
    ensures resolver { SeatGoesOn resolver result.1 }
    ensures ended { OnOk result.2 (HasOutcome result.0) }
    ensures stopped { IfErr result.2 (λ stop. IsOwnRefusal stop ⊎ HasOutcome result.0) }
    ensures names { IfErr result.2 (NamesEntered session.state.buffer) }
{
    carried::<J, S, Brand>(alloc, session, resolver, sender)
}

/// Declares what is entered, if anything is, and carries it to its end.
pub(crate) fn write<J: JournalId, S: Sender<Request<J>, Reply<J>>>(
    alloc: Global,
    mut session: Session<J>,
    resolver: Seat<J>,
    terms: &Terms,
    sender: &mut S,
) -> Done<J>
    requires way { IsSender J.bounds S.fits S.sends S.keys_between }
    requires open { is_declared session.state ≡ false }
    ensures session { MayHaveDeclared session result.0 }
    ensures resolver { SeatGoesOn resolver result.1 }
    ensures wrote { OnOk result.2
        (Wrote J.bounds terms.now session.state.start session.state.buffer session.seat result.0.seat) }
    ensures at_most { Wrote J.bounds terms.now session.state.start session.state.buffer session.seat result.0.seat
        ⊎ (declared result.0.seat.events session.state.start ≡ None) }
    ensures ended { OnOk result.2 (HasOutcome result.0) }
    ensures stopped { IfErr result.2 (λ stop. IsOwnRefusal stop ⊎ HasOutcome result.0) }
    ensures why { IfErr result.2 (λ stop. IsOwnRefusal stop
        ⊎ Wrote J.bounds terms.now session.state.start session.state.buffer session.seat result.0.seat) }
    ensures names { IfErr result.2 (NamesEntered session.state.buffer) }
{
    if let Err(fault) = session.declare(*terms) {
        // For proofs: what its seat has seen declared.
        session.show();
        return (session, resolver, Err(Stop::from(fault)));
    }
    // For proofs: what its seat has seen declared.
    session.show();
    if !session.has_primary() {
        return (session, resolver, Ok(()));
    }
    let (session, resolver, done) = carry(alloc, session, resolver, sender);
    // For proofs: what its seat has seen is a world run.
    session.show();
    (session, resolver, done)
}
