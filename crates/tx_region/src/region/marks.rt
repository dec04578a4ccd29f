//! The greatest timestamp that was read, as a region looks at it.
ghost use Rattle.std.specs.Prelude.{◌≡◌, ◌≤◌, ◌↔◌, IsTrue};
ghost use Rattle.tx_journal.specs.Known.{greatest_ts, HasSeen};
ghost use Rattle.tx_region.specs.Copies.{IsAbove, promised};
ghost use Rattle.tx_region.specs.TakenRequests.{NeedsMark, IsMark};

use tx_core::Body;
use tx_journal::{JournalId, Seat};
use tx_plan::KeyChange;
use tx_types::{Mode, Ts};

// Whether the answer to a request may look at the greatest timestamp that was read.
fn needs_mark(body: &Body) -> bool
    ensures { IsTrue result ↔ NeedsMark body.now }
{
    match body {
        Body::Prewrite(body) => body.asked().mode == Mode::Async,
        Body::Get(_)
        | Body::Scan(_)
        | Body::Commit(_)
        | Body::BatchRollback(_)
        | Body::TxnHeartBeat(_)
        | Body::CheckTxnStatus(_)
        | Body::CheckSecondaryLocks(_)
        | Body::ResolveLock(_)
        | Body::RaiseSafe(_)
        | Body::LocksBelow(_)
        | Body::Collect(_) => false,
    }
}

/// The greatest timestamp that was read, where the answer to a request may look at it: the seat
/// then knows the whole history.
pub(crate) fn load_mark<J: JournalId>(seat: &mut Seat<J>, body: &Body) -> Ts
    ensures same { (seat.new.seat ≡ seat.old.seat) × (seat.new.ticks ≡ seat.old.ticks) }
    ensures seen { HasSeen J.bounds seat.old.seat seat.old.events seat.new.events }
    ensures mark { IsMark body.now result seat.new.events }
    ensures low { result ≤ greatest_ts }
{
    if needs_mark(body) {
        return seat.max_ts();
    }
    // For proofs: what the seat has seen is a world run.
    let _ = seat.number();
    Ts::ZERO
}

// The minimum that a change promises, if it does.
fn promised(change: &KeyChange) -> Option<Ts>
    ensures { result ≡ promised change.now }
{
    match change {
        KeyChange::Lock(new) => match new.mode {
            Mode::TwoPhase => None,
            Mode::Async => Some(new.min),
        },
        KeyChange::Nothing
        | KeyChange::Ttl(_)
        | KeyChange::Minimum(_)
        | KeyChange::Commit { .. }
        | KeyChange::RollBack { .. } => None,
    }
}

/// Whether the minimum that a change promises lies above each read: where it promises one, the seat
/// then knows the whole history.
pub(crate) fn lies_above<J: JournalId>(seat: &mut Seat<J>, change: &KeyChange) -> bool
    ensures same { (seat.new.seat ≡ seat.old.seat) × (seat.new.ticks ≡ seat.old.ticks) }
    ensures seen { HasSeen J.bounds seat.old.seat seat.old.events seat.new.events }
    ensures above { IsTrue result ↔ IsAbove change.now seat.new.events }
{
    // For proofs: what the seat has seen is a world run.
    let _ = seat.number();
    match promised(change) {
        Some(min) => seat.max_ts() < min,
        None => true,
    }
}
