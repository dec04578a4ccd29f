//! What the two reads share: the refusals by their timestamp, and the lock that blocks them.
ghost use Rattle.std.specs.Prelude.{◌≡◌, ◌↔◌, IsTrue, Option, MatchOption, Contains, option_map};
ghost use Rattle.tx_plan.specs.Cells.{Lock};
ghost use Rattle.tx_plan.specs.Refusals.{MayRead, RefusesRead};
ghost use Rattle.tx_plan.specs.Views.{IsBlocked, lock_head_of};
ghost use Rattle.tx_types.specs.Kinds.{IsSeenKind};

use crate::answer::Answer;
use crate::lists::Starts;
use crate::view::LockHead;
use tx_types::{LockKind, Ts};

/// Why a read at this timestamp is refused, in a region with this safe point whose seat loaded
/// `loaded`: `BelowSafePoint`, or `FutureTimestamp` above `loaded`.
pub fn read_refusal(at: Ts, safe: Ts, loaded: Ts) -> Option<Answer>
    ensures { MatchOption result (MayRead safe loaded at) (λ a. RefusesRead safe loaded at a) }
{
    if at < safe {
        return Some(Answer::BelowSafePoint { safe });
    }
    if loaded < at {
        return Some(Answer::FutureTimestamp { last: loaded });
    }
    None
}

/// Whether the lock on a key, of which this is asked, blocks a read at this timestamp that passes
/// these transactions by.
pub fn is_blocked(lock: &Option<LockHead>, at: Ts, bypass: &Starts) -> bool
    ensures { (found : Option Lock) → lock.now ≡ option_map lock_head_of found → IsTrue result
        ↔ IsBlocked found at bypass.now }
{
    match lock {
        Some(lock) => is_seen(lock.kind) && lock.min <= at && !is_among(bypass, lock.start),
        None => false,
    }
}

// Whether the transaction that started then is among these.
fn is_among(starts: &Starts, start: Ts) -> bool
    ensures { IsTrue result ↔ Contains starts.now start }
{
    starts.as_slice().contains(&start)
}

// Whether reads see what a lock of this kind does to its key.
fn is_seen(kind: LockKind) -> bool
    ensures { IsTrue result ↔ IsSeenKind kind }
{
    kind != LockKind::Lock
}
