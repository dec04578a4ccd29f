//! Collect: a region drops the records below its safe point that no read needs any more. What is
//! counted and dropped is the families'.
ghost use Rattle.std.specs.Prelude.{◌≡◌, MatchOption};
ghost use Rattle.tx_plan.specs.Refusals.{RefusesCollect};

use crate::answer::Answer;
use crate::body::Collect;
use tx_types::Ts;

/// How much collection drops.
#[derive(Clone, Copy, Debug)]
pub struct Dropped {
    /// Write records.
    pub records: u64,
    /// Values of the `default` family, which these records put.
    pub values: u64,
}

/// Why a Collect of a region with this safe point is refused: `BelowSafePoint` where
/// it names another.
pub fn collect_refusal(safe: Ts, body: &Collect) -> Option<Answer>
    ensures { MatchOption result (body.now.safe ≡ safe) (λ a. RefusesCollect safe body.now a) }
{
    if body.safe != safe {
        return Some(Answer::BelowSafePoint { safe });
    }
    None
}
