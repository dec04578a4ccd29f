//! RaiseSafe: a region's safe point rises, never above the last number loaded and never down.
ghost use Rattle.std.specs.Prelude.{◌≡◌};
ghost use Rattle.tx_plan.specs.Cells.{Region};
ghost use Rattle.tx_plan.specs.cases.RaiseSafe.{AnswersRaiseSafe};
ghost use Rattle.tx_plan.specs.Answers.{leaves};
ghost use Rattle.tx_plan.specs.declared.body.Body.TheVariants as asked;

use crate::answer::Answer;
use crate::body::RaiseSafe;
use tx_types::Ts;

/// What a region makes of a request to raise its safe point: its answer, and its safe
/// point from then on.
#[derive(Debug, Drop)]
pub struct SafePlan {
    pub answer: Answer,
    pub safe: Ts,
}

/// The answer to a RaiseSafe of a region with this safe point, whose seat loaded `loaded`, and the
/// safe point that the answer leaves. `FutureTimestamp` where the wanted one lies above `loaded`,
/// `BelowSafePoint` where it lies below the region's: then the safe point stays.
pub fn plan_raise_safe(safe: Ts, loaded: Ts, body: &RaiseSafe) -> SafePlan
    ensures answer { AnswersRaiseSafe safe loaded body.now result.answer }
    ensures leaves { (region : Region) → region.safe ≡ safe
        → leaves region (asked.RaiseSafe body.now) result.answer ≡ record region { safe = result.safe } }
{
    if body.safe > loaded {
        return SafePlan {
            answer: Answer::FutureTimestamp { last: loaded },
            safe,
        };
    }
    if body.safe < safe {
        return SafePlan {
            answer: Answer::BelowSafePoint { safe },
            safe,
        };
    }
    SafePlan {
        answer: Answer::Raised,
        safe: body.safe,
    }
}
