//! Get: the value of a key at a timestamp, or the lock that stops the read.
ghost use Rattle.std.specs.Prelude.{◌≡◌};
ghost use Rattle.tx_plan.specs.Cells.{Cells, Region};
ghost use Rattle.tx_plan.specs.Plans.{answer_with, with_read};
ghost use Rattle.tx_plan.specs.Views.{ShowsRead, info_on};
ghost use Rattle.tx_plan.specs.cases.Get.{AnswersGet};
ghost use Rattle.tx_plan.specs.Answers.{leaves};
ghost use Rattle.tx_plan.specs.declared.body.Body.TheVariants as asked;

use crate::answer::Answer;
use crate::body::Get;
use crate::key_change::KeyChange;
use crate::plan::reads::{is_blocked, read_refusal};
use crate::planned_answer::{Plan, PlannedAnswer};
use crate::view::ReadView;
use tx_types::Ts;

/// The answer to a Get that sees this of its key, in a region with this safe point whose seat
/// loaded `loaded`. `BelowSafePoint` where the read lies below the safe point, `FutureTimestamp`
/// where it lies above `loaded`, `KeyIsLocked` where a lock blocks it. A read that is not refused
/// by its timestamp counts, also where a lock stopped it.
pub fn plan_get(view: ReadView, safe: Ts, loaded: Ts, body: &Get) -> Plan
    ensures answers { (cells : Cells) → ShowsRead cells body.now.at view
        → AnswersGet cells safe loaded body.now (answer_with (info_on cells body.now.key) result.answer) }
    ensures leaves { (cells : Cells) → ShowsRead cells body.now.at view → (region : Region)
        → leaves region (asked.Get body.now) (answer_with (info_on cells body.now.key) result.answer)
        ≡ with_read region result.read }
    ensures same { result.change ≡ KeyChange.Nothing }
{
    if let Some(refusal) = read_refusal(body.at, safe, loaded) {
        return Plan::given(refusal);
    }
    let ReadView { lock, value } = view;
    let answer = if is_blocked(&lock, body.at, &body.bypass) {
        PlannedAnswer::KeyIsLocked
    } else {
        match value {
            Some(value) => PlannedAnswer::Given(Answer::Found(value)),
            None => PlannedAnswer::Given(Answer::Nothing),
        }
    };
    Plan {
        answer,
        change: KeyChange::Nothing,
        read: Some(body.at),
    }
}
