//! BatchRollback: a transaction is rolled back on a key.
ghost use Rattle.std.specs.Prelude.{◌≡◌, ℕ, None};
ghost use Rattle.tx_plan.specs.Cells.{Cells};
ghost use Rattle.tx_plan.specs.Changes.{changed, Applies};
ghost use Rattle.tx_plan.specs.RealChanges.{Makes};
ghost use Rattle.tx_plan.specs.Plans.{answer_with};
ghost use Rattle.tx_plan.specs.Views.{Shows, info_on};
ghost use Rattle.tx_plan.specs.cases.BatchRollback.{AnswersBatchRollback};
ghost use Rattle.tx_plan.specs.Answers.{leaves_on};
ghost use Rattle.tx_plan.specs.declared.body.Body.TheVariants as asked;

use crate::answer::Answer;
use crate::body::BatchRollback;
use crate::plan::own::own_lock;
use crate::plan::rollback::roll_back;
use crate::planned_answer::Plan;
use crate::view::TxnView;
use tx_types::Ts;

/// The answer to a BatchRollback that sees this of its key, in a region that collected up to
/// `collected`, and the change. `BelowSafePoint` where the transaction started below that,
/// `AlreadyCommitted` where it is committed on the key and has no lock there.
pub fn plan_batch_rollback(view: &TxnView, collected: Ts, body: &BatchRollback) -> Plan
    ensures answers { (cells : Cells) (commit : ℕ) → Shows cells body.now.start commit view.now
        → AnswersBatchRollback cells collected body.now (answer_with (info_on cells body.now.key) result.answer) }
    ensures leaves { (cells : Cells) (commit : ℕ) → Shows cells body.now.start commit view.now
        → changed cells result.change ≡ leaves_on cells (asked.BatchRollback body.now)
        (answer_with (info_on cells body.now.key) result.answer) }
    ensures applies { (cells : Cells) (commit : ℕ) → Shows cells body.now.start commit view.now
        → Applies cells result.change }
    ensures makes { (cells : Cells) (commit : ℕ) → Shows cells body.now.start commit view.now
        → Makes cells result.change }
    ensures unread { result.read ≡ None }
{
    if body.start < collected {
        return Plan::given(Answer::BelowSafePoint { safe: collected });
    }
    if own_lock(view, body.start).is_none() {
        if let Some(commit) = view.own_commit {
            return Plan::given(Answer::AlreadyCommitted { commit });
        }
    }
    Plan::changes(Answer::RolledBack, roll_back(view, body.start))
}
