//! CheckSecondaryLocks: what there is of an async transaction on a key; where there is nothing,
//! there never will be.
ghost use Rattle.std.specs.Prelude.{◌≡◌, ℕ, None};
ghost use Rattle.tx_plan.specs.Cells.{Cells};
ghost use Rattle.tx_plan.specs.Changes.{changed, Applies};
ghost use Rattle.tx_plan.specs.RealChanges.{Makes};
ghost use Rattle.tx_plan.specs.Plans.{answer_with};
ghost use Rattle.tx_plan.specs.Views.{Shows, info_on};
ghost use Rattle.tx_plan.specs.cases.CheckSecondaryLocks.{AnswersCheckSecondaryLocks};
ghost use Rattle.tx_plan.specs.Answers.{leaves_on};
ghost use Rattle.tx_plan.specs.declared.body.Body.TheVariants as asked;

use crate::answer::Answer;
use crate::body::CheckSecondaryLocks;
use crate::plan::own::own_lock;
use crate::plan::rollback::leave_rollback;
use crate::planned_answer::{Plan, PlannedAnswer};
use crate::view::TxnView;
use tx_types::Ts;

/// The answer to a CheckSecondaryLocks that sees this of its key, in a region that collected up to
/// `collected`, and the change: where there is nothing of the transaction, its rollback is left.
/// `BelowSafePoint` where it started below `collected`.
pub fn plan_check_secondary_locks(view: &TxnView, collected: Ts, body: &CheckSecondaryLocks) -> Plan
    ensures answers { (cells : Cells) (commit : ℕ) → Shows cells body.now.start commit view.now
        → AnswersCheckSecondaryLocks cells collected body.now (answer_with (info_on cells body.now.key) result.answer) }
    ensures leaves { (cells : Cells) (commit : ℕ) → Shows cells body.now.start commit view.now
        → changed cells result.change ≡ leaves_on cells (asked.CheckSecondaryLocks body.now)
        (answer_with (info_on cells body.now.key) result.answer) }
    ensures applies { (cells : Cells) (commit : ℕ) → Shows cells body.now.start commit view.now
        → Applies cells result.change }
    ensures makes { (cells : Cells) (commit : ℕ) → Shows cells body.now.start commit view.now
        → Makes cells result.change }
    ensures unread { result.read ≡ None }
{
    if body.start < collected {
        return Plan::given(Answer::BelowSafePoint { safe: collected });
    }
    if let Some(lock) = own_lock(view, body.start) {
        return Plan::unchanged(PlannedAnswer::Locked { min: lock.min });
    }
    if let Some(commit) = view.own_commit {
        return Plan::given(Answer::Committed(commit));
    }
    Plan::changes(Answer::Missing, leave_rollback(view, body.start))
}
