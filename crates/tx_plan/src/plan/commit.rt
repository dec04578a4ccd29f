//! Commit: a transaction's lock becomes its commit record.
ghost use Rattle.std.specs.Prelude.{◌≡◌, None};
ghost use Rattle.tx_plan.specs.Cells.{Cells};
ghost use Rattle.tx_plan.specs.Changes.{changed, Applies};
ghost use Rattle.tx_plan.specs.RealChanges.{Makes};
ghost use Rattle.tx_plan.specs.Plans.{answer_with};
ghost use Rattle.tx_plan.specs.Views.{Shows, info_on};
ghost use Rattle.tx_plan.specs.cases.Commit.{AnswersCommit};
ghost use Rattle.tx_plan.specs.Answers.{leaves_on};
ghost use Rattle.tx_plan.specs.declared.body.Body.TheVariants as asked;

use crate::answer::Answer;
use crate::body::Commit;
use crate::plan::lock_commit::{commit_lock, commit_refusal};
use crate::plan::own::{is_rolled_back, own_lock};
use crate::planned_answer::Plan;
use crate::view::TxnView;
use tx_types::Ts;

/// The answer to a Commit that sees this of its key, in a region that collected up to `collected`,
/// and the change. `BelowSafePoint` where the transaction started below that. While its lock is
/// there: `CommitTsExpired` below the lock's minimum, `WriteConflict` where another's commit record
/// is at the commit timestamp. Without its lock: `AlreadyRolledBack` where its rollback is there,
/// `TxnLockNotFound` where nothing of it is.
pub fn plan_commit(view: &TxnView, collected: Ts, body: &Commit) -> Plan
    ensures answers { (cells : Cells) → Shows cells body.now.start body.now.commit view.now
        → AnswersCommit cells collected body.now (answer_with (info_on cells body.now.key) result.answer) }
    ensures leaves { (cells : Cells) → Shows cells body.now.start body.now.commit view.now
        → changed cells result.change ≡ leaves_on cells (asked.Commit body.now)
        (answer_with (info_on cells body.now.key) result.answer) }
    ensures applies { (cells : Cells) → Shows cells body.now.start body.now.commit view.now
        → Applies cells result.change }
    ensures makes { (cells : Cells) → Shows cells body.now.start body.now.commit view.now → Makes cells result.change }
    ensures unread { result.read ≡ None }
{
    if body.start < collected {
        return Plan::given(Answer::BelowSafePoint { safe: collected });
    }
    if let Some(lock) = own_lock(view, body.start) {
        return match commit_refusal(view, &lock, body.start, body.commit) {
            Some(refusal) => Plan::given(refusal),
            None => Plan::changes(
                Answer::Committed(body.commit),
                commit_lock(view, body.commit),
            ),
        };
    }
    if let Some(commit) = view.own_commit {
        return Plan::given(Answer::Committed(commit));
    }
    if is_rolled_back(view, body.start) {
        return Plan::given(Answer::AlreadyRolledBack);
    }
    Plan::given(Answer::TxnLockNotFound)
}
