//! ResolveLock: the lock of a transaction whose fate is known is committed or rolled back.
ghost use Rattle.std.specs.Prelude.{◌≡◌, None};
ghost use Rattle.tx_plan.specs.Cells.{Cells};
ghost use Rattle.tx_plan.specs.Changes.{changed, Applies};
ghost use Rattle.tx_plan.specs.LockCommit.{commit_in};
ghost use Rattle.tx_plan.specs.RealChanges.{Makes};
ghost use Rattle.tx_plan.specs.Plans.{answer_with};
ghost use Rattle.tx_plan.specs.Views.{Shows, info_on};
ghost use Rattle.tx_plan.specs.cases.ResolveLock.{AnswersResolveLock};
ghost use Rattle.tx_plan.specs.Answers.{leaves_on};
ghost use Rattle.tx_plan.specs.declared.body.Body.TheVariants as asked;

use crate::answer::Answer;
use crate::body::ResolveLock;
use crate::plan::lock_commit::{commit_lock, commit_refusal};
use crate::plan::own::own_lock;
use crate::plan::rollback::roll_back;
use crate::planned_answer::Plan;
use crate::view::TxnView;
use tx_types::{Fate, Ts};

/// The answer to a ResolveLock that sees this of its key, in a region that collected up to
/// `collected`, and the change. `BelowSafePoint` where the transaction started below that. Where it
/// is committed and has its lock on the key: `CommitTsExpired` below the lock's minimum,
/// `WriteConflict` where another transaction committed at the commit timestamp. Where it has no
/// lock there is nothing to do.
pub fn plan_resolve_lock(view: &TxnView, collected: Ts, body: &ResolveLock) -> Plan
    ensures answers { (cells : Cells) → Shows cells body.now.start (commit_in body.now.fate) view.now
        → AnswersResolveLock cells collected body.now (answer_with (info_on cells body.now.key) result.answer) }
    ensures leaves { (cells : Cells) → Shows cells body.now.start (commit_in body.now.fate) view.now
        → changed cells result.change ≡ leaves_on cells (asked.ResolveLock body.now)
        (answer_with (info_on cells body.now.key) result.answer) }
    ensures applies { (cells : Cells) → Shows cells body.now.start (commit_in body.now.fate) view.now
        → Applies cells result.change }
    ensures makes { (cells : Cells) → Shows cells body.now.start (commit_in body.now.fate) view.now
        → Makes cells result.change }
    ensures unread { result.read ≡ None }
{
    if body.start < collected {
        return Plan::given(Answer::BelowSafePoint { safe: collected });
    }
    let Some(lock) = own_lock(view, body.start) else {
        return Plan::given(Answer::Resolved);
    };
    match body.fate {
        Fate::Aborted => Plan::changes(Answer::Resolved, roll_back(view, body.start)),
        Fate::Committed(commit) => match commit_refusal(view, &lock, body.start, commit) {
            Some(refusal) => Plan::given(refusal),
            None => Plan::changes(Answer::Resolved, commit_lock(view, commit)),
        },
    }
}
