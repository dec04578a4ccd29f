//! CheckTxnStatus: a reader that met a lock asks the transaction's primary what has become of it.
ghost use Rattle.std.specs.Prelude.{◌≡◌, ◌+◌, ◌<◌, ◌↔◌, ℕ, IsTrue, None};
ghost use Rattle.tx_plan.specs.Cells.{Cells};
ghost use Rattle.tx_plan.specs.Changes.{changed, Applies};
ghost use Rattle.tx_plan.specs.RealChanges.{Makes};
ghost use Rattle.tx_plan.specs.Plans.{answer_with};
ghost use Rattle.tx_plan.specs.Views.{Shows, HasOwnHead, info_on};
ghost use Rattle.tx_plan.specs.cases.CheckTxnStatus.{ChecksLock, AnswersCheckTxnStatus};
ghost use Rattle.tx_plan.specs.Answers.{leaves_on};
ghost use Rattle.tx_plan.specs.declared.body.Body.TheVariants as asked;

use crate::answer::Answer;
use crate::body::CheckTxnStatus;
use crate::key_change::KeyChange;
use crate::plan::own::{is_rolled_back, own_lock};
use crate::plan::rollback::roll_back;
use crate::planned_answer::{Plan, PlannedAnswer};
use crate::view::{LockHead, TxnView};
use tx_types::{Mode, Ts};

/// The answer to a CheckTxnStatus that sees this of its key, in a region that collected up to
/// `collected` and whose seat loaded `loaded`, and the change: an expired lock is rolled back, and
/// a live one that the caller's read could not pass has a minimum above it. `BelowSafePoint` where
/// the transaction started below `collected`, `FutureTimestamp` where the caller's timestamp lies
/// above `loaded`, `TxnNotFound` where there is nothing of the transaction and no rollback was
/// wanted.
pub fn plan_check_txn_status(
    view: &TxnView,
    collected: Ts,
    loaded: Ts,
    body: &CheckTxnStatus,
) -> Plan
    requires room { loaded < u64.MAX }
    ensures answers { (cells : Cells) (commit : ℕ) → Shows cells body.now.start commit view.now
        → AnswersCheckTxnStatus cells collected loaded body.now
        (answer_with (info_on cells body.now.key) result.answer) }
    ensures leaves { (cells : Cells) (commit : ℕ) → Shows cells body.now.start commit view.now
        → changed cells result.change ≡ leaves_on cells (asked.CheckTxnStatus body.now)
        (answer_with (info_on cells body.now.key) result.answer) }
    ensures applies { (cells : Cells) (commit : ℕ) → Shows cells body.now.start commit view.now
        → Applies cells result.change }
    ensures makes { (cells : Cells) (commit : ℕ) → Shows cells body.now.start commit view.now
        → Makes cells result.change }
    ensures unread { result.read ≡ None }
{
    if body.start < collected {
        return Plan::given(Answer::BelowSafePoint { safe: collected });
    }
    if loaded < body.caller {
        return Plan::given(Answer::FutureTimestamp { last: loaded });
    }
    if let Some(lock) = own_lock(view, body.start) {
        return check_lock(view, &lock, body);
    }
    if let Some(commit) = view.own_commit {
        return Plan::given(Answer::Committed(commit));
    }
    if is_rolled_back(view, body.start) || body.rollback_if_not_exist {
        return Plan::changes(Answer::RolledBack, roll_back(view, body.start));
    }
    Plan::given(Answer::TxnNotFound)
}

// The answer where the transaction has its lock on the key, and the change.
fn check_lock(view: &TxnView, lock: &LockHead, body: &CheckTxnStatus) -> Plan
    requires room { body.now.caller < u64.MAX }
    ensures answers { (cells : Cells) (commit : ℕ) → Shows cells body.now.start commit view.now
        → (own : HasOwnHead cells.lock body.now.start lock.now)
        → ChecksLock body.now own.lock (answer_with (info_on cells body.now.key) result.answer) }
    ensures leaves { (cells : Cells) (commit : ℕ) → Shows cells body.now.start commit view.now
        → HasOwnHead cells.lock body.now.start lock.now
        → changed cells result.change ≡ leaves_on cells (asked.CheckTxnStatus body.now)
        (answer_with (info_on cells body.now.key) result.answer) }
    ensures applies { (cells : Cells) (commit : ℕ) → Shows cells body.now.start commit view.now
        → HasOwnHead cells.lock body.now.start lock.now → Applies cells result.change }
    ensures makes { (cells : Cells) (commit : ℕ) → Shows cells body.now.start commit view.now
        → HasOwnHead cells.lock body.now.start lock.now → Makes cells result.change }
    ensures unread { result.read ≡ None }
{
    if lock.mode == Mode::Async && !body.force_sync_commit {
        return Plan::unchanged(PlannedAnswer::Locked { min: lock.min });
    }
    if is_expired(lock, body.current) {
        return Plan::changes(Answer::RolledBack, roll_back(view, body.start));
    }
    if body.caller < lock.min {
        return Plan::unchanged(PlannedAnswer::Locked { min: lock.min });
    }
    let min = Ts::new(body.caller.get() + 1);
    Plan {
        answer: PlannedAnswer::Locked { min },
        change: KeyChange::Minimum(min),
        read: None,
    }
}

// Whether the lock's time to live is over.
fn is_expired(lock: &LockHead, current: Ts) -> bool
    ensures { IsTrue result ↔ (lock.now.start + lock.now.ttl < current) }
{
    current.get().saturating_sub(lock.start.get()) > u64::from(lock.ttl)
}
