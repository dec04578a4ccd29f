//! How a transaction's lock becomes its commit record, which Commit and ResolveLock share.
ghost use Rattle.std.specs.Prelude.{◌≡◌, ℕ, MatchOption};
ghost use Rattle.tx_plan.specs.Cells.{Cells};
ghost use Rattle.tx_plan.specs.Own.{is_rollback};
ghost use Rattle.tx_plan.specs.LockCommit.{MayCommitAt, RefusesCommit};
ghost use Rattle.tx_plan.specs.Views.{Shows, HasOwnHead};

use crate::answer::Answer;
use crate::key_change::KeyChange;
use crate::view::{LockHead, RecordHead, TxnView};
use tx_types::Ts;

/// Why the transaction's lock is not committed at `commit`: `CommitTsExpired` below the lock's
/// minimum, `WriteConflict` where another transaction committed at that timestamp.
pub fn commit_refusal(view: &TxnView, lock: &LockHead, start: Ts, commit: Ts) -> Option<Answer>
    ensures { (cells : Cells) → Shows cells start commit view.now → (own : HasOwnHead cells.lock start lock.now)
        → MatchOption result (MayCommitAt cells.write start commit own.lock)
        (λ a. RefusesCommit cells.write start commit own.lock a) }
{
    if commit < lock.min {
        return Some(Answer::CommitTsExpired { min: lock.min });
    }
    match view.at_commit {
        Some(RecordHead::Commit { start: other, .. }) if other != start => {
            Some(Answer::WriteConflict {
                start: other,
                commit,
            })
        }
        _ => None,
    }
}

/// The lock is committed at `commit`, of which the view shows the record.
pub fn commit_lock(view: &TxnView, commit: Ts) -> KeyChange
    ensures { (cells : Cells) (start : ℕ) → Shows cells start commit view.now
        → result ≡ KeyChange.Commit commit (is_rollback (cells.write commit)) }
{
    KeyChange::Commit {
        commit,
        overlapped_rollback: matches!(view.at_commit, Some(RecordHead::Rollback)),
    }
}
