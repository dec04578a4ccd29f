//! What there is of a transaction on a key.
ghost use Rattle.std.specs.Prelude.{◌↔◌, ℕ, IsTrue, MatchOption};
ghost use Rattle.tx_plan.specs.Cells.{Lock, Cells};
ghost use Rattle.tx_plan.specs.Own.{OwnLock, OwnRollback};
ghost use Rattle.tx_plan.specs.Views.{Shows, HasOwnHead};

use crate::view::{LockHead, RecordHead, TxnView};
use tx_types::Ts;

/// The transaction's lock, where it is on the key.
pub fn own_lock(view: &TxnView, start: Ts) -> Option<LockHead>
    ensures { (cells : Cells) (commit : ℕ) → Shows cells start commit view.now
        → MatchOption result ((lock : Lock) → OwnLock cells.lock start lock
        → ⊥) (λ head. HasOwnHead cells.lock start head) }
{
    match view.lock {
        Some(lock) if lock.start == start => Some(lock),
        _ => None,
    }
}

/// Whether the transaction is rolled back on the key.
pub fn is_rolled_back(view: &TxnView, start: Ts) -> bool
    ensures { (cells : Cells) (commit : ℕ) → Shows cells start commit view.now → IsTrue result
        ↔ OwnRollback cells.write start }
{
    match view.at_start {
        Some(RecordHead::Rollback) => true,
        Some(
            RecordHead::Commit {
                start: other,
                overlapped_rollback,
                ..
            },
        ) => overlapped_rollback && other != start,
        None => false,
    }
}
