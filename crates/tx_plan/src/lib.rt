//! The commands of a region: what is asked, what is answered, and the case tables that decide each
//! answer and what it leaves. The tables stand in specs/cases, one file a command, and
//! docs/PROTOCOL.md shows them side by side.
#![tactic(auto)]

mod answer;
mod body;
mod boxed;
mod key_change;
mod key_records;
mod laws;
mod lists;
mod plan;
mod planned_answer;
mod target;
mod view;
mod walk;

pub use answer::Answer;
pub use body::{
    BatchRollback, Body, CheckSecondaryLocks, CheckTxnStatus, Collect, Commit, Get, LocksBelow,
    Prewrite, RaiseSafe, ResolveLock, Scan, TxnHeartBeat,
};
pub use boxed::Boxed;
pub use key_change::{KeyChange, Left, NewLock};
pub use key_records::{KeyCollection, KeyRecords, RecordKind, collect_key};
pub use laws::{
    cells_stay_sound, check_leaves_the_minimum, least_minimum_is_free, rollback_left_again_stays,
};
pub use lists::{Infos, Starts};
pub use plan::batch_rollback::plan_batch_rollback;
pub use plan::check_secondary_locks::plan_check_secondary_locks;
pub use plan::check_txn_status::plan_check_txn_status;
pub use plan::collect::{Dropped, collect_refusal};
pub use plan::commit::plan_commit;
pub use plan::get::plan_get;
pub use plan::locks_below::{first_below, infos_below};
pub use plan::prewrite::plan_prewrite;
pub use plan::raise_safe::{SafePlan, plan_raise_safe};
pub use plan::resolve_lock::plan_resolve_lock;
pub use plan::scan::{plan_scan, scan_refusal, scan_walk};
pub use plan::txn_heart_beat::plan_txn_heart_beat;
pub use planned_answer::{Plan, PlannedAnswer};
pub use target::Target;
pub use tx_types::RegionNo;
pub use view::{CommitAt, LockHead, ReadView, RecordHead, TxnView};
pub use walk::{LockWalk, ReadWalk};
