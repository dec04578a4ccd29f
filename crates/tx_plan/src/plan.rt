//! What a region makes of each command, one file a command: functions of what the request sees of
//! its key. They take no memory.
pub mod batch_rollback;
pub mod check_secondary_locks;
pub mod check_txn_status;
pub mod collect;
pub mod commit;
pub mod get;
pub mod lock_commit;
pub mod locks_below;
pub mod own;
pub mod prewrite;
pub mod raise_safe;
pub mod reads;
pub mod resolve_lock;
pub mod rollback;
pub mod scan;
pub mod txn_heart_beat;
