//! Locks and write records that are kept as their encoded bytes; what requests, reads and
//! collection ask of a record, read from its bytes; and the records that changes leave. Contracts
//! see records.
#![tactic(auto)]

mod asked_lock;
mod derivation;
mod heads;
mod records;

pub use asked_lock::{apart, lock_bytes};
pub use derivation::{commit_record, lock_with_min, lock_with_ttl, marked_record, rollback_record};
pub use heads::{head_of, kind_of, lock_head_of, seen_in};
pub use records::{LockBytes, WriteBytes};
