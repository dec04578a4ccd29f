//! What a region answers.
use crate::lists::Infos;
use tx_types::{KeyValues, LockInfo, Ts, Value};

/// A region's answer, of any command: what was found or done, or a refusal, E1 to E10 and E17 with
/// the names of `tx_types::Fault`.
#[derive(Debug, Drop)]
pub enum Answer {
    /// The value of the key that was read.
    Found(Value),
    /// The key that was read has no value.
    Nothing,
    /// The rows of the keys that were scanned.
    Rows(KeyValues),
    /// The key is locked: the minimum commit timestamp of an async lock, 0 of a two-phase one.
    Prewritten(Ts),
    /// The transaction is committed at this timestamp.
    Committed(Ts),
    /// The transaction is rolled back.
    RolledBack,
    /// The transaction's lock lives so long now, in ticks after its start.
    Ttl(u32),
    /// Nothing of the transaction stands on the key, nor ever will.
    Missing,
    /// The transaction's lock stands.
    Locked(LockInfo),
    /// The lock is resolved.
    Resolved,
    /// The safe point is raised.
    Raised,
    /// The locks that were asked for, keys rising.
    Locks(Infos),
    /// How many write records, and how many values of the `default` family, collection dropped.
    Collected { records: u64, values: u64 },
    /// E1: another transaction's lock stands in the way.
    KeyIsLocked(LockInfo),
    /// E2: a newer record of another transaction is committed.
    WriteConflict { start: Ts, commit: Ts },
    /// E3: the transaction's own rollback stands on the key.
    AlreadyRolledBack,
    /// E4: the transaction's own commit stands on the key.
    AlreadyCommitted { commit: Ts },
    /// E5: the commit timestamp lies below the lock's minimum.
    CommitTsExpired { min: Ts },
    /// E6: neither a lock nor a record of the transaction stands on the key.
    TxnLockNotFound,
    /// E7: the timestamp lies below the safe point.
    BelowSafePoint { safe: Ts },
    /// E8: the timestamp lies above the last one that the region loaded.
    FutureTimestamp { last: Ts },
    /// E9: collection finds a lock that started below the safe point.
    LocksRemain(LockInfo),
    /// E10: nothing of the transaction stands on the key, and no rollback was wanted.
    TxnNotFound,
    /// E17: the key that is to be inserted has a value.
    AlreadyExists,
}
