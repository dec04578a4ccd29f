//! What a request sees of its key: plain values, which a store reads out of its families in a few
//! look-ups. A plan is a function of them, so it can be made wherever they are carried.
use tx_types::{LockKind, Mode, Ts, Value};

/// What is asked of a write record.
#[derive(Clone, Copy, Debug)]
pub enum RecordHead {
    Commit {
        kind: LockKind,
        start: Ts,
        overlapped_rollback: bool,
    },
    Rollback,
}

/// What is asked of a lock.
#[derive(Clone, Copy, Debug)]
pub struct LockHead {
    pub start: Ts,
    pub min: Ts,
    pub ttl: u32,
    pub kind: LockKind,
    pub mode: Mode,
}

/// When a transaction began, and when it committed.
#[derive(Clone, Copy, Debug)]
pub struct CommitAt {
    pub start: Ts,
    pub commit: Ts,
}

/// What a request of one transaction sees of its key.
#[derive(Clone, Copy, Debug)]
pub struct TxnView {
    /// The lock on the key, whosever it is.
    pub lock: Option<LockHead>,
    /// The write record at the transaction's start.
    pub at_start: Option<RecordHead>,
    /// The write record at the timestamp at which the request commits.
    pub at_commit: Option<RecordHead>,
    /// Where the transaction is committed on the key.
    pub own_commit: Option<Ts>,
    /// The newest commit record above the transaction's start, whatever it does to the key.
    pub newest_above: Option<CommitAt>,
}

/// What a read sees of its key.
#[derive(Debug, Drop)]
pub struct ReadView {
    pub lock: Option<LockHead>,
    /// The value that the newest put or delete up to the read's timestamp gives the key.
    pub value: Option<Value>,
}
