//! Every refusal, with what it tells.
ghost use Rattle.tx_types.specs.declared.fault.Fault.TheVariants.{OutOfMemory};
ghost use Rattle.std.specs.Prelude.{◌≡◌};

use crate::lock::LockInfo;
use crate::ts::Ts;
use std::alloc::{AllocError, AllocFailed};
use thiserror::Error;

/// Why a script was ended.
#[derive(Clone, Copy, Debug, PartialEq, Eq, Error)]
pub enum Cause {
    /// Not UTF-8, or no JSON value.
    #[error("the line is not one JSON value")]
    Json,
    /// No known step, wrong members, or a number out of range.
    #[error("the line is no step of this command")]
    Form,
    /// A session or held request that is unknown or taken, or a name of no or too many bytes.
    #[error("the name is unknown, taken, or not of 1 to 64 bytes")]
    Name,
    /// A step that the session's state does not allow.
    #[error("the session's state does not allow the step")]
    Order,
    /// A line over the limit.
    #[error("the line is longer than 524288 bytes")]
    Long,
    /// A line after the last that a script may have.
    #[error("the script has more than 1000000 lines")]
    Lines,
    /// Too many live sessions, or too many held requests.
    #[error("more than 256 sessions are live, or more than 1024 requests are held")]
    Sessions,
}

/// A refusal. Each is answered only in its case, and leaves what it refused as it was.
#[derive(Debug, Drop, Error)]
pub enum Fault {
    /// E1: another transaction's lock stands in the way.
    #[error("{0}: resolve the lock, or try again when it is gone")]
    KeyIsLocked(LockInfo),
    /// E2: a newer record of another transaction is committed.
    #[error("the transaction that started at {start} committed at {commit}, after this one started: begin again")]
    WriteConflict { start: Ts, commit: Ts },
    /// E3: the transaction's own rollback stands on the key.
    #[error("the transaction is already rolled back")]
    AlreadyRolledBack,
    /// E4: the transaction's own commit stands on the key.
    #[error("the transaction is already committed at {commit}")]
    AlreadyCommitted { commit: Ts },
    /// E5: the commit timestamp lies below the lock's minimum.
    #[error("a commit is possible from {min} on only: draw a new commit timestamp")]
    CommitTsExpired { min: Ts },
    /// E6: neither a lock nor a record of the transaction stands on the key.
    #[error("the transaction has neither a lock nor a record on the key")]
    TxnLockNotFound,
    /// E7: the timestamp lies below the safe point.
    #[error("the timestamp lies below the safe point {safe}, whose history may be collected")]
    BelowSafePoint { safe: Ts },
    /// E8: the timestamp lies above the last one that the oracle gave.
    #[error("the timestamp lies above {last}, the last that was drawn")]
    FutureTimestamp { last: Ts },
    /// E9: collection finds a lock that started below the safe point.
    #[error("{0}, below the safe point: resolve the lock, then collect again")]
    LocksRemain(LockInfo),
    /// E10: nothing of the transaction stands on the key, and no rollback was wanted.
    #[error("the transaction has left nothing on its primary")]
    TxnNotFound,
    /// E11: the ticks that one seat may draw are spent.
    #[error("the ticks of this seat are spent: 4294967296 were drawn")]
    OracleSpent,
    /// E12: a growth was refused.
    #[error("out of memory")]
    OutOfMemory,
    /// E13: a key of no bytes or of more than 512.
    #[error("a key has 1 to 512 bytes")]
    KeyLength,
    /// E14: a value of more than 65,536 bytes.
    #[error("a value has at most 65536 bytes")]
    ValueLength,
    /// E15: more keys than a transaction may have.
    #[error("a transaction has at most 1024 keys, an async one at most 256")]
    TooManyKeys,
    /// E16: a script cannot go on.
    #[error("line {line}: {cause}")]
    ScriptFault { line: u64, cause: Cause },
    /// E17: the key that is to be inserted has a value, in the buffer or at the
    /// transaction's start.
    #[error("the key that is to be inserted has a value")]
    AlreadyExists,
}

impl<T: Drop> From<AllocFailed<T>> for Fault {
    ghost from_gives = { λ _ e. e ≡ OutOfMemory };

    fn from(_e: AllocFailed<T>) -> Fault {
        Fault::OutOfMemory
    }
}

impl From<AllocError> for Fault {
    ghost from_gives = { λ _ e. e ≡ OutOfMemory };

    fn from(_e: AllocError) -> Fault {
        Fault::OutOfMemory
    }
}
