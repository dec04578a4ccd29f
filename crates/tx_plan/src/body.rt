//! What is asked of a region: one struct a command, and `Body`, which is any of them.
ghost use Rattle.std.specs.Prelude.{◌≡◌, IfOk, IfErr};
ghost use Rattle.tx_plan.specs.LockCommit.{commit_in};

use crate::boxed::Boxed;
use crate::lists::Starts;
use tx_types::{Fate, Fault, Key, Mode, Mutation, RegionNo, Secondaries, Ts};

/// Asks for the value of a key at a timestamp.
#[derive(Debug, Drop)]
pub struct Get {
    pub key: Key,
    pub at: Ts,
    /// The transactions whose locks do not stop this read.
    pub bypass: Starts,
}

impl Get {
    /// A copy. `OutOfMemory` is its only fault.
    pub fn clone(&self) -> Result<Get, Fault>
        ensures ok { IfOk result (λ copy. copy ≡ self.now) }
        ensures err { IfErr result (λ e. e ≡ Fault.OutOfMemory) }
    {
        Ok(Get {
            key: self.key.clone()?,
            at: self.at,
            bypass: self.bypass.clone()?,
        })
    }
}

/// Asks for the first `limit` keys with a value at a timestamp, from `from` up to but
/// not including `to`.
#[derive(Debug, Drop)]
pub struct Scan {
    pub from: Key,
    pub to: Key,
    pub at: Ts,
    pub limit: u32,
    /// The transactions whose locks do not stop this read.
    pub bypass: Starts,
}

impl Scan {
    /// A copy. `OutOfMemory` is its only fault.
    pub fn clone(&self) -> Result<Scan, Fault>
        ensures ok { IfOk result (λ copy. copy ≡ self.now) }
        ensures err { IfErr result (λ e. e ≡ Fault.OutOfMemory) }
    {
        Ok(Scan {
            from: self.from.clone()?,
            to: self.to.clone()?,
            at: self.at,
            limit: self.limit,
            bypass: self.bypass.clone()?,
        })
    }
}

/// Asks for a lock on a key, as the first phase of a commit.
#[derive(Debug, Drop)]
pub struct Prewrite {
    pub key: Key,
    pub mutation: Mutation,
    /// The start timestamp of the transaction.
    pub start: Ts,
    pub primary: Key,
    pub mode: Mode,
    /// The greatest commit timestamp that an async lock may promise; none is no bound.
    pub max_commit: Option<Ts>,
    /// The least minimum that an async lock may have: above the number that its transaction drew
    /// when it declared.
    pub floor: Ts,
    /// How long after its start the lock is live, in ticks.
    pub ttl: u32,
    /// On the primary of an async transaction its other keys, elsewhere empty.
    pub others: Secondaries,
}

impl Prewrite {
    /// A copy. `OutOfMemory` is its only fault.
    pub fn clone(&self) -> Result<Prewrite, Fault>
        ensures ok { IfOk result (λ copy. copy ≡ self.now) }
        ensures err { IfErr result (λ e. e ≡ Fault.OutOfMemory) }
    {
        Ok(Prewrite {
            key: self.key.clone()?,
            mutation: self.mutation.clone()?,
            start: self.start,
            primary: self.primary.clone()?,
            mode: self.mode,
            max_commit: self.max_commit,
            floor: self.floor,
            ttl: self.ttl,
            others: self.others.clone()?,
        })
    }
}

/// Asks that a transaction's lock on a key become a commit record.
#[derive(Debug, Drop)]
pub struct Commit {
    pub key: Key,
    pub start: Ts,
    pub commit: Ts,
}

impl Commit {
    /// A copy. `OutOfMemory` is its only fault.
    pub fn clone(&self) -> Result<Commit, Fault>
        ensures ok { IfOk result (λ copy. copy ≡ self.now) }
        ensures err { IfErr result (λ e. e ≡ Fault.OutOfMemory) }
    {
        Ok(Commit {
            key: self.key.clone()?,
            start: self.start,
            commit: self.commit,
        })
    }
}

/// Asks that a transaction be rolled back on a key.
#[derive(Debug, Drop)]
pub struct BatchRollback {
    pub key: Key,
    pub start: Ts,
}

impl BatchRollback {
    /// A copy. `OutOfMemory` is its only fault.
    pub fn clone(&self) -> Result<BatchRollback, Fault>
        ensures ok { IfOk result (λ copy. copy ≡ self.now) }
        ensures err { IfErr result (λ e. e ≡ Fault.OutOfMemory) }
    {
        Ok(BatchRollback {
            key: self.key.clone()?,
            start: self.start,
        })
    }
}

/// Asks that a transaction's lock on its primary live at least so long.
#[derive(Debug, Drop)]
pub struct TxnHeartBeat {
    pub key: Key,
    pub start: Ts,
    /// How long after its start the lock is to be live, in ticks.
    pub ttl: u32,
}

impl TxnHeartBeat {
    /// A copy. `OutOfMemory` is its only fault.
    pub fn clone(&self) -> Result<TxnHeartBeat, Fault>
        ensures ok { IfOk result (λ copy. copy ≡ self.now) }
        ensures err { IfErr result (λ e. e ≡ Fault.OutOfMemory) }
    {
        Ok(TxnHeartBeat {
            key: self.key.clone()?,
            start: self.start,
            ttl: self.ttl,
        })
    }
}

/// Asks the primary what has become of its transaction, and pushes or rolls back its lock
/// where that is due.
#[derive(Debug, Drop)]
pub struct CheckTxnStatus {
    pub key: Key,
    pub start: Ts,
    /// The timestamp of the read that was stopped.
    pub caller: Ts,
    /// The time against which the lock's time to live is held.
    pub current: Ts,
    /// Whether a rollback is left where nothing of the transaction stands.
    pub rollback_if_not_exist: bool,
    /// Whether an async lock is treated as a two-phase one.
    pub force_sync_commit: bool,
}

impl CheckTxnStatus {
    /// A copy. `OutOfMemory` is its only fault.
    pub fn clone(&self) -> Result<CheckTxnStatus, Fault>
        ensures ok { IfOk result (λ copy. copy ≡ self.now) }
        ensures err { IfErr result (λ e. e ≡ Fault.OutOfMemory) }
    {
        Ok(CheckTxnStatus {
            key: self.key.clone()?,
            start: self.start,
            caller: self.caller,
            current: self.current,
            rollback_if_not_exist: self.rollback_if_not_exist,
            force_sync_commit: self.force_sync_commit,
        })
    }
}

/// Asks what stands of an async transaction on a key, and leaves a rollback where nothing does.
#[derive(Debug, Drop)]
pub struct CheckSecondaryLocks {
    pub key: Key,
    pub start: Ts,
}

impl CheckSecondaryLocks {
    /// A copy. `OutOfMemory` is its only fault.
    pub fn clone(&self) -> Result<CheckSecondaryLocks, Fault>
        ensures ok { IfOk result (λ copy. copy ≡ self.now) }
        ensures err { IfErr result (λ e. e ≡ Fault.OutOfMemory) }
    {
        Ok(CheckSecondaryLocks {
            key: self.key.clone()?,
            start: self.start,
        })
    }
}

/// Asks that the lock of a transaction whose fate is known be committed or rolled back.
#[derive(Debug, Drop)]
pub struct ResolveLock {
    pub key: Key,
    pub start: Ts,
    pub fate: Fate,
}

impl ResolveLock {
    /// The timestamp at which the transaction is committed, or 0: its plan sees what is there.
    pub fn commit(&self) -> Ts
        ensures { result ≡ commit_in self.now.fate }
    {
        match self.fate {
            Fate::Committed(commit) => commit,
            Fate::Aborted => Ts::ZERO,
        }
    }

    /// A copy. `OutOfMemory` is its only fault.
    pub fn clone(&self) -> Result<ResolveLock, Fault>
        ensures ok { IfOk result (λ copy. copy ≡ self.now) }
        ensures err { IfErr result (λ e. e ≡ Fault.OutOfMemory) }
    {
        Ok(ResolveLock {
            key: self.key.clone()?,
            start: self.start,
            fate: self.fate,
        })
    }
}

/// Asks a region to raise its safe point.
#[derive(Clone, Copy, Debug)]
pub struct RaiseSafe {
    pub region: RegionNo,
    /// The safe point that is wanted.
    pub safe: Ts,
}

/// Asks a region for its locks that started below a safe point.
#[derive(Clone, Copy, Debug)]
pub struct LocksBelow {
    pub region: RegionNo,
    pub safe: Ts,
}

/// Asks a region to drop the records below its safe point that no read needs any more.
#[derive(Clone, Copy, Debug)]
pub struct Collect {
    pub region: RegionNo,
    /// The region's safe point.
    pub safe: Ts,
}

/// What is asked of a region, of any command.
#[derive(Debug, Drop)]
pub enum Body {
    Get(Get),
    Scan(Boxed<Scan>),
    Prewrite(Boxed<Prewrite>),
    Commit(Commit),
    BatchRollback(BatchRollback),
    TxnHeartBeat(TxnHeartBeat),
    CheckTxnStatus(CheckTxnStatus),
    CheckSecondaryLocks(CheckSecondaryLocks),
    ResolveLock(ResolveLock),
    RaiseSafe(RaiseSafe),
    LocksBelow(LocksBelow),
    Collect(Collect),
}

impl Body {
    /// A copy. `OutOfMemory` is its only fault.
    pub fn clone(&self) -> Result<Body, Fault>
        ensures ok { IfOk result (λ copy. copy ≡ self.now) }
        ensures err { IfErr result (λ e. e ≡ Fault.OutOfMemory) }
    {
        match self {
            Body::Get(body) => Ok(Body::Get(body.clone()?)),
            Body::Scan(body) => {
                let copy = body.asked().clone()?;
                Ok(Body::Scan(Boxed::new(body.allocator(), copy)?))
            }
            Body::Prewrite(body) => {
                let copy = body.asked().clone()?;
                Ok(Body::Prewrite(Boxed::new(body.allocator(), copy)?))
            }
            Body::Commit(body) => Ok(Body::Commit(body.clone()?)),
            Body::BatchRollback(body) => Ok(Body::BatchRollback(body.clone()?)),
            Body::TxnHeartBeat(body) => Ok(Body::TxnHeartBeat(body.clone()?)),
            Body::CheckTxnStatus(body) => Ok(Body::CheckTxnStatus(body.clone()?)),
            Body::CheckSecondaryLocks(body) => Ok(Body::CheckSecondaryLocks(body.clone()?)),
            Body::ResolveLock(body) => Ok(Body::ResolveLock(body.clone()?)),
            Body::RaiseSafe(body) => Ok(Body::RaiseSafe(*body)),
            Body::LocksBelow(body) => Ok(Body::LocksBelow(*body)),
            Body::Collect(body) => Ok(Body::Collect(*body)),
        }
    }
}
