//! What is asked of a region, in words and numbers.
use std::alloc::Global;
use tx_plan::{
    BatchRollback, Body, Boxed, CheckSecondaryLocks, CheckTxnStatus, Collect, Commit, Get,
    LocksBelow, Prewrite, RaiseSafe, ResolveLock, Scan, Starts, TxnHeartBeat,
};
use tx_types::{Fate, Fault, Key, Mode, Mutation, RegionNo, Secondaries, Ts, Value};

/// What a transaction does to a key.
#[derive(Clone, Copy)]
pub enum What {
    /// Puts a value of so many bytes.
    Put(usize),
    /// Inserts such a value.
    Insert(usize),
    Delete,
    Lock,
}

/// A request. A key is its one byte, a timestamp its number; 0 stands for no start, no bound and no
/// commit timestamp. Locks live 10 ticks, and the primary of each transaction is the key.
#[derive(Clone, Copy)]
pub enum Ask {
    /// Key, timestamp, and the start that it passes by.
    Get(u8, u64, u64),
    /// From, to, timestamp, limit, and the start that it passes by.
    Scan(u8, u8, u64, u32, u64),
    /// Key, start, and what it does.
    Prewrite(u8, u64, What),
    /// Key, start, and the greatest commit timestamp: an async prewrite of a value of one byte.
    Async(u8, u64, u64),
    /// Key, start, and commit timestamp.
    Commit(u8, u64, u64),
    /// Key and start.
    BatchRollback(u8, u64),
    /// Key, start, and time to live.
    TxnHeartBeat(u8, u64, u32),
    /// Key, start, caller, and time against which the lock is held.
    Check(u8, u64, u64, u64),
    /// The same, where a rollback is wanted.
    CheckOrRollBack(u8, u64, u64, u64),
    /// The same, forced.
    CheckForced(u8, u64, u64, u64),
    /// Key and start.
    CheckSecondaryLocks(u8, u64),
    /// Key, start, and commit timestamp.
    ResolveLock(u8, u64, u64),
    RaiseSafe(u64),
    LocksBelow(u64),
    Collect(u64),
}

/// The key of this byte.
pub fn key(alloc: Global, byte: u8) -> Result<Key, Fault> {
    Key::new(alloc, &[byte])
}

fn starts(alloc: Global, start: u64) -> Result<Starts, Fault> {
    let mut starts = Starts::new(alloc);
    if start != 0 {
        starts.push(Ts::new(start))?;
    }
    Ok(starts)
}

fn get(alloc: Global, byte: u8, at: u64, bypass: u64) -> Result<Body, Fault> {
    Ok(Body::Get(Get {
        key: key(alloc, byte)?,
        at: Ts::new(at),
        bypass: starts(alloc, bypass)?,
    }))
}

fn scan(alloc: Global, from: u8, to: u8, at: u64, limit: u32, bypass: u64) -> Result<Body, Fault> {
    let body = Scan {
        from: key(alloc, from)?,
        to: key(alloc, to)?,
        at: Ts::new(at),
        limit,
        bypass: starts(alloc, bypass)?,
    };
    Ok(Body::Scan(Boxed::new(alloc, body)?))
}

fn mutation(alloc: Global, what: What) -> Result<Mutation, Fault> {
    let bytes = [b'x'; 300];
    match what {
        What::Put(length) => Ok(Mutation::Put(Value::new(alloc, &bytes[..length.min(300)])?)),
        What::Insert(length) => Ok(Mutation::Insert(Value::new(alloc, &bytes[..length.min(300)])?)),
        What::Delete => Ok(Mutation::Delete),
        What::Lock => Ok(Mutation::Lock),
    }
}

fn bound(max_commit: u64) -> Option<Ts> {
    if max_commit == 0 {
        return None;
    }
    Some(Ts::new(max_commit))
}

fn prewrite(
    alloc: Global,
    byte: u8,
    start: u64,
    what: What,
    mode: Mode,
    max_commit: u64,
) -> Result<Body, Fault> {
    let body = Prewrite {
        key: key(alloc, byte)?,
        mutation: mutation(alloc, what)?,
        start: Ts::new(start),
        primary: key(alloc, byte)?,
        mode,
        max_commit: bound(max_commit),
        floor: Ts::ZERO,
        ttl: 10,
        others: Secondaries::new(alloc),
    };
    Ok(Body::Prewrite(Boxed::new(alloc, body)?))
}

fn fate(commit: u64) -> Fate {
    if commit == 0 {
        return Fate::Aborted;
    }
    Fate::Committed(Ts::new(commit))
}

// Of the requests that end a transaction on a key.
fn ending(alloc: Global, ask: Ask) -> Result<Body, Fault> {
    match ask {
        Ask::Commit(byte, start, commit) => Ok(Body::Commit(Commit {
            key: key(alloc, byte)?,
            start: Ts::new(start),
            commit: Ts::new(commit),
        })),
        Ask::BatchRollback(byte, start) => Ok(Body::BatchRollback(BatchRollback {
            key: key(alloc, byte)?,
            start: Ts::new(start),
        })),
        Ask::TxnHeartBeat(byte, start, ttl) => Ok(Body::TxnHeartBeat(TxnHeartBeat {
            key: key(alloc, byte)?,
            start: Ts::new(start),
            ttl,
        })),
        Ask::CheckSecondaryLocks(byte, start) => {
            Ok(Body::CheckSecondaryLocks(CheckSecondaryLocks {
                key: key(alloc, byte)?,
                start: Ts::new(start),
            }))
        }
        Ask::ResolveLock(byte, start, commit) => Ok(Body::ResolveLock(ResolveLock {
            key: key(alloc, byte)?,
            start: Ts::new(start),
            fate: fate(commit),
        })),
        other => Ok(of_region(other)),
    }
}

// Of the requests that name a region.
fn of_region(ask: Ask) -> Body {
    let region = RegionNo::new(0);
    match ask {
        Ask::LocksBelow(safe) => Body::LocksBelow(LocksBelow {
            region,
            safe: Ts::new(safe),
        }),
        Ask::Collect(safe) => Body::Collect(Collect {
            region,
            safe: Ts::new(safe),
        }),
        Ask::RaiseSafe(safe) => Body::RaiseSafe(RaiseSafe {
            region,
            safe: Ts::new(safe),
        }),
        _ => Body::RaiseSafe(RaiseSafe {
            region,
            safe: Ts::ZERO,
        }),
    }
}

fn check(
    alloc: Global,
    (byte, start, caller, current): (u8, u64, u64, u64),
    rollback_if_not_exist: bool,
    force_sync_commit: bool,
) -> Result<Body, Fault> {
    let key = key(alloc, byte)?;
    Ok(Body::CheckTxnStatus(CheckTxnStatus {
        key,
        start: Ts::new(start),
        caller: Ts::new(caller),
        current: Ts::new(current),
        rollback_if_not_exist,
        force_sync_commit,
    }))
}

/// The request.
pub fn body(alloc: Global, ask: Ask) -> Result<Body, Fault> {
    match ask {
        Ask::Get(byte, at, bypass) => get(alloc, byte, at, bypass),
        Ask::Scan(from, to, at, limit, bypass) => scan(alloc, from, to, at, limit, bypass),
        Ask::Prewrite(byte, start, what) => prewrite(alloc, byte, start, what, Mode::TwoPhase, 0),
        Ask::Async(byte, start, max_commit) => {
            prewrite(alloc, byte, start, What::Put(1), Mode::Async, max_commit)
        }
        Ask::Check(byte, start, caller, current) => {
            check(alloc, (byte, start, caller, current), false, false)
        }
        Ask::CheckOrRollBack(byte, start, caller, current) => {
            check(alloc, (byte, start, caller, current), true, false)
        }
        Ask::CheckForced(byte, start, caller, current) => {
            check(alloc, (byte, start, caller, current), false, true)
        }
        other => ending(alloc, other),
    }
}
