//! What a region answers, and what it then holds, in words and numbers.
use tx_cells::{KeyVersions, ShownKey};
use tx_plan::{Answer, Infos, RecordHead};
use tx_types::{Fault, KeyValues, LockInfo};

/// The words of answers.
#[derive(Clone, Copy)]
pub enum Word {
    /// No reply, or nothing was asked.
    Silent,
    /// No answer: memory was refused.
    Refused,
    /// How many bytes.
    Found,
    Nothing,
    /// How many, and the last key.
    Rows,
    /// The minimum of an async lock.
    Prewritten,
    Committed,
    RolledBack,
    Ttl,
    Missing,
    /// The lock's start and minimum.
    Locked,
    Resolved,
    Raised,
    /// How many, and the last one's start.
    Locks,
    /// How many records and values.
    Collected,
    /// The lock's start and minimum.
    KeyIsLocked,
    WriteConflict,
    AlreadyRolledBack,
    AlreadyCommitted,
    CommitTsExpired,
    TxnLockNotFound,
    BelowSafePoint,
    FutureTimestamp,
    /// The lock's start and minimum.
    LocksRemain,
    TxnNotFound,
    AlreadyExists,
}

/// A word and two numbers.
pub type Short = (Word, u64, u64);

/// The answers without numbers.
pub const NOTHING: Short = (Word::Nothing, 0, 0);

pub const ROLLED_BACK: Short = (Word::RolledBack, 0, 0);

pub const MISSING: Short = (Word::Missing, 0, 0);

pub const RESOLVED: Short = (Word::Resolved, 0, 0);

pub const RAISED: Short = (Word::Raised, 0, 0);

pub const ALREADY_ROLLED_BACK: Short = (Word::AlreadyRolledBack, 0, 0);

pub const LOCK_NOT_FOUND: Short = (Word::TxnLockNotFound, 0, 0);

pub const NOT_FOUND: Short = (Word::TxnNotFound, 0, 0);

pub const EXISTS: Short = (Word::AlreadyExists, 0, 0);

/// Below the last collection.
pub const BELOW: Short = (Word::BelowSafePoint, 6, 0);

/// Above the number loaded.
pub const FUTURE: Short = (Word::FutureTimestamp, 20, 0);

pub fn is(given: Short, wanted: Short) -> bool {
    given.0 as u8 == wanted.0 as u8 && given.1 == wanted.1 && given.2 == wanted.2
}

fn lock(word: Word, info: &LockInfo) -> Short {
    (word, info.facts().start.get(), info.facts().min.get())
}

fn rows(rows: &KeyValues) -> Short {
    let rows = rows.as_slice();
    let last = match rows.last() {
        Some(row) => match row.key.as_bytes().first() {
            Some(byte) => u64::from(*byte),
            None => 0,
        },
        None => 0,
    };
    (Word::Rows, rows.len() as u64, last)
}

fn locks(infos: &Infos) -> Short {
    let infos = infos.as_slice();
    let last = match infos.last() {
        Some(info) => info.facts().start.get(),
        None => 0,
    };
    (Word::Locks, infos.len() as u64, last)
}

fn refusal(answer: &Answer) -> Short {
    match answer {
        Answer::KeyIsLocked(info) => lock(Word::KeyIsLocked, info),
        Answer::LocksRemain(info) => lock(Word::LocksRemain, info),
        Answer::WriteConflict { start, commit } => {
            (Word::WriteConflict, start.get(), commit.get())
        }
        Answer::AlreadyRolledBack => (Word::AlreadyRolledBack, 0, 0),
        Answer::AlreadyCommitted { commit } => (Word::AlreadyCommitted, commit.get(), 0),
        Answer::CommitTsExpired { min } => (Word::CommitTsExpired, min.get(), 0),
        Answer::TxnLockNotFound => (Word::TxnLockNotFound, 0, 0),
        Answer::BelowSafePoint { safe } => (Word::BelowSafePoint, safe.get(), 0),
        Answer::FutureTimestamp { last } => (Word::FutureTimestamp, last.get(), 0),
        Answer::TxnNotFound => (Word::TxnNotFound, 0, 0),
        Answer::AlreadyExists => (Word::AlreadyExists, 0, 0),
        _ => (Word::Refused, 0, 0),
    }
}

fn answer(answer: &Answer) -> Short {
    match answer {
        Answer::Found(value) => (Word::Found, value.as_bytes().len() as u64, 0),
        Answer::Nothing => (Word::Nothing, 0, 0),
        Answer::Rows(found) => rows(found),
        Answer::Prewritten(min) => (Word::Prewritten, min.get(), 0),
        Answer::Committed(commit) => (Word::Committed, commit.get(), 0),
        Answer::RolledBack => (Word::RolledBack, 0, 0),
        Answer::Ttl(ttl) => (Word::Ttl, u64::from(*ttl), 0),
        Answer::Missing => (Word::Missing, 0, 0),
        Answer::Locked(info) => lock(Word::Locked, info),
        Answer::Resolved => (Word::Resolved, 0, 0),
        Answer::Raised => (Word::Raised, 0, 0),
        Answer::Locks(infos) => locks(infos),
        Answer::Collected { records, values } => (Word::Collected, *records, *values),
        other => refusal(other),
    }
}

/// What was answered.
pub fn answered(given: Result<Answer, Fault>) -> Short {
    let given = given.ok();
    let shown = match &given {
        Some(given) => answer(given),
        None => (Word::Refused, 0, 0),
    };
    drop(given);
    shown
}

/// What stands on a key: the lock's minimum and time to live, how many records, the newest one's
/// timestamp and whether it has a mark, and how many values stand apart.
pub type Stand = [u64; 6];

/// Nothing stands there.
pub const BARE: Stand = [0; 6];

fn stand(copy: &KeyVersions) -> Stand {
    let (min, ttl) = match copy.lock {
        Some(lock) => (lock.min.get(), u64::from(lock.ttl)),
        None => (0, 0),
    };
    let records = copy.records.as_slice();
    let (at, marked) = match records.first() {
        Some(newest) => match newest.head {
            RecordHead::Commit {
                overlapped_rollback,
                ..
            } => (newest.at.get(), u64::from(overlapped_rollback)),
            RecordHead::Rollback => (newest.at.get(), 0),
        },
        None => (0, 0),
    };
    let values = copy.values.as_slice().len() as u64;
    [min, ttl, records.len() as u64, at, marked, values]
}

/// What is shown to stand there.
pub fn stands(shown: Result<ShownKey, Fault>) -> Option<Stand> {
    let shown = shown.ok()?;
    let found = stand(shown.copy());
    drop(shown);
    Some(found)
}
