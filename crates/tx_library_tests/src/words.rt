//! What calls answer, in a word and a number. Keys and values are single digits here, and values
//! of several bytes are numbers to the base 256 whose digits begin at `0`.
use crate::calls::Came;
use tx_client::{Miss, Status, WaitCause};
use tx_core::{Answer, Outcome, UnknownCause};
use tx_resolve::Counts;
use tx_types::{Fault, KeyValues};

/// What a call answers, in short: a word and a number.
pub type Short = (&'static str, u64);

/// Nothing but that it went well.
pub const OK: Short = ("ok", 0);

/// Where a call may not be made, or a session is not there.
pub const ORDER: Short = ("order", 0);

// The number that a key or a value is.
fn number(bytes: &[u8]) -> u64 {
    let mut number = 0_u64;
    for byte in bytes {
        number = number
            .wrapping_mul(256)
            .wrapping_add(u64::from(byte.wrapping_sub(b'0')));
    }
    number
}

// Rows, as the digits of their keys and values one after another.
fn digits(rows: &KeyValues) -> u64 {
    let mut digits = 0_u64;
    for row in rows.as_slice() {
        let pair = number(row.key.as_bytes())
            .wrapping_mul(10)
            .wrapping_add(number(row.value.as_bytes()));
        digits = digits.wrapping_mul(100).wrapping_add(pair);
    }
    digits
}

// An answer: a lock in the way by its key, a lock that stands by its minimum.
fn by_answer(answer: &Answer) -> Short {
    match answer {
        Answer::Found(value) => ("value", number(value.as_bytes())),
        Answer::Nothing => ("none", 0),
        Answer::Rows(rows) => ("rows", digits(rows)),
        Answer::Prewritten(minimum) => ("prewritten", minimum.get()),
        Answer::Committed(commit) => ("committed", commit.get()),
        Answer::RolledBack => ("rolled-back", 0),
        Answer::Ttl(ttl) => ("ttl", u64::from(*ttl)),
        Answer::Missing => ("missing", 0),
        Answer::Locked(info) => ("locked", info.facts().min.get()),
        Answer::KeyIsLocked(info) => ("E1", number(info.facts().key.as_bytes())),
        Answer::WriteConflict { start: _, commit } => ("E2", commit.get()),
        Answer::AlreadyRolledBack => ("E3", 0),
        Answer::AlreadyCommitted { commit } => ("E4", commit.get()),
        Answer::CommitTsExpired { min } => ("E5", min.get()),
        Answer::TxnLockNotFound => ("E6", 0),
        Answer::BelowSafePoint { safe } => ("E7", safe.get()),
        Answer::AlreadyExists => ("E17", 0),
        _ => ("other", 0),
    }
}

// What a request comes to.
fn by_response(response: Result<Option<Answer>, Miss>) -> Short {
    match response {
        Ok(Some(answer)) => {
            let short = by_answer(&answer);
            drop(answer);
            short
        }
        Ok(None) => ("done", 0),
        Err(Miss::Lost) => ("lost", 0),
        Err(Miss::Fault) => ("E12", 0),
    }
}

/// A refusal.
pub fn by_fault(fault: Fault) -> Short {
    match fault {
        Fault::TooManyKeys => ("E15", 0),
        Fault::AlreadyExists => ("E17", 0),
        Fault::OutOfMemory => ("E12", 0),
        Fault::OracleSpent => ("E11", 0),
        Fault::BelowSafePoint { safe } => ("E7", safe.get()),
        Fault::FutureTimestamp { last } => ("E8", last.get()),
        Fault::LocksRemain(info) => ("E9", number(info.facts().key.as_bytes())),
        _ => ("other", 0),
    }
}

/// What a call comes to.
pub fn by_call(came: Came) -> Short {
    match came {
        Came::Order => ORDER,
        Came::Changed(Ok(())) => OK,
        Came::Drawn(Ok(drawn)) => ("drawn", drawn.get()),
        Came::Changed(Err(fault)) | Came::Drawn(Err(fault)) => by_fault(fault),
        Came::Answered(response) => by_response(response),
    }
}

fn by_cause(cause: UnknownCause) -> Short {
    match cause {
        UnknownCause::Reply => ("unknown reply", 0),
        UnknownCause::BelowSafePoint => ("unknown E7", 0),
        UnknownCause::OutOfMemory => ("unknown E12", 0),
    }
}

/// An outcome.
pub fn by_outcome(outcome: Outcome) -> Short {
    match outcome {
        Outcome::Committed(commit) => ("ended committed", commit.get()),
        Outcome::Aborted => ("ended aborted", 0),
        Outcome::Unknown(cause) => by_cause(cause),
        Outcome::ReadOnly => ("ended read-only", 0),
    }
}

fn by_wait(cause: WaitCause) -> Short {
    match cause {
        WaitCause::Live => ("waiting live", 0),
        WaitCause::NotFound => ("waiting not found", 0),
        WaitCause::Reply => ("waiting reply", 0),
        WaitCause::BelowSafePoint => ("waiting E7", 0),
        WaitCause::OutOfMemory => ("waiting E12", 0),
    }
}

/// What a resolver finds.
pub fn by_status(status: Status) -> Short {
    match status {
        Status::Committed(commit) => ("committed", commit.get()),
        Status::Aborted => ("aborted", 0),
        Status::Pushed(minimum) => ("pushed", minimum.get()),
        Status::Waiting(cause) => by_wait(cause),
    }
}

/// What a collection comes to: how many records it dropped, or why it ended.
pub fn by_collection(response: Result<Counts, Fault>) -> Short {
    match response {
        Ok(counts) => ("collected", counts.records),
        Err(fault) => by_fault(fault),
    }
}
