//! What changed of a key, in words.
use std::alloc::{AllocError, Global};
use tx_cut::{Change, Kind, Part, SeenLock, SeenRecord, is_same_lock, put_stamp};

// Appends what a lock will do and the value of a put, whose it is by start, and its minimum.
fn put_lock(out: &mut String, lock: SeenLock, value: &str) -> Result<(), AllocError> {
    out.push_str(lock.kind.word())?;
    if !value.is_empty() {
        out.push(' ')?;
        out.push_str(value)?;
    }
    put_stamp(out, " by ", lock.start)?;
    if lock.minimum > 0 {
        put_stamp(out, ", min ", lock.minimum)?;
    }
    Ok(())
}

// Appends a write record.
fn put_record(out: &mut String, record: SeenRecord) -> Result<(), AllocError> {
    out.push_str(record.kind.word())?;
    if record.kind == Kind::Rollback {
        put_stamp(out, " ", record.at)?;
    } else {
        put_stamp(out, " ", record.start)?;
        put_stamp(out, "@", record.at)?;
    }
    if record.is_marked {
        out.push('*')?;
    }
    Ok(())
}

// Appends the key, behind the parts before it.
fn put_part(out: &mut String, key: &str) -> Result<(), AllocError> {
    if !out.is_empty() {
        out.push_str("; ")?;
    }
    out.push_str(key)?;
    out.push_str(": ")
}

// Appends what became of the lock.
fn put_lock_change(out: &mut String, key: &str, change: &Change) -> Result<(), AllocError> {
    if is_same_lock(change.old_lock, change.lock) {
        return Ok(());
    }
    put_part(out, key)?;
    match change.lock {
        Some(lock) => put_lock(out, lock, change.value.as_str()),
        None => out.push_str("unlocked"),
    }
}

// Appends records, each with a sign before it.
fn put_records(
    out: &mut String,
    key: &str,
    sign: &str,
    records: &[SeenRecord],
) -> Result<(), AllocError> {
    let mut is_first = true;
    'records: for record in records {
        if is_first {
            put_part(out, key)?;
        } else {
            out.push_str(", ")?;
        }
        out.push_str(sign)?;
        put_record(out, *record)?;
        is_first = false;
    }
    Ok(())
}

// Appends what changed of a key: first its lock, then records that came and went.
fn put_change(out: &mut String, key: &str, change: &Change) -> Result<(), AllocError> {
    put_lock_change(out, key, change)?;
    put_records(out, key, "+", change.came.as_slice())?;
    put_records(out, key, "-", change.went.as_slice())
}

/// What changed of the keys of a part, in words.
pub fn changed_words(
    alloc: Global,
    part: &Part<'_>,
    changes: &[Change],
) -> Result<String, AllocError> {
    let mut out = String::new(alloc);
    'changes: for change in changes {
        if let Some(key) = part.key(change.key) {
            put_change(&mut out, key.name.as_str(), change)?;
        }
    }
    Ok(out)
}
