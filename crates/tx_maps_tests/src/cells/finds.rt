//! What is found in the families.
use crate::cells::steps::{At, Range, Record};
use std::alloc::Global;
use tx_cells::{Families, KeyVersions};
use tx_plan::{Answer, Infos, LockHead, ReadView, RecordHead, Scan, Starts};
use tx_spelling::EncodedKey;
use tx_types::{Fault, Key, LockInfo, Ts};

/// Whether a read sees a value of so many bytes, or none.
pub fn read<F: Families>(
    alloc: Global,
    families: &F,
    at: At,
    bytes: Option<usize>,
) -> Result<bool, Fault> {
    let key = Key::new(alloc, &[at.0])?;
    let spelt = EncodedKey::new(alloc, &key)?;
    let view = families.read(alloc, &spelt, Ts::new(at.1))?;
    let right = bytes_of(&view) == bytes;
    drop(view);
    Ok(right)
}

fn bytes_of(view: &ReadView) -> Option<usize> {
    match &view.value {
        Some(value) => Some(value.as_bytes().len()),
        None => None,
    }
}

fn start_of(lock: Option<LockHead>) -> u64 {
    match lock {
        Some(lock) => lock.start.get(),
        None => 0,
    }
}

fn is_copy(copy: &KeyVersions, start: u64, counts: (usize, usize)) -> bool {
    start_of(copy.lock) == start
        && (copy.records.as_slice().len(), copy.values.as_slice().len()) == counts
}

/// Whether a key has the lock that started then (0: none), and so many write records
/// and values apart.
pub fn stands<F: Families>(
    alloc: Global,
    families: &F,
    lock: At,
    counts: (usize, usize),
) -> Result<bool, Fault> {
    let key = Key::new(alloc, &[lock.0])?;
    let spelt = EncodedKey::new(alloc, &key)?;
    let copy = families.cells(alloc, &spelt)?;
    let right = is_copy(&copy, lock.1, counts);
    drop(copy);
    Ok(right)
}

fn record_of(head: Option<RecordHead>) -> Record {
    match head {
        None => Record::Absent,
        Some(RecordHead::Rollback) => Record::Rollback,
        Some(
            RecordHead::Commit {
                overlapped_rollback: true,
                ..
            },
        ) => Record::Marked,
        Some(RecordHead::Commit { .. }) => Record::Commit,
    }
}

/// Whether this is at a timestamp of a key.
pub fn met<F: Families>(
    alloc: Global,
    families: &F,
    at: At,
    record: Record,
) -> Result<bool, Fault> {
    let key = Key::new(alloc, &[at.0])?;
    let spelt = EncodedKey::new(alloc, &key)?;
    let view = families.view(alloc, &spelt, Ts::ZERO, Ts::new(at.1))?;
    Ok(record_of(view.at_commit) == record)
}

fn is_info(info: LockInfo, start: u64, min: u64) -> bool {
    let right = info.facts().start == Ts::new(start) && info.facts().min == Ts::new(min);
    drop(info);
    right
}

/// Whether a lock with this start and this minimum is told of on a key.
pub fn told<F: Families>(alloc: Global, families: &F, lock: At, min: u64) -> Result<bool, Fault> {
    let key = Key::new(alloc, &[lock.0])?;
    let spelt = EncodedKey::new(alloc, &key)?;
    match families.lock_info(alloc, &spelt)? {
        Some(info) => Ok(is_info(info, lock.1, min)),
        None => Ok(false),
    }
}

fn first_key(infos: &Infos) -> Option<u8> {
    let info = infos.as_slice().first()?;
    info.facts().key.as_bytes().first().copied()
}

fn key_of(info: LockInfo) -> Option<u8> {
    let key = info.facts().key.as_bytes().first().copied();
    drop(info);
    key
}

// The key of the first lock that started below a timestamp.
fn first<F: Families>(alloc: Global, families: &F, safe: Ts) -> Result<Option<u8>, Fault> {
    match families.first_below(alloc, safe)? {
        Some(info) => Ok(key_of(info)),
        None => Ok(None),
    }
}

/// Whether of the locks that started below a timestamp the first is on this key, and
/// they are so many.
pub fn remain<F: Families>(
    alloc: Global,
    families: &F,
    safe: u64,
    found: (u8, usize),
) -> Result<bool, Fault> {
    let safe = Ts::new(safe);
    let one = first(alloc, families, safe)?;
    let infos = families.locks_below(alloc, safe)?;
    let right = first_key(&infos) == one
        && (one, infos.as_slice().len()) == (Some(found.0), found.1);
    drop(infos);
    Ok(right)
}

fn scan_of(alloc: Global, range: Range) -> Result<Scan, Fault> {
    let (from, to, at, limit) = range;
    let from = Key::new(alloc, &[from])?;
    let to = Key::new(alloc, &[to])?;
    Ok(Scan {
        from,
        to,
        at: Ts::new(at),
        limit,
        bypass: Starts::new(alloc),
    })
}

fn scanned<F: Families>(alloc: Global, families: &F, range: Range) -> Result<Answer, Fault> {
    let body = scan_of(alloc, range)?;
    let answer = families.scan(alloc, &body);
    drop(body);
    answer
}

// How many rows, and the key of the last, or 0.
fn rows_in(answer: &Answer) -> Option<(usize, u8)> {
    let Answer::Rows(rows) = answer else {
        return None;
    };
    let rows = rows.as_slice();
    let Some(last) = rows.last() else {
        return Some((0, 0));
    };
    Some((rows.len(), last.key.as_bytes().first().copied()?))
}

/// Whether a scan gives so many rows, up to this key.
pub fn rows<F: Families>(
    alloc: Global,
    families: &F,
    range: Range,
    found: (usize, u8),
) -> Result<bool, Fault> {
    let answer = scanned(alloc, families, range)?;
    let right = rows_in(&answer) == Some(found);
    drop(answer);
    Ok(right)
}

// The key of the last row, and how many bytes its value has.
fn last_in(answer: &Answer) -> Option<(u8, usize)> {
    let Answer::Rows(rows) = answer else {
        return None;
    };
    let last = rows.as_slice().last()?;
    Some((
        last.key.as_bytes().first().copied()?,
        last.value.as_bytes().len(),
    ))
}

/// Whether the last row of a scan is of this key, with a value of so many bytes.
pub fn ends<F: Families>(
    alloc: Global,
    families: &F,
    range: Range,
    found: (u8, usize),
) -> Result<bool, Fault> {
    let answer = scanned(alloc, families, range)?;
    let right = last_in(&answer) == Some(found);
    drop(answer);
    Ok(right)
}

fn key_in(answer: &Answer) -> Option<u8> {
    let Answer::KeyIsLocked(info) = answer else {
        return None;
    };
    info.facts().key.as_bytes().first().copied()
}

/// Whether a scan meets the lock on this key.
pub fn blocked<F: Families>(
    alloc: Global,
    families: &F,
    range: Range,
    key: u8,
) -> Result<bool, Fault> {
    let answer = scanned(alloc, families, range)?;
    let right = key_in(&answer) == Some(key);
    drop(answer);
    Ok(right)
}
