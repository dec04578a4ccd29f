//! The words of a drawing.
use std::alloc::{AllocError, Global};
use tx_cut::{KeyRead, Kind, Part, Row, SeenLock, SeenRecord, places, put_first, put_stamp, shown};

/// The most places that the words over a step take.
const MAX_LABEL: usize = 33;

// Appends words, the beginning of longer ones.
fn put_cut(out: &mut String, words: &str) -> Result<(), AllocError> {
    if places(words) <= MAX_LABEL {
        return out.push_str(words);
    }
    put_first(out, words, MAX_LABEL - 1)?;
    out.push('\u{2026}')
}

// Appends the name of the session that a row begins, where its name does not stand at the head.
fn put_new_name(
    out: &mut String,
    part: &Part<'_>,
    place: usize,
    row: &Row,
) -> Result<(), AllocError> {
    match part.life_of(row) {
        Some(life) if life.begins == place && !life.is_head => {
            let name = shown(*out.allocator(), life.name)?;
            out.push_str(name.as_str())?;
            out.push_str(": ")
        }
        _ => Ok(()),
    }
}

/// A step and its reply, the beginning of what is longer, but for what is shown of a key.
pub(crate) fn label_of(
    alloc: Global,
    part: &Part<'_>,
    place: usize,
    row: &Row,
) -> Result<String, AllocError> {
    let mut whole = String::new(alloc);
    put_new_name(&mut whole, part, place, row)?;
    whole.push_str(row.step.as_str())?;
    if !row.answer.is_empty() {
        whole.push_str(" \u{2192} ")?;
        whole.push_str(row.answer.as_str())?;
    }
    if row.step.starts_with("versions ") {
        return Ok(whole);
    }
    let mut label = String::new(alloc);
    put_cut(&mut label, whole.as_str())?;
    Ok(label)
}

/// The machine's steps at a row, of each the beginning of what is longer.
pub(crate) fn machine_words(alloc: Global, row: &Row) -> Result<String, AllocError> {
    let mut words = String::new(alloc);
    'steps: for step in &row.machine {
        if !words.is_empty() {
            words.push_str("; ")?;
        }
        put_cut(&mut words, step.as_str())?;
    }
    Ok(words)
}

/// What a lock will do and the value of a put, whose it is by start, and its minimum.
pub(crate) fn lock_words(alloc: Global, lock: SeenLock, value: &str) -> Result<String, AllocError> {
    let mut words = String::from_str(alloc, lock.kind.word())?;
    if !value.is_empty() {
        words.push(' ')?;
        words.push_str(value)?;
    }
    put_stamp(&mut words, " by ", lock.start)?;
    if lock.minimum > 0 {
        put_stamp(&mut words, ", min ", lock.minimum)?;
    }
    Ok(words)
}

/// A write record: what it did, its start and its number.
pub(crate) fn record_words(alloc: Global, record: SeenRecord) -> Result<String, AllocError> {
    let mut words = String::from_str(alloc, record.kind.word())?;
    if record.kind == Kind::Rollback {
        put_stamp(&mut words, " ", record.at)?;
    } else {
        put_stamp(&mut words, " of ", record.start)?;
        put_stamp(&mut words, " at ", record.at)?;
    }
    if record.is_marked {
        words.push('*')?;
    }
    Ok(words)
}

/// How many records were dropped.
pub(crate) fn dropped_words(alloc: Global, count: usize) -> Result<String, AllocError> {
    let mut words = String::new(alloc);
    put_stamp(&mut words, "", count as u64)?;
    words.push_str(" dropped")?;
    Ok(words)
}

/// What a read found.
pub(crate) fn read_words(alloc: Global, read: &KeyRead) -> Result<String, AllocError> {
    let mut words = String::from_str(alloc, "reads ")?;
    words.push_str(read.found.as_str())?;
    Ok(words)
}
