//! The words of a row.
use crate::change::changed_words;
use std::alloc::{AllocError, Global};
use tx_cut::{Part, Row, Sending, shown};

/// The words of a row: its step and its reply, and what changed by it.
#[derive(Drop)]
pub(crate) struct Entry {
    pub step: String,
    pub changes: String,
}

/// Appends how a request was sent, where that says more than the step.
pub fn put_sending(out: &mut String, row: &Row) -> Result<(), AllocError> {
    match row.sending {
        Sending::Plain | Sending::Delivered => Ok(()),
        Sending::Lost => out.push_str(" [lost]"),
        Sending::ReplyLost => out.push_str(" [reply lost]"),
        Sending::Twice => out.push_str(" [twice]"),
        Sending::Held => {
            out.push_str(" [held as ")?;
            out.push_str(row.held.as_str())?;
            out.push(']')
        }
    }
}

// The step of a row, its delivery and what was replied.
fn step_words(alloc: Global, row: &Row) -> Result<String, AllocError> {
    let mut words = String::from_str(alloc, row.step.as_str())?;
    put_sending(&mut words, row)?;
    if !row.answer.is_empty() {
        words.push_str(" -> ")?;
        words.push_str(row.answer.as_str())?;
    }
    Ok(words)
}

// The words of a row of a part.
fn entry_of(alloc: Global, part: &Part<'_>, row: &Row) -> Result<Entry, AllocError> {
    let step = step_words(alloc, row)?;
    let changes = changed_words(alloc, part, row.changes.as_slice())?;
    Ok(Entry { step, changes })
}

// The name of the session of a row; nothing where it is a step of none.
fn name_of(alloc: Global, part: &Part<'_>, row: &Row) -> Result<String, AllocError> {
    match part.life_of(row) {
        Some(life) => shown(alloc, life.name),
        None => Ok(String::new(alloc)),
    }
}

/// The words of all rows of a part.
pub(crate) fn entries_of(alloc: Global, part: &Part<'_>) -> Result<Vec<Entry>, AllocError> {
    let mut entries = Vec::new(alloc);
    'rows: for shown in &part.rows {
        entries.push(entry_of(alloc, part, shown.row)?)?;
    }
    Ok(entries)
}

/// These words of the rows of a part, each behind the name of its session.
pub(crate) fn named(
    alloc: Global,
    part: &Part<'_>,
    entries: Vec<Entry>,
) -> Result<Vec<Entry>, AllocError> {
    let mut with_names = Vec::new(alloc);
    'rows: for (shown, entry) in part.rows.iter().zip(entries) {
        let mut step = name_of(alloc, part, shown.row)?;
        if !step.is_empty() {
            step.push(' ')?;
        }
        step.push_str(entry.step.as_str())?;
        let changes = entry.changes;
        with_names.push(Entry { step, changes })?;
    }
    Ok(with_names)
}
