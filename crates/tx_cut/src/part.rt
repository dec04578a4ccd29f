//! A part of a sheet, as pictures show it.
ghost use Rattle.std.specs.Prelude.{IfOk};
ghost use Rattle.tx_cut.specs.Parts.{IsCut};

use crate::cut::Cut;
use crate::hidden_lock::{HiddenLock, hidden_of};
use crate::lives::{Life, lives_of};
use crate::rows::{ShownRow, counts_of, named_of, rows_of};
use std::alloc::{AllocError, Global};
use tx_sheet::{KeyColumn, Row, Sheet};
use tx_types::Key;

/// A part of a sheet. Places of sessions and keys are those of the sheet.
#[derive(Drop)]
pub struct Part<'a> {
    /// Whether rows are left out.
    pub is_cut: bool,
    /// The rows that are shown, in order.
    pub rows: Vec<ShownRow<'a>>,
    /// Of each session of the sheet what is shown of it.
    pub sessions: Vec<Option<Life<'a>>>,
    /// How many columns sessions have.
    pub columns: usize,
    /// Each key of the sheet that is shown.
    pub keys: Vec<Option<&'a KeyColumn>>,
    /// What lines that are not shown changed of locks: before each row, and behind the last.
    pub hidden: Vec<Vec<HiddenLock<'a>>>,
}

impl<'a> Part<'a> {
    /// The session of a row, where it is one of a session.
    pub fn life_of(&self, row: &Row) -> Option<Life<'a>> {
        *self.sessions.get(row.session?)?
    }

    /// The column of a row; None where it is a step of no session.
    pub fn column_of(&self, row: &Row) -> Option<usize> {
        Some(self.life_of(row)?.column)
    }

    /// The key at this place, where it is shown.
    pub fn key(&self, place: usize) -> Option<&'a KeyColumn> {
        *self.keys.get(place)?
    }
}

// Of each column of a key that one, where the key is named.
fn keys_of<'a>(
    alloc: Global,
    columns: &'a [KeyColumn],
    keys: &[Key],
    names: &[&str],
) -> Result<Vec<Option<&'a KeyColumn>>, AllocError> {
    let mut shown = Vec::new(alloc);
    'keys: for (column, key) in columns.iter().zip(keys) {
        let is_named = names.iter().any(|name| name.as_bytes() == key.as_bytes());
        let is_shown = names.is_empty() || is_named;
        shown.push(if is_shown { Some(column) } else { None })?;
    }
    Ok(shown)
}

// Each column.
fn all_keys<'a>(
    alloc: Global,
    columns: &'a [KeyColumn],
) -> Result<Vec<Option<&'a KeyColumn>>, AllocError> {
    let mut shown = Vec::new(alloc);
    'keys: for column in columns {
        shown.push(Some(column))?;
    }
    Ok(shown)
}

// What is cut of a sheet, with these keys.
fn cut_of<'a>(
    alloc: Global,
    sheet: &'a Sheet,
    keys: Vec<Option<&'a KeyColumn>>,
    cut: Cut<'_>,
) -> Result<Part<'a>, AllocError>
    ensures { IfOk result (λ part. IsCut cut.entry sheet.entry.now part.rows.items) }
{
    let named = named_of(alloc, sheet.sessions.as_slice(), cut.sessions)?;
    let rows = rows_of(alloc, sheet.rows.as_slice(), cut, named.as_slice())?;
    let counts = counts_of(alloc, sheet.rows.len(), rows.as_slice())?;
    let (sessions, columns) = lives_of(
        alloc,
        sheet.sessions.as_slice(),
        sheet.columns,
        cut,
        named.as_slice(),
        counts.as_slice(),
    )?;
    let hidden = hidden_of(
        alloc,
        sheet.keys.len(),
        sheet.rows.as_slice(),
        rows.as_slice(),
        cut.to,
    )?;
    Ok(Part {
        is_cut: rows.len() < sheet.rows.len(),
        rows,
        sessions,
        columns,
        keys,
        hidden,
    })
}

/// The part of a sheet with these keys, which are its own, in order. What a cut names and the sheet
/// does not have makes no difference.
pub fn part_of<'a>(
    alloc: Global,
    sheet: &'a Sheet,
    keys: &[Key],
    cut: Cut<'_>,
) -> Result<Part<'a>, AllocError>
    ensures { IfOk result (λ part. IsCut cut.entry sheet.entry.now part.rows.items) }
{
    let keys = keys_of(alloc, sheet.keys.as_slice(), keys, cut.keys)?;
    cut_of(alloc, sheet, keys, cut)
}

/// All of a sheet.
pub fn whole_of<'a>(alloc: Global, sheet: &'a Sheet) -> Result<Part<'a>, AllocError> {
    let keys = all_keys(alloc, sheet.keys.as_slice())?;
    cut_of(alloc, sheet, keys, Cut::ALL)
}
