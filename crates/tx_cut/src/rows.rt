//! Which rows are shown.
ghost use Rattle.std.specs.Prelude.{◌≡◌, ◌++◌, map, IfOk, OnOk};
ghost use Rattle.tx_cut.specs.Parts.{is_named, is_of, is_shown, if_shown, shown_behind, numbered};

use crate::cut::Cut;
use std::alloc::{AllocError, Global};
use tx_sheet::{Row, Session};

/// A row that is shown.
#[derive(Clone, Copy)]
pub struct ShownRow<'a> {
    /// The number of its line in the script, from 1 up.
    pub number: u64,
    pub row: &'a Row,
}

// Whether a session has one of these names: each has where none is said.
fn has_name(names: &[&str], session: &Session) -> bool
    ensures { result ≡ is_named names.now session.now }
{
    names.is_empty() || names.contains(&session.name.as_str())
}

/// Of each session whether it has one of these names.
pub(crate) fn named_of(
    alloc: Global,
    sessions: &[Session],
    names: &[&str],
) -> Result<Vec<bool>, AllocError>
    ensures { IfOk result (λ named. named.items ≡ map (is_named names.now) sessions.now) }
{
    let mut named = Vec::new(alloc);
    'sessions: for session in sessions {
        named.push(has_name(names, session))?;
    }
    Ok(named)
}

// Whether a row is of a session that is named, or of none.
fn is_of_named(named: &[bool], row: &Row) -> bool
    ensures { result ≡ is_of named.now row.now.session }
{
    match row.session {
        Some(session) => named.get(session).copied().unwrap_or(false),
        None => true,
    }
}

// Whether the row of the line of this number is shown.
fn shows(cut: Cut<'_>, named: &[bool], number: u64, row: &Row) -> bool
    ensures { result ≡ is_shown cut.entry named.now number row.now }
{
    cut.from <= number && number <= cut.to && is_of_named(named, row)
}

// Puts the row of the line of this number behind others, if it is shown.
fn put_row<'a>(
    shown: &mut Vec<ShownRow<'a>>,
    cut: Cut<'_>,
    named: &[bool],
    number: u64,
    row: &'a Row,
) -> Result<(), AllocError>
    ensures { OnOk result (map numbered shown.new.items
        ≡ map numbered shown.old.items ++ if_shown cut.entry named.now number row.entry.now) }
{
    if shows(cut, named, number, row) {
        shown.push(ShownRow { number, row })?;
    }
    Ok(())
}

/// The rows that are shown, of sessions of each of which it is said whether it is named.
pub(crate) fn rows_of<'a>(
    alloc: Global,
    rows: &'a [Row],
    cut: Cut<'_>,
    named: &[bool],
) -> Result<Vec<ShownRow<'a>>, AllocError>
    ensures { IfOk result (λ shown. map numbered shown.items ≡ shown_behind cut.entry named.now 0 rows.entry.now) }
{
    let mut shown = Vec::new(alloc);
    for place in 0..rows.len() {
        put_row(&mut shown, cut, named, place as u64 + 1, &rows[place])?;
    }
    Ok(shown)
}

/// Of each of so many rows how many that are shown stand before it.
pub(crate) fn counts_of(
    alloc: Global,
    count: usize,
    shown: &[ShownRow<'_>],
) -> Result<Vec<usize>, AllocError> {
    let mut counts = Vec::new(alloc);
    let mut before = 0usize;
    for place in 0..count {
        counts.push(before)?;
        if is_next(shown, before, place) {
            before = before.saturating_add(1);
        }
    }
    Ok(counts)
}

/// Whether the row at this place of a sheet is the next that is shown behind so many.
pub(crate) fn is_next(shown: &[ShownRow<'_>], before: usize, place: usize) -> bool {
    match shown.get(before) {
        Some(next) => next.number == (place as u64).saturating_add(1),
        None => false,
    }
}
