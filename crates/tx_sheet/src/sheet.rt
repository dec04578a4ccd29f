//! The sheet of a script that was played.
ghost use Rattle.std.specs.Prelude.{◌≡◌, ◌+◌, [], ℕ, Some, length, min, map, option_map, replicate, None, slice_get, IfOk, OnOk};
ghost use Rattle.tx_sheet.specs.Changes.{noted};
ghost use Rattle.tx_sheet.specs.Rows.{last_before, AreRows, IsSheetOf};

use crate::changes::note_shown;
use crate::row::{KeyColumn, Row, Sheet};
use crate::sessions::Sessions;
use crate::signs::{Shown, signs_of};
use crate::values::Values;
use crate::walk::Played;
use crate::words::shown_bytes;
use std::alloc::{AllocError, Global};
use tx_cells::KeyVersions;
use tx_film::{Film, Frame, bounds_in};
use tx_text::Broken;
use tx_types::Key;

/// What the words of the rows before have led to: the sessions, and the values of puts.
#[derive(Drop)]
struct Told {
    sessions: Sessions,
    values: Values,
}

// The place of the region of a key.
fn region_of(bounds: &[Key], key: &Key) -> usize {
    bounds.iter().filter(|bound| **bound <= *key).count()
}

fn columns_of(alloc: Global, bounds: &[Key], keys: &[Key]) -> Result<Vec<KeyColumn>, AllocError>
    ensures { IfOk result (λ columns. length columns.items ≡ length keys.now) }
{
    let mut columns = Vec::new(alloc);
    'keys: for key in keys {
        let name = shown_bytes(alloc, key.as_bytes())?;
        let region = region_of(bounds, key);
        columns.push(KeyColumn { name, region })?;
    }
    Ok(columns)
}

// Puts the row of the line at this place behind rows, by its frame, where this was shown of keys
// last.
fn put_row<'k>(
    alloc: Global,
    of: Shown<'k>,
    rows: &mut Vec<Row>,
    last: &mut Vec<Option<&'k KeyVersions>>,
    told: &mut Told,
    line: &[u8],
    frame: &'k Frame,
) -> Result<(), Broken>
    ensures rows { OnOk result ((place : ℕ) → slice_get of.entry.film.now.frames place ≡ Some frame.now
        → map (option_map (λ s. s.now)) last.old.items
        ≡ last_before (length of.entry.keys.now) of.entry.film.now.frames place
        → AreRows of.entry.keys.now of.entry.film.now of.entry.machine place rows.old.items
        → AreRows of.entry.keys.now of.entry.film.now of.entry.machine (place + 1) rows.new.items) }
    ensures last { OnOk result (map (option_map (λ s. s.now)) last.new.items
        ≡ noted (map (option_map (λ s. s.now)) last.old.items) frame.now.keys.items) }
{
    let place = rows.len();
    let signs = signs_of(alloc, of, last.as_slice(), &mut told.values, place, frame)?;
    note_shown(last, frame.keys.as_slice());
    let words = told.sessions.words(
        alloc,
        Played {
            place,
            line,
            frame,
            is_taken: !of.film.takings(place).is_empty(),
        },
    )?;
    Ok(rows.push(Row {
        kind: words.kind,
        session: words.session,
        step: words.step,
        sending: words.sending,
        held: words.held,
        answer: words.answer,
        reason: words.reason,
        targets: signs.targets,
        goes_beyond: signs.goes_beyond,
        reads: signs.reads,
        changes: signs.changes,
        machine: signs.machine,
    })?)
}

// Nothing was shown yet of so many keys.
fn nothing_shown<'k>(
    alloc: Global,
    count: usize,
) -> Result<Vec<Option<&'k KeyVersions>>, AllocError>
    ensures { IfOk result (λ last. map (option_map (λ s. s.now)) last.items ≡ replicate count None) }
{
    let mut last = Vec::new(alloc);
    'count: for _i in 0..count {
        last.push(None)?;
    }
    Ok(last)
}

// The smaller of two counts.
fn fewer(a: usize, b: usize) -> usize
    ensures { result ≡ min a b }
{
    if a < b { a } else { b }
}

// The rows of lines that were played.
fn rows_of(
    alloc: Global,
    of: Shown<'_>,
    told: &mut Told,
    lines: &[&[u8]],
) -> Result<Vec<Row>, Broken>
    ensures { IfOk result (λ rows. AreRows of.entry.keys.now of.entry.film.now of.entry.machine
        (min (length lines.now) (length of.entry.film.now.frames)) rows.items) }
{
    let mut rows = Vec::new(alloc);
    let mut last = nothing_shown(alloc, of.keys.len())?;
    let frames = of.film.frames();
    let played = &frames[..fewer(lines.len(), frames.len())];
    'frames: for (place, frame) in played.iter().enumerate() {
        put_row(alloc, of, &mut rows, &mut last, told, lines[place], frame)?;
    }
    Ok(rows)
}

/// The sheet of lines that were played, by their film, with these keys; and with the machine's
/// steps where that is asked. It has a row for each line that was played, in order, with just the
/// signs that the film has of it.
pub fn sheet_of(
    alloc: Global,
    keys: &[Key],
    lines: &[&[u8]],
    film: &Film,
    machine: bool,
) -> Result<Sheet, Broken>
    ensures { IfOk result (λ sheet. IsSheetOf keys.now film.now machine (length lines.now) sheet) }
{
    let bounds = match lines.first() {
        Some(line) => bounds_in(alloc, line)?,
        None => Vec::new(alloc),
    };
    let columns = columns_of(alloc, bounds.as_slice(), keys)?;
    let mut told = Told {
        sessions: Sessions::new(alloc),
        values: Values::new(alloc, keys.len())?,
    };
    let of = Shown {
        keys,
        film,
        machine,
    };
    let rows = rows_of(alloc, of, &mut told, lines)?;
    let Told { sessions, .. } = told;
    let (sessions, count) = sessions.into_parts();
    Ok(Sheet {
        sessions,
        columns: count,
        keys: columns,
        rows,
    })
}
