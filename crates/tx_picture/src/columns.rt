//! Where the columns of a text stand.
use crate::entry::Entry;
use std::alloc::{AllocError, Global};
use tx_cut::{Part, places, shown};

/// The widest that a column is, but for the places between columns.
const MAX_WIDTH: usize = 34;

/// How many places lie between two columns.
pub(crate) const BETWEEN: usize = 2;

/// How many places the number of a line takes.
pub(crate) const MARGIN: usize = 6;

/// The least that is left for what changed, where a line is to have so many places.
const LEAST_ROOM: usize = 20;

/// A column that is narrower is hard to read.
const LEAST_WIDTH: usize = 12;

/// A column: where it begins, and how wide it is.
#[derive(Clone, Copy, Drop)]
pub(crate) struct Column {
    pub begins: usize,
    pub width: usize,
}

/// The columns of sessions, and where what changed begins, behind the numbers of lines.
#[derive(Drop)]
pub(crate) struct Columns {
    pub all: Vec<Column>,
    pub total: usize,
    /// Whether all sessions have one column, in which each entry names its own.
    pub by_name: bool,
}

// The width of the widest entry of a column.
fn widest_entry(part: &Part<'_>, entries: &[Entry], column: usize) -> usize {
    let mut width = 0;
    'rows: for (shown, entry) in part.rows.iter().zip(entries) {
        if part.column_of(shown.row) == Some(column) {
            width = places(entry.step.as_str()).max(width);
        }
    }
    width
}

// The width of the widest name at the head of a column.
fn widest_name(alloc: Global, part: &Part<'_>, column: usize) -> Result<usize, AllocError> {
    let mut width = 0;
    'sessions: for life in part.sessions.iter().flatten() {
        if life.column == column {
            let name = shown(alloc, life.name)?;
            width = places(name.as_str()).max(width);
        }
    }
    Ok(width)
}

// How wide columns have to be for their names and entries, each at most as wide as any is.
fn widths_of(alloc: Global, part: &Part<'_>, entries: &[Entry]) -> Result<Vec<usize>, AllocError> {
    let mut widths = Vec::new(alloc);
    for place in 0..part.columns {
        let widest = widest_entry(part, entries, place);
        widths.push(widest_name(alloc, part, place)?.max(widest).min(MAX_WIDTH))?;
    }
    Ok(widths)
}

// How many places columns take, each at most so wide.
fn total_of(widths: &[usize], most: usize) -> usize {
    let mut total = 0usize;
    'widths: for width in widths {
        total = total
            .saturating_add((*width).min(most))
            .saturating_add(BETWEEN);
    }
    total
}

// How wide columns are at most that leave room for what changed in lines of so many places: at
// least one place.
fn most_within(widths: &[usize], width: usize) -> usize {
    let room = width.saturating_sub(MARGIN + LEAST_ROOM);
    let mut most = MAX_WIDTH;
    for _ in 1..MAX_WIDTH {
        if total_of(widths, most) > room {
            most = most.saturating_sub(1);
        }
    }
    most
}

// The width of the widest of these entries.
fn widest_of(entries: &[Entry]) -> usize {
    let mut width = 0;
    'rows: for entry in entries {
        width = places(entry.step.as_str()).max(width);
    }
    width
}

impl Columns {
    /// The columns of a part whose rows have these words, in lines of so many places. None where
    /// they would be too narrow to be read.
    pub fn of(
        alloc: Global,
        part: &Part<'_>,
        entries: &[Entry],
        width: Option<usize>,
    ) -> Result<Option<Columns>, AllocError> {
        let widths = widths_of(alloc, part, entries)?;
        let most = match width {
            Some(width) => most_within(widths.as_slice(), width),
            None => MAX_WIDTH,
        };
        if most < LEAST_WIDTH && part.columns > 1 {
            return Ok(None);
        }
        let mut all = Vec::new(alloc);
        let mut begins = 0usize;
        'widths: for width in &widths {
            let width = (*width).min(most).saturating_add(BETWEEN);
            all.push(Column { begins, width })?;
            begins = begins.saturating_add(width);
        }
        Ok(Some(Columns {
            all,
            total: begins,
            by_name: false,
        }))
    }

    /// One column in lines of so many places, whose entries, which name their sessions, have these
    /// words.
    pub fn by_name(
        alloc: Global,
        entries: &[Entry],
        width: Option<usize>,
    ) -> Result<Columns, AllocError> {
        let room = match width {
            Some(width) => width.saturating_sub(MARGIN + BETWEEN + LEAST_ROOM),
            None => MAX_WIDTH,
        };
        let most = room.max(LEAST_WIDTH).min(MAX_WIDTH);
        let width = widest_of(entries).min(most).saturating_add(BETWEEN);
        let mut all = Vec::new(alloc);
        all.push(Column { begins: 0, width })?;
        Ok(Columns {
            all,
            total: width,
            by_name: true,
        })
    }

    /// Where a row of a column begins; one of none as the first.
    pub fn begins(&self, column: Option<usize>) -> usize {
        match column {
            Some(place) => match self.all.get(place) {
                Some(column) => column.begins,
                None => 0,
            },
            None => 0,
        }
    }
}
