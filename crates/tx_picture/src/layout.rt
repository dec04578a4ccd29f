//! A part of a sheet as text.
use crate::columns::{BETWEEN, Column, Columns, MARGIN};
use crate::entry::{Entry, entries_of, named};
use crate::wrap::{Room, put_spaces, put_words};
use std::alloc::{AllocError, Global};
use tx_cut::{Part, ShownRow, places, put_first, put_number, shown};

// The first session of each column.
fn first_heads(alloc: Global, part: &Part<'_>) -> Result<Vec<usize>, AllocError> {
    let mut heads = Vec::new(alloc);
    'sessions: for (place, life) in part.sessions.iter().enumerate() {
        if let Some(life) = life {
            if life.is_head {
                heads.push(place)?;
            }
        }
    }
    Ok(heads)
}

// Appends the number of a line, in four places.
fn put_line_number(out: &mut String, number: u64) -> Result<(), AllocError> {
    let before = if number < 10 {
        3
    } else if number < 100 {
        2
    } else if number < 1000 {
        1
    } else {
        0
    };
    put_spaces(out, before)?;
    put_number(out, number)?;
    out.push_str("  ")
}

// The machine's steps of a row as one text.
fn machine_words(alloc: Global, steps: &[String]) -> Result<String, AllocError> {
    let mut words = String::new(alloc);
    let mut before = "* ";
    'steps: for step in steps {
        words.push_str(before)?;
        words.push_str(step.as_str())?;
        before = "; ";
    }
    Ok(words)
}

// Appends words on a line of their own, unless there are none; what goes on below them stands two
// places further on.
fn put_below(
    out: &mut String,
    begins: usize,
    width: Option<usize>,
    words: &str,
) -> Result<(), AllocError> {
    if words.is_empty() {
        return Ok(());
    }
    put_spaces(out, begins)?;
    put_words(out, Room::behind(begins, width).further(BETWEEN), words)?;
    out.push('\n')
}

// What stands around the rows.
#[derive(Clone, Copy)]
struct Frame<'a> {
    part: &'a Part<'a>,
    columns: &'a Columns,
    /// How many places a line is to have.
    width: Option<usize>,
}

impl Frame<'_> {
    // The name of a session that has not ended before this row; else nothing.
    fn name_at(&self, alloc: Global, session: usize, row: usize) -> Result<String, AllocError> {
        match self.part.sessions.get(session) {
            Some(Some(life)) if life.ends.unwrap_or(row) >= row => shown(alloc, life.name),
            _ => Ok(String::new(alloc)),
        }
    }

    // Appends a name at the head of a column: as much of it as has room there.
    fn put_name(&self, out: &mut String, column: Column, name: &str) -> Result<(), AllocError> {
        let room = column.width.saturating_sub(BETWEEN);
        if places(name) <= room {
            out.push_str(name)?;
            return put_spaces(out, column.width.saturating_sub(places(name)));
        }
        put_first(out, name, room)?;
        put_spaces(out, BETWEEN)
    }

    // Appends the heads of the columns as they are at a row.
    fn put_head(
        &self,
        alloc: Global,
        out: &mut String,
        heads: &[usize],
        row: usize,
    ) -> Result<(), AllocError> {
        out.push_str("line  ")?;
        if self.columns.by_name {
            put_spaces(out, self.columns.total)?;
            return out.push_str("what changed\n");
        }
        'columns: for (column, session) in self.columns.all.iter().zip(heads) {
            let name = self.name_at(alloc, *session, row)?;
            self.put_name(out, *column, name.as_str())?;
        }
        out.push_str("what changed\n")
    }

    // Appends the heads once more where a session takes the column of another.
    fn put_new_head(
        &self,
        alloc: Global,
        out: &mut String,
        heads: &mut [usize],
        place: usize,
        shown: ShownRow<'_>,
    ) -> Result<(), AllocError> {
        let Some(session) = shown.row.session else {
            return Ok(());
        };
        let Some(column) = self.part.column_of(shown.row) else {
            return Ok(());
        };
        let Some(head) = heads.get_mut(column) else {
            return Ok(());
        };
        if *head == session || self.columns.by_name {
            return Ok(());
        }
        *head = session;
        self.put_head(alloc, out, heads, place)
    }

    // Whether words stand behind an entry that ends there.
    fn has_room(&self, end: usize, words: &str) -> bool {
        let needed = end.saturating_add(BETWEEN).saturating_add(places(words));
        match self.width {
            Some(width) => needed <= width,
            None => true,
        }
    }

    // Appends what changed, behind all columns or behind an entry that runs into them; below an
    // entry that goes on below, and where there is no room for it. The place at which the entry
    // ends is known where that is one line.
    fn put_changes(
        &self,
        out: &mut String,
        end: Option<usize>,
        changes: &str,
    ) -> Result<(), AllocError> {
        if changes.is_empty() {
            return Ok(());
        }
        let behind = self.columns.total.saturating_add(MARGIN);
        match end {
            Some(end) if end < behind => put_spaces(out, behind.saturating_sub(end))?,
            Some(end) if self.has_room(end, changes) => {
                put_spaces(out, BETWEEN)?;
                return out.push_str(changes);
            }
            _ => {
                out.push('\n')?;
                put_spaces(out, behind)?;
            }
        }
        put_words(out, Room::behind(behind, self.width), changes)
    }

    // Appends the words of a step from this place of its line on: where they end, if on that line.
    fn put_step(
        &self,
        out: &mut String,
        begins: usize,
        step: &str,
    ) -> Result<Option<usize>, AllocError> {
        let room = Room::behind(begins, self.width);
        let end = begins.saturating_add(places(step));
        if places(step) <= room.places {
            out.push_str(step)?;
            return Ok(Some(end));
        }
        put_words(out, room.further(BETWEEN), step)?;
        Ok(None)
    }

    // Appends a row.
    fn put_row(
        &self,
        alloc: Global,
        out: &mut String,
        shown: ShownRow<'_>,
        entry: &Entry,
    ) -> Result<(), AllocError> {
        let row = shown.row;
        let begins = self
            .columns
            .begins(self.part.column_of(row))
            .saturating_add(MARGIN);
        put_line_number(out, shown.number)?;
        put_spaces(out, begins.saturating_sub(MARGIN))?;
        let end = self.put_step(out, begins, entry.step.as_str())?;
        self.put_changes(out, end, entry.changes.as_str())?;
        out.push('\n')?;
        if row.is_refused() {
            let reason = format!(in alloc; "^ {}", row.reason)?;
            put_below(out, begins, self.width, reason.as_str())?;
        }
        let steps = machine_words(alloc, row.machine.as_slice())?;
        put_below(out, begins, self.width, steps.as_str())
    }
}

// The text of a part whose rows have these words, in these columns.
fn text_in(
    alloc: Global,
    part: &Part<'_>,
    columns: &Columns,
    entries: &[Entry],
    width: Option<usize>,
) -> Result<String, AllocError> {
    let mut out = String::new(alloc);
    let frame = Frame {
        part,
        columns,
        width,
    };
    let mut heads = first_heads(alloc, part)?;
    frame.put_head(alloc, &mut out, heads.as_slice(), 0)?;
    'rows: for (place, (shown, entry)) in part.rows.iter().zip(entries).enumerate() {
        frame.put_new_head(alloc, &mut out, heads.as_mut_slice(), place, *shown)?;
        frame.put_row(alloc, &mut out, *shown, entry)?;
    }
    Ok(out)
}

/// The text of a part of a sheet: a column a session, a line a step, and beside it what changed of
/// keys. Where a session takes a column that was another's, the heads stand there once more. Where
/// lines are to have at most so many places, what is longer goes on below, but for a single word;
/// and where columns would be too narrow for that, there is one, and each entry names its session.
pub fn text_of(alloc: Global, part: &Part<'_>, width: Option<usize>) -> Result<String, AllocError> {
    let entries = entries_of(alloc, part)?;
    if let Some(columns) = Columns::of(alloc, part, entries.as_slice(), width)? {
        return text_in(alloc, part, &columns, entries.as_slice(), width);
    }
    let entries = named(alloc, part, entries)?;
    let columns = Columns::by_name(alloc, entries.as_slice(), width)?;
    text_in(alloc, part, &columns, entries.as_slice(), width)
}
