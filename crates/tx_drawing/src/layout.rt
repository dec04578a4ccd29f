//! Where the rows and columns of a drawing stand, in its units.
use crate::label::{lock_words, machine_words, read_words, record_words};
use std::alloc::{AllocError, Global};
use tx_cut::{Change, HiddenLock, KeyColumn, KeyRead, Part, Row, RowKind, ShownRow, places, shown};

/// Where the heads of columns stand.
pub(crate) const HEAD: usize = 48;

/// Where the lines of columns begin.
pub(crate) const TOP: usize = 58;

/// How far down a row is from the one before.
const ROW_HEIGHT: usize = 32;

/// How far above a row stands what lines before it changed that are not shown.
const BEFORE_ROW: usize = 10;

/// Where the first column begins: the numbers of lines stand before it.
pub(crate) const LEFT: usize = 36;

/// The least width of a session's column: what is lost or held stands in it.
const MIN_WIDTH: usize = 150;

/// How wide a place of a step's words is, and one of the smaller words.
pub(crate) const PLACE: usize = 7;

pub(crate) const SMALL_PLACE: usize = 6;

/// A column of a drawing.
#[derive(Clone, Copy, Debug, Drop)]
pub(crate) struct Column {
    pub begins: usize,
    /// Where its line stands.
    pub line: usize,
    pub width: usize,
}

/// Where columns stand, and how large a drawing is.
#[derive(Drop)]
pub(crate) struct Layout {
    pub sessions: Vec<Column>,
    /// The column of steps of no session, where there are some.
    pub system: Option<Column>,
    /// The column of each key of the sheet that is shown.
    pub keys: Vec<Option<Column>>,
    /// The column of the machine's steps, where some are shown.
    pub machine: Option<Column>,
    pub width: usize,
    pub height: usize,
}

impl Column {
    /// Where the next column begins.
    pub fn ends(self) -> usize {
        self.begins.saturating_add(self.width)
    }
}

/// How far down the row at this place is.
pub(crate) fn row_height(place: usize) -> usize {
    place
        .saturating_mul(ROW_HEIGHT)
        .saturating_add(TOP + ROW_HEIGHT)
}

/// How far down it is before the row at this place: the top before the first.
pub(crate) fn between_rows(place: usize) -> usize {
    if place == 0 {
        TOP
    } else {
        row_height(place).saturating_sub(BEFORE_ROW)
    }
}

// The column of steps of a session, whose widest words take so many places.
fn session_column(begins: usize, widest: usize) -> Column {
    let width = widest
        .saturating_mul(PLACE)
        .saturating_add(20)
        .max(MIN_WIDTH);
    Column {
        begins,
        line: begins.saturating_add(width / 2),
        width,
    }
}

// The column of a key, beside which words take so many places.
fn key_column(begins: usize, widest: usize) -> Column {
    Column {
        begins,
        line: begins.saturating_add(24),
        width: widest.saturating_mul(SMALL_PLACE).saturating_add(46),
    }
}

// Whether a row is a step in this column of sessions, or of no session.
fn is_in(part: &Part<'_>, row: &Row, column: Option<usize>) -> bool {
    row.kind == RowKind::Step && part.column_of(row) == column
}

// The places of the widest words over the steps in a column of sessions, or of no session; None
// where there are no steps.
fn widest_label(part: &Part<'_>, labels: &[String], column: Option<usize>) -> Option<usize> {
    let mut widest = None;
    'rows: for (shown, label) in part.rows.iter().zip(labels) {
        if is_in(part, shown.row, column) {
            widest = Some(places(label.as_str()).max(widest.unwrap_or(0)));
        }
    }
    widest
}

// The places of the widest name of the sessions of a column.
fn widest_name(alloc: Global, part: &Part<'_>, column: usize) -> Result<usize, AllocError> {
    let mut widest = 0;
    'sessions: for life in part.sessions.iter().flatten() {
        if life.column == column {
            let name = shown(alloc, life.name)?;
            widest = places(name.as_str()).max(widest);
        }
    }
    Ok(widest)
}

// The columns of sessions, and where the next column begins.
fn session_columns(
    alloc: Global,
    part: &Part<'_>,
    labels: &[String],
) -> Result<(Vec<Column>, usize), AllocError> {
    let mut columns = Vec::new(alloc);
    let mut begins = LEFT;
    for place in 0..part.columns {
        let widest = widest_label(part, labels, Some(place)).unwrap_or(0);
        let column = session_column(begins, widest.max(widest_name(alloc, part, place)?));
        begins = column.ends();
        columns.push(column)?;
    }
    Ok((columns, begins))
}

// The column of steps of no session, where there are some.
fn system_column(part: &Part<'_>, labels: &[String], begins: usize) -> Option<Column> {
    let widest = widest_label(part, labels, None)?;
    Some(session_column(begins, widest))
}

// Notes that so many places are taken beside a key.
fn widen(widths: &mut [usize], key: usize, places: usize) {
    if let Some(width) = widths.get_mut(key) {
        *width = places.max(*width);
    }
}

// Notes what is taken beside a key by records that came.
fn widen_records(alloc: Global, widths: &mut [usize], change: &Change) -> Result<(), AllocError> {
    'records: for record in &change.came {
        let words = record_words(alloc, *record)?;
        widen(widths, change.key, places(words.as_str()));
    }
    Ok(())
}

// Notes what is taken beside keys by what changed of them.
fn widen_changes(
    alloc: Global,
    widths: &mut [usize],
    changes: &[Change],
) -> Result<(), AllocError> {
    'changes: for change in changes {
        if let Some(lock) = change.lock {
            let words = lock_words(alloc, lock, change.value.as_str())?;
            widen(widths, change.key, places(words.as_str()));
        }
        widen_records(alloc, widths, change)?;
    }
    Ok(())
}

// Notes what is taken beside keys by what was read there.
fn widen_reads(alloc: Global, widths: &mut [usize], reads: &[KeyRead]) -> Result<(), AllocError> {
    'reads: for read in reads {
        let words = read_words(alloc, read)?;
        widen(widths, read.key, places(words.as_str()));
    }
    Ok(())
}

// Notes what is taken beside keys by locks that stand there since lines that are not shown.
fn widen_hidden(
    alloc: Global,
    widths: &mut [usize],
    locks: &[HiddenLock<'_>],
) -> Result<(), AllocError> {
    'locks: for hidden in locks {
        if let Some(lock) = hidden.lock {
            let words = lock_words(alloc, lock, hidden.value)?;
            widen(widths, hidden.key, places(words.as_str()));
        }
    }
    Ok(())
}

// How many places a name at the head of a key's column takes, where the key is shown.
fn name_width(key: Option<&KeyColumn>) -> usize {
    match key {
        Some(key) => places(key.name.as_str()).max(8),
        None => 0,
    }
}

// How many places the names of keys take.
fn name_widths(alloc: Global, part: &Part<'_>) -> Result<Vec<usize>, AllocError> {
    let mut widths = Vec::new(alloc);
    'keys: for key in &part.keys {
        widths.push(name_width(*key))?;
    }
    Ok(widths)
}

// Notes what is taken beside keys by a row.
fn widen_row(alloc: Global, widths: &mut [usize], row: &Row) -> Result<(), AllocError> {
    widen_changes(alloc, widths, row.changes.as_slice())?;
    widen_reads(alloc, widths, row.reads.as_slice())
}

// How many places are taken beside each key.
fn key_widths(alloc: Global, part: &Part<'_>) -> Result<Vec<usize>, AllocError> {
    let mut widths = name_widths(alloc, part)?;
    'rows: for (place, hidden) in part.hidden.iter().enumerate() {
        widen_hidden(alloc, widths.as_mut_slice(), hidden.as_slice())?;
        if let Some(shown) = part.rows.get(place) {
            widen_row(alloc, widths.as_mut_slice(), shown.row)?;
        }
    }
    Ok(widths)
}

// The columns of keys that are shown, and where they end.
fn key_columns(
    alloc: Global,
    part: &Part<'_>,
    widths: &[usize],
    first: usize,
) -> Result<(Vec<Option<Column>>, usize), AllocError> {
    let mut columns = Vec::new(alloc);
    let mut begins = first;
    'keys: for (key, width) in part.keys.iter().zip(widths) {
        if key.is_none() {
            columns.push(None)?;
            continue;
        }
        let column = key_column(begins, *width);
        begins = column.ends();
        columns.push(Some(column))?;
    }
    Ok((columns, begins))
}

// The places of the widest words of the machine's steps at a row.
fn machine_width(alloc: Global, rows: &[ShownRow<'_>]) -> Result<usize, AllocError> {
    let mut widest = 0;
    'rows: for shown in rows {
        let words = machine_words(alloc, shown.row)?;
        widest = places(words.as_str()).max(widest);
    }
    Ok(widest)
}

// The column of the machine's steps, where some are shown.
fn machine_column(
    alloc: Global,
    part: &Part<'_>,
    begins: usize,
) -> Result<Option<Column>, AllocError> {
    match machine_width(alloc, part.rows.as_slice())? {
        0 => Ok(None),
        widest => Ok(Some(key_column(begins, widest.max(8)))),
    }
}

impl Layout {
    /// Where the columns of a part of a sheet stand, whose steps have these words.
    pub fn of(alloc: Global, part: &Part<'_>, labels: &[String]) -> Result<Layout, AllocError> {
        let (sessions, end) = session_columns(alloc, part, labels)?;
        let system = system_column(part, labels, end);
        let end = match system {
            Some(column) => column.ends(),
            None => end,
        };
        let widths = key_widths(alloc, part)?;
        let (keys, end) = key_columns(alloc, part, widths.as_slice(), end.saturating_add(20))?;
        let machine = machine_column(alloc, part, end.saturating_add(20))?;
        let end = match machine {
            Some(column) => column.ends(),
            None => end,
        };
        let mut layout = Layout {
            sessions,
            system,
            keys,
            machine,
            width: end.saturating_add(10),
            height: row_height(part.rows.len()).saturating_add(6),
        };
        layout.widen_to_reasons(part);
        Ok(layout)
    }

    /// This column of sessions, or that of steps of no session.
    pub fn sender(&self, column: Option<usize>) -> Option<Column> {
        match column {
            Some(place) => self.sessions.get(place).copied(),
            None => self.system,
        }
    }

    /// Where the reason of a refused step begins.
    pub fn reason_begins(&self, part: &Part<'_>, row: &Row) -> usize {
        match self.sender(part.column_of(row)) {
            Some(column) => column.begins.saturating_add(8),
            None => LEFT,
        }
    }

    // Makes room for the reasons of refusals.
    fn widen_to_reasons(&mut self, part: &Part<'_>) {
        'rows: for shown in &part.rows {
            let taken = places(shown.row.reason.as_str()).saturating_mul(SMALL_PLACE);
            let end = self
                .reason_begins(part, shown.row)
                .saturating_add(taken)
                .saturating_add(10);
            self.width = self.width.max(end);
        }
    }

    /// Where the line of a key stands, where that is shown.
    pub fn key_line(&self, key: usize) -> Option<usize> {
        let column = (*self.keys.get(key)?)?;
        Some(column.line)
    }

    /// How far down the lines of columns end.
    pub fn bottom(&self) -> usize {
        self.height.saturating_sub(12)
    }
}
