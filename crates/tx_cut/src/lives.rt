//! The sessions of which something is shown, and their columns.
use crate::cut::Cut;
use std::alloc::{AllocError, Global};
use tx_sheet::Session;

/// A session that lives while lines are shown.
#[derive(Clone, Copy)]
pub struct Life<'a> {
    pub name: &'a str,
    /// Where its transaction started.
    pub start: Option<u64>,
    /// Its column: that of no other session that lives.
    pub column: usize,
    /// Whether it is the first of its column.
    pub is_head: bool,
    /// The place of its first row among those that are shown; the first place where it began before
    /// them.
    pub begins: usize,
    /// The place of the row by which it ended, where that is shown.
    pub ends: Option<usize>,
}

// Which column of a sheet has become which of a part, and how many there are of these.
#[derive(Drop)]
struct Columns {
    taken: Vec<Option<usize>>,
    count: usize,
}

impl Columns {
    // None of so many is taken.
    fn new(alloc: Global, count: usize) -> Result<Columns, AllocError> {
        let mut taken = Vec::new(alloc);
        for _ in 0..count {
            taken.push(None)?;
        }
        Ok(Columns { taken, count: 0 })
    }

    // The column that one of a sheet has become, and whether just now.
    fn take(&mut self, column: usize) -> (usize, bool) {
        if let Some(Some(taken)) = self.taken.get(column) {
            return (*taken, false);
        }
        let next = self.count;
        if let Some(place) = self.taken.get_mut(column) {
            *place = Some(next);
            self.count = next.saturating_add(1);
        }
        (next, true)
    }
}

// The number of the line of a row.
fn number_of(place: usize) -> u64 {
    (place as u64).saturating_add(1)
}

// Whether a session lives while lines are shown.
fn is_lived(cut: Cut<'_>, session: &Session) -> bool {
    let is_over = match session.ends {
        Some(last) => number_of(last) < cut.from,
        None => false,
    };
    !is_over && number_of(session.begins) <= cut.to
}

// The place of the row by which a session ended, where that is shown, by how many are shown before
// each row.
fn end_of(cut: Cut<'_>, session: &Session, counts: &[usize]) -> Option<usize> {
    let last = session.ends?;
    if cut.to < number_of(last) {
        return None;
    }
    counts.get(last).copied()
}

/// Of each session what is shown of it, and how many columns there are: of those that are named and
/// live while lines are shown, by how many rows are shown before each.
pub(crate) fn lives_of<'a>(
    alloc: Global,
    sessions: &'a [Session],
    columns: usize,
    cut: Cut<'_>,
    named: &[bool],
    counts: &[usize],
) -> Result<(Vec<Option<Life<'a>>>, usize), AllocError> {
    let mut columns = Columns::new(alloc, columns)?;
    let mut lives = Vec::new(alloc);
    'sessions: for (session, is_named) in sessions.iter().zip(named) {
        if !*is_named || !is_lived(cut, session) {
            lives.push(None)?;
            continue;
        }
        let (column, is_head) = columns.take(session.column);
        lives.push(Some(Life {
            name: session.name.as_str(),
            start: session.start,
            column,
            is_head,
            begins: counts.get(session.begins).copied().unwrap_or(0),
            ends: end_of(cut, session, counts),
        }))?;
    }
    Ok((lives, columns.count))
}
