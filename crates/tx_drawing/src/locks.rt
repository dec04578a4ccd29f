//! What changed of keys: locks as bars, write records as marks.
use crate::label::{dropped_words, lock_words, record_words};
use crate::layout::{Layout, between_rows};
use crate::markup::{Area, Point, at, put_box, put_mark, put_words};
use std::alloc::{AllocError, Global};
use tx_cut::{Change, HiddenLock, Kind, Row, SeenLock, SeenRecord, is_same_lock};

// How wide a bar is.
const BAR_WIDTH: usize = 8;

// A lock that stands, from so far down on.
#[derive(Clone, Copy, Debug)]
struct Bar {
    from: usize,
    is_async: bool,
}

/// The locks that stand on keys.
#[derive(Drop)]
pub(crate) struct Bars {
    open: Vec<Option<Bar>>,
}

// Appends the bar of a lock that ends so far down, if it began above that.
fn put_bar(out: &mut String, line: usize, bar: Bar, end: usize) -> Result<(), AllocError> {
    if end <= bar.from {
        return Ok(());
    }
    let class = if bar.is_async { "async" } else { "two-phase" };
    let area = Area {
        corner: at(line, bar.from).left(BAR_WIDTH / 2),
        width: BAR_WIDTH,
        height: end.saturating_sub(bar.from).saturating_sub(1),
    };
    put_box(out, class, area)
}

// Appends words beside a key, below so many others.
fn put_beside(out: &mut String, mark: Point, above: usize, words: &str) -> Result<(), AllocError> {
    let place = mark.right(10).down(3).down(above.saturating_mul(10));
    put_words(out, "seen", place, words)
}

// Appends the words of records beside a key, below so many others.
fn put_record_words(
    alloc: Global,
    out: &mut String,
    mark: Point,
    above: usize,
    records: &[SeenRecord],
) -> Result<(), AllocError> {
    let mut line = above;
    'records: for record in records {
        let words = record_words(alloc, *record)?;
        put_beside(out, mark, line, words.as_str())?;
        line = line.saturating_add(1);
    }
    Ok(())
}

// Appends the mark of records that came.
fn put_record_mark(out: &mut String, mark: Point, first: SeenRecord) -> Result<(), AllocError> {
    let class = if first.kind == Kind::Rollback {
        "rollback"
    } else {
        "commit"
    };
    put_mark(out, class, mark.up(6), "l6 6l-6 6l-6 -6z")
}

impl Bars {
    /// No lock stands on so many keys.
    pub fn new(alloc: Global, keys: usize) -> Result<Bars, AllocError> {
        let mut open = Vec::new(alloc);
        for _ in 0..keys {
            open.push(None)?;
        }
        Ok(Bars { open })
    }

    // The lock that stands on a key, which ends.
    fn take(&mut self, key: usize) -> Option<Bar> {
        self.open.get_mut(key)?.take()
    }

    // A lock stands on a key from so far down on.
    fn set(&mut self, key: usize, from: usize, lock: SeenLock) {
        if let Some(open) = self.open.get_mut(key) {
            *open = Some(Bar {
                from,
                is_async: lock.is_async,
            });
        }
    }

    // What stands on a key from a place on: the lock that stood there ends, and one begins, with
    // words beside it below so many others. Below how many the next stand.
    fn put_next(
        &mut self,
        alloc: Global,
        under: &mut String,
        over: &mut String,
        mark: Point,
        above: usize,
        next: HiddenLock<'_>,
    ) -> Result<usize, AllocError> {
        if let Some(bar) = self.take(next.key) {
            put_bar(under, mark.x, bar, mark.y)?;
        }
        let Some(lock) = next.lock else {
            return Ok(above);
        };
        self.set(next.key, mark.y, lock);
        let words = lock_words(alloc, lock, next.value)?;
        put_beside(over, mark, above, words.as_str())?;
        Ok(above.saturating_add(1))
    }

    // What changed of the lock on a key, with words beside it below so many others: below how many
    // the next stand.
    fn put_lock(
        &mut self,
        alloc: Global,
        under: &mut String,
        over: &mut String,
        mark: Point,
        above: usize,
        change: &Change,
    ) -> Result<usize, AllocError> {
        if is_same_lock(change.old_lock, change.lock) {
            return Ok(above);
        }
        let next = HiddenLock {
            key: change.key,
            lock: change.lock,
            value: change.value.as_str(),
        };
        self.put_next(alloc, under, over, mark, above, next)
    }

    // What changed of a key, in the row that is so far down, with words below so many others.
    fn put_change(
        &mut self,
        alloc: Global,
        under: &mut String,
        over: &mut String,
        mark: Point,
        above: usize,
        change: &Change,
    ) -> Result<(), AllocError> {
        let above = self.put_lock(alloc, under, over, mark, above, change)?;
        match change.came.first() {
            Some(first) => {
                put_record_mark(over, mark, *first)?;
                put_record_words(alloc, over, mark, above, change.came.as_slice())
            }
            None if !change.went.is_empty() => {
                let words = dropped_words(alloc, change.went.len())?;
                put_beside(over, mark, above, words.as_str())
            }
            None => Ok(()),
        }
    }

    /// What changed of keys, in the row that is so far down: below its arrow, where that goes on to
    /// another key.
    pub fn put_changes(
        &mut self,
        alloc: Global,
        under: &mut String,
        over: &mut String,
        layout: &Layout,
        y: usize,
        row: &Row,
    ) -> Result<(), AllocError> {
        let above = if row.targets.len() > 1 { 1 } else { 0 };
        'changes: for change in &row.changes {
            if let Some(line) = layout.key_line(change.key) {
                self.put_change(alloc, under, over, at(line, y), above, change)?;
            }
        }
        Ok(())
    }

    /// What lines that are not shown changed of locks, before the row at this place: before the
    /// first from the top on, else between two rows.
    pub fn put_hidden(
        &mut self,
        alloc: Global,
        under: &mut String,
        over: &mut String,
        layout: &Layout,
        place: usize,
        locks: &[HiddenLock<'_>],
    ) -> Result<(), AllocError> {
        let y = between_rows(place);
        'locks: for hidden in locks {
            if let Some(line) = layout.key_line(hidden.key) {
                self.put_next(alloc, under, over, at(line, y), 0, *hidden)?;
            }
        }
        Ok(())
    }

    /// Appends the bars of locks that still stand.
    pub fn put_rest(&mut self, out: &mut String, layout: &Layout) -> Result<(), AllocError> {
        let end = layout.bottom();
        'keys: for (column, open) in layout.keys.iter().zip(self.open.as_slice()) {
            if let (Some(column), Some(bar)) = (column, open) {
                let bar = *bar;
                put_bar(out, column.line, bar, end)?;
            }
        }
        Ok(())
    }
}
