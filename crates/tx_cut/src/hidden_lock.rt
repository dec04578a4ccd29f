//! What lines that are not shown changed of locks.
use crate::rows::{ShownRow, is_next};
use std::alloc::{AllocError, Global};
use std::mem;
use tx_sheet::{Change, Row, SeenLock, is_same_lock};

/// What stands on a key since a line that is not shown.
#[derive(Clone, Copy)]
pub struct HiddenLock<'a> {
    /// The place of the key.
    pub key: usize,
    /// Its lock; None where it has none any more.
    pub lock: Option<SeenLock>,
    /// The value of a put whose lock stands there, as it is shown; else empty.
    pub value: &'a str,
}

// What changed since the last row that is shown: of each key its place among these.
#[derive(Drop)]
struct Since<'a> {
    alloc: Global,
    locks: Vec<HiddenLock<'a>>,
    places: Vec<Option<usize>>,
}

impl<'a> Since<'a> {
    // Nothing of so many keys.
    fn new(alloc: Global, keys: usize) -> Result<Since<'a>, AllocError> {
        let mut places = Vec::new(alloc);
        for _ in 0..keys {
            places.push(None)?;
        }
        Ok(Since {
            alloc,
            locks: Vec::new(alloc),
            places,
        })
    }

    // The place of a key among those that changed.
    fn place_of(&self, key: usize) -> Option<usize> {
        *self.places.get(key)?
    }

    // Notes what stands on a key.
    fn note(&mut self, lock: HiddenLock<'a>) -> Result<(), AllocError> {
        if let Some(place) = self.place_of(lock.key) {
            if let Some(noted) = self.locks.get_mut(place) {
                *noted = lock;
            }
            return Ok(());
        }
        if let Some(place) = self.places.get_mut(lock.key) {
            *place = Some(self.locks.len());
            self.locks.push(lock)?;
        }
        Ok(())
    }

    // Notes what changed by a row that is not shown.
    fn note_changes(&mut self, changes: &'a [Change]) -> Result<(), AllocError> {
        'changes: for change in changes {
            if !is_same_lock(change.old_lock, change.lock) {
                self.note(HiddenLock {
                    key: change.key,
                    lock: change.lock,
                    value: change.value.as_str(),
                })?;
            }
        }
        Ok(())
    }

    // What changed, of which nothing is noted any more.
    fn take(&mut self) -> Vec<HiddenLock<'a>> {
        let locks = mem::replace(&mut self.locks, Vec::new(self.alloc));
        'locks: for lock in &locks {
            if let Some(place) = self.places.get_mut(lock.key) {
                *place = None;
            }
        }
        locks
    }
}

/// What lines that are not shown changed of locks on so many keys: before each row that is shown,
/// and behind the last, up to the line of this number.
pub(crate) fn hidden_of<'a>(
    alloc: Global,
    keys: usize,
    rows: &'a [Row],
    shown: &[ShownRow<'_>],
    to: u64,
) -> Result<Vec<Vec<HiddenLock<'a>>>, AllocError> {
    let mut since = Since::new(alloc, keys)?;
    let mut all = Vec::new(alloc);
    'rows: for (place, row) in rows.iter().enumerate() {
        if is_next(shown, all.len(), place) {
            all.push(since.take())?;
        } else if (place as u64) < to {
            since.note_changes(row.changes.as_slice())?;
        }
    }
    all.push(since.take())?;
    Ok(all)
}
