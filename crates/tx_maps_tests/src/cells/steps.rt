//! The steps of a scenario: what is asked of the families, and what the rules say to it. A key is
//! one byte, and a value is known by its length.
use crate::cells::asks::{collect, commit, prewrite, put, roll_back, stays};
use crate::cells::finds::{blocked, ends, met, read, remain, rows, stands, told};
use std::alloc::Global;
use tx_cells::Families;
use tx_types::{Fault, Mutation};

/// A key, and the start of a transaction or a timestamp.
pub type At = (u8, u64);

/// From, to, timestamp and limit of a scan.
pub type Range = (u8, u8, u64, u32);

/// What is at a timestamp of a key.
#[derive(Clone, Copy, Debug, PartialEq, Eq)]
pub enum Record {
    Absent,
    Commit,
    /// A commit record with the mark of a rollback.
    Marked,
    Rollback,
}

/// One step.
#[derive(Clone, Copy, Debug)]
pub enum Step {
    /// The transaction that started then locks the key, to put a value of so many bytes.
    Put(At, usize),
    /// The same, to delete.
    Delete(At),
    /// The same, to change nothing.
    Lock(At),
    /// The transaction that started then commits at this timestamp.
    Commit(At, u64),
    /// The transaction that started then is rolled back.
    RollBack(At),
    /// It is rolled back already, and rolling it back changes nothing.
    Stays(At),
    /// No lock started below the safe point; so many records and long values go.
    Collect(u64, u64, u64),
    /// A read then sees a value of so many bytes.
    Sees(At, usize),
    /// A read then sees no value.
    SeesNone(At),
    /// The start of the key's lock, or 0; how many write records there are, and how
    /// many values apart.
    Stands(At, usize, usize),
    /// What is at this timestamp.
    Has(At, Record),
    /// The start and the minimum that are told of the key's lock.
    Told(At, u64),
    /// Of the locks that started below a timestamp, the key of the first, and how many they are.
    Remain(u64, u8, usize),
    /// A scan gives so many rows, up to this key.
    Rows(Range, usize, u8),
    /// The last row of a scan is of this key, with a value of so many bytes.
    Ends(Range, u8, usize),
    /// A scan meets the lock on this key.
    Blocked(Range, u8),
}

// Whether what is found is as the rules say.
fn finds<F: Families>(alloc: Global, families: &F, step: Step) -> Result<bool, Fault> {
    match step {
        Step::Sees(at, bytes) => read(alloc, families, at, Some(bytes)),
        Step::SeesNone(at) => read(alloc, families, at, None),
        Step::Stands(lock, records, values) => stands(alloc, families, lock, (records, values)),
        Step::Has(at, record) => met(alloc, families, at, record),
        Step::Told(lock, min) => told(alloc, families, lock, min),
        Step::Remain(safe, first, count) => remain(alloc, families, safe, (first, count)),
        Step::Rows(range, count, last) => rows(alloc, families, range, (count, last)),
        Step::Ends(range, key, bytes) => ends(alloc, families, range, (key, bytes)),
        Step::Blocked(range, key) => blocked(alloc, families, range, key),
        _ => Ok(false),
    }
}

// Whether a step goes as the rules say.
fn try_step<F: Families>(alloc: Global, families: &mut F, step: Step) -> Result<bool, Fault> {
    match step {
        Step::Put(at, bytes) => put(alloc, families, at, bytes),
        Step::Delete(at) => prewrite(alloc, families, at, Mutation::Delete),
        Step::Lock(at) => prewrite(alloc, families, at, Mutation::Lock),
        Step::Commit(at, to) => commit(alloc, families, at, to),
        Step::RollBack(at) => roll_back(alloc, families, at),
        Step::Stays(at) => stays(alloc, families, at),
        Step::Collect(safe, records, values) => collect(alloc, families, safe, (records, values)),
        found => finds(alloc, families, found),
    }
}

/// Whether a step goes as the rules say. Where memory was refused, all is as it was, so that it
/// goes so once it is asked again.
pub fn goes<F: Families>(alloc: Global, families: &mut F, asked: Step) -> bool {
    match try_step(alloc, families, asked).ok() {
        Some(right) => right,
        None => try_step(alloc, families, asked).ok() == Some(true),
    }
}

/// How many steps go as the rules say, one after the other.
pub fn steps_that_go<F: Families>(alloc: Global, families: &mut F, steps: &[Step]) -> usize {
    let mut went = 0;
    for (n, step) in steps.iter().enumerate() {
        if !goes(alloc, families, *step) {
            return n;
        }
        went = n + 1;
    }
    went
}
