//! The rows of RaiseSafe, LocksBelow and Collect.
use crate::table_tests::ask::Ask::{
    self, BatchRollback, Collect, Commit, Get, LocksBelow, Prewrite, RaiseSafe,
};
use crate::table_tests::ask::What::*;
use crate::table_tests::rows::{RegionRow, Row};
use crate::table_tests::short::Word::*;
use crate::table_tests::short::{BARE, FUTURE, RAISED, Short};
use crate::table_tests::states::*;

// A read at 6.
const READ: &[Ask] = &[Get(b'k', 6, 0)];

pub const RAISE_SAFE: &[RegionRow] = &[
    (SAFE, RaiseSafe(21), FUTURE, [0, 3, 0]),
    (SAFE, RaiseSafe(2), (BelowSafePoint, 3, 0), [0, 3, 0]),
    (SAFE, RaiseSafe(3), RAISED, [0, 3, 0]),
    (SAFE, RaiseSafe(20), RAISED, [0, 20, 0]),
    (READ, RaiseSafe(5), RAISED, [6, 5, 0]),
];

// Locks on `a` by 3 and on `c` by 7.
const TWO_LOCKS: &[Ask] = &[Prewrite(b'c', 7, Lock), Prewrite(b'a', 3, Put(1))];

pub const LOCKS_BELOW: &[RegionRow] = &[
    (FREE, LocksBelow(20), (Locks, 0, 0), [0, 0, 0]),
    (TWO_LOCKS, LocksBelow(3), (Locks, 0, 0), [0, 0, 0]),
    (TWO_LOCKS, LocksBelow(4), (Locks, 1, 3), [0, 0, 0]),
    (TWO_LOCKS, LocksBelow(7), (Locks, 1, 3), [0, 0, 0]),
    (TWO_LOCKS, LocksBelow(8), (Locks, 2, 7), [0, 0, 0]),
];

const SAFE_5: &[Ask] = &[RaiseSafe(5)];

// Of these locks the first by key is met.
const REMAINING: &[Ask] = &[
    Prewrite(b'c', 4, Lock),
    Prewrite(b'a', 3, Lock),
    RaiseSafe(5),
];

// This lock did not start below the safe point.
const LATER_LOCK: &[Ask] = &[Prewrite(b'a', 5, Lock), RaiseSafe(5)];

const NONE_GO: Short = (Collected, 0, 0);

pub const COLLECT: &[RegionRow] = &[
    (SAFE_5, Collect(4), (BelowSafePoint, 5, 0), [0, 5, 0]),
    (SAFE_5, Collect(6), (BelowSafePoint, 5, 0), [0, 5, 0]),
    (REMAINING, Collect(5), (LocksRemain, 3, 4), [0, 5, 0]),
    (LATER_LOCK, Collect(5), NONE_GO, [0, 5, 5]),
    (FREE, Collect(0), NONE_GO, [0, 0, 0]),
];

// A put at 2, a newer one at 4, and a rollback at the safe point.
const TWO_PUTS: &[Ask] = &[
    Prewrite(b'k', 1, Put(300)),
    Commit(b'k', 1, 2),
    Prewrite(b'k', 3, Put(300)),
    Commit(b'k', 3, 4),
    BatchRollback(b'k', 5),
    RaiseSafe(5),
];

// A put at 2 that is deleted at 4.
const DELETED: &[Ask] = &[
    Prewrite(b'k', 1, Put(300)),
    Commit(b'k', 1, 2),
    Prewrite(b'k', 3, Delete),
    Commit(b'k', 3, 4),
    RaiseSafe(5),
];

// A put at 2, and one at the safe point.
const PUT_AT_SAFE: &[Ask] = &[
    Prewrite(b'k', 1, Put(1)),
    Commit(b'k', 1, 2),
    Prewrite(b'k', 4, Put(1)),
    Commit(b'k', 4, 5),
    RaiseSafe(5),
];

// A put at 2, a lock's record at the safe point, a rollback and a lock's record below it.
const PUT_AND_OTHERS: &[Ask] = &[
    Prewrite(b'k', 1, Put(1)),
    Commit(b'k', 1, 2),
    Prewrite(b'k', 2, Lock),
    Commit(b'k', 2, 3),
    BatchRollback(b'k', 4),
    Prewrite(b'k', 3, Lock),
    Commit(b'k', 3, 5),
    RaiseSafe(5),
];

const TWO_AND_LONG: [u64; 6] = [0, 0, 2, 5, 0, 1];

const TWO: [u64; 6] = [0, 0, 2, 5, 0, 0];

pub const COLLECT_ON_KEY: &[Row] = &[
    (TWO_PUTS, Collect(5), (Collected, 1, 1), TWO_AND_LONG),
    (DELETED, Collect(5), (Collected, 2, 1), BARE),
    (PUT_AT_SAFE, Collect(5), (Collected, 1, 0), AT_5),
    (PUT_AND_OTHERS, Collect(5), (Collected, 2, 0), TWO),
];
