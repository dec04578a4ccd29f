//! The rows of Prewrite.
use crate::table_tests::ask::Ask::{self, Async, BatchRollback, Commit, Get, Prewrite};
use crate::table_tests::ask::What::*;
use crate::table_tests::rows::{RegionRow, Row};
use crate::table_tests::short::Word::*;
use crate::table_tests::short::{ALREADY_ROLLED_BACK, BARE, EXISTS, FUTURE, Short};
use crate::table_tests::states::*;

// In two phases, and async.
const PLAIN: Ask = Prewrite(b'k', 5, Put(1));

const PROMISING: Ask = Async(b'k', 5, 0);

const LOCKED: Short = (Prewritten, 0, 0);

// A read at 11.
const READ: &[Ask] = &[Get(b'k', 11, 0)];

const LOCK_12: [u64; 6] = [12, 10, 0, 0, 0, 0];

const LOCK_16: [u64; 6] = [16, 10, 0, 0, 0, 0];

const LOCK_AND_LONG: [u64; 6] = [6, 10, 0, 0, 0, 1];

const LOCK_ON_5: [u64; 6] = [6, 10, 1, 5, 0, 0];

const AT_10: [u64; 6] = [0, 0, 1, 10, 0, 0];

pub const ROWS: &[Row] = &[
    (SAFE, Prewrite(b'k', 2, Lock), (BelowSafePoint, 3, 0), BARE),
    (FREE, Prewrite(b'k', 21, Lock), FUTURE, BARE),
    (OWN, PLAIN, LOCKED, LOCK_6),
    (ASYNC, PROMISING, (Prewritten, 7, 0), LOCK_7),
    (UNDONE, PLAIN, ALREADY_ROLLED_BACK, AT_5),
    (MARKED, PLAIN, ALREADY_ROLLED_BACK, MARK_5),
    (DONE, PLAIN, (AlreadyCommitted, 8, 0), AT_8),
    (OTHERS, PLAIN, (KeyIsLocked, 4, 5), LOCK_5),
    (NEWER, PLAIN, (WriteConflict, 8, 10), AT_10),
    (SHARED, PLAIN, LOCKED, LOCK_ON_5),
    (FREE, Prewrite(b'k', 5, Put(255)), LOCKED, LOCK_6),
    (FREE, Prewrite(b'k', 5, Put(256)), LOCKED, LOCK_AND_LONG),
    (FREE, Prewrite(b'k', 5, Insert(255)), LOCKED, LOCK_6),
    (FREE, Prewrite(b'k', 5, Insert(256)), LOCKED, LOCK_AND_LONG),
    (FREE, Prewrite(b'k', 5, Delete), LOCKED, LOCK_6),
    (FREE, Prewrite(b'k', 5, Lock), LOCKED, LOCK_6),
    (READ, PROMISING, (Prewritten, 12, 0), LOCK_12),
    (READ, Async(b'k', 15, 0), (Prewritten, 16, 0), LOCK_16),
    (READ, Async(b'k', 5, 12), (Prewritten, 12, 0), LOCK_12),
    (READ, Async(b'k', 5, 11), LOCKED, LOCK_6),
];

const INSERT: Ask = Prewrite(b'k', 5, Insert(1));

// A value from 2 on: short or long, locked since, or deleted at 4 with a rollback at 3.
const VALUE: &[Ask] = &[Prewrite(b'k', 1, Put(1)), Commit(b'k', 1, 2)];

const LONG_VALUE: &[Ask] = &[Prewrite(b'k', 1, Put(300)), Commit(b'k', 1, 2)];

const LOCKED_SINCE: &[Ask] = &[
    Prewrite(b'k', 1, Put(1)),
    Commit(b'k', 1, 2),
    Prewrite(b'k', 3, Lock),
    Commit(b'k', 3, 4),
];

const DELETED: &[Ask] = &[
    Prewrite(b'k', 1, Put(1)),
    Commit(b'k', 1, 2),
    BatchRollback(b'k', 3),
    Prewrite(b'k', 2, Delete),
    Commit(b'k', 2, 4),
];

// An insert reads at its start, 5, where it finds a value, and where its lock is put.
pub const INSERTS: &[RegionRow] = &[
    (FREE, INSERT, LOCKED, [5, 0, 0]),
    (READ, INSERT, LOCKED, [11, 0, 0]),
    (VALUE, INSERT, EXISTS, [5, 0, 0]),
    (LONG_VALUE, INSERT, EXISTS, [5, 0, 0]),
    (LOCKED_SINCE, INSERT, EXISTS, [5, 0, 0]),
    (DELETED, INSERT, LOCKED, [5, 0, 0]),
    (OWN, INSERT, LOCKED, [0, 0, 0]),
    (OWN_OVER_A_VALUE, INSERT, LOCKED, [0, 0, 0]),
    (OTHERS, INSERT, (KeyIsLocked, 4, 5), [0, 0, 0]),
    (NEWER, INSERT, (WriteConflict, 8, 10), [0, 0, 0]),
    (UNDONE, INSERT, ALREADY_ROLLED_BACK, [0, 0, 0]),
    (DONE, INSERT, (AlreadyCommitted, 8, 0), [0, 0, 0]),
];
