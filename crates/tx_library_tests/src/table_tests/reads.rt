//! The rows of Get and Scan.
use crate::table_tests::ask::Ask::{self, BatchRollback, Commit, Get, Prewrite, Scan};
use crate::table_tests::ask::What::*;
use crate::table_tests::rows::RegionRow;
use crate::table_tests::short::Word::*;
use crate::table_tests::short::{FUTURE, NOTHING, Short};
use crate::table_tests::states::*;

// One byte at 2, deleted at 4, 300 bytes at 6, left at 8; a rollback at 9.
const VERSIONS: &[Ask] = &[
    Prewrite(b'k', 1, Put(1)),
    Commit(b'k', 1, 2),
    Prewrite(b'k', 3, Delete),
    Commit(b'k', 3, 4),
    Prewrite(b'k', 5, Put(300)),
    Commit(b'k', 5, 6),
    Prewrite(b'k', 7, Lock),
    Commit(b'k', 7, 8),
    BatchRollback(b'k', 9),
];

const DELETES: &[Ask] = &[Prewrite(b'k', 5, Delete)];

const LOCKS: &[Ask] = &[Prewrite(b'k', 5, Lock)];

// A lock that changes nothing over a value of one byte.
const LOCKS_A_VALUE: &[Ask] = &[
    Prewrite(b'k', 1, Put(1)),
    Commit(b'k', 1, 2),
    Prewrite(b'k', 5, Lock),
];

const BELOW_3: Short = (BelowSafePoint, 3, 0);

const MET: Short = (KeyIsLocked, 5, 6);

pub const GET: &[RegionRow] = &[
    (SAFE, Get(b'k', 2, 0), BELOW_3, [0, 3, 0]),
    (SAFE, Get(b'k', 3, 0), NOTHING, [3, 3, 0]),
    (FREE, Get(b'k', 21, 0), FUTURE, [0, 0, 0]),
    (FREE, Get(b'k', 20, 0), NOTHING, [20, 0, 0]),
    (OWN, Get(b'k', 6, 0), MET, [6, 0, 0]),
    (DELETES, Get(b'k', 6, 0), MET, [6, 0, 0]),
    (LOCKS, Get(b'k', 6, 0), NOTHING, [6, 0, 0]),
    (OWN, Get(b'k', 5, 0), NOTHING, [5, 0, 0]),
    (PUSHED, Get(b'k', 6, 0), NOTHING, [6, 0, 0]),
    (ASYNC, Get(b'k', 7, 0), (KeyIsLocked, 5, 7), [7, 0, 0]),
    (OWN, Get(b'k', 6, 5), NOTHING, [6, 0, 0]),
    (OWN, Get(b'k', 6, 4), MET, [6, 0, 0]),
    (OWN_OVER_A_VALUE, Get(b'k', 5, 0), (Found, 1, 0), [5, 0, 0]),
    (OWN_OVER_A_VALUE, Get(b'k', 6, 5), (Found, 1, 0), [6, 0, 0]),
    (LOCKS_A_VALUE, Get(b'k', 6, 0), (Found, 1, 0), [6, 0, 0]),
    (VERSIONS, Get(b'k', 1, 0), NOTHING, [1, 0, 0]),
    (VERSIONS, Get(b'k', 2, 0), (Found, 1, 0), [2, 0, 0]),
    (VERSIONS, Get(b'k', 3, 0), (Found, 1, 0), [3, 0, 0]),
    (VERSIONS, Get(b'k', 4, 0), NOTHING, [4, 0, 0]),
    (VERSIONS, Get(b'k', 9, 0), (Found, 300, 0), [9, 0, 0]),
    (VERSIONS, Get(b'j', 9, 0), NOTHING, [9, 0, 0]),
];

// `a` has a value from 2 on, `b` from 2 up to 3, `c` from 3 on, and on `d` a lock stands
// with the minimum 7.
const KEYS: &[Ask] = &[
    Prewrite(b'a', 1, Put(1)),
    Commit(b'a', 1, 2),
    Prewrite(b'b', 1, Put(1)),
    Commit(b'b', 1, 2),
    Prewrite(b'b', 2, Delete),
    Commit(b'b', 2, 3),
    Prewrite(b'c', 2, Put(300)),
    Commit(b'c', 2, 3),
    Prewrite(b'd', 6, Put(1)),
];

// How many rows, and the last key.
const LAST_IS_A: Short = (Rows, 1, 97);

const LAST_IS_B: Short = (Rows, 2, 98);

const LAST_IS_C: Short = (Rows, 2, 99);

const NO_ROW: Short = (Rows, 0, 0);

const BLOCKED: Short = (KeyIsLocked, 6, 7);

pub const SCAN: &[RegionRow] = &[
    (SAFE, Scan(b'a', b'z', 2, 9, 0), BELOW_3, [0, 3, 0]),
    (SAFE, Scan(b'a', b'z', 3, 9, 0), NO_ROW, [3, 3, 0]),
    (KEYS, Scan(b'a', b'z', 21, 9, 0), FUTURE, [0, 0, 0]),
    (FREE, Scan(b'a', b'z', 20, 9, 0), NO_ROW, [20, 0, 0]),
    (KEYS, Scan(b'a', b'z', 7, 9, 0), BLOCKED, [7, 0, 0]),
    (KEYS, Scan(b'd', b'e', 7, 9, 0), BLOCKED, [7, 0, 0]),
    (KEYS, Scan(b'a', b'z', 7, 9, 6), LAST_IS_C, [7, 0, 0]),
    (KEYS, Scan(b'a', b'z', 7, 2, 0), LAST_IS_C, [7, 0, 0]),
    (KEYS, Scan(b'a', b'd', 7, 9, 0), LAST_IS_C, [7, 0, 0]),
    (KEYS, Scan(b'a', b'z', 6, 9, 0), LAST_IS_C, [6, 0, 0]),
    (KEYS, Scan(b'a', b'z', 2, 9, 0), LAST_IS_B, [2, 0, 0]),
    (KEYS, Scan(b'a', b'c', 4, 9, 0), LAST_IS_A, [4, 0, 0]),
    (KEYS, Scan(b'b', b'd', 4, 9, 0), (Rows, 1, 99), [4, 0, 0]),
    (KEYS, Scan(b'z', b'a', 4, 9, 0), NO_ROW, [4, 0, 0]),
    (KEYS, Scan(b'a', b'z', 4, 0, 0), NO_ROW, [4, 0, 0]),
];
