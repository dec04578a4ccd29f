//! What was asked before: how the key `k` came to stand as it does, by requests alone. And what
//! then stands there.
use crate::table_tests::ask::Ask::{self, *};
use crate::table_tests::ask::What::*;
use crate::table_tests::short::Stand;

pub const FREE: &[Ask] = &[];

/// The lock of the transaction that started at 5, with the minimum 6.
pub const OWN: &[Ask] = &[Prewrite(b'k', 5, Put(1))];

/// The same, whose value stands apart.
pub const OWN_LONG: &[Ask] = &[Prewrite(b'k', 5, Put(300))];

/// Its lock over a value of one byte that was put at 2.
pub const OWN_OVER_A_VALUE: &[Ask] = &[
    Prewrite(b'k', 1, Put(1)),
    Commit(b'k', 1, 2),
    Prewrite(b'k', 5, Put(300)),
];

/// It was pushed to the minimum 7.
pub const PUSHED: &[Ask] = &[Prewrite(b'k', 5, Put(1)), Check(b'k', 5, 6, 5)];

/// Its async lock, with the minimum 7.
pub const ASYNC: &[Ask] = &[Get(b'k', 6, 0), Async(b'k', 5, 0)];

/// The lock of the transaction that started at 4.
pub const OTHERS: &[Ask] = &[Prewrite(b'k', 4, Put(1))];

/// The transaction that started at 5 is committed at 8.
pub const DONE: &[Ask] = &[Prewrite(b'k', 5, Put(1)), Commit(b'k', 5, 8)];

/// It is rolled back.
pub const UNDONE: &[Ask] = &[BatchRollback(b'k', 5)];

/// Another is committed where it started.
pub const SHARED: &[Ask] = &[Prewrite(b'k', 4, Put(1)), Commit(b'k', 4, 5)];

/// It is rolled back there, by a mark.
pub const MARKED: &[Ask] = &[
    Prewrite(b'k', 4, Put(1)),
    Commit(b'k', 4, 5),
    BatchRollback(b'k', 5),
];

/// Another is committed where it started, and its lock stands.
pub const OWN_AND_START: &[Ask] = &[
    Prewrite(b'k', 4, Put(1)),
    Commit(b'k', 4, 5),
    Prewrite(b'k', 5, Put(1)),
];

/// Its lock, and the rollback of the transaction that started at 8.
pub const OWN_AND_ROLLBACK: &[Ask] = &[Prewrite(b'k', 5, Put(1)), BatchRollback(b'k', 8)];

/// Another is committed at 10.
pub const NEWER: &[Ask] = &[Prewrite(b'k', 8, Put(1)), Commit(b'k', 8, 10)];

/// The safe point is 3.
pub const SAFE: &[Ask] = &[RaiseSafe(3)];

/// It was collected at 6.
pub const COLLECTED: &[Ask] = &[RaiseSafe(6), Collect(6)];

/// A lock with the minimum 6.
pub const LOCK_6: Stand = [6, 10, 0, 0, 0, 0];

/// A lock with the minimum 7.
pub const LOCK_7: Stand = [7, 10, 0, 0, 0, 0];

/// The lock of the transaction that started at 4.
pub const LOCK_5: Stand = [5, 10, 0, 0, 0, 0];

/// The same, and a rollback at 5.
pub const LOCK_AND_5: Stand = [5, 10, 1, 5, 0, 0];

/// A record at 5.
pub const AT_5: Stand = [0, 0, 1, 5, 0, 0];

/// A record at 5 with the mark.
pub const MARK_5: Stand = [0, 0, 1, 5, 1, 0];

/// A record at 8.
pub const AT_8: Stand = [0, 0, 1, 8, 0, 0];

/// A record at 8 with the mark.
pub const MARK_8: Stand = [0, 0, 1, 8, 1, 0];

/// A record at 8, and a value.
pub const LONG_8: Stand = [0, 0, 1, 8, 0, 1];
