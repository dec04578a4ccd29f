//! The rows of CheckTxnStatus. A lock of the transaction that started at 5 is expired at 16.
use crate::table_tests::ask::Ask::{self, Check, CheckForced, CheckOrRollBack};
use crate::table_tests::rows::Row;
use crate::table_tests::short::Word::*;
use crate::table_tests::short::{BARE, BELOW, FUTURE, NOT_FOUND, ROLLED_BACK, Short};
use crate::table_tests::states::*;

// What is told of the lock.
const TOLD_6: Short = (Locked, 5, 6);

const TOLD_7: Short = (Locked, 5, 7);

const TOLD_8: Short = (Locked, 5, 8);

const LOCK_8: [u64; 6] = [8, 10, 0, 0, 0, 0];

const LOCK_21: [u64; 6] = [21, 10, 0, 0, 0, 0];

const EXPIRED: Ask = Check(b'k', 5, 5, 16);

const WANTED: Ask = CheckOrRollBack(b'k', 5, 6, 16);

pub const ROWS: &[Row] = &[
    (COLLECTED, EXPIRED, BELOW, BARE),
    (OWN, Check(b'k', 5, 21, 15), FUTURE, LOCK_6),
    (ASYNC, EXPIRED, TOLD_7, LOCK_7),
    (ASYNC, Check(b'k', 5, 7, 15), TOLD_7, LOCK_7),
    (OWN, EXPIRED, ROLLED_BACK, AT_5),
    (OWN_AND_START, EXPIRED, ROLLED_BACK, MARK_5),
    (OWN, Check(b'k', 5, 6, 15), TOLD_7, LOCK_7),
    (OWN, Check(b'k', 5, 20, 15), (Locked, 5, 21), LOCK_21),
    (OWN, Check(b'k', 5, 5, 15), TOLD_6, LOCK_6),
    (ASYNC, CheckForced(b'k', 5, 6, 15), TOLD_7, LOCK_7),
    (ASYNC, CheckForced(b'k', 5, 7, 15), TOLD_8, LOCK_8),
    (ASYNC, CheckForced(b'k', 5, 6, 16), ROLLED_BACK, AT_5),
    (DONE, EXPIRED, (Committed, 8, 0), AT_8),
    (UNDONE, EXPIRED, ROLLED_BACK, AT_5),
    (MARKED, EXPIRED, ROLLED_BACK, MARK_5),
    (FREE, WANTED, ROLLED_BACK, AT_5),
    (OTHERS, WANTED, ROLLED_BACK, LOCK_AND_5),
    (SHARED, WANTED, ROLLED_BACK, MARK_5),
    (FREE, EXPIRED, NOT_FOUND, BARE),
    (OTHERS, EXPIRED, NOT_FOUND, LOCK_5),
];
