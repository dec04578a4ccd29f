//! The rows of the requests that settle a transaction on a key: Commit, BatchRollback,
//! TxnHeartBeat, CheckSecondaryLocks, ResolveLock.
use crate::table_tests::ask::Ask::{
    self, BatchRollback, CheckSecondaryLocks, Commit, ResolveLock, TxnHeartBeat,
};
use crate::table_tests::rows::Row;
use crate::table_tests::short::Word::*;
use crate::table_tests::short::{
    ALREADY_ROLLED_BACK, BARE, BELOW, LOCK_NOT_FOUND, MISSING, RESOLVED, ROLLED_BACK, Short,
};
use crate::table_tests::states::*;

const AT_7: [u64; 6] = [0, 0, 1, 7, 0, 0];

const LIVES_LONGER: [u64; 6] = [6, 20, 0, 0, 0, 0];

const COMMIT_8: Ask = Commit(b'k', 5, 8);

const COMMITTED_8: Short = (Committed, 8, 0);

pub const COMMIT: &[Row] = &[
    (COLLECTED, COMMIT_8, BELOW, BARE),
    (PUSHED, Commit(b'k', 5, 6), (CommitTsExpired, 7, 0), LOCK_7),
    (PUSHED, Commit(b'k', 5, 7), (Committed, 7, 0), AT_7),
    (OWN, COMMIT_8, COMMITTED_8, AT_8),
    (OWN_LONG, COMMIT_8, COMMITTED_8, LONG_8),
    (OWN_AND_ROLLBACK, COMMIT_8, COMMITTED_8, MARK_8),
    (DONE, COMMIT_8, COMMITTED_8, AT_8),
    (UNDONE, COMMIT_8, ALREADY_ROLLED_BACK, AT_5),
    (MARKED, COMMIT_8, ALREADY_ROLLED_BACK, MARK_5),
    (FREE, COMMIT_8, LOCK_NOT_FOUND, BARE),
    (OTHERS, COMMIT_8, LOCK_NOT_FOUND, LOCK_5),
    (SHARED, COMMIT_8, LOCK_NOT_FOUND, AT_5),
];

const ROLL_BACK: Ask = BatchRollback(b'k', 5);

pub const BATCH_ROLLBACK: &[Row] = &[
    (COLLECTED, ROLL_BACK, BELOW, BARE),
    (OWN, ROLL_BACK, ROLLED_BACK, AT_5),
    (OWN_LONG, ROLL_BACK, ROLLED_BACK, AT_5),
    (OWN_AND_START, ROLL_BACK, ROLLED_BACK, MARK_5),
    (DONE, ROLL_BACK, (AlreadyCommitted, 8, 0), AT_8),
    (UNDONE, ROLL_BACK, ROLLED_BACK, AT_5),
    (MARKED, ROLL_BACK, ROLLED_BACK, MARK_5),
    (FREE, ROLL_BACK, ROLLED_BACK, AT_5),
    (OTHERS, ROLL_BACK, ROLLED_BACK, LOCK_AND_5),
    (SHARED, ROLL_BACK, ROLLED_BACK, MARK_5),
];

const LIVE_20: Ask = TxnHeartBeat(b'k', 5, 20);

pub const TXN_HEART_BEAT: &[Row] = &[
    (COLLECTED, LIVE_20, BELOW, BARE),
    (OWN, LIVE_20, (Ttl, 20, 0), LIVES_LONGER),
    (OWN, TxnHeartBeat(b'k', 5, 5), (Ttl, 10, 0), LOCK_6),
    (FREE, LIVE_20, LOCK_NOT_FOUND, BARE),
    (OTHERS, LIVE_20, LOCK_NOT_FOUND, LOCK_5),
    (DONE, LIVE_20, LOCK_NOT_FOUND, AT_8),
];

const ASK_LOCK: Ask = CheckSecondaryLocks(b'k', 5);

pub const CHECK_SECONDARY_LOCKS: &[Row] = &[
    (COLLECTED, ASK_LOCK, BELOW, BARE),
    (ASYNC, ASK_LOCK, (Locked, 5, 7), LOCK_7),
    (OWN, ASK_LOCK, (Locked, 5, 6), LOCK_6),
    (DONE, ASK_LOCK, COMMITTED_8, AT_8),
    (UNDONE, ASK_LOCK, MISSING, AT_5),
    (MARKED, ASK_LOCK, MISSING, MARK_5),
    (FREE, ASK_LOCK, MISSING, AT_5),
    (OTHERS, ASK_LOCK, MISSING, LOCK_AND_5),
    (SHARED, ASK_LOCK, MISSING, MARK_5),
];

const SETTLE_8: Ask = ResolveLock(b'k', 5, 8);

const SETTLE_ABORTED: Ask = ResolveLock(b'k', 5, 0);

pub const RESOLVE_LOCK: &[Row] = &[
    (COLLECTED, SETTLE_8, BELOW, BARE),
    (FREE, SETTLE_8, RESOLVED, BARE),
    (OTHERS, SETTLE_ABORTED, RESOLVED, LOCK_5),
    (DONE, SETTLE_8, RESOLVED, AT_8),
    (UNDONE, SETTLE_8, RESOLVED, AT_5),
    (OWN, SETTLE_ABORTED, RESOLVED, AT_5),
    (OWN_LONG, SETTLE_ABORTED, RESOLVED, AT_5),
    (OWN_AND_START, SETTLE_ABORTED, RESOLVED, MARK_5),
    (
        PUSHED,
        ResolveLock(b'k', 5, 6),
        (CommitTsExpired, 7, 0),
        LOCK_7,
    ),
    (ASYNC, SETTLE_8, RESOLVED, AT_8),
    (OWN_LONG, SETTLE_8, RESOLVED, LONG_8),
    (OWN_AND_ROLLBACK, SETTLE_8, RESOLVED, MARK_8),
];
