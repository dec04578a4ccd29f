//! The scenarios. What each step finds is by the case tables (docs/PROTOCOL.md).
use crate::cells::steps::Record::{Absent, Commit as Committed, Marked, Rollback};
use crate::cells::steps::Step;
use crate::cells::steps::Step::*;

/// Long values: put and committed, put and rolled back, deleted, and collected.
pub const LONG_VALUE: [Step; 29] = [
    Put((b'k', 5), 300),
    Stands((b'k', 5), 0, 1),
    SeesNone((b'k', 9)),
    Commit((b'k', 5), 7),
    Stands((b'k', 0), 1, 1),
    Sees((b'k', 7), 300),
    SeesNone((b'k', 6)),
    // 255 bytes stand inline, 256 apart
    Put((b'k', 10), 255),
    Stands((b'k', 10), 1, 1),
    RollBack((b'k', 10)),
    Stands((b'k', 0), 2, 1),
    Put((b'k', 11), 256),
    Stands((b'k', 11), 2, 2),
    Sees((b'k', 11), 300),
    RollBack((b'k', 11)),
    Stands((b'k', 0), 3, 1),
    Has((b'k', 11), Rollback),
    Sees((b'k', 12), 300),
    Delete((b'k', 12)),
    Commit((b'k', 12), 14),
    Stands((b'k', 0), 4, 1),
    SeesNone((b'k', 14)),
    Sees((b'k', 13), 300),
    // the put at 7 is the newest below 14, where a delete stands
    Collect(14, 3, 1),
    Stands((b'k', 0), 1, 0),
    SeesNone((b'k', 14)),
    // a delete stays for nobody
    Collect(15, 1, 0),
    Stands((b'k', 0), 0, 0),
    SeesNone((b'k', 20)),
];

/// The mark of a rollback on another transaction's commit record, in both orders.
pub const MARKS: [Step; 25] = [
    // the rollback first
    RollBack((b'a', 7)),
    Has((b'a', 7), Rollback),
    Put((b'a', 5), 300),
    Commit((b'a', 5), 7),
    Has((b'a', 7), Marked),
    Stands((b'a', 0), 1, 1),
    Sees((b'a', 7), 300),
    // the commit first
    Put((b'b', 5), 300),
    Commit((b'b', 5), 7),
    Has((b'b', 7), Committed),
    RollBack((b'b', 7)),
    Has((b'b', 7), Marked),
    Stands((b'b', 0), 1, 1),
    Sees((b'b', 7), 300),
    // a rollback that stands stays
    Stays((b'a', 7)),
    Has((b'a', 7), Marked),
    RollBack((b'c', 7)),
    Stays((b'c', 7)),
    Has((b'c', 7), Rollback),
    Has((b'c', 6), Absent),
    Stands((b'c', 0), 1, 0),
    // another's lock stays
    Put((b'd', 5), 300),
    RollBack((b'd', 4)),
    Has((b'd', 4), Rollback),
    Stands((b'd', 5), 1, 1),
];

/// Scans: limits, deletes, the end of the range, and locks in the way.
pub const SCANS: [Step; 27] = [
    Put((b'a', 1), 10),
    Commit((b'a', 1), 2),
    Put((b'b', 1), 10),
    Commit((b'b', 1), 2),
    Delete((b'b', 3)),
    Commit((b'b', 3), 4),
    Put((b'c', 3), 300),
    Commit((b'c', 3), 4),
    Put((b'd', 5), 10),
    Put((b'e', 3), 10),
    Commit((b'e', 3), 4),
    Lock((b'e', 6)),
    Put((b'f', 7), 10),
    Rows((b'a', b'd', 9, 10), 2, b'c'),
    Rows((b'a', b'z', 9, 2), 2, b'c'),
    Rows((b'a', b'z', 9, 1), 1, b'a'),
    Rows((b'a', b'z', 9, 0), 0, 0),
    Rows((b'b', b'c', 9, 10), 0, 0),
    Rows((b'c', b'd', 9, 10), 1, b'c'),
    Rows((b'a', b'z', 3, 10), 2, b'b'),
    Rows((b'a', b'z', 5, 10), 3, b'e'),
    Blocked((b'a', b'z', 9, 3), b'd'),
    Blocked((b'a', b'z', 6, 10), b'd'),
    Rows((b'e', b'f', 9, 10), 1, b'e'),
    Blocked((b'e', b'z', 9, 10), b'f'),
    Told((b'd', 5), 6),
    Remain(7, b'd', 2),
];

/// Scans that pass keys of all kinds: with versions above the timestamp, several below it, a
/// rollback or a lock record as the newest, a lock alone, and a lock beside a version.
pub const PASSED: [Step; 57] = [
    // two versions, of which the newer is above some of the reads
    Put((b'a', 1), 10),
    Commit((b'a', 1), 2),
    Put((b'a', 5), 20),
    Commit((b'a', 5), 6),
    // a lock and no record
    Put((b'b', 7), 10),
    // a rollback as the newest record
    Put((b'c', 1), 30),
    Commit((b'c', 1), 3),
    RollBack((b'c', 4)),
    // a lock record as the newest
    Put((b'd', 1), 40),
    Commit((b'd', 1), 3),
    Lock((b'd', 4)),
    Commit((b'd', 4), 5),
    // six versions, and more keys behind them
    Put((b'e', 1), 50),
    Commit((b'e', 1), 2),
    Put((b'e', 3), 51),
    Commit((b'e', 3), 4),
    Put((b'e', 5), 52),
    Commit((b'e', 5), 6),
    Put((b'e', 7), 53),
    Commit((b'e', 7), 8),
    Put((b'e', 9), 54),
    Commit((b'e', 9), 10),
    Put((b'e', 11), 55),
    Commit((b'e', 11), 12),
    // a version and a lock
    Put((b'f', 1), 60),
    Commit((b'f', 1), 2),
    Put((b'f', 9), 61),
    // a rollback alone
    RollBack((b'g', 3)),
    // a short value and then a long one
    Put((b'h', 1), 70),
    Commit((b'h', 1), 2),
    Put((b'h', 3), 300),
    Commit((b'h', 3), 4),
    // all versions are above
    Rows((b'a', b'z', 1, 10), 0, 0),
    Rows((b'a', b'z', 2, 10), 4, b'h'),
    Rows((b'a', b'z', 5, 10), 6, b'h'),
    Rows((b'a', b'z', 5, 4), 4, b'e'),
    Ends((b'a', b'b', 5, 10), b'a', 10),
    Ends((b'a', b'b', 6, 10), b'a', 20),
    Rows((b'b', b'c', 5, 10), 0, 0),
    Ends((b'b', b'd', 5, 10), b'c', 30),
    Ends((b'b', b'e', 5, 10), b'd', 40),
    Ends((b'a', b'f', 2, 10), b'e', 50),
    Ends((b'a', b'f', 5, 10), b'e', 51),
    Ends((b'c', b'f', 7, 10), b'e', 52),
    Ends((b'c', b'f', 8, 10), b'e', 53),
    Ends((b'c', b'g', 8, 10), b'f', 60),
    Rows((b'g', b'h', 8, 10), 0, 0),
    Ends((b'a', b'z', 3, 10), b'h', 70),
    Ends((b'a', b'z', 4, 10), b'h', 300),
    Rows((b'i', b'z', 9, 10), 0, 0),
    // a lock is in the way from its minimum on
    Rows((b'a', b'z', 7, 10), 6, b'h'),
    Blocked((b'a', b'z', 8, 10), b'b'),
    Rows((b'a', b'z', 8, 1), 1, b'a'),
    Rows((b'c', b'z', 9, 10), 5, b'h'),
    Blocked((b'c', b'z', 10, 10), b'f'),
    Rows((b'c', b'z', 10, 3), 3, b'e'),
    Ends((b'c', b'f', 10, 10), b'e', 54),
];

/// What collection keeps: the put that a read at the safe point sees, what is above, and locks
/// with their values.
pub const SURVIVORS: [Step; 23] = [
    Put((b'k', 1), 300),
    Commit((b'k', 1), 3),
    Put((b'k', 4), 301),
    Commit((b'k', 4), 6),
    RollBack((b'k', 7)),
    Put((b'k', 8), 302),
    Commit((b'k', 8), 9),
    Put((b'k', 20), 303),
    Stands((b'k', 20), 4, 4),
    Collect(8, 2, 1),
    Stands((b'k', 20), 2, 3),
    Sees((b'k', 8), 301),
    Sees((b'k', 9), 302),
    SeesNone((b'k', 5)),
    // a put at exactly the safe point is what a read there sees
    Collect(9, 1, 1),
    Stands((b'k', 20), 1, 2),
    Sees((b'k', 9), 302),
    Collect(20, 0, 0),
    Remain(21, b'k', 1),
    Commit((b'k', 20), 21),
    Sees((b'k', 21), 303),
    Collect(22, 1, 1),
    Stands((b'k', 0), 1, 1),
];
