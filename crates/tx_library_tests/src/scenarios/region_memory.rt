//! A region is refused memory for one request: what a session makes of it, and the collector.
use crate::calls::Op::{
    Abort, Begin, Collect, Commit, Declare, Draw, Finish, Get, HeartBeat, Prewrite, Put, Scan, Skip,
};
use crate::harness::Step;
use crate::harness::Who::{A, B};
use crate::scenarios::Scenario;
use tx_harness::Delivery::{Lose, LoseReply, Plain, Refuse};
use tx_types::Mode::{Async, TwoPhase};

// A scan whose second region is refused memory has no rows; the lost reply of the first ends it
// too.
const SECOND_REGION_OF_A_SCAN: &[Step] = &[
    (A, Begin, Plain, "start", 1),
    (A, Put(b"1", b"2"), Plain, "ok", 0),
    (A, Put(b"4", b"5"), Plain, "ok", 0),
    (A, Declare(Async, None), Plain, "ok", 0),
    (A, Prewrite, Plain, "prewritten", 3),
    (A, Prewrite, Plain, "prewritten", 3),
    (A, Commit, Plain, "committed", 3),
    (A, Commit, Plain, "committed", 3),
    (B, Begin, Plain, "start", 3),
    (B, Skip(1), Plain, "ok", 0),
    (B, Scan(b"1", b"9", 9), Refuse, "E12", 0),
    (B, Scan(b"1", b"9", 9), LoseReply, "lost", 0),
    (B, Scan(b"1", b"9", 9), Plain, "rows", 1245),
    (B, Get(b"4"), Refuse, "E12", 0),
    (B, Get(b"4"), Lose, "lost", 0),
    (B, Get(b"4"), Plain, "value", 5),
];

// The outcome is unknown, and why is told.
const PREWRITE: &[Step] = &[
    (A, Begin, Plain, "start", 1),
    (A, Put(b"1", b"5"), Plain, "ok", 0),
    (A, Declare(TwoPhase, None), Plain, "ok", 0),
    (A, Prewrite, Refuse, "E12", 0),
    (A, Finish, Plain, "unknown E12", 0),
];

// So it is after a commit.
const COMMIT: &[Step] = &[
    (A, Begin, Plain, "start", 1),
    (A, Put(b"1", b"5"), Plain, "ok", 0),
    (A, Declare(TwoPhase, None), Plain, "ok", 0),
    (A, Prewrite, Plain, "prewritten", 0),
    (A, Draw, Plain, "drawn", 3),
    (A, Commit, Refuse, "E12", 0),
    (A, Finish, Plain, "unknown E12", 0),
];

// And after the check that an abort sends.
const ABORT: &[Step] = &[
    (A, Begin, Plain, "start", 1),
    (A, Put(b"1", b"5"), Plain, "ok", 0),
    (A, Declare(Async, None), Plain, "ok", 0),
    (A, Abort, Refuse, "E12", 0),
    (A, Finish, Plain, "unknown E12", 0),
];

// The last cause is the one that is told.
const LAST_CAUSE: &[Step] = &[
    (A, Begin, Plain, "start", 1),
    (B, Begin, Plain, "start", 2),
    (B, Collect(2), Plain, "collected", 0),
    (A, Put(b"1", b"5"), Plain, "ok", 0),
    (A, Declare(TwoPhase, None), Plain, "ok", 0),
    (A, Prewrite, Refuse, "E12", 0),
    (A, Prewrite, Lose, "lost", 0),
    (A, Prewrite, Plain, "E7", 2),
    (A, Prewrite, Refuse, "E12", 0),
    (A, Finish, Plain, "unknown E12", 0),
];

// It is cleared by an answer that decides nothing.
const CLEARED_BY_A_REFUSAL: &[Step] = &[
    (B, Begin, Plain, "start", 1),
    (B, Put(b"1", b"9"), Plain, "ok", 0),
    (B, Declare(TwoPhase, None), Plain, "ok", 0),
    (B, Prewrite, Plain, "prewritten", 0),
    (A, Begin, Plain, "start", 3),
    (A, Put(b"1", b"5"), Plain, "ok", 0),
    (A, Declare(TwoPhase, None), Plain, "ok", 0),
    (A, Prewrite, Refuse, "E12", 0),
    (A, Prewrite, Plain, "E1", 1),
    (A, Finish, Plain, "not yet", 0),
    (A, Abort, Plain, "rolled-back", 0),
    (A, Finish, Plain, "ended aborted", 0),
];

// A collection ends at its second region, which is refused memory, so the safe point of the first
// alone has risen. The cause E7 is cleared too: the lock is there, and a check finds it.
const CLEARED_BY_A_CHECK: &[Step] = &[
    (A, Begin, Plain, "start", 1),
    (A, Put(b"1", b"5"), Plain, "ok", 0),
    (A, Put(b"4", b"6"), Plain, "ok", 0),
    (A, Declare(Async, None), Plain, "ok", 0),
    (A, Prewrite, LoseReply, "lost", 0),
    (B, Begin, Plain, "start", 3),
    (B, Skip(1), Plain, "ok", 0),
    (B, Collect(2), Refuse, "E12", 0),
    (A, Prewrite, Plain, "E7", 2),
    (A, Abort, Plain, "locked", 3),
    (A, Finish, Plain, "not yet", 0),
    (A, Prewrite, Plain, "prewritten", 3),
    (A, Finish, Plain, "ended committed", 3),
];

// Reads and heartbeats that are lost or refused are no cause, and clear none.
const READS_ARE_NO_CAUSE: &[Step] = &[
    (A, Begin, Plain, "start", 1),
    (A, Put(b"1", b"5"), Plain, "ok", 0),
    (A, Declare(TwoPhase, None), Plain, "ok", 0),
    (A, Get(b"2"), Lose, "lost", 0),
    (A, Scan(b"1", b"9", 10), Refuse, "E12", 0),
    (A, HeartBeat(20), Lose, "lost", 0),
    (A, Finish, Plain, "not yet", 0),
    (A, Prewrite, LoseReply, "lost", 0),
    (A, Get(b"2"), Plain, "none", 0),
    (A, HeartBeat(20), Plain, "ttl", 20),
    (A, Finish, Plain, "unknown reply", 0),
];

// A region is refused memory for the check of a live transaction's primary: its lock stays, and
// Collect tells of it. Asked again, the collector goes through.
const LOCK_REMAINS: &[Step] = &[
    (A, Begin, Plain, "start", 1),
    (A, Put(b"4", b"5"), Plain, "ok", 0),
    (A, Declare(TwoPhase, None), Plain, "ok", 0),
    (A, Prewrite, Plain, "prewritten", 0),
    (B, Begin, Plain, "start", 3),
    (B, Skip(5), Plain, "ok", 0),
    (B, Collect(2), Refuse, "E9", 4),
    (B, Get(b"4"), Plain, "E1", 4),
    (B, Collect(2), Plain, "collected", 1),
    (B, Get(b"4"), Plain, "none", 0),
    (B, Collect(2), Plain, "collected", 0),
];

// A region is refused memory for the safe point, for the list of locks, and for the collection.
// Each time it may be asked again.
const COLLECTION: &[Step] = &[
    (A, Begin, Plain, "start", 1),
    (B, Begin, Plain, "start", 2),
    (B, Collect(2), Refuse, "E12", 0),
    (B, Skip(4), Plain, "ok", 0),
    (B, Collect(2), Refuse, "E12", 0),
    (B, Skip(8), Plain, "ok", 0),
    (B, Collect(2), Refuse, "E12", 0),
    (B, Collect(2), Plain, "collected", 0),
];

pub const SCENARIOS: &[Scenario] = &[
    ("second region of a scan", SECOND_REGION_OF_A_SCAN),
    ("prewrite", PREWRITE),
    ("commit", COMMIT),
    ("abort", ABORT),
    ("last cause", LAST_CAUSE),
    ("cleared by a refusal", CLEARED_BY_A_REFUSAL),
    ("cleared by a check", CLEARED_BY_A_CHECK),
    ("reads are no cause", READS_ARE_NO_CAUSE),
    ("lock remains", LOCK_REMAINS),
    ("collection", COLLECTION),
];
