//! Memory that is refused to a session itself is refused before it sends. With ample memory each
//! step comes out as it says; with the nth allocation refused (`rt try --test --fail-alloc N`)
//! `refusals_send_nothing` passes all the same.

use crate::calls::Op::{
    Begin, Commit, Declare, Delete, Get, Insert, Lock, Prewrite, Put, Resolve, Scan,
};
use crate::harness::Who::{A, B};
use crate::harness::{Step, run};
use crate::scenarios::Scenario;
use std::test::Fail;
use tx_harness::Delivery::Plain;
use tx_types::Mode::{Async, TwoPhase};

// A read meets a lock, which is resolved and passed by.
const MET_LOCK: &[Step] = &[
    (A, Begin, Plain, "start", 1),
    (A, Put(b"1", b"5"), Plain, "ok", 0),
    (A, Put(b"2", b"6"), Plain, "ok", 0),
    (A, Declare(Async, None), Plain, "ok", 0),
    (A, Prewrite, Plain, "prewritten", 3),
    (B, Begin, Plain, "start", 3),
    (B, Get(b"1"), Plain, "E1", 1),
    (B, Resolve(90), Plain, "aborted", 0),
    (B, Get(b"1"), Plain, "none", 0),
];

// A prewrite meets one.
const PREWRITE_MEETS_LOCK: &[Step] = &[
    (A, Begin, Plain, "start", 1),
    (A, Put(b"1", b"5"), Plain, "ok", 0),
    (A, Declare(TwoPhase, None), Plain, "ok", 0),
    (A, Prewrite, Plain, "prewritten", 0),
    (B, Begin, Plain, "start", 3),
    (B, Put(b"1", b"6"), Plain, "ok", 0),
    (B, Declare(TwoPhase, None), Plain, "ok", 0),
    (B, Prewrite, Plain, "E1", 1),
];

// What only changes the buffer sends nothing.
const BUFFER: &[Step] = &[
    (A, Begin, Plain, "start", 1),
    (A, Put(b"1", b"2"), Plain, "ok", 0),
    (A, Insert(b"2", b"3"), Plain, "ok", 0),
    (A, Delete(b"3"), Plain, "ok", 0),
    (A, Lock(b"4"), Plain, "ok", 0),
    (A, Get(b"1"), Plain, "value", 2),
    (A, Declare(TwoPhase, None), Plain, "ok", 0),
];

// A scan takes the room for the rows of its second region, and of its third, before it asks there.
const SCANS: &[Step] = &[
    (A, Begin, Plain, "start", 1),
    (A, Put(b"1", b"2"), Plain, "ok", 0),
    (A, Put(b"4", b"5"), Plain, "ok", 0),
    (A, Put(b"7", b"8"), Plain, "ok", 0),
    (A, Declare(Async, None), Plain, "ok", 0),
    (A, Prewrite, Plain, "prewritten", 3),
    (A, Prewrite, Plain, "prewritten", 3),
    (A, Prewrite, Plain, "prewritten", 3),
    (A, Commit, Plain, "committed", 3),
    (A, Commit, Plain, "committed", 3),
    (A, Commit, Plain, "committed", 3),
    (B, Begin, Plain, "start", 3),
    (B, Scan(b"1", b"7", 9), Plain, "rows", 1245),
    (B, Scan(b"1", b"7", 2), Plain, "rows", 1245),
    (B, Scan(b"1", b"9", 9), Plain, "rows", 124578),
    (B, Scan(b"1", b"9", 2), Plain, "rows", 1245),
];

pub const SCENARIOS: &[Scenario] = &[
    ("scans", SCANS),
    ("met lock", MET_LOCK),
    ("prewrite meets lock", PREWRITE_MEETS_LOCK),
    ("buffer", BUFFER),
];

#[test]
fn refusals_send_nothing(rt: HostRuntime) -> Result<(), Fail> {
    for (name, steps) in SCENARIOS {
        let refuses_first = !matches!(run(&rt, rt.alloc(), steps), Some((_, false)));
        assert!(rt; refuses_first, "{name}");
    }
    Ok(())
}
