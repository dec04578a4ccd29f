//! A reader learns what another session knows of its own fate.
use crate::calls::Op::{Abort, Begin, Commit, Declare, Draw, Get, Learn, Prewrite, Put, Scan};
use crate::harness::Step;
use crate::harness::Who::{A, B};
use crate::scenarios::Scenario;
use tx_harness::Delivery::Plain;
use tx_types::Mode::TwoPhase;

// It passes by a lock whose transaction is aborted.
const PASSES_AN_ABORTED_LOCK: &[Step] = &[
    (A, Begin, Plain, "start", 1),
    (A, Put(b"1", b"2"), Plain, "ok", 0),
    (A, Put(b"4", b"5"), Plain, "ok", 0),
    (A, Declare(TwoPhase, None), Plain, "ok", 0),
    (A, Prewrite, Plain, "prewritten", 0),
    (A, Prewrite, Plain, "prewritten", 0),
    (B, Begin, Plain, "start", 3),
    (B, Get(b"4"), Plain, "E1", 4),
    (B, Learn, Plain, "none", 0),
    (A, Abort, Plain, "rolled-back", 0),
    (B, Get(b"4"), Plain, "E1", 4),
    (B, Learn, Plain, "ok", 0),
    (B, Get(b"4"), Plain, "none", 0),
];

// And by one whose transaction committed above the reader.
const PASSES_A_LATER_COMMIT: &[Step] = &[
    (A, Begin, Plain, "start", 1),
    (A, Put(b"1", b"2"), Plain, "ok", 0),
    (A, Put(b"4", b"5"), Plain, "ok", 0),
    (A, Declare(TwoPhase, None), Plain, "ok", 0),
    (A, Prewrite, Plain, "prewritten", 0),
    (A, Prewrite, Plain, "prewritten", 0),
    (B, Begin, Plain, "start", 3),
    (B, Get(b"4"), Plain, "E1", 4),
    (A, Draw, Plain, "drawn", 4),
    (A, Commit, Plain, "committed", 4),
    (B, Learn, Plain, "ok", 0),
    (B, Get(b"4"), Plain, "none", 0),
    (B, Scan(b"1", b"9", 9), Plain, "rows", 0),
];

// Where it committed below, the reader has to see it.
const WAITS_FOR_AN_EARLIER_COMMIT: &[Step] = &[
    (A, Begin, Plain, "start", 1),
    (A, Put(b"1", b"2"), Plain, "ok", 0),
    (A, Put(b"4", b"5"), Plain, "ok", 0),
    (A, Declare(TwoPhase, None), Plain, "ok", 0),
    (A, Prewrite, Plain, "prewritten", 0),
    (A, Prewrite, Plain, "prewritten", 0),
    (A, Draw, Plain, "drawn", 3),
    (A, Commit, Plain, "committed", 3),
    (B, Begin, Plain, "start", 4),
    (B, Get(b"4"), Plain, "E1", 4),
    (B, Learn, Plain, "ok", 0),
    (B, Get(b"4"), Plain, "E1", 4),
    (A, Commit, Plain, "committed", 3),
    (B, Get(b"4"), Plain, "value", 5),
];

pub const SCENARIOS: &[Scenario] = &[
    ("passes an aborted lock", PASSES_AN_ABORTED_LOCK),
    ("passes a later commit", PASSES_A_LATER_COMMIT),
    ("waits for an earlier commit", WAITS_FOR_AN_EARLIER_COMMIT),
];
