//! What the resolver finds of a lock in the way, and what where one of its requests, or the reply
//! to it, is lost, a region is refused memory for it, or nothing of a transaction stands on its
//! primary: the reader waits, and asks again.

use crate::calls::Op::{Begin, Declare, Get, Orphan, Prewrite, Put, Resolve, Skip};
use crate::harness::Step;
use crate::harness::Who::{A, B};
use crate::scenarios::Scenario;
use tx_harness::Delivery::{Lose, LoseReply, Plain, Refuse};
use tx_types::Mode::{Async, TwoPhase};

// The check of the primary, that of the key that is missing, and the fate of the lock that was met.
const EACH_LOST: &[Step] = &[
    (A, Begin, Plain, "start", 1),
    (A, Put(b"1", b"5"), Plain, "ok", 0),
    (A, Put(b"4", b"6"), Plain, "ok", 0),
    (A, Declare(Async, None), Plain, "ok", 0),
    (A, Prewrite, Plain, "prewritten", 3),
    (B, Begin, Plain, "start", 3),
    (B, Get(b"1"), Plain, "E1", 1),
    (B, Resolve(100), Lose, "waiting reply", 0),
    (B, Skip(1), Plain, "ok", 0),
    (B, Resolve(100), Lose, "waiting reply", 0),
    (B, Get(b"1"), Plain, "E1", 1),
    (B, Skip(2), Plain, "ok", 0),
    (B, Resolve(100), Lose, "waiting reply", 0),
    (B, Get(b"1"), Plain, "E1", 1),
    (B, Resolve(100), Plain, "aborted", 0),
    (B, Get(b"1"), Plain, "none", 0),
    (B, Get(b"4"), Plain, "none", 0),
];

// Their replies.
const EACH_REPLY_LOST: &[Step] = &[
    (A, Begin, Plain, "start", 1),
    (A, Put(b"1", b"5"), Plain, "ok", 0),
    (A, Put(b"4", b"6"), Plain, "ok", 0),
    (A, Declare(Async, None), Plain, "ok", 0),
    (A, Prewrite, Plain, "prewritten", 3),
    (B, Begin, Plain, "start", 3),
    (B, Get(b"1"), Plain, "E1", 1),
    (B, Resolve(100), LoseReply, "waiting reply", 0),
    (B, Skip(1), Plain, "ok", 0),
    (B, Resolve(100), LoseReply, "waiting reply", 0),
    (B, Get(b"1"), Plain, "E1", 1),
    (B, Skip(2), Plain, "ok", 0),
    (B, Resolve(100), LoseReply, "waiting reply", 0),
    (B, Get(b"1"), Plain, "none", 0),
    (B, Resolve(100), Plain, "aborted", 0),
];

// A region is refused memory for each of them.
const EACH_REFUSED: &[Step] = &[
    (A, Begin, Plain, "start", 1),
    (A, Put(b"1", b"5"), Plain, "ok", 0),
    (A, Put(b"4", b"6"), Plain, "ok", 0),
    (A, Declare(Async, None), Plain, "ok", 0),
    (A, Prewrite, Plain, "prewritten", 3),
    (B, Begin, Plain, "start", 3),
    (B, Get(b"1"), Plain, "E1", 1),
    (B, Resolve(100), Refuse, "waiting E12", 0),
    (B, Skip(1), Plain, "ok", 0),
    (B, Resolve(100), Refuse, "waiting E12", 0),
    (B, Get(b"1"), Plain, "E1", 1),
    (B, Skip(2), Plain, "ok", 0),
    (B, Resolve(100), Refuse, "waiting E12", 0),
    (B, Get(b"1"), Plain, "E1", 1),
    (B, Resolve(100), Plain, "aborted", 0),
    (B, Get(b"1"), Plain, "none", 0),
];

// Of a transaction that has fallen back: the check that is forced, and then the fate.
const FORCED_CHECK_LOST: &[Step] = &[
    (A, Begin, Plain, "start", 1),
    (A, Put(b"1", b"5"), Plain, "ok", 0),
    (A, Put(b"4", b"6"), Plain, "ok", 0),
    (A, Declare(Async, Some(3)), Plain, "ok", 0),
    (A, Prewrite, Plain, "prewritten", 3),
    (B, Begin, Plain, "start", 3),
    (B, Get(b"4"), Plain, "none", 0),
    (A, Prewrite, Plain, "prewritten", 0),
    (B, Get(b"4"), Plain, "E1", 4),
    (B, Skip(2), Plain, "ok", 0),
    (B, Resolve(100), Lose, "waiting reply", 0),
    (B, Get(b"4"), Plain, "E1", 4),
    (B, Skip(3), Plain, "ok", 0),
    (B, Resolve(100), Lose, "waiting reply", 0),
    (B, Get(b"4"), Plain, "E1", 4),
    (B, Resolve(100), Refuse, "waiting E12", 0),
    (B, Resolve(100), Plain, "aborted", 0),
    (B, Get(b"4"), Plain, "none", 0),
];

// Nothing of the transaction stands on its primary: while the met lock lives the reader waits; then
// a rollback is left there.
const NOT_FOUND: &[Step] = &[
    (A, Orphan(b"1", b"4"), Plain, "prewritten", 0),
    (B, Begin, Plain, "start", 3),
    (B, Get(b"4"), Plain, "E1", 4),
    (B, Resolve(11), Plain, "waiting not found", 0),
    (B, Get(b"4"), Plain, "E1", 4),
    (B, Resolve(12), Plain, "aborted", 0),
    (B, Get(b"4"), Plain, "none", 0),
];

// A lock in two phases that lives is pushed above the reader, which passes by it.
const PUSHED: &[Step] = &[
    (A, Begin, Plain, "start", 1),
    (A, Put(b"1", b"5"), Plain, "ok", 0),
    (A, Declare(TwoPhase, None), Plain, "ok", 0),
    (A, Prewrite, Plain, "prewritten", 0),
    (B, Begin, Plain, "start", 3),
    (B, Get(b"1"), Plain, "E1", 1),
    (B, Resolve(3), Plain, "pushed", 4),
    (B, Get(b"1"), Plain, "none", 0),
];

// One past its time is rolled back.
const ROLLED_BACK: &[Step] = &[
    (A, Begin, Plain, "start", 1),
    (A, Put(b"1", b"5"), Plain, "ok", 0),
    (A, Declare(TwoPhase, None), Plain, "ok", 0),
    (A, Prewrite, Plain, "prewritten", 0),
    (B, Begin, Plain, "start", 3),
    (B, Get(b"1"), Plain, "E1", 1),
    (B, Resolve(103), Plain, "aborted", 0),
    (B, Get(b"1"), Plain, "none", 0),
];

pub const SCENARIOS: &[Scenario] = &[
    ("pushed", PUSHED),
    ("rolled back", ROLLED_BACK),
    ("each lost", EACH_LOST),
    ("each reply lost", EACH_REPLY_LOST),
    ("each refused", EACH_REFUSED),
    ("forced check lost", FORCED_CHECK_LOST),
    ("not found", NOT_FOUND),
];
