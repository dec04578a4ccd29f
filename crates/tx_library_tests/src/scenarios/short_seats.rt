//! Sessions whose seat may draw no more.
use crate::calls::Op::{Abort, Begin, BeginShort, Commit, Declare, Draw, Finish, Prewrite, Put};
use crate::harness::Step;
use crate::harness::Who::A;
use crate::scenarios::Scenario;
use tx_harness::Delivery::Plain;
use tx_types::Mode::TwoPhase;

// A seat whose ticks are spent begins nothing.
const NO_TICK_TO_BEGIN: &[Step] = &[
    (A, BeginShort(0), Plain, "E11", 0),
    (A, Finish, Plain, "order", 0),
    (A, Begin, Plain, "start", 4294967297),
];

// A session whose seat has no tick left declares nothing, and is as it was; of an empty buffer
// there is nothing to draw for.
const NO_TICK_TO_DECLARE: &[Step] = &[
    (A, BeginShort(1), Plain, "start", 4294967296),
    (A, Put(b"1", b"5"), Plain, "ok", 0),
    (A, Declare(TwoPhase, None), Plain, "E11", 0),
    (A, Put(b"1", b"6"), Plain, "ok", 0),
    (A, Declare(TwoPhase, None), Plain, "E11", 0),
    (A, Finish, Plain, "ended read-only", 0),
    (A, BeginShort(1), Plain, "start", 8589934592),
    (A, Declare(TwoPhase, None), Plain, "ok", 0),
    (A, Finish, Plain, "ended read-only", 0),
];

// A session whose seat has no tick left draws nothing, and is as it was.
const NO_TICK_TO_COMMIT: &[Step] = &[
    (A, BeginShort(2), Plain, "start", 4294967295),
    (A, Put(b"1", b"5"), Plain, "ok", 0),
    (A, Declare(TwoPhase, None), Plain, "ok", 0),
    (A, Prewrite, Plain, "prewritten", 0),
    (A, Draw, Plain, "E11", 0),
    (A, Commit, Plain, "order", 0),
    (A, Draw, Plain, "E11", 0),
    (A, Finish, Plain, "not yet", 0),
    (A, Abort, Plain, "rolled-back", 0),
    (A, Finish, Plain, "ended aborted", 0),
];

pub const SCENARIOS: &[Scenario] = &[
    ("no tick to begin", NO_TICK_TO_BEGIN),
    ("no tick to declare", NO_TICK_TO_DECLARE),
    ("no tick to commit", NO_TICK_TO_COMMIT),
];
