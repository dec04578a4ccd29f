//! What sessions do, and what they hear.
use crate::calls::Op::*;
use crate::planning_tests::planner::Handling::{Held, Lost, Plain, Planned};
use crate::planning_tests::sessions::{SILENT, Step};
use crate::table_tests::short::{NOTHING, RAISED, ROLLED_BACK, Short, Word};
use tx_types::Mode;

/// What sessions do before, the steps, what the last request that was held is answered, and how
/// many plans were stale.
pub type Scenario = (&'static [Step], &'static [Step], Short, u32);

const A: usize = 0;

const B: usize = 1;

const C: usize = 2;

/// A key whose latch slot and whose ceiling are those of `a`.
const LIKE_A: &[u8] = b"rtc";

/// A starts at 1 and declares a put on `a` with the number 2, and B starts at 3.
const ONE_PUT: &[Step] = &[
    (A, Plain, Begin, SILENT),
    (A, Plain, Put(b"a", b"v"), SILENT),
    (A, Plain, Declare(Mode::Async, None), SILENT),
    (B, Plain, Begin, SILENT),
];

/// The same in two phases.
const ONE_PUT_IN_TWO_PHASES: &[Step] = &[
    (A, Plain, Begin, SILENT),
    (A, Plain, Put(b"a", b"v"), SILENT),
    (A, Plain, Declare(Mode::TwoPhase, None), SILENT),
    (B, Plain, Begin, SILENT),
];

/// A starts at 1, B at 3; both put `a` in two phases.
const TWO_PUTS: &[Step] = &[
    (A, Plain, Begin, SILENT),
    (A, Plain, Put(b"a", b"v"), SILENT),
    (A, Plain, Declare(Mode::TwoPhase, None), SILENT),
    (B, Plain, Begin, SILENT),
    (B, Plain, Put(b"a", b"v"), SILENT),
    (B, Plain, Declare(Mode::TwoPhase, None), SILENT),
];

/// A puts `b`, B puts `a`.
const TWO_KEYS: &[Step] = &[
    (A, Plain, Begin, SILENT),
    (A, Plain, Put(b"b", b"v"), SILENT),
    (A, Plain, Declare(Mode::TwoPhase, None), SILENT),
    (B, Plain, Begin, SILENT),
    (B, Plain, Put(b"a", b"v"), SILENT),
    (B, Plain, Declare(Mode::TwoPhase, None), SILENT),
];

/// A puts a key of the slot of `a`, B puts `a`.
const TWO_KEYS_OF_A_SLOT: &[Step] = &[
    (A, Plain, Begin, SILENT),
    (A, Plain, Put(LIKE_A, b"v"), SILENT),
    (A, Plain, Declare(Mode::TwoPhase, None), SILENT),
    (B, Plain, Begin, SILENT),
    (B, Plain, Put(b"a", b"v"), SILENT),
    (B, Plain, Declare(Mode::TwoPhase, None), SILENT),
];

/// A starts at 1, locks `a` in two phases and draws 3; B starts at 4 and meets the lock.
const MET: &[Step] = &[
    (A, Plain, Begin, SILENT),
    (A, Plain, Put(b"a", b"v"), SILENT),
    (A, Plain, Declare(Mode::TwoPhase, None), SILENT),
    (A, Plain, Prewrite, LOCKS),
    (A, Plain, Draw, SILENT),
    (B, Plain, Begin, SILENT),
    (B, Plain, Get(b"a"), LOCKED),
];

/// A deletes `a` at 3. B starts at 4, C at 6; both put `a` in two phases.
const DELETED: &[Step] = &[
    (A, Plain, Begin, SILENT),
    (A, Plain, Delete(b"a"), SILENT),
    (A, Plain, Declare(Mode::TwoPhase, None), SILENT),
    (A, Plain, Prewrite, LOCKS),
    (A, Plain, Draw, SILENT),
    (A, Plain, Commit, (Word::Committed, 3, 0)),
    (B, Plain, Begin, SILENT),
    (B, Plain, Put(b"a", b"v"), SILENT),
    (B, Plain, Declare(Mode::TwoPhase, None), SILENT),
    (C, Plain, Begin, SILENT),
    (C, Plain, Put(b"a", b"v"), SILENT),
    (C, Plain, Declare(Mode::TwoPhase, None), SILENT),
];

/// The lock of A.
const LOCKED: Short = (Word::KeyIsLocked, 1, 2);

/// A two-phase lock.
const LOCKS: Short = (Word::Prewritten, 0, 0);

pub const SCENARIOS: &[Scenario] = &[
    // The minimum that a plan promises lies above each read: one that comes between makes it stale.
    (
        ONE_PUT,
        &[(A, Planned, Prewrite, (Word::Prewritten, 3, 0))],
        NOTHING,
        0,
    ),
    (
        ONE_PUT,
        &[
            (B, Held, Get(b"a"), SILENT),
            (A, Planned, Prewrite, (Word::Prewritten, 4, 0)),
        ],
        NOTHING,
        1,
    ),
    // Of whatever key, since one word tells of the reads of all.
    (
        ONE_PUT,
        &[
            (B, Held, Get(b"b"), SILENT),
            (A, Planned, Prewrite, (Word::Prewritten, 4, 0)),
        ],
        NOTHING,
        1,
    ),
    // A two-phase lock promises none.
    (
        ONE_PUT_IN_TWO_PHASES,
        &[(B, Held, Get(b"a"), SILENT), (A, Planned, Prewrite, LOCKS)],
        NOTHING,
        0,
    ),
    // A commit promises none, and a read of a key that is locked changes nothing.
    (
        ONE_PUT_IN_TWO_PHASES,
        &[
            (A, Plain, Prewrite, LOCKS),
            (A, Plain, Draw, SILENT),
            (B, Held, Get(b"a"), SILENT),
            (A, Planned, Commit, (Word::Committed, 4, 0)),
        ],
        LOCKED,
        0,
    ),
    // Another's commit of the key.
    (
        TWO_PUTS,
        &[
            (A, Plain, Prewrite, LOCKS),
            (A, Plain, Draw, SILENT),
            (A, Held, Commit, SILENT),
            (B, Planned, Prewrite, (Word::WriteConflict, 1, 5)),
        ],
        (Word::Committed, 5, 0),
        1,
    ),
    // Another's rollback at another timestamp, of which the request sees nothing.
    (
        TWO_PUTS,
        &[
            (A, Lost, Prewrite, SILENT),
            (A, Held, Abort, SILENT),
            (B, Planned, Prewrite, LOCKS),
        ],
        ROLLED_BACK,
        1,
    ),
    // A heartbeat that lengthens.
    (
        TWO_PUTS,
        &[
            (A, Plain, Prewrite, LOCKS),
            (A, Held, HeartBeat(20), SILENT),
            (B, Planned, Prewrite, LOCKED),
        ],
        (Word::Ttl, 20, 0),
        1,
    ),
    // A push by a reader that met the lock: it may not be committed below the new minimum.
    (
        MET,
        &[
            (B, Held, Resolve(4), SILENT),
            (A, Planned, Commit, (Word::CommitTsExpired, 5, 0)),
        ],
        (Word::Locked, 1, 5),
        1,
    ),
    // A push that stands.
    (
        MET,
        &[
            (B, Plain, Resolve(4), SILENT),
            (B, Held, Resolve(4), SILENT),
            (A, Planned, Commit, (Word::CommitTsExpired, 5, 0)),
        ],
        (Word::Locked, 1, 5),
        0,
    ),
    // A rollback of the lock, whose time is over.
    (
        MET,
        &[
            (B, Held, Resolve(12), SILENT),
            (A, Planned, Commit, (Word::AlreadyRolledBack, 0, 0)),
        ],
        ROLLED_BACK,
        1,
    ),
    // The safe point, and a collection after it.
    (
        TWO_PUTS,
        &[(A, Plain, Raise(1), SILENT), (B, Planned, Prewrite, LOCKS)],
        RAISED,
        1,
    ),
    (
        TWO_PUTS,
        &[
            (A, Plain, Raise(1), SILENT),
            (A, Plain, Collect(1), SILENT),
            (B, Planned, Prewrite, LOCKS),
        ],
        (Word::Collected, 0, 0),
        1,
    ),
    // A key that is collected away, and locked again.
    (
        DELETED,
        &[
            (A, Plain, Raise(4), SILENT),
            (A, Plain, Collect(4), SILENT),
            (B, Planned, Prewrite, LOCKS),
        ],
        (Word::Collected, 1, 0),
        1,
    ),
    (
        DELETED,
        &[
            (A, Plain, Raise(4), SILENT),
            (A, Plain, Collect(4), SILENT),
            (C, Held, Prewrite, SILENT),
            (B, Planned, Prewrite, (Word::KeyIsLocked, 6, 7)),
        ],
        LOCKS,
        1,
    ),
    // Another key.
    (
        TWO_KEYS,
        &[(A, Held, Prewrite, SILENT), (B, Planned, Prewrite, LOCKS)],
        LOCKS,
        0,
    ),
    (
        TWO_KEYS,
        &[
            (A, Plain, Prewrite, LOCKS),
            (A, Plain, Draw, SILENT),
            (A, Held, Commit, SILENT),
            (B, Planned, Prewrite, LOCKS),
        ],
        (Word::Committed, 5, 0),
        0,
    ),
    // Another key of the same slot.
    (
        TWO_KEYS_OF_A_SLOT,
        &[(A, Held, Prewrite, SILENT), (B, Planned, Prewrite, LOCKS)],
        LOCKS,
        0,
    ),
    (
        TWO_KEYS_OF_A_SLOT,
        &[
            (A, Plain, Prewrite, LOCKS),
            (A, Plain, Draw, SILENT),
            (A, Held, Commit, SILENT),
            (B, Planned, Prewrite, LOCKS),
        ],
        (Word::Committed, 5, 0),
        0,
    ),
    // A request that is refused.
    (
        TWO_PUTS,
        &[
            (A, Plain, Prewrite, LOCKS),
            (A, Plain, Draw, SILENT),
            (B, Held, Prewrite, SILENT),
            (A, Planned, Commit, (Word::Committed, 5, 0)),
        ],
        LOCKED,
        0,
    ),
    // A rollback that stands.
    (
        TWO_PUTS,
        &[
            (A, Lost, Prewrite, SILENT),
            (A, Held, Abort, SILENT),
            (A, Plain, Abort, ROLLED_BACK),
            (B, Planned, Prewrite, LOCKS),
        ],
        ROLLED_BACK,
        0,
    ),
    // A heartbeat that lengthens nothing.
    (
        TWO_PUTS,
        &[
            (A, Plain, Prewrite, LOCKS),
            (A, Held, HeartBeat(10), SILENT),
            (B, Planned, Prewrite, LOCKED),
        ],
        (Word::Ttl, 10, 0),
        0,
    ),
    // A collection at the point of the last one.
    (
        TWO_PUTS,
        &[
            (A, Plain, Collect(0), SILENT),
            (B, Planned, Prewrite, LOCKS),
        ],
        (Word::Collected, 0, 0),
        0,
    ),
];

/// The first look of a request at its key is refused memory, and nothing is recorded: the next
/// sees nothing there, and is answered as ever.
const REFUSED_COPY: &[Step] = &[
    (A, Planned, Prewrite, SILENT),
    (B, Plain, Get(b"a"), NOTHING),
    (A, Planned, Prewrite, (Word::Prewritten, 4, 0)),
];

/// The change is refused memory, and that is the reply: the key is as it was, and the next plan is
/// carried out.
const REFUSED_CHANGE: &[Step] = &[
    (A, Planned, Prewrite, (Word::Refused, 0, 0)),
    (B, Plain, Get(b"a"), NOTHING),
    (A, Planned, Prewrite, (Word::Prewritten, 4, 0)),
];

/// Another key was locked since the copy, so the plan is still right, and its change is refused
/// memory.
const REFUSED_BESIDE: &[Step] = &[
    (A, Held, Prewrite, SILENT),
    (B, Planned, Prewrite, (Word::Refused, 0, 0)),
    (B, Planned, Prewrite, LOCKS),
];

/// What is told of the lock in the way is refused memory.
const REFUSED_INFO: &[Step] = &[
    (A, Plain, Prewrite, LOCKS),
    (B, Planned, Prewrite, (Word::Refused, 0, 0)),
    (B, Planned, Prewrite, LOCKED),
];

/// The call of the families that is refused memory, what sessions do before, the steps, what the
/// last request that was held is answered, and how often a copy was refused.
pub type Refusal = (u64, &'static [Step], &'static [Step], Short, u32);

// A request looks at its key when it is copied, and is carried out by a second call of the
// families.
pub const REFUSALS: &[Refusal] = &[
    (1, ONE_PUT, REFUSED_COPY, NOTHING, 1),
    (2, ONE_PUT, REFUSED_CHANGE, NOTHING, 0),
    (4, TWO_KEYS, REFUSED_BESIDE, LOCKS, 0),
    (4, TWO_PUTS, REFUSED_INFO, NOTHING, 0),
];
