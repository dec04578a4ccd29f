//! Scenes: what one session or two do, one move after another, where chance alone would hardly ever
//! have them do so.
use crate::scene::Move::{
    Abort, Begin, CollectAll, CollectAtStart, Commit, CommitUnheard, Crowd, DeclareAsync,
    DeclareLate, Deliver, Draw, Edit, Finish, Get, Heartbeat, Prewrite, PrewriteHeld,
    PrewriteUnheard, Push, Resolve, TickLong,
};
use crate::scene::Role::{First, Second};

/// Who acts in a scene.
#[derive(Clone, Copy, Debug, Drop, PartialEq, Eq)]
pub(crate) enum Role {
    First,
    Second,
}

/// What is done in a scene.
#[derive(Clone, Copy, Debug, Drop, PartialEq, Eq)]
pub(crate) enum Move {
    Begin,
    /// Puts, inserts or deletes the scene's key.
    Edit,
    /// Puts more keys than an async transaction may have, one after another.
    Crowd,
    /// Declares so that the primary alone decides.
    DeclareLate,
    DeclareAsync,
    Prewrite,
    /// The prewrite is taken, and its reply lost.
    PrewriteUnheard,
    /// The prewrite is held.
    PrewriteHeld,
    Draw,
    Commit,
    CommitUnheard,
    Abort,
    Heartbeat,
    /// Reads the scene's key.
    Get,
    /// Resolves the lock that was met, while it lives.
    Push,
    /// Resolves it when its time is over.
    Resolve,
    Finish,
    /// What was held arrives.
    Deliver,
    /// Collects at the start of the session.
    CollectAtStart,
    /// Collects at the last timestamp.
    CollectAll,
    /// Draws as many ticks as one line may.
    TickLong,
}

/// A move, and who makes it.
pub(crate) type Cue = (Role, Move);

// A reader pushes a lock above its own start after the commit timestamp was drawn, which is then
// too low.
static PUSHED: [Cue; 12] = [
    (First, Begin),
    (First, Edit),
    (First, DeclareLate),
    (First, Prewrite),
    (First, Draw),
    (Second, Begin),
    (Second, Get),
    (Second, Push),
    (Second, Get),
    (First, Commit),
    (First, Draw),
    (First, Commit),
];

// One starts at the number at which another commits, and is rolled back on its key: before the
// commit's record stands, which is then marked. Its own prewrite arrives last.
static MARKED_BY_COMMIT: [Cue; 12] = [
    (First, Begin),
    (First, Edit),
    (First, DeclareAsync),
    (First, Prewrite),
    (Second, Begin),
    (Second, Edit),
    (Second, DeclareAsync),
    (Second, PrewriteHeld),
    (Second, Abort),
    (First, Commit),
    (Second, Deliver),
    (Second, Finish),
];

// The same, where the record stands first, and is marked by the rollback.
static MARKED_BY_ROLLBACK: [Cue; 12] = [
    (First, Begin),
    (First, Edit),
    (First, DeclareAsync),
    (First, Prewrite),
    (Second, Begin),
    (Second, Edit),
    (Second, DeclareAsync),
    (Second, PrewriteHeld),
    (First, Commit),
    (Second, Abort),
    (Second, Deliver),
    (Second, Finish),
];

// A prewrite arrives after its session has rolled back.
static ROLLED_BACK: [Cue; 7] = [
    (First, Begin),
    (First, Edit),
    (First, DeclareAsync),
    (First, PrewriteHeld),
    (First, Abort),
    (First, Deliver),
    (First, Finish),
];

// The same, where old versions are collected between, at the very number of the rollback.
static COLLECTED_AT_ROLLBACK: [Cue; 8] = [
    (First, Begin),
    (First, Edit),
    (First, DeclareAsync),
    (First, PrewriteHeld),
    (First, Abort),
    (First, CollectAtStart),
    (First, Deliver),
    (First, Finish),
];

// A lock is met, and asked after only when a collection has passed by its start.
static RESOLVED_TOO_LATE: [Cue; 10] = [
    (First, Begin),
    (First, Edit),
    (First, DeclareLate),
    (First, Prewrite),
    (Second, Begin),
    (Second, Get),
    (Second, CollectAll),
    (Second, Resolve),
    (First, Commit),
    (First, Finish),
];

// One that hears nothing of its prewrite is decided by another, and prewrites again.
static DECIDED_BY_ANOTHER: [Cue; 10] = [
    (First, Begin),
    (First, Edit),
    (First, DeclareAsync),
    (First, PrewriteUnheard),
    (Second, Begin),
    (Second, Get),
    (Second, Resolve),
    (First, Heartbeat),
    (First, Prewrite),
    (First, Finish),
];

// The same, where it rolls back.
static ROLLS_BACK_TOO_LATE: [Cue; 9] = [
    (First, Begin),
    (First, Edit),
    (First, DeclareAsync),
    (First, PrewriteUnheard),
    (Second, Begin),
    (Second, Get),
    (Second, Resolve),
    (First, Abort),
    (First, Finish),
];

// One that hears nothing of its commit rolls back.
static COMMITTED_UNHEARD: [Cue; 8] = [
    (First, Begin),
    (First, Edit),
    (First, DeclareLate),
    (First, Prewrite),
    (First, Draw),
    (First, CommitUnheard),
    (First, Abort),
    (First, Finish),
];

// A transaction has too many keys to commit asynchronously.
static CROWDED: [Cue; 4] = [
    (First, Begin),
    (First, Crowd),
    (First, DeclareAsync),
    (First, Finish),
];

// The seat that draws for the clock has no tick left.
static SPENT: [Cue; 2] = [(First, TickLong), (First, TickLong)];

/// Which scene it is.
#[derive(Clone, Copy, Debug, Drop, PartialEq, Eq)]
pub(crate) enum Scene {
    Pushed,
    MarkedByCommit,
    MarkedByRollback,
    RolledBack,
    CollectedAtRollback,
    ResolvedTooLate,
    DecidedByAnother,
    RollsBackTooLate,
    CommittedUnheard,
    Crowded,
    Spent,
}

impl Scene {
    /// Its moves, one after another.
    pub(crate) fn cues(self) -> &'static [Cue] {
        match self {
            Scene::Pushed => &PUSHED,
            Scene::MarkedByCommit => &MARKED_BY_COMMIT,
            Scene::MarkedByRollback => &MARKED_BY_ROLLBACK,
            Scene::RolledBack => &ROLLED_BACK,
            Scene::CollectedAtRollback => &COLLECTED_AT_ROLLBACK,
            Scene::ResolvedTooLate => &RESOLVED_TOO_LATE,
            Scene::DecidedByAnother => &DECIDED_BY_ANOTHER,
            Scene::RollsBackTooLate => &ROLLS_BACK_TOO_LATE,
            Scene::CommittedUnheard => &COMMITTED_UNHEARD,
            Scene::Crowded => &CROWDED,
            Scene::Spent => &SPENT,
        }
    }
}
