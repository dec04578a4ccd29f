//! What a session keeps of its transaction.
use tx_plan::Body;
use tx_types::{Mode, Mutation, Ts};

/// How a transaction commits.
#[derive(Clone, Copy, Debug, PartialEq, Eq)]
pub struct Terms {
    pub mode: Mode,
    /// The time to live of its locks, in ticks.
    pub ttl: u32,
    /// The greatest commit timestamp that an async lock may promise; none is no bound.
    pub max_commit: Option<Ts>,
}

/// What a session sends for.
#[derive(Clone, Copy, Debug, PartialEq, Eq)]
pub enum Phase {
    Prewrite,
    Commit,
    Abort,
}

/// What was sent and answered for a key.
#[derive(Clone, Copy, Debug, PartialEq, Eq)]
pub struct Progress {
    /// A prewrite of it was sent.
    pub sent: bool,
    /// The minimum commit timestamp of its accepted lock, 0 of a two-phase one.
    pub accepted: Option<Ts>,
    /// A commit of it was answered as committed.
    pub committed: bool,
    /// It was answered that a rollback stands on it.
    pub rolled: bool,
}

/// What a session does to a key, and how far it is.
#[derive(Debug, Drop)]
pub struct BufferEntry {
    pub mutation: Mutation,
    pub progress: Progress,
}

/// Why a request has no answer, or a call.
#[derive(Clone, Copy, Debug, PartialEq, Eq)]
pub enum Miss {
    /// No reply came.
    Lost,
    /// Memory was refused, to the session or to the region.
    Fault,
}

/// A request that is due, and the index of its key in the buffer.
#[derive(Debug, Drop)]
pub struct Due {
    pub index: usize,
    pub body: Body,
}

/// What is asked of a key, besides its prewrite.
#[derive(Clone, Copy, Debug, PartialEq, Eq)]
pub(crate) enum KeyRequest {
    /// Its commit at this timestamp.
    Commit(Ts),
    /// Its rollback.
    Rollback,
    /// Whether it is locked; where it is not, that it stays so.
    Check,
}
