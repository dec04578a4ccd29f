//! Events: the atomic steps of which every history is made. Sending is no event, and a request that
//! is lost is an event that never comes; one that is repeated or late is an event again, or later.
use tx_plan::{Answer, Body};
use tx_types::{Changes, Mode, RegionNo, SeatNo, Ts};

/// What a transaction is going to commit, and how: fixed before its first prewrite.
#[derive(Debug, Drop)]
pub struct Declaration {
    /// The start timestamp of the transaction.
    pub start: Ts,
    /// Its write set, in buffer order: the first key is the primary.
    pub changes: Changes,
    pub mode: Mode,
    /// The time to live of its locks, in ticks.
    pub ttl: u32,
    /// The greatest commit timestamp that an async lock may promise; none is no bound.
    pub max_commit: Option<Ts>,
    /// The number that its seat drew for it, after it began: it commits above this one, and so
    /// above all that was answered before.
    pub drawn: Ts,
}

/// Why a session does not know how its transaction ended: what became of the last request that
/// could have told.
#[derive(Clone, Copy, Debug, PartialEq, Eq)]
pub enum UnknownCause {
    /// No reply came.
    Reply,
    /// E7: it was refused below the safe point.
    BelowSafePoint,
    /// E12: it was refused for want of memory.
    OutOfMemory,
}

/// What a session answers of its transaction.
#[derive(Clone, Copy, Debug, PartialEq, Eq)]
pub enum Outcome {
    /// Committed at this timestamp.
    Committed(Ts),
    Aborted,
    /// The session does not know: the transaction may be committed, aborted or open. A resolver can
    /// tell, of a lock of it that stands, or its own reads.
    Unknown(UnknownCause),
    /// The transaction changed nothing: it declared nothing.
    ReadOnly,
}

/// A request that a region took, and its answer.
#[derive(Debug, Drop)]
pub struct Taken {
    pub region: RegionNo,
    pub body: Body,
    /// The last number drawn, as the region's seat loaded it.
    pub loaded: Ts,
    pub answer: Answer,
}

/// One atomic step of one seat.
#[derive(Debug, Drop)]
pub enum Event {
    /// A seat drew this number from the oracle.
    Drawn { seat: SeatNo, ts: Ts },
    /// The seat that drew this number began a transaction there.
    Began(Ts),
    /// A transaction fixed its write set.
    Declared(Declaration),
    /// The session of the transaction that started here answered this.
    Answered(Ts, Outcome),
    /// The session of a seat was stopped.
    Stopped(SeatNo),
    /// A region took a request.
    Took(Taken),
}
