//! Why a step is not made.
use crate::versions::Writer;
use tx_types::{Fate, Key, Ts, Value};

/// What a read sees of a key, and whose commit left it.
#[derive(Debug, Drop)]
pub enum SeenValue {
    /// No commit has changed the key.
    Nothing,
    /// The newest commit deleted it.
    Deleted(Writer),
    /// The newest commit left this value.
    Left(Value, Writer),
}

/// How far the transaction that would start at a number has come.
#[derive(Clone, Copy, Debug, PartialEq, Eq)]
pub enum Standing {
    /// The number was not drawn.
    Undrawn,
    /// The number was drawn, and no transaction has begun at it.
    Drawn,
    /// It has begun, and declared nothing yet.
    Begun,
    /// It has declared its write set.
    Declared,
    /// It has ended.
    Ended(Fate),
}

/// Why the machine does not make a step: a fact of what the steps before it have left.
#[derive(Debug, Drop)]
pub enum Why {
    /// The last number that was drawn: a draw lies above it, a read at most at it, and a commit at
    /// most one above it.
    Last {
        at: Ts,
        last: Ts,
    },
    /// The transaction that started here has not come as far as the step asks, or further.
    State {
        start: Ts,
        is: Standing,
    },
    /// The transaction that started here declares nothing.
    Empty {
        start: Ts,
    },
    /// It declares the key twice.
    Twice {
        start: Ts,
        key: Key,
    },
    /// It would commit at its start or below.
    Early {
        start: Ts,
        commit: Ts,
    },
    /// It started at `start`, and another transaction that overlaps it committed the key.
    Conflict {
        key: Key,
        other: Writer,
        start: Ts,
    },
    /// A read at this timestamp, at or above the commit, covered the key that it changes.
    Unread {
        key: Key,
        at: Ts,
        commit: Ts,
    },
    /// A read at its start sees a value of the key that it inserts.
    Exists {
        key: Key,
        at: Ts,
        seen: SeenValue,
    },
    /// More rows than the scan's limit.
    Count {
        rows: u64,
        limit: u32,
    },
    /// A row whose key is not in the range, or not above the one before it.
    Order {
        key: Key,
    },
    /// A read of the key sees something else than it claims.
    Read {
        key: Key,
        at: Ts,
        claims: Option<Value>,
        seen: SeenValue,
    },
}
