//! What is asked of a recording.

use tx_recording::Orders;

/// A level of isolation.
#[derive(Clone, Copy, Debug, PartialEq, Eq)]
pub enum Level {
    /// Snapshot isolation.
    Snapshot,
    /// Also that the transactions that committed ran one after the other.
    Serializable,
}

/// A level of isolation, and orders that are to be kept.
#[derive(Clone, Copy, Debug, PartialEq, Eq)]
pub struct Question {
    pub level: Level,
    pub orders: Orders,
}
