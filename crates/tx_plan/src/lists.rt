//! Lists of transactions and of locks.
use tx_types::{Items, LockInfo, Ts};

/// Start timestamps of transactions: those whose locks a read passes by.
pub type Starts = Items<Ts>;

/// What is told of several locks.
pub type Infos = Items<LockInfo>;
