//! The steps of the one-step machine, as a trace of them is kept.
use tx_types::{Changes, Fate, Key, KeyValues, Ts, Value};

/// A scan that was answered: the rows that were seen from `from` up to but not including `to`, at
/// most `limit` of them.
#[derive(Debug, Drop)]
pub struct ScanRead {
    pub from: Key,
    pub to: Key,
    pub at: Ts,
    pub limit: u32,
    pub rows: KeyValues,
}

/// One step of the machine that commits each transaction in one step.
#[derive(Debug, Drop)]
pub enum Step {
    /// The oracle gives this number.
    Draw(Ts),
    /// A transaction starts at a number that was drawn.
    Begin(Ts),
    /// The transaction that started here fixes its write set.
    Declare(Ts, Changes),
    /// The transaction that started at the first timestamp commits at the second.
    Commit(Ts, Ts),
    /// The transaction that started here is aborted.
    Abort(Ts),
    /// A read of a key at a timestamp, and what it gave.
    Read(Key, Ts, Option<Value>),
    /// A read of a range of keys.
    Scan(ScanRead),
    /// What has become of the transaction that started here is told.
    Answer(Ts, Fate),
}
