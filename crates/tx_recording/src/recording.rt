//! The types of a recording.

/// What is known of a transaction's end.
#[derive(Clone, Copy, Debug, PartialEq, Eq)]
pub enum RecordedOutcome {
    /// It committed.
    Ok,
    /// It did not commit.
    Fail,
    /// Nobody knows: it may have committed, or do so later. What it read is not known either.
    Info,
}

/// Some of the values that lie in a row in the recording's list of what was read.
#[derive(Clone, Copy, Debug, PartialEq, Eq)]
pub struct Span {
    pub first: u32,
    pub count: u32,
}

/// What an operation did with its key, which holds a list of values. A register holds one value, or
/// none.
#[derive(Clone, Copy, Debug, PartialEq, Eq)]
pub enum Act {
    /// It put this value behind those that were there.
    Append(u32),
    /// It put this value in place of those that were there.
    Write(u32),
    /// It read these values.
    Read(Span),
}

/// An operation of a transaction.
#[derive(Clone, Copy, Debug, PartialEq, Eq)]
pub struct RecordedOp {
    pub key: u32,
    pub act: Act,
}

/// A transaction that was recorded.
#[derive(Clone, Copy, Debug, PartialEq, Eq)]
pub struct RecordedTransaction {
    /// What its line calls it.
    pub id: u64,
    pub outcome: RecordedOutcome,
    /// Who ran it: a process runs one after the other.
    pub process: Option<u32>,
    /// When it began by the recorder's clock.
    pub began: Option<u64>,
    /// When it ended by the recorder's clock.
    pub ended: Option<u64>,
    /// Where its operations begin among those of the recording.
    pub first: u32,
    /// Where they end: the first one behind them.
    pub upto: u32,
}

/// A recording. Keys and values are numbers below a number; a value's number is that of one key
/// alone, so that two keys with the same text have two numbers.
#[derive(Debug, Drop)]
pub struct Recording {
    /// In the order of the lines: of one process, in the order in which it ran them.
    pub transactions: Vec<RecordedTransaction>,
    pub ops: Vec<RecordedOp>,
    /// What was read, of all reads.
    pub elements: Vec<u32>,
    /// How many keys there are.
    pub keys: u32,
    /// How many values there are.
    pub values: u32,
}

/// Which orders beside those of the reads and writes timestamps have to keep.
#[derive(Clone, Copy, Debug, PartialEq, Eq)]
pub struct Orders {
    /// That in which each process ran its transactions.
    pub sessions: bool,
    /// That of the clock: what began after another had ended comes after it.
    pub strict: bool,
}
