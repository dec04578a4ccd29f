//! The verdict on a recording.

use crate::anomaly::Anomaly;
use crate::refutation::Refutation;

/// When each transaction starts and commits, and which committed, by their place in the recording.
#[derive(Debug, Drop)]
pub struct Timestamps {
    pub committed: Vec<bool>,
    pub starts: Vec<usize>,
    pub commits: Vec<usize>,
}

/// Why one transaction comes before another.
#[derive(Clone, Copy, Debug, PartialEq, Eq)]
pub enum EdgeKind {
    /// It put what the other put something behind.
    Ww,
    /// It put what the other saw.
    Wr,
    /// It saw what the other put something behind.
    Rw,
    /// Its process ran the other after it.
    So,
    /// It had ended when the other began.
    Rt,
}

/// A step of a cycle, from one transaction to another.
#[derive(Clone, Copy, Debug, PartialEq, Eq)]
pub struct CycleStep {
    pub from: u32,
    pub edge: EdgeKind,
    /// None for the orders of processes and of the clock.
    pub key: Option<u32>,
    pub to: u32,
}

/// Which order a cycle needs beside those of reads and writes.
#[derive(Clone, Copy, Debug, PartialEq, Eq)]
pub enum Beside {
    Nothing,
    /// That of a process.
    Processes,
    /// That of the clock, and maybe of a process as well.
    Clock,
}

/// A cycle of transactions, each of which has to come before the next one.
#[derive(Debug, Drop)]
pub struct Cycle {
    pub anomaly: Anomaly,
    pub beside: Beside,
    pub steps: Vec<CycleStep>,
}

/// What is wrong with what a transaction read.
#[derive(Clone, Copy, Debug, PartialEq, Eq)]
pub enum Rule {
    /// It is of a transaction that failed.
    G1a,
    /// It is of a transaction that left another one in its place, or more before or behind it.
    G1b,
    /// It lacks the reader's own values, or has those that it puts only later.
    Internal,
    /// It is not what the same transaction read before.
    Unrepeatable,
    /// Nobody put it.
    Unwritten,
    /// It is there twice.
    Duplicate,
    /// It is no beginning of what another transaction read, nor the other way round.
    IncompatibleOrder,
    /// Another transaction saw the same, and both put into the key.
    LostUpdate,
}

/// A read that cannot be.
#[derive(Clone, Copy, Debug, PartialEq, Eq)]
pub struct Fact {
    pub rule: Rule,
    pub txn: u32,
    pub key: u32,
    pub value: Option<u32>,
    pub by: Option<u32>,
}

/// Whether a recording is of the level that is asked for.
#[derive(Debug, Drop)]
pub enum HistoryVerdict {
    /// It is, under these timestamps.
    Yes(Timestamps),
    /// It is not, by a cycle.
    No(Cycle),
    /// It is not, in no order of what was put into some keys.
    Refuted(Refutation),
    /// It is not, by what one transaction read.
    Fact(Fact),
    /// Neither was found: the order of what was put into these keys is not known, of one at least.
    Open(Vec<u32>),
    /// Neither was found, and no such key.
    Unknown,
    /// It is no recording: these two transactions put this value.
    Twice(u32, u32, u32),
}
