//! A script that was played, row by row: what a picture is made of.
use crate::key_state::{SeenLock, SeenRecord};

/// What a line of the script is.
#[derive(Clone, Copy, Debug, PartialEq, Eq)]
pub enum RowKind {
    /// A step.
    Step,
    /// The line that says the regions.
    Regions,
    /// No step.
    Other,
}

/// What became of the request that a step sent, where it sent one.
#[derive(Clone, Copy, Debug, PartialEq, Eq)]
pub enum Sending {
    /// It was taken, or nothing was sent.
    Plain,
    Lost,
    ReplyLost,
    Twice,
    /// It is held under a name.
    Held,
    /// It was held under a name, and a copy of it is taken.
    Delivered,
}

/// A key to which a request went.
#[derive(Clone, Copy, Debug, PartialEq, Eq)]
pub struct Target {
    /// Its place among the keys.
    pub key: usize,
    /// Whether the request met a lock there.
    pub meets_lock: bool,
}

/// What changed of a key.
#[derive(Drop)]
pub struct Change {
    /// Its place among the keys.
    pub key: usize,
    pub old_lock: Option<SeenLock>,
    pub lock: Option<SeenLock>,
    /// The value of a put whose lock stands there, as it is shown; else empty.
    pub value: String,
    /// Write records that came, from the newest on.
    pub came: Vec<SeenRecord>,
    /// Write records that went, from the newest on.
    pub went: Vec<SeenRecord>,
}

/// What a region read of a key.
#[derive(Drop)]
pub struct KeyRead {
    /// Its place among the keys.
    pub key: usize,
    /// Its value as it is shown, or `none`.
    pub found: String,
}

/// A line of the script that was played, and what came of it.
#[derive(Drop)]
pub struct Row {
    pub kind: RowKind,
    /// The place of its session; None where it is a step of no session.
    pub session: Option<usize>,
    /// The step, without its session and its delivery.
    pub step: String,
    pub sending: Sending,
    /// The name under which its request is held, or was.
    pub held: String,
    /// What was replied; empty where that is only that it was done, or that its request was lost.
    pub answer: String,
    /// Why it was refused; empty where it was not.
    pub reason: String,
    /// The keys to which requests went that regions took.
    pub targets: Vec<Target>,
    /// Whether regions took requests that went to no key of these.
    pub goes_beyond: bool,
    /// What regions read.
    pub reads: Vec<KeyRead>,
    pub changes: Vec<Change>,
    /// The steps of the machine that were taken during it, where those are shown.
    pub machine: Vec<String>,
}

impl Row {
    /// Whether it was refused.
    pub fn is_refused(&self) -> bool {
        !self.reason.is_empty()
    }
}

/// A session of a script, from its first line to its end.
#[derive(Drop)]
pub struct Session {
    pub name: String,
    /// Its column: that of no other session that lives.
    pub column: usize,
    /// Where its transaction started.
    pub start: Option<u64>,
    /// The place of its first row.
    pub begins: usize,
    /// The place of the row by which it ended.
    pub ends: Option<usize>,
}

/// A key that a script names.
#[derive(Drop)]
pub struct KeyColumn {
    /// Its name as it is shown.
    pub name: String,
    /// The place of its region.
    pub region: usize,
}

/// A script that was played: its sessions in the order in which lines first name them, its keys in
/// order, and a row a line.
#[derive(Drop)]
pub struct Sheet {
    pub sessions: Vec<Session>,
    /// How many columns sessions have.
    pub columns: usize,
    pub keys: Vec<KeyColumn>,
    pub rows: Vec<Row>,
}

impl Sheet {
    /// The column of a row; None where it is a step of no session.
    pub fn column_of(&self, row: &Row) -> Option<usize> {
        Some(self.sessions.get(row.session?)?.column)
    }
}
