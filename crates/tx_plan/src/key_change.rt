//! What a command changes on its key, told so that a store applies it to its families and
//! looks up nothing.

use tx_types::{Mode, Ts};

/// What a command changes on its key.
#[derive(Clone, Copy, Debug)]
pub enum KeyChange {
    /// Nothing.
    Nothing,
    /// The key is locked. What the lock does to the key, and the rest of it, is the prewrite's.
    Lock(NewLock),
    /// The lock lives so long from now on, in ticks after its start.
    Ttl(u32),
    /// The lock has this minimum commit timestamp from now on.
    Minimum(Ts),
    /// The lock goes, and its commit record is at `commit` in place of what was there. It keeps the
    /// lock's mutation, whose value stays where it is.
    Commit {
        commit: Ts,
        overlapped_rollback: bool,
    },
    /// The transaction that started at `start` is rolled back. Its lock goes with the
    /// value that it puts.
    RollBack {
        start: Ts,
        removes_lock: bool,
        left: Left,
    },
}

/// How a rollback is left at its start.
#[derive(Clone, Copy, Debug)]
pub enum Left {
    /// It is there already.
    Already,
    /// As a rollback record.
    Record,
    /// As the mark on the commit record that is there.
    Mark,
}

/// How a prewrite locks its key.
#[derive(Clone, Copy, Debug)]
pub struct NewLock {
    /// An async lock lists the request's other keys, a two-phase one none.
    pub mode: Mode,
    /// The least timestamp at which the transaction may commit.
    pub min: Ts,
}
