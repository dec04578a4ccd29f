//! What transactions do to keys, and the kinds of locks and records.
ghost use Rattle.std.specs.Prelude.{◌≡◌, ◌↔◌, IsTrue, IfOk, IfErr};
ghost use Rattle.tx_types.specs.Keys.{IsVisible, is_visible};
ghost use Rattle.tx_types.specs.Kinds.{kind_of, stored_kind};
ghost use Rattle.tx_types.specs.Locks.{async_min};

use crate::fault::Fault;
use crate::key::Key;
use crate::ts::Ts;
use crate::value::{StoredValue, Value};

/// What a transaction does to a key.
#[derive(Clone, Debug, Drop, PartialEq, Eq)]
pub enum Mutation {
    /// Writes the value.
    Put(Value),
    /// Writes the value, where the key has none at the transaction's start.
    Insert(Value),
    /// Removes the value.
    Delete,
    /// Leaves the value, and conflicts with those that change it.
    Lock,
}

impl Mutation {
    /// The kind of the lock that it takes.
    pub fn kind(&self) -> LockKind
        ensures { result ≡ kind_of self.now }
    {
        match self {
            Mutation::Put(_) | Mutation::Insert(_) => LockKind::Put,
            Mutation::Delete => LockKind::Delete,
            Mutation::Lock => LockKind::Lock,
        }
    }

    /// Whether reads see what it does: puts, inserts and deletes, and no locks.
    pub fn is_visible(&self) -> bool
        ensures test { result ≡ is_visible self.now }
        ensures seen { IsTrue result ↔ IsVisible self.now }
    {
        match self {
            Mutation::Put(_) | Mutation::Insert(_) | Mutation::Delete => true,
            Mutation::Lock => false,
        }
    }

    /// A copy. `OutOfMemory` is its only fault.
    pub fn clone(&self) -> Result<Mutation, Fault>
        ensures ok { IfOk result (λ copy. copy ≡ self.now) }
        ensures err { IfErr result (λ e. e ≡ Fault.OutOfMemory) }
    {
        Ok(Clone::clone(self)?)
    }
}

/// A mutation as a lock or a commit record keeps it.
#[derive(Clone, Debug, Drop, PartialEq, Eq)]
pub enum StoredMutation {
    Put(StoredValue),
    Delete,
    Lock,
}

impl StoredMutation {
    /// Its kind.
    pub fn kind(&self) -> LockKind
        ensures { result ≡ stored_kind self.now }
    {
        match self {
            StoredMutation::Put(_) => LockKind::Put,
            StoredMutation::Delete => LockKind::Delete,
            StoredMutation::Lock => LockKind::Lock,
        }
    }
}

/// One entry of a write set: a key, and what is done to it.
#[derive(Clone, Debug, Drop, PartialEq, Eq)]
pub struct Change {
    pub key: Key,
    pub mutation: Mutation,
}

/// A row of a scan: a key and its value.
#[derive(Clone, Debug, Drop, PartialEq, Eq)]
pub struct KeyValue {
    pub key: Key,
    pub value: Value,
}

/// The kinds of locks.
#[derive(Clone, Copy, Debug, PartialEq, Eq)]
pub enum LockKind {
    Put,
    Delete,
    Lock,
}

/// How a transaction commits, and so a lock.
#[derive(Clone, Copy, Debug, PartialEq, Eq)]
pub enum Mode {
    /// By the commit of its primary.
    TwoPhase,
    /// Once every key is locked.
    Async,
}

impl Mode {
    /// The minimum that counts of a lock of this mode, which has this one: 0 of a two-phase lock,
    /// whose minimum promises nothing.
    pub fn async_min(self, min: Ts) -> Ts
        ensures { result ≡ async_min self min }
    {
        match self {
            Mode::TwoPhase => Ts::ZERO,
            Mode::Async => min,
        }
    }
}

/// What has become of a transaction that ended.
#[derive(Clone, Copy, Debug, PartialEq, Eq)]
pub enum Fate {
    /// Committed at this timestamp.
    Committed(Ts),
    Aborted,
}
