//! Locks, and what is told of them.
ghost use Rattle.std.specs.Prelude.{◌≡◌, IfOk, IfErr};
ghost use Rattle.tx_types.specs.Locks.{async_min, mode_of, info_of};

use crate::fault::Fault;
use crate::key::Key;
use crate::lists::Secondaries;
use crate::mutation::{LockKind, Mode, StoredMutation};
use crate::ts::Ts;
use std::alloc::Global;
use std::fmt;
use std::marker::Model;

/// How a lock's transaction commits. The async lock of the primary lists the
/// transaction's other keys.
#[derive(Clone, Debug, Drop)]
pub enum LockMode {
    TwoPhase,
    Async(Secondaries),
}

impl LockMode {
    /// The mode alone.
    pub fn mode(&self) -> Mode
        ensures { result ≡ mode_of self.now }
    {
        match self {
            LockMode::TwoPhase => Mode::TwoPhase,
            LockMode::Async(_) => Mode::Async,
        }
    }
}

/// The lock record of a key, as the `lock` family keeps it.
#[derive(Clone, Debug, Drop)]
pub struct LockRec {
    /// What the transaction does to the key.
    pub mutation: StoredMutation,
    pub mode: LockMode,
    /// The start timestamp of the transaction.
    pub start: Ts,
    /// The least timestamp at which the transaction may commit.
    pub min: Ts,
    /// How long after its start the lock is live, in ticks.
    pub ttl: u32,
    /// The key whose lock or record decides the transaction.
    pub primary: Key,
}

impl LockRec {
    /// What is told of the lock, which stands on this key.
    pub fn info(&self, alloc: Global, key: &Key) -> Result<LockInfo, Fault>
        ensures ok { IfOk result (λ info. info ≡ info_of key.now self.now) }
        ensures err { IfErr result (λ e. e ≡ Fault.OutOfMemory) }
    {
        let key = key.clone()?;
        let primary = self.primary.clone()?;
        let secondaries = match &self.mode {
            LockMode::TwoPhase => Secondaries::new(alloc),
            LockMode::Async(others) => others.clone()?,
        };
        LockInfo::new(
            alloc,
            LockFacts {
                key,
                start: self.start,
                primary,
                min: self.min,
                ttl: self.ttl,
                kind: self.mutation.kind(),
                mode: self.mode.mode(),
                secondaries,
            },
        )
    }

    /// A copy. `OutOfMemory` is its only fault.
    pub fn clone(&self) -> Result<LockRec, Fault>
        ensures ok { IfOk result (λ copy. copy ≡ self.now) }
        ensures err { IfErr result (λ e. e ≡ Fault.OutOfMemory) }
    {
        Ok(Clone::clone(self)?)
    }
}

/// What a lock says to those whom it stops.
#[derive(Debug, Drop)]
pub struct LockFacts {
    pub key: Key,
    pub start: Ts,
    pub primary: Key,
    pub min: Ts,
    pub ttl: u32,
    pub kind: LockKind,
    pub mode: Mode,
    /// The transaction's other keys, where this is the async lock of its primary.
    pub secondaries: Secondaries,
}

impl LockFacts {
    /// The minimum of an async lock, 0 of a two-phase one.
    pub fn async_min(&self) -> Ts
        ensures { result ≡ async_min self.now.mode self.now.min }
    {
        self.mode.async_min(self.min)
    }

    /// A copy. `OutOfMemory` is its only fault.
    pub fn clone(&self) -> Result<LockFacts, Fault>
        ensures ok { IfOk result (λ copy. copy ≡ self.now) }
        ensures err { IfErr result (λ e. e ≡ Fault.OutOfMemory) }
    {
        Ok(LockFacts {
            key: self.key.clone()?,
            start: self.start,
            primary: self.primary.clone()?,
            min: self.min,
            ttl: self.ttl,
            kind: self.kind,
            mode: self.mode,
            secondaries: self.secondaries.clone()?,
        })
    }
}

/// What is told of a lock. It lies in memory of its own, so that an answer or a refusal that may
/// tell of a lock is small. Contracts see what the lock says.
#[derive(Debug, Drop)]
pub struct LockInfo {
    facts: Box<LockFacts>,
}

impl Model for LockInfo {
    ghost use Rattle.tx_types.specs.declared.lock.LockFacts.{LockFacts};

    ghost Value = { LockFacts };

    ghost view = { λ i. i.facts.value };
}

impl LockInfo {
    /// What this lock says is told.
    pub fn new(alloc: Global, facts: LockFacts) -> Result<LockInfo, Fault>
        ensures ok { IfOk result (λ info. info ≡ facts) }
        ensures err { IfErr result (λ e. e ≡ Fault.OutOfMemory) }
    {
        let facts = Box::new(alloc, facts)?;
        Ok(LockInfo { facts })
    }

    /// What the lock says.
    pub fn facts(&self) -> &LockFacts
        ensures { result.now ≡ self.now }
    {
        &self.facts
    }

    /// It says another minimum commit timestamp.
    pub fn set_min(&mut self, min: Ts)
        ensures { self.new ≡ record self.old { min = min } }
    {
        self.facts.min = min;
    }

    /// A copy. `OutOfMemory` is its only fault.
    pub fn clone(&self) -> Result<LockInfo, Fault>
        ensures ok { IfOk result (λ copy. copy ≡ self.now) }
        ensures err { IfErr result (λ e. e ≡ Fault.OutOfMemory) }
    {
        let facts = LockFacts::clone(&self.facts)?;
        LockInfo::new(*Box::allocator(&self.facts), facts)
    }
}

impl fmt::Display for LockInfo {
    fn fmt<W: fmt::Write>(&self, f: &mut fmt::Formatter<W>) -> fmt::Result {
        write!(
            f,
            "key {} is locked by the transaction that started at {} with the primary {}",
            self.facts.key, self.facts.start, self.facts.primary
        )
    }
}
