//! Locks and write records as they are. Contracts see the records.
ghost use Rattle.std.specs.Prelude.{◌≡◌, Bool, Some, IfOk, IfErr, IfSome};
ghost use Rattle.tx_types.specs.Locks.{info_of};
ghost use Rattle.tx_types.specs.declared.write.WriteRec.TheVariants as stored;
ghost use Rattle.tx_plan.specs.declared.view.RecordHead.TheVariants as head;
ghost use Rattle.tx_cells.specs.Afterwards.{stored_of, lock_put, with_ttl, with_min, commit_of, marked};
ghost use Rattle.tx_cells.specs.Heads.{lock_head, write_head, record_kind, start_in, write_keeps_apart, write_inline};
ghost use Rattle.tx_cells.specs.Histories.{IsSeenKind};

use std::alloc::Global;
use std::marker::Model;
use tx_cells::SeenRecord;
use tx_plan::{LockHead, NewLock, Prewrite, RecordHead, RecordKind};
use tx_types::{
    Fault, Key, LockInfo, LockKind, LockMode, LockRec, Mode, Mutation, StoredMutation, StoredValue,
    Ts, Value,
};

/// A lock, in memory of its own, since few keys have one.
#[derive(Drop)]
pub(crate) struct HeldLock {
    rec: Box<LockRec>,
}

impl Model for HeldLock {
    ghost use Rattle.tx_types.specs.declared.lock.LockRec.{LockRec};

    ghost Value = { LockRec };

    ghost view = { λ l. l.rec.value };
}

/// The mutation that a prewrite asks for, as its lock keeps it.
fn stored(mutation: &Mutation) -> Result<StoredMutation, Fault>
    ensures ok { IfOk result (λ kept. kept ≡ stored_of mutation.now) }
    ensures err { IfErr result (λ e. e ≡ Fault.OutOfMemory) }
{
    match mutation {
        Mutation::Put(value) | Mutation::Insert(value) => Ok(StoredMutation::Put(value.stored()?)),
        Mutation::Delete => Ok(StoredMutation::Delete),
        Mutation::Lock => Ok(StoredMutation::Lock),
    }
}

impl HeldLock {
    /// The lock that a prewrite asks for.
    pub fn new(alloc: Global, body: &Prewrite, new: NewLock) -> Result<HeldLock, Fault>
        ensures ok { IfOk result (λ lock. lock ≡ lock_put body.now new) }
        ensures err { IfErr result (λ e. e ≡ Fault.OutOfMemory) }
    {
        let mode = match new.mode {
            Mode::TwoPhase => LockMode::TwoPhase,
            Mode::Async => LockMode::Async(body.others.clone()?),
        };
        let rec = LockRec {
            mutation: stored(&body.mutation)?,
            mode,
            start: body.start,
            min: new.min,
            ttl: body.ttl,
            primary: body.primary.clone()?,
        };
        let rec = Box::new(alloc, rec)?;
        Ok(HeldLock { rec })
    }

    /// What is asked of it.
    pub fn head(&self) -> LockHead
        ensures { result ≡ lock_head self.now }
    {
        LockHead {
            start: self.rec.start,
            min: self.rec.min,
            ttl: self.rec.ttl,
            kind: self.rec.mutation.kind(),
            mode: self.rec.mode.mode(),
        }
    }

    /// What is told of it, where it stands on this key.
    pub fn info(&self, alloc: Global, key: &Key) -> Result<LockInfo, Fault>
        ensures ok { IfOk result (λ info. info ≡ info_of key.now self.now) }
        ensures err { IfErr result (λ e. e ≡ Fault.OutOfMemory) }
    {
        self.rec.info(alloc, key)
    }

    /// Gives it another time to live.
    pub fn set_ttl(&mut self, ttl: u32)
        ensures { self.new ≡ with_ttl self.old ttl }
    {
        self.rec.ttl = ttl;
    }

    /// Gives it another minimum.
    pub fn set_min(&mut self, min: Ts)
        ensures { self.new ≡ with_min self.old min }
    {
        self.rec.min = min;
    }

    /// The commit record that it becomes.
    pub fn commit_record(&self, is_marked: bool) -> Result<HeldWrite, Fault>
        ensures ok { IfOk result (λ rec. rec ≡ stored.Commit (commit_of self.now is_marked)) }
        ensures err { IfErr result (λ e. e ≡ Fault.OutOfMemory) }
    {
        let start = self.rec.start;
        let rec = match &self.rec.mutation {
            StoredMutation::Put(StoredValue::Inline(value)) => Kept::Put {
                is_marked,
                start,
                value: value.as_value().clone()?,
            },
            StoredMutation::Put(StoredValue::InDefault) => Kept::PutApart { is_marked, start },
            StoredMutation::Delete => Kept::Delete { is_marked, start },
            StoredMutation::Lock => Kept::Lock { is_marked, start },
        };
        Ok(HeldWrite { rec })
    }
}

// A write record by what its transaction did, and whether it has the mark.
#[derive(Drop)]
enum Kept {
    Rollback(Ts),
    // A put of a value that stands inline.
    Put {
        is_marked: bool,
        start: Ts,
        value: Value,
    },
    // A put of a value that is kept apart.
    PutApart {
        is_marked: bool,
        start: Ts,
    },
    Delete {
        is_marked: bool,
        start: Ts,
    },
    Lock {
        is_marked: bool,
        start: Ts,
    },
}

/// A write record.
#[derive(Drop)]
pub(crate) struct HeldWrite {
    rec: Kept,
}

impl Model for HeldWrite {
    ghost use Rattle.tx_types.specs.declared.write.WriteRec.{WriteRec};
    ghost use Rattle.tx_nested.specs.Kept.{rec_of};

    ghost Value = { WriteRec };

    ghost view = { λ w. rec_of w.rec };
}

impl HeldWrite {
    /// The rollback of the transaction that started then.
    pub fn rollback(start: Ts) -> HeldWrite
        ensures { result ≡ stored.Rollback start }
    {
        HeldWrite {
            rec: Kept::Rollback(start),
        }
    }

    /// The record with the mark, where it is a commit record.
    pub fn marked(&self) -> Result<HeldWrite, Fault>
        ensures ok { IfOk result (λ new. Some new ≡ marked (Some self.now)) }
        ensures err { IfErr result (λ e. e ≡ Fault.OutOfMemory) }
    {
        let is_marked = true;
        let rec = match &self.rec {
            Kept::Rollback(start) => Kept::Rollback(*start),
            Kept::Put { start, value, .. } => Kept::Put {
                is_marked,
                start: *start,
                value: value.clone()?,
            },
            Kept::PutApart { start, .. } => Kept::PutApart {
                is_marked,
                start: *start,
            },
            Kept::Delete { start, .. } => Kept::Delete {
                is_marked,
                start: *start,
            },
            Kept::Lock { start, .. } => Kept::Lock {
                is_marked,
                start: *start,
            },
        };
        Ok(HeldWrite { rec })
    }

    /// The start of its transaction.
    pub fn start(&self) -> Ts
        ensures { result ≡ start_in self.now }
    {
        match &self.rec {
            Kept::Rollback(start) => *start,
            Kept::Put { start, .. }
            | Kept::PutApart { start, .. }
            | Kept::Delete { start, .. }
            | Kept::Lock { start, .. } => *start,
        }
    }

    /// Whether it puts a value that is kept apart.
    pub fn keeps_value_apart(&self) -> bool
        ensures { result ≡ write_keeps_apart self.now }
    {
        match &self.rec {
            Kept::PutApart { .. } => true,
            _ => false,
        }
    }

    /// The value that it puts, where that stands inline.
    pub fn inline_value(&self) -> Result<Option<Value>, Fault>
        ensures ok { IfOk result (λ value. value ≡ write_inline self.now) }
        ensures err { IfErr result (λ e. e ≡ Fault.OutOfMemory) }
    {
        match &self.rec {
            Kept::Put { value, .. } => Ok(Some(value.clone()?)),
            _ => Ok(None),
        }
    }

    /// What is asked of it.
    pub fn head(&self) -> RecordHead
        ensures { result ≡ write_head self.now }
    {
        let (kind, start, overlapped_rollback) = match &self.rec {
            Kept::Rollback(_) => return RecordHead::Rollback,
            Kept::Put {
                is_marked,
                start,
                ..
            }
            | Kept::PutApart { is_marked, start } => (LockKind::Put, *start, *is_marked),
            Kept::Delete { is_marked, start } => (LockKind::Delete, *start, *is_marked),
            Kept::Lock { is_marked, start } => (LockKind::Lock, *start, *is_marked),
        };
        RecordHead::Commit {
            kind,
            start,
            overlapped_rollback,
        }
    }

    /// What collection asks of it.
    pub fn kind(&self) -> RecordKind
        ensures { result ≡ record_kind self.now }
    {
        let (puts, is_seen, has_long_value) = match &self.rec {
            Kept::Put { .. } => (true, true, false),
            Kept::PutApart { .. } => (true, true, true),
            Kept::Delete { .. } => (false, true, false),
            Kept::Rollback(_) | Kept::Lock { .. } => (false, false, false),
        };
        RecordKind {
            puts,
            is_seen,
            has_long_value,
        }
    }

    /// The record as reads see it, where it is a put or a delete and stands at this timestamp.
    pub fn seen_at(&self, commit: Ts) -> Option<SeenRecord>
        ensures commit { IfSome result (λ seen. seen.commit ≡ commit) }
        ensures kind { IfSome result (λ seen. IsSeenKind seen.kind
            × ((mark : Bool) × (write_head self.now ≡ head.Commit seen.kind seen.start mark))) }
    {
        let (kind, start) = match &self.rec {
            Kept::Put { start, .. } | Kept::PutApart { start, .. } => (LockKind::Put, *start),
            Kept::Delete { start, .. } => (LockKind::Delete, *start),
            Kept::Rollback(_) | Kept::Lock { .. } => return None,
        };
        Some(SeenRecord {
            commit,
            start,
            kind,
        })
    }
}
