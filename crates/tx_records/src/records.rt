//! Records that are kept as their bytes. Contracts see the records. What a request asks of a record
//! is read from the bytes without memory.
ghost use Rattle.std.specs.Prelude.{◌≡◌, IfOk, IfErr};
ghost use Rattle.tx_types.specs.declared.lock.LockRec.{LockRec};
ghost use Rattle.tx_types.specs.declared.write.WriteRec.{WriteRec};
ghost use Rattle.tx_types.specs.declared.write.CommitRec.{CommitRec};
ghost use Rattle.tx_types.specs.Kinds.{stored_kind};
ghost use Rattle.tx_types.specs.Locks.{mode_of};
ghost use Rattle.tx_codec.specs.Records.{IsWrite, IsLock};
ghost use Rattle.tx_records.specs.Recorded.{SpellsWrite, SpellsLock, HasValueAt, one_written, one_locked};
ghost use Rattle.tx_cells.specs.Afterwards.{commit_of};
ghost use Rattle.tx_cells.specs.Heads.{is_rollback, start_in, is_marked, write_keeps_apart, write_inline};

use byteorder::{BigEndian, ByteOrder};
use std::alloc::{AllocError, Global};
use std::marker::Model;
use tx_codec::{decode_lock, decode_write, encode_lock, encode_write, value_len};
use tx_types::{Fault, LockKind, LockRec, Mode, Text, Ts, Value, WriteRec};

/// The byte of a put, of a delete, and of a lock that changes nothing.
pub(crate) const PUT: u8 = 0x50;

pub(crate) const DELETE: u8 = 0x44;

pub(crate) const LOCK: u8 = 0x4c;

/// The byte of a rollback.
const ROLLBACK: u8 = 0x52;

/// The byte of a two-phase lock, and of an async one.
pub(crate) const TWO_PHASE: u8 = 0;

pub(crate) const ASYNC: u8 = 1;

/// The byte of a value that is kept apart, and of one that follows behind its length.
pub(crate) const APART: u8 = 0;

pub(crate) const INLINE: u8 = 1;

/// The bytes of a commit record before what it keeps of its value: its kind, its
/// mark and its start.
const FRONT: usize = 10;

/// A write record, as its bytes.
#[derive(Drop)]
pub struct WriteBytes {
    bytes: Text,
    ghost rec: { (rec : WriteRec) × SpellsWrite bytes rec } by { one_written bytes },
}

impl Model for WriteBytes {
    ghost Value = { WriteRec };

    ghost view = { λ w. w.rec.0 };
}

impl WriteBytes {
    /// The bytes of a record.
    pub fn new(alloc: Global, rec: &WriteRec) -> Result<WriteBytes, Fault>
        requires { IsWrite rec.now }
        ensures ok { IfOk result (λ bytes. bytes ≡ rec.now) }
        ensures err { IfErr result (λ e. e ≡ Fault.OutOfMemory) }
    {
        let bytes = Text::from_vec(encode_write(alloc, rec)?)?;
        Ok(WriteBytes { bytes })
    }

    /// Whether it is a rollback.
    pub fn is_rollback(&self) -> bool
        ensures { result ≡ is_rollback self.now }
    {
        self.bytes.as_slice()[0] == ROLLBACK
    }

    /// What its transaction did to the key; of a rollback it says nothing.
    pub fn kind(&self) -> LockKind
        ensures { (rec : CommitRec) → self.now ≡ WriteRec.Commit rec → result ≡ stored_kind rec.mutation }
    {
        let kind = self.bytes.as_slice()[0];
        if kind == PUT {
            return LockKind::Put;
        }
        if kind == DELETE {
            return LockKind::Delete;
        }
        LockKind::Lock
    }

    /// The start of its transaction.
    pub fn start(&self) -> Ts
        ensures { result ≡ start_in self.now }
    {
        Ts::new(BigEndian::read_u64(&self.bytes.as_slice()[2..]))
    }

    /// Whether it has the mark.
    pub fn is_marked(&self) -> bool
        ensures { result ≡ is_marked self.now }
    {
        self.bytes.as_slice()[1] == 1
    }

    /// Whether it puts a value that is kept apart.
    pub fn keeps_value_apart(&self) -> bool
        ensures { result ≡ write_keeps_apart self.now }
    {
        let bytes = self.bytes.as_slice();
        bytes[0] == PUT && bytes[10] == APART
    }

    /// The value that it puts, where that stands inline.
    pub fn inline_value(&self, alloc: Global) -> Result<Option<Value>, Fault>
        ensures ok { IfOk result (λ value. value ≡ write_inline self.now) }
        ensures err { IfErr result (λ e. e ≡ Fault.OutOfMemory) }
    {
        let bytes = self.bytes.as_slice();
        if bytes[0] != PUT || bytes[10] == APART {
            return Ok(None);
        }
        Ok(Some(Value::new(alloc, &bytes[12..])?))
    }

    /// The record.
    pub fn read(&self, alloc: Global) -> Result<WriteRec, Fault>
        ensures ok { IfOk result (λ rec. rec ≡ self.now) }
        ensures within { IfOk result (λ rec. IsWrite rec) }
        ensures err { IfErr result (λ e. e ≡ Fault.OutOfMemory) }
    {
        match decode_write(alloc, self.bytes.as_slice())? {
            Some(rec) => Ok(rec),
            None => unreachable!(),
        }
    }
}

/// A lock record, as its bytes, and where what it keeps of its value begins.
#[derive(Drop)]
pub struct LockBytes {
    pub(crate) bytes: Vec<u8>,
    pub(crate) value: usize,
    ghost rec: { (rec : LockRec) × SpellsLock bytes.items rec } by { one_locked bytes.items },
    ghost position: { (rec : LockRec) → SpellsLock bytes.items rec → HasValueAt value bytes.items rec },
}

impl Model for LockBytes {
    ghost Value = { LockRec };

    ghost view = { λ l. l.rec.0 };
}

impl LockBytes {
    /// The bytes of a record.
    pub fn new(alloc: Global, rec: &LockRec) -> Result<LockBytes, Fault>
        requires { IsLock rec.now }
        ensures ok { IfOk result (λ bytes. bytes ≡ rec.now) }
        ensures err { IfErr result (λ e. e ≡ Fault.OutOfMemory) }
    {
        let bytes = encode_lock(alloc, rec)?;
        let value = bytes.len() - value_len(&rec.mutation);
        Ok(LockBytes { bytes, value })
    }

    /// The commit record that it becomes: its kind, the mark, its start, and what it
    /// keeps of its value.
    pub fn commit_record(
        &self,
        alloc: Global,
        overlapped_rollback: bool,
    ) -> Result<WriteBytes, AllocError>
        ensures { IfOk result (λ rec. rec ≡ WriteRec.Commit (commit_of self.now overlapped_rollback)) }
    {
        let lock = self.bytes.as_slice();
        let value = &lock[self.value..];
        let mut front = [0; FRONT];
        front[0] = lock[0];
        front[1] = u8::from(overlapped_rollback);
        front[2..].copy_from_slice(&lock[2..FRONT]);
        let bytes = Text::of_two(alloc, &front, value)?;
        Ok(WriteBytes { bytes })
    }

    /// The start of its transaction.
    pub fn start(&self) -> Ts
        ensures { result ≡ self.now.start }
    {
        Ts::new(BigEndian::read_u64(&self.bytes.as_slice()[2..]))
    }

    /// Its minimum commit timestamp.
    pub fn min(&self) -> Ts
        ensures { result ≡ self.now.min }
    {
        Ts::new(BigEndian::read_u64(&self.bytes.as_slice()[10..]))
    }

    /// Its time to live.
    pub fn ttl(&self) -> u32
        ensures { result ≡ self.now.ttl }
    {
        BigEndian::read_u32(&self.bytes.as_slice()[18..])
    }

    /// Its kind.
    pub fn kind(&self) -> LockKind
        ensures { result ≡ stored_kind self.now.mutation }
    {
        let kind = self.bytes.as_slice()[0];
        if kind == PUT {
            return LockKind::Put;
        }
        if kind == DELETE {
            return LockKind::Delete;
        }
        LockKind::Lock
    }

    /// How its transaction commits.
    pub fn mode(&self) -> Mode
        ensures { result ≡ mode_of self.now.mode }
    {
        if self.bytes.as_slice()[1] == TWO_PHASE {
            return Mode::TwoPhase;
        }
        Mode::Async
    }

    /// The record.
    pub fn read(&self, alloc: Global) -> Result<LockRec, Fault>
        ensures ok { IfOk result (λ rec. rec ≡ self.now) }
        ensures within { IfOk result (λ rec. IsLock rec) }
        ensures err { IfErr result (λ e. e ≡ Fault.OutOfMemory) }
    {
        match decode_lock(alloc, self.bytes.as_slice())? {
            Some(rec) => Ok(rec),
            None => unreachable!(),
        }
    }
}
