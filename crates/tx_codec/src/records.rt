//! Lock records and write records as bytes: each record has one spelling, and other
//! bytes are refused.
ghost use Rattle.std.specs.Prelude.{◌≡◌, IfOk, IfErr, IfSome};
ghost use Rattle.tx_types.specs.declared.lock.LockRec.{LockRec};
ghost use Rattle.tx_types.specs.declared.write.WriteRec.{WriteRec};
ghost use Rattle.tx_codec.specs.Readers.{ReadsBytes};
ghost use Rattle.tx_codec.specs.Records.{IsLock, IsCommit, IsWrite, lock_bytes, commit_bytes, write_bytes};

use crate::marks::{ASYNC, ROLLBACK, TWO_PHASE};
use crate::readers::{
    Unread, take_key, take_kind, take_mark, take_mode, take_mutation, take_others, take_rollback,
    take_u32, take_u64,
};
use crate::writers::{append_key, append_keys, append_value, keys_len, kind_byte, value_len};
use std::alloc::{AllocError, Global};
use tx_types::{CommitRec, Fault, LockMode, LockRec, Ts, WriteRec};

/// The bytes of a lock record. An error where there is no room for them.
pub fn encode_lock(alloc: Global, lock: &LockRec) -> Result<Vec<u8>, AllocError>
    ensures { IfOk result (λ bytes. bytes.items ≡ lock_bytes lock.now) }
{
    let (mode, len) = match &lock.mode {
        LockMode::TwoPhase => (TWO_PHASE, 0),
        LockMode::Async(others) => (ASYNC, keys_len(others)),
    };
    let fixed = 24 + lock.primary.as_bytes().len() + value_len(&lock.mutation);
    let mut out = Vec::with_capacity(alloc, len.saturating_add(fixed))?;
    out.push(kind_byte(&lock.mutation))?;
    out.push(mode)?;
    out.extend_from_slice(&lock.start.get().to_be_bytes())?;
    out.extend_from_slice(&lock.min.get().to_be_bytes())?;
    out.extend_from_slice(&lock.ttl.to_be_bytes())?;
    append_key(&mut out, &lock.primary)?;
    if let LockMode::Async(others) = &lock.mode {
        append_keys(&mut out, others)?;
    }
    append_value(&mut out, &lock.mutation)?;
    Ok(out)
}

/// A lock record at the front of the bytes.
fn take_lock(alloc: Global, bytes: &[u8]) -> Result<(LockRec, &[u8]), Unread>
    ensures { ReadsBytes IsLock lock_bytes bytes.now result }
{
    let (kind, rest) = take_kind(bytes)?;
    let (mode, rest) = take_mode(rest)?;
    let (start, rest) = take_u64(rest)?;
    let (min, rest) = take_u64(rest)?;
    let (ttl, rest) = take_u32(rest)?;
    let (primary, rest) = take_key(alloc, rest)?;
    let (mode, rest) = take_others(alloc, mode, rest)?;
    let (mutation, rest) = take_mutation(alloc, kind, rest)?;
    let lock = LockRec {
        mutation,
        mode,
        start: Ts::new(start),
        min: Ts::new(min),
        ttl,
        primary,
    };
    Ok((lock, rest))
}

/// The lock record that these bytes spell: `None` where none is spelled so. `OutOfMemory` where
/// there is no room for it.
pub fn decode_lock(alloc: Global, bytes: &[u8]) -> Result<Option<LockRec>, Fault>
    ensures found { IfOk result (λ found. IfSome found (λ lock. IsLock lock × (bytes.now ≡ lock_bytes lock))) }
    ensures only { IfOk result (λ found. (lock : LockRec) → IsLock lock → bytes.now ≡ lock_bytes lock
        → found ≡ Some lock) }
    ensures err { IfErr result (λ e. e ≡ Fault.OutOfMemory) }
{
    match take_lock(alloc, bytes) {
        Ok((lock, rest)) => {
            if !rest.is_empty() {
                return Ok(None);
            }
            Ok(Some(lock))
        }
        Err(Unread::Malformed) => Ok(None),
        Err(Unread::OutOfMemory) => Err(Fault::OutOfMemory),
    }
}

/// The bytes of a write record. An error where there is no room for them.
pub fn encode_write(alloc: Global, rec: &WriteRec) -> Result<Vec<u8>, AllocError>
    ensures { IfOk result (λ bytes. bytes.items ≡ write_bytes rec.now) }
{
    match rec {
        WriteRec::Commit(rec) => {
            let mut out = Vec::with_capacity(alloc, 10 + value_len(&rec.mutation))?;
            out.push(kind_byte(&rec.mutation))?;
            out.push(u8::from(rec.overlapped_rollback))?;
            out.extend_from_slice(&rec.start.get().to_be_bytes())?;
            append_value(&mut out, &rec.mutation)?;
            Ok(out)
        }
        WriteRec::Rollback(start) => {
            let mut out = Vec::with_capacity(alloc, 10)?;
            out.push(ROLLBACK)?;
            out.push(0)?;
            out.extend_from_slice(&start.get().to_be_bytes())?;
            Ok(out)
        }
    }
}

/// The write record of a commit at the front of the bytes.
fn take_commit(alloc: Global, bytes: &[u8]) -> Result<(CommitRec, &[u8]), Unread>
    ensures { ReadsBytes IsCommit commit_bytes bytes.now result }
{
    let (kind, rest) = take_kind(bytes)?;
    let (overlapped_rollback, rest) = take_mark(rest)?;
    let (start, rest) = take_u64(rest)?;
    let (mutation, rest) = take_mutation(alloc, kind, rest)?;
    let rec = CommitRec {
        mutation,
        start: Ts::new(start),
        overlapped_rollback,
    };
    Ok((rec, rest))
}

/// A write record at the front of the bytes.
fn take_write(alloc: Global, bytes: &[u8]) -> Result<(WriteRec, &[u8]), Unread>
    ensures { ReadsBytes IsWrite write_bytes bytes.now result }
{
    if let [ROLLBACK, rest @ ..] = bytes {
        let (start, rest) = take_rollback(rest)?;
        return Ok((WriteRec::Rollback(Ts::new(start)), rest));
    }
    let (rec, rest) = take_commit(alloc, bytes)?;
    Ok((WriteRec::Commit(rec), rest))
}

/// The write record that these bytes spell: `None` where none is spelled so. `OutOfMemory` where
/// there is no room for it.
pub fn decode_write(alloc: Global, bytes: &[u8]) -> Result<Option<WriteRec>, Fault>
    ensures found { IfOk result (λ found. IfSome found (λ rec. IsWrite rec × (bytes.now ≡ write_bytes rec))) }
    ensures only { IfOk result (λ found. (rec : WriteRec) → IsWrite rec → bytes.now ≡ write_bytes rec
        → found ≡ Some rec) }
    ensures err { IfErr result (λ e. e ≡ Fault.OutOfMemory) }
{
    match take_write(alloc, bytes) {
        Ok((rec, rest)) => {
            if !rest.is_empty() {
                return Ok(None);
            }
            Ok(Some(rec))
        }
        Err(Unread::Malformed) => Ok(None),
        Err(Unread::OutOfMemory) => Err(Fault::OutOfMemory),
    }
}
