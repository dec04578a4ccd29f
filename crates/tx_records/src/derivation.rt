//! Records that are made of others, as bytes.
ghost use Rattle.std.specs.Prelude.{◌≡◌, Some, IfOk, IfErr};
ghost use Rattle.tx_types.specs.declared.write.WriteRec.TheVariants as stored;
ghost use Rattle.tx_cells.specs.Afterwards.{with_ttl, with_min, commit_of, marked};

use crate::records::{LockBytes, WriteBytes};
use std::alloc::{AllocError, Global};
use tx_types::{CommitRec, Fault, LockRec, Ts, WriteRec};

/// The lock with another time to live.
pub fn lock_with_ttl(alloc: Global, lock: &LockBytes, ttl: u32) -> Result<LockBytes, Fault>
    ensures ok { IfOk result (λ new. new ≡ with_ttl lock.now ttl) }
    ensures err { IfErr result (λ e. e ≡ Fault.OutOfMemory) }
{
    let rec = lock.read(alloc)?;
    let rec = LockRec { ttl, ..rec };
    LockBytes::new(alloc, &rec)
}

/// The lock with another minimum.
pub fn lock_with_min(alloc: Global, lock: &LockBytes, min: Ts) -> Result<LockBytes, Fault>
    ensures ok { IfOk result (λ new. new ≡ with_min lock.now min) }
    ensures err { IfErr result (λ e. e ≡ Fault.OutOfMemory) }
{
    // For proofs: it is a number of 64 bits.
    let _ticks = min.get();
    let rec = lock.read(alloc)?;
    let rec = LockRec { min, ..rec };
    LockBytes::new(alloc, &rec)
}

/// The commit record that the lock becomes.
pub fn commit_record(
    alloc: Global,
    lock: &LockBytes,
    overlapped_rollback: bool,
) -> Result<WriteBytes, AllocError>
    ensures { IfOk result (λ rec. rec ≡ stored.Commit (commit_of lock.now overlapped_rollback)) }
{
    lock.commit_record(alloc, overlapped_rollback)
}

/// The record of the rollback of the transaction that started then.
pub fn rollback_record(alloc: Global, start: Ts) -> Result<WriteBytes, Fault>
    ensures ok { IfOk result (λ rec. rec ≡ stored.Rollback start) }
    ensures err { IfErr result (λ e. e ≡ Fault.OutOfMemory) }
{
    // For proofs: it is a number of 64 bits.
    let _ticks = start.get();
    WriteBytes::new(alloc, &WriteRec::Rollback(start))
}

/// The record with the mark, where it is a commit record.
pub fn marked_record(alloc: Global, rec: &WriteBytes) -> Result<WriteBytes, Fault>
    ensures ok { IfOk result (λ new. Some new ≡ marked (Some rec.now)) }
    ensures err { IfErr result (λ e. e ≡ Fault.OutOfMemory) }
{
    let rec = match rec.read(alloc)? {
        WriteRec::Commit(rec) => WriteRec::Commit(CommitRec {
            overlapped_rollback: true,
            ..rec
        }),
        WriteRec::Rollback(start) => WriteRec::Rollback(start),
    };
    WriteBytes::new(alloc, &rec)
}
