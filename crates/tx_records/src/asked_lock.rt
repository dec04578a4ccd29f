//! The lock that a prewrite asks for, written from what it asks: no record of it is made.
ghost use Rattle.std.specs.Int.{w16, w32, w64, to_be_bytes};
ghost use Rattle.std.specs.Prelude.{◌≡◌, ◌++◌, ◌∷◌, ◌<◌, ◌^◌, length, IfOk, IfErr, OnOk};
ghost use Rattle.tx_types.specs.Kinds.{stored_kind};
ghost use Rattle.tx_codec.specs.Records.{AreOthers, IsMode, IsStorable, IsLock, kind_byte, value_bytes, lock_bytes};
ghost use Rattle.tx_cells.specs.Afterwards.{stored_of, apart_of, mode_put, lock_put};

use crate::records::{APART, ASYNC, DELETE, INLINE, LOCK, LockBytes, PUT, TWO_PHASE};
use std::alloc::{AllocError, Global};
use tx_codec::{append_keys, keys_len};
use tx_plan::{NewLock, Prewrite};
use tx_types::limits::MAX_INLINE_BYTES;
use tx_types::{Fault, Mode, Mutation, Secondaries, Ts, Value};

/// The bytes of a lock up to its primary: its kind, its mode, its start, its minimum, its time to
/// live, and the length of the primary.
const FRONT: usize = 24;

/// The value that is kept apart.
pub fn apart(mutation: &Mutation) -> Result<Option<Value>, Fault>
    ensures ok { IfOk result (λ value. value ≡ apart_of mutation.now) }
    ensures err { IfErr result (λ e. e ≡ Fault.OutOfMemory) }
{
    match mutation {
        Mutation::Put(value) | Mutation::Insert(value) => {
            if value.as_bytes().len() <= MAX_INLINE_BYTES {
                return Ok(None);
            }
            Ok(Some(value.clone()?))
        }
        Mutation::Delete | Mutation::Lock => Ok(None),
    }
}

/// For proofs: the other keys of a transaction are as few and as long as its lock may list.
fn others_fit(others: &Secondaries)
    ensures { AreOthers others.now }
{
    let _few = others.len();
    for key in others.as_slice() {
        let _within = key.as_bytes();
    }
}

/// For proofs: so are those that the lock lists.
fn mode_fits(body: &Prewrite, new: &NewLock)
    ensures { IsMode (mode_put body.now new.now) }
{
    match new.mode {
        Mode::TwoPhase => {}
        Mode::Async => others_fit(&body.others),
    }
}

/// For proofs: a value that the lock keeps is short.
fn mutation_fits(mutation: &Mutation)
    ensures { IsStorable (stored_of mutation.now) }
{
    if let Mutation::Put(value) | Mutation::Insert(value) = mutation {
        if value.as_bytes().len() > MAX_INLINE_BYTES {
            return;
        }
    }
}

/// For proofs: the lock is within the limits of its types.
fn fits(body: &Prewrite, new: &NewLock)
    ensures { IsLock (lock_put body.now new.now) }
{
    let _start = body.start.get();
    let _min = new.min.get();
    let _ttl = body.ttl;
    let _primary = body.primary.as_bytes();
    mode_fits(body, new);
    mutation_fits(&body.mutation);
}

/// The byte of what the lock does to its key.
fn kind_of(mutation: &Mutation) -> u8
    ensures { result ≡ kind_byte (stored_kind (stored_of mutation.now)) }
{
    match mutation {
        Mutation::Put(_) | Mutation::Insert(_) => PUT,
        Mutation::Delete => DELETE,
        Mutation::Lock => LOCK,
    }
}

/// How many bytes the lock keeps of the value, which stand at its end.
fn kept_len(mutation: &Mutation) -> usize
    ensures len { result ≡ length (value_bytes (stored_of mutation.now)) }
    ensures small { result < 2 ^ 17 }
{
    match mutation {
        Mutation::Put(value) | Mutation::Insert(value) => {
            let len = value.as_bytes().len();
            if len > MAX_INLINE_BYTES {
                return 1;
            }
            2 + len
        }
        Mutation::Delete | Mutation::Lock => 0,
    }
}

/// Adds what the lock keeps of the value at the end.
fn append_kept(out: &mut Vec<u8>, mutation: &Mutation) -> Result<(), AllocError>
    ensures { OnOk result (out.new.items ≡ out.old.items ++ value_bytes (stored_of mutation.now)) }
{
    match mutation {
        Mutation::Put(value) | Mutation::Insert(value) => {
            let value = value.as_bytes();
            if value.len() > MAX_INLINE_BYTES {
                out.push(APART)?;
                return Ok(());
            }
            out.extend_from_slice(&[INLINE, value.len() as u8])?;
            out.extend_from_slice(value)?;
        }
        Mutation::Delete | Mutation::Lock => {}
    }
    Ok(())
}

/// The bytes of the lock up to its primary.
fn front(body: &Prewrite, mode: u8, min: Ts) -> [u8; FRONT]
    ensures { result ≡ kind_byte (stored_kind (stored_of body.now.mutation)) ∷ mode ∷ to_be_bytes w64 body.now.start
        ++ to_be_bytes w64 min ++ to_be_bytes w32 body.now.ttl ++ to_be_bytes w16 (length body.now.primary) }
{
    let kind = kind_of(&body.mutation);
    let [s0, s1, s2, s3, s4, s5, s6, s7] = body.start.get().to_be_bytes();
    let [m0, m1, m2, m3, m4, m5, m6, m7] = min.get().to_be_bytes();
    let [t0, t1, t2, t3] = body.ttl.to_be_bytes();
    let [l0, l1] = (body.primary.as_bytes().len() as u16).to_be_bytes();
    [
        kind, mode, s0, s1, s2, s3, s4, s5, s6, s7, m0, m1, m2, m3, m4, m5, m6, m7, t0, t1, t2, t3,
        l0, l1,
    ]
}

/// The bytes of the lock, in memory that has room for them at once.
fn written(alloc: Global, body: &Prewrite, new: &NewLock) -> Result<Vec<u8>, AllocError>
    ensures { IfOk result (λ bytes. bytes.items ≡ lock_bytes (lock_put body.now new.now)) }
{
    let (mode, len) = match new.mode {
        Mode::TwoPhase => (TWO_PHASE, 0),
        Mode::Async => (ASYNC, keys_len(&body.others)),
    };
    let primary = body.primary.as_bytes();
    let fixed = FRONT + primary.len() + kept_len(&body.mutation);
    let mut out = Vec::with_capacity(alloc, len.saturating_add(fixed))?;
    out.extend_from_slice(&front(body, mode, new.min))?;
    out.extend_from_slice(primary)?;
    if let Mode::Async = new.mode {
        append_keys(&mut out, &body.others)?;
    }
    append_kept(&mut out, &body.mutation)?;
    Ok(out)
}

/// The bytes of the lock that a prewrite asks for.
pub fn lock_bytes(alloc: Global, body: &Prewrite, new: NewLock) -> Result<LockBytes, Fault>
    ensures ok { IfOk result (λ bytes. bytes ≡ lock_put body.now new) }
    ensures err { IfErr result (λ e. e ≡ Fault.OutOfMemory) }
{
    fits(body, &new);
    let bytes = written(alloc, body, &new)?;
    let value = bytes.len() - kept_len(&body.mutation);
    Ok(LockBytes { bytes, value })
}
