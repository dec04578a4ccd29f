//! The parts of lock records and write records, read from bytes: each function takes
//! one from the front.
ghost use Rattle.std.specs.Prelude.{◌≡◌, ◌^◌, ◌<◌, ◌∷◌, [], ⊤};
ghost use Rattle.std.specs.Int.{w16, w32, w64, to_be_bytes};
ghost use Rattle.tx_types.specs.Kinds.{stored_kind};
ghost use Rattle.tx_types.specs.Lengths.{IsKey};
ghost use Rattle.tx_types.specs.Locks.{mode_of};
ghost use Rattle.tx_codec.specs.declared.readers.Unread.TheVariants.{OutOfMemory};
ghost use Rattle.tx_codec.specs.Records.{IsStorable, AreOthers, IsMode, kind_byte, mode_byte, mark_byte, key_bytes, keys_bytes, others_bytes, value_bytes};
ghost use Rattle.tx_codec.specs.Readers.{ReadsBytes};

use crate::marks::{ASYNC, DELETE, ELSEWHERE, INLINE, LOCK, PUT, TWO_PHASE};
use byteorder::{BigEndian, ByteOrder};
use std::alloc::Global;
use std::cmp::min;
use tx_types::limits::{MAX_KEY_BYTES, MAX_SECONDARIES, MIN_KEY_BYTES};
use tx_types::{
    Fault, InlineValue, Key, LockKind, LockMode, Mode, Secondaries, StoredMutation, StoredValue,
};

/// Why nothing was read.
#[derive(Clone, Copy, Debug, PartialEq, Eq)]
pub(crate) enum Unread {
    /// The bytes begin with no spelling.
    Malformed,
    /// There was no room for the value.
    OutOfMemory,
}

impl From<Fault> for Unread {
    ghost from_gives = { λ _ e. e ≡ OutOfMemory };

    fn from(_e: Fault) -> Unread {
        Unread::OutOfMemory
    }
}

/// A number of 8 bytes.
pub(crate) fn take_u64(bytes: &[u8]) -> Result<(u64, &[u8]), Unread>
    ensures { ReadsBytes (λ n. n < 2 ^ 64) (to_be_bytes w64) bytes.now result }
{
    if bytes.len() < 8 {
        return Err(Unread::Malformed);
    }
    Ok((BigEndian::read_u64(bytes), &bytes[8..]))
}

/// A number of 4 bytes.
pub(crate) fn take_u32(bytes: &[u8]) -> Result<(u32, &[u8]), Unread>
    ensures { ReadsBytes (λ n. n < 2 ^ 32) (to_be_bytes w32) bytes.now result }
{
    if bytes.len() < 4 {
        return Err(Unread::Malformed);
    }
    Ok((BigEndian::read_u32(bytes), &bytes[4..]))
}

/// A number of 2 bytes.
fn take_u16(bytes: &[u8]) -> Result<(u16, &[u8]), Unread>
    ensures { ReadsBytes (λ n. n < 2 ^ 16) (to_be_bytes w16) bytes.now result }
{
    if bytes.len() < 2 {
        return Err(Unread::Malformed);
    }
    Ok((BigEndian::read_u16(bytes), &bytes[2..]))
}

/// The kind of a mutation.
pub(crate) fn take_kind(bytes: &[u8]) -> Result<(LockKind, &[u8]), Unread>
    ensures { ReadsBytes (λ _. ⊤) (λ kind. kind_byte kind ∷ []) bytes.now result }
{
    match bytes {
        [PUT, rest @ ..] => Ok((LockKind::Put, rest)),
        [DELETE, rest @ ..] => Ok((LockKind::Delete, rest)),
        [LOCK, rest @ ..] => Ok((LockKind::Lock, rest)),
        _ => Err(Unread::Malformed),
    }
}

/// How a transaction commits.
pub(crate) fn take_mode(bytes: &[u8]) -> Result<(Mode, &[u8]), Unread>
    ensures { ReadsBytes (λ _. ⊤) (λ mode. mode_byte mode ∷ []) bytes.now result }
{
    match bytes {
        [TWO_PHASE, rest @ ..] => Ok((Mode::TwoPhase, rest)),
        [ASYNC, rest @ ..] => Ok((Mode::Async, rest)),
        _ => Err(Unread::Malformed),
    }
}

/// Whether the transaction that started at a record's own timestamp was rolled back.
pub(crate) fn take_mark(bytes: &[u8]) -> Result<(bool, &[u8]), Unread>
    ensures { ReadsBytes (λ _. ⊤) (λ mark. mark_byte mark ∷ []) bytes.now result }
{
    match bytes {
        [0, rest @ ..] => Ok((false, rest)),
        [1, rest @ ..] => Ok((true, rest)),
        _ => Err(Unread::Malformed),
    }
}

/// The start timestamp of a rollback, behind the byte that a mark has in other records.
pub(crate) fn take_rollback(bytes: &[u8]) -> Result<(u64, &[u8]), Unread>
    ensures { ReadsBytes (λ start. start < 2 ^ 64) (λ start. 0 ∷ to_be_bytes w64 start) bytes.now result }
{
    match bytes {
        [0, rest @ ..] => take_u64(rest),
        _ => Err(Unread::Malformed),
    }
}

/// A key behind its length.
pub(crate) fn take_key(alloc: Global, bytes: &[u8]) -> Result<(Key, &[u8]), Unread>
    ensures { ReadsBytes IsKey key_bytes bytes.now result }
{
    let (len, rest) = take_u16(bytes)?;
    let len = len as usize;
    if len < MIN_KEY_BYTES || len > MAX_KEY_BYTES || rest.len() < len {
        return Err(Unread::Malformed);
    }
    let (key, rest) = rest.split_at(len);
    Ok((Key::new(alloc, key)?, rest))
}

/// The fewest bytes that a key and its length take.
const SHORTEST: usize = 3;

/// Keys behind their number. No more room is taken than the bytes can fill.
fn take_keys(alloc: Global, bytes: &[u8]) -> Result<(Secondaries, &[u8]), Unread>
    ensures { ReadsBytes AreOthers keys_bytes bytes.now result }
{
    let (count, start) = take_u16(bytes)?;
    if count as usize > MAX_SECONDARIES {
        return Err(Unread::Malformed);
    }
    let mut keys = Secondaries::with_capacity(alloc, min(count as usize, start.len() / SHORTEST))?;
    let mut rest = start;
    for _ in 0..count {
        let (key, after) = take_key(alloc, rest)?;
        keys.push(key)?;
        rest = after;
    }
    Ok((keys, rest))
}

/// The other keys of a lock that commits in this way.
pub(crate) fn take_others(
    alloc: Global,
    mode: Mode,
    bytes: &[u8],
) -> Result<(LockMode, &[u8]), Unread>
    ensures { ReadsBytes (λ m. (mode_of m ≡ mode) × IsMode m) others_bytes bytes.now result }
{
    match mode {
        Mode::TwoPhase => Ok((LockMode::TwoPhase, bytes)),
        Mode::Async => {
            let (others, rest) = take_keys(alloc, bytes)?;
            Ok((LockMode::Async(others), rest))
        }
    }
}

/// What a put keeps of its value.
fn take_value(alloc: Global, bytes: &[u8]) -> Result<(StoredValue, &[u8]), Unread>
    ensures { ReadsBytes (λ v. IsStorable (StoredMutation.Put v)) (λ v. value_bytes (StoredMutation.Put v)) bytes.now
        result }
{
    match bytes {
        [ELSEWHERE, rest @ ..] => Ok((StoredValue::InDefault, rest)),
        [INLINE, len, rest @ ..] => {
            let len = *len as usize;
            if rest.len() < len {
                return Err(Unread::Malformed);
            }
            let (value, rest) = rest.split_at(len);
            Ok((StoredValue::Inline(InlineValue::new(alloc, value)?), rest))
        }
        _ => Err(Unread::Malformed),
    }
}

/// What a mutation of this kind keeps.
pub(crate) fn take_mutation(
    alloc: Global,
    kind: LockKind,
    bytes: &[u8],
) -> Result<(StoredMutation, &[u8]), Unread>
    ensures { ReadsBytes (λ m. (stored_kind m ≡ kind) × IsStorable m) value_bytes bytes.now result }
{
    match kind {
        LockKind::Put => {
            let (value, rest) = take_value(alloc, bytes)?;
            Ok((StoredMutation::Put(value), rest))
        }
        LockKind::Delete => Ok((StoredMutation::Delete, bytes)),
        LockKind::Lock => Ok((StoredMutation::Lock, bytes)),
    }
}
