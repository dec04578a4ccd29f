//! The parts of lock records and write records, written as bytes: each function
//! adds one at the end.
ghost use Rattle.std.specs.Prelude.{◌≡◌, ◌++◌, ◌-◌, ◌<◌, ◌^◌, length, min, OnOk};
ghost use Rattle.tx_types.specs.Kinds.{stored_kind};
ghost use Rattle.tx_codec.specs.Records.{kind_byte, key_bytes, keys_bytes, value_bytes};

use crate::marks::{DELETE, ELSEWHERE, INLINE, LOCK, PUT};
use std::alloc::AllocError;
use tx_types::{Key, Secondaries, StoredMutation, StoredValue};

/// The byte of the mutation's kind.
pub(crate) fn kind_byte(mutation: &StoredMutation) -> u8
    ensures { result ≡ kind_byte (stored_kind mutation.now) }
{
    match mutation {
        StoredMutation::Put(_) => PUT,
        StoredMutation::Delete => DELETE,
        StoredMutation::Lock => LOCK,
    }
}

/// How many bytes a record takes for what it keeps of the value, which stands at its end.
pub fn value_len(mutation: &StoredMutation) -> usize
    ensures len { result ≡ length (value_bytes mutation.now) }
    ensures small { result < 2 ^ 17 }
{
    match mutation {
        StoredMutation::Put(StoredValue::Inline(value)) => 2 + value.as_value().as_bytes().len(),
        StoredMutation::Put(StoredValue::InDefault) => 1,
        StoredMutation::Delete | StoredMutation::Lock => 0,
    }
}

/// Adds what a put keeps of its value at the end.
pub(crate) fn append_value(out: &mut Vec<u8>, mutation: &StoredMutation) -> Result<(), AllocError>
    ensures { OnOk result (out.new.items ≡ out.old.items ++ value_bytes mutation.now) }
{
    match mutation {
        StoredMutation::Put(StoredValue::Inline(value)) => {
            let value = value.as_value().as_bytes();
            out.push(INLINE)?;
            out.push(value.len() as u8)?;
            out.extend_from_slice(value)?;
        }
        StoredMutation::Put(StoredValue::InDefault) => out.push(ELSEWHERE)?,
        StoredMutation::Delete | StoredMutation::Lock => {}
    }
    Ok(())
}

/// Adds the length of a key and the key at the end.
pub(crate) fn append_key(out: &mut Vec<u8>, key: &Key) -> Result<(), AllocError>
    ensures { OnOk result (out.new.items ≡ out.old.items ++ key_bytes key.now) }
{
    let key = key.as_bytes();
    out.extend_from_slice(&(key.len() as u16).to_be_bytes())?;
    out.extend_from_slice(key)?;
    Ok(())
}

/// The bytes that the number of the keys, and they, take, or the greatest number
/// where they take more.
pub fn keys_len(keys: &Secondaries) -> usize
    ensures { result ≡ min (length (keys_bytes keys.now)) (2 ^ 64 - 1) }
{
    let mut len: usize = 2;
    for key in keys.as_slice() {
        len = len.saturating_add(2 + key.as_bytes().len());
    }
    len
}

/// Adds the number of the keys, and they, at the end.
pub fn append_keys(out: &mut Vec<u8>, keys: &Secondaries) -> Result<(), AllocError>
    ensures { OnOk result (out.new.items ≡ out.old.items ++ keys_bytes keys.now) }
{
    let keys = keys.as_slice();
    out.extend_from_slice(&(keys.len() as u64).to_be_bytes()[6..])?;
    for key in keys {
        append_key(out, key)?;
    }
    Ok(())
}
