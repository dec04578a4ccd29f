//! Tuples, packed into keys and read from them.
ghost use Rattle.std.specs.Prelude.{◌≡◌, ◌⊎◌, List, map, IfOk, IfErr, IfSome, MatchOption};
ghost use Rattle.tx_types.specs.Lengths.{IsKey};
ghost use Rattle.tx_tuple.specs.Tuples.{Element, AreElements, element, owned_element, packed};

use crate::part::{OwnedPart, Part};
use crate::readers::take_part;
use crate::writers::append_part;
use std::alloc::Global;
use tx_types::limits::MAX_KEY_BYTES;
use tx_types::{Fault, Key};

/// The key of a tuple. `KeyLength` where that has no parts, or its bytes are more than 512: a
/// number takes 9, and bytes and a text take 3 and one more for each zero. `OutOfMemory` where
/// there is no room for it.
pub fn pack(alloc: Global, parts: &[Part<'_>]) -> Result<Key, Fault>
    ensures ok { IfOk result (λ key. AreElements (map element parts.now) × (key ≡ packed (map element parts.now))) }
    ensures length { IfErr result (λ e. e ≡ Fault.KeyLength → ¬ (IsKey (packed (map element parts.now)))) }
    ensures err { IfErr result (λ e. (e ≡ Fault.KeyLength) ⊎ (e ≡ Fault.OutOfMemory)) }
{
    let mut bytes = Vec::new(alloc);
    for part in parts {
        append_part(&mut bytes, *part)?;
        if bytes.len() > MAX_KEY_BYTES {
            return Err(Fault::KeyLength);
        }
    }
    Key::new(alloc, &bytes)
}

/// The tuple of a key: `None` where it is no tuple's. `OutOfMemory` where there is no room for its
/// parts.
pub fn unpack(alloc: Global, key: &Key) -> Result<Option<Vec<OwnedPart>>, Fault>
    ensures found { IfOk result (λ found. IfSome found (λ parts. AreElements (map owned_element parts.items)
        × (key.now ≡ packed (map owned_element parts.items)))) }
    ensures only { IfOk result (λ found. (tuple : List Element) → AreElements tuple → key.now ≡ packed tuple
        → MatchOption found ⊥ (λ parts. map owned_element parts.items ≡ tuple)) }
    ensures err { IfErr result (λ e. e ≡ Fault.OutOfMemory) }
{
    let mut parts = Vec::new(alloc);
    let mut rest = key.as_bytes();
    while !rest.is_empty() {
        let Some((part, after)) = take_part(alloc, rest)? else {
            return Ok(None);
        };
        parts.push(part)?;
        rest = after;
    }
    Ok(Some(parts))
}
