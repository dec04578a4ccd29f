//! Parts, read from bytes: each function takes one from the front, and answers `None` where none
//! stands there.
ghost use Rattle.std.specs.Prelude.{◌≡◌, ◌≢◌, ◌++◌, ◌^◌, ◌<◌, List, ℕ, IfOk, MatchOption};
ghost use Rattle.std.specs.Int.{w64, to_be_bytes};
ghost use Rattle.tx_tuple.specs.Tuples.{Element, IsElement, element_bytes, ended, owned_element, raised};

use crate::marks::{BYTES, END, ESCAPED, HALF, SIGNED, TEXT, UNSIGNED};
use crate::part::OwnedPart;
use byteorder::{BigEndian, ByteOrder};
use std::alloc::{AllocError, Global};

/// The signed number that was raised to this one.
fn lowered(number: u64) -> i64
    ensures { raised result ≡ number }
{
    if number < HALF {
        -((HALF - 1 - number) as i64) - 1
    } else {
        (number - HALF) as i64
    }
}

/// A number of 8 bytes.
fn take_number(bytes: &[u8]) -> Option<(u64, &[u8])>
    ensures { MatchOption result
        ((n : ℕ) (after : List ℕ) → n < 2 ^ 64 → bytes.now ≢ to_be_bytes w64 n ++ after)
        (λ v. bytes.now ≡ to_be_bytes w64 v.0 ++ v.1.now) }
{
    if bytes.len() < 8 {
        return None;
    }
    Some((BigEndian::read_u64(bytes), &bytes[8..]))
}

/// Bytes up to their end.
fn take_ended(alloc: Global, bytes: &[u8]) -> Result<Option<(Vec<u8>, &[u8])>, AllocError>
    ensures { IfOk result (λ found. MatchOption found
        ((other after : List ℕ) → bytes.now ≢ ended other ++ after)
        (λ v. bytes.now ≡ ended v.0.items ++ v.1.now)) }
{
    let mut out = Vec::new(alloc);
    let mut rest = bytes;
    while let [byte, after @ ..] = rest {
        if *byte != 0 {
            out.push(*byte)?;
            rest = after;
            continue;
        }
        let [mark, behind @ ..] = after else {
            return Ok(None);
        };
        if *mark == END {
            return Ok(Some((out, behind)));
        }
        if *mark != ESCAPED {
            return Ok(None);
        }
        out.push(0)?;
        rest = behind;
    }
    Ok(None)
}

/// A part.
pub(crate) fn take_part(
    alloc: Global,
    bytes: &[u8],
) -> Result<Option<(OwnedPart, &[u8])>, AllocError>
    ensures { IfOk result (λ found. MatchOption found
        ((e : Element) (after : List ℕ) → IsElement e → bytes.now ≢ element_bytes e ++ after)
        (λ v. IsElement (owned_element v.0) × (bytes.now ≡ element_bytes (owned_element v.0) ++ v.1.now))) }
{
    let [tag, content @ ..] = bytes else {
        return Ok(None);
    };
    match *tag {
        BYTES => {
            let Some((bytes, rest)) = take_ended(alloc, content)? else {
                return Ok(None);
            };
            Ok(Some((OwnedPart::Bytes(bytes), rest)))
        }
        TEXT => {
            let Some((bytes, rest)) = take_ended(alloc, content)? else {
                return Ok(None);
            };
            let Ok(text) = String::from_utf8(bytes) else {
                return Ok(None);
            };
            Ok(Some((OwnedPart::Text(text), rest)))
        }
        SIGNED => {
            let Some((number, rest)) = take_number(content) else {
                return Ok(None);
            };
            Ok(Some((OwnedPart::Signed(lowered(number)), rest)))
        }
        UNSIGNED => {
            let Some((number, rest)) = take_number(content) else {
                return Ok(None);
            };
            Ok(Some((OwnedPart::Unsigned(number), rest)))
        }
        _ => Ok(None),
    }
}
