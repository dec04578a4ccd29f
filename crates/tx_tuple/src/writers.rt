//! Parts, written as bytes: each function adds one at the end.
ghost use Rattle.std.specs.Prelude.{◌≡◌, ◌++◌, OnOk};
ghost use Rattle.tx_tuple.specs.Tuples.{IsElement, element, element_bytes, ended, raised};

use crate::marks::{BYTES, END, ESCAPED, HALF, SIGNED, TEXT, UNSIGNED};
use crate::part::Part;
use std::alloc::AllocError;

/// A signed number, raised so that the least is 0.
fn raised(number: i64) -> u64
    ensures { result ≡ raised number }
{
    if number < 0 {
        HALF - 1 - (-(number + 1)) as u64
    } else {
        HALF + number as u64
    }
}

/// Adds bytes, escaped, and their end.
fn append_ended(out: &mut Vec<u8>, bytes: &[u8]) -> Result<(), AllocError>
    ensures { OnOk result (out.new.items ≡ out.old.items ++ ended bytes.now) }
{
    for byte in bytes {
        out.push(*byte)?;
        if *byte == 0 {
            out.push(ESCAPED)?;
        }
    }
    out.push(0)?;
    out.push(END)?;
    Ok(())
}

/// Adds a part.
pub(crate) fn append_part(out: &mut Vec<u8>, part: Part<'_>) -> Result<(), AllocError>
    ensures bytes { OnOk result (out.new.items ≡ out.old.items ++ element_bytes (element part.entry)) }
    ensures is { IsElement (element part.entry) }
{
    match part {
        Part::Bytes(bytes) => {
            out.push(BYTES)?;
            append_ended(out, bytes)?;
        }
        Part::Text(text) => {
            out.push(TEXT)?;
            append_ended(out, text.as_bytes())?;
        }
        Part::Signed(number) => {
            out.push(SIGNED)?;
            out.extend_from_slice(&raised(number).to_be_bytes())?;
        }
        Part::Unsigned(number) => {
            out.push(UNSIGNED)?;
            out.extend_from_slice(&number.to_be_bytes())?;
        }
    }
    Ok(())
}
