//! The rows of a scan in a reply line.
ghost use Rattle.std.specs.Prelude.{◌≡◌, ◌∷◌, [], ◌++◌, OnOk};
ghost use Rattle.tx_text.specs.Members.{row_data};

use crate::list::Entries;
use crate::text::{is_simple, put_string, put_text};
use std::alloc::AllocError;
use tx_types::KeyValue;

// Appends a row of two strings whose bytes stand for themselves, in five pieces.
fn put_simple(out: &mut Vec<u8>, key: &[u8], value: &[u8]) -> Result<(), AllocError>
    ensures { OnOk result (out.new.items ≡ ((((out.old.items ++ 91 ∷ 34 ∷ []) ++ key.now)
        ++ 34 ∷ 44 ∷ 34 ∷ []) ++ value.now) ++ 34 ∷ 93 ∷ []) }
{
    out.extend_from_slice(b"[\"")?;
    out.extend_from_slice(key)?;
    out.extend_from_slice(b"\",\"")?;
    out.extend_from_slice(value)?;
    out.extend_from_slice(b"\"]")
}

/// The rows of a scan, each a key and its value.
#[derive(Clone, Copy, Debug)]
pub struct Rows;

impl Entries<KeyValue> for Rows {
    ghost value = { row_data };

    fn put(out: &mut Vec<u8>, entry: &KeyValue) -> Result<(), AllocError> {
        let key = entry.key.as_bytes();
        let value = entry.value.as_bytes();
        if is_simple(key) && is_simple(value) {
            return put_simple(out, key, value);
        }
        out.push(b'[')?;
        put_string(out, key)?;
        put_text(out, value)?;
        out.push(b']')?;
        Ok(())
    }
}
