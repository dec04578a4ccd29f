//! The line of the keys between the regions, which only line 1 may be.
ghost use Rattle.std.specs.Prelude.{◌≡◌, ◌++◌, map, OnOk};
ghost use Rattle.serde_json.specs.Data.{string};
ghost use Rattle.tx_step_text.specs.StepTexts.{bounds_line};

use crate::text::StepText;
use std::alloc::AllocError;
use tx_text::{Entries, put_list};

// A list of texts.
#[derive(Clone, Copy, Debug)]
struct Texts;

impl<S: StepText> Entries<S> for Texts {
    ghost value = { λ text. string (S.bytes text) };

    fn put(out: &mut Vec<u8>, entry: &S) -> Result<(), AllocError> {
        entry.put(out)
    }
}

/// Appends the line that says the keys between the regions, without its newline.
pub fn put_bounds<S: StepText>(out: &mut Vec<u8>, keys: &[S]) -> Result<(), AllocError>
    ensures { OnOk result (out.new.items ≡ out.old.items ++ bounds_line (map S.bytes keys.now)) }
{
    out.extend_from_slice(b"[\"regions\",")?;
    put_list::<S, Texts>(out, keys)?;
    out.push(b']')?;
    Ok(())
}
