//! The line that ends a script with its fault.
ghost use Rattle.std.specs.Prelude.{◌≡◌, ◌++◌, OnOk};
ghost use Rattle.tx_text.specs.Faults.{fault_words};
ghost use Rattle.tx_text.specs.Members.{reply_text};
ghost use Rattle.tx_text.specs.Texts.{members_text};

use crate::text::put_digits;
use std::alloc::AllocError;
use tx_types::Cause;

#[tactic(auto, unfolding(json::specs::Print::escape_byte))]
fn put_cause(out: &mut Vec<u8>, cause: Cause) -> Result<(), AllocError>
    ensures { OnOk result (out.new.items ≡ out.old.items ++ members_text (fault_words cause)) }
{
    match cause {
        Cause::Json => out.extend_from_slice(b",\"E16\",\"json\""),
        Cause::Form => out.extend_from_slice(b",\"E16\",\"form\""),
        Cause::Name => out.extend_from_slice(b",\"E16\",\"name\""),
        Cause::Order => out.extend_from_slice(b",\"E16\",\"order\""),
        Cause::Long => out.extend_from_slice(b",\"E16\",\"long\""),
        Cause::Lines => out.extend_from_slice(b",\"E16\",\"lines\""),
        Cause::Sessions => out.extend_from_slice(b",\"E16\",\"sessions\""),
    }
}

/// Appends the line that ends a script with its fault, with its newline.
pub fn put_fault(out: &mut Vec<u8>, number: u64, cause: Cause) -> Result<(), AllocError>
    ensures { OnOk result (out.new.items ≡ out.old.items ++ reply_text (number, fault_words cause)) }
{
    out.extend_from_slice(b"[")?;
    put_digits(out, number)?;
    put_cause(out, cause)?;
    out.extend_from_slice(b"]\n")
}
