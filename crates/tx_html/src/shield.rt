//! Data within a page.
ghost use Rattle.std.specs.Prelude.{◌≡◌, ℕ, List, ◌++◌, OnOk};
ghost use Rattle.tx_html.specs.Pages.{shielded_byte, shielded, IsData};

use std::alloc::AllocError;

// Appends a byte of data: a sign of markup as JSON escapes it.
fn put_byte(out: &mut Vec<u8>, byte: u8) -> Result<(), AllocError>
    ensures { OnOk result (out.new.items ≡ out.old.items ++ shielded_byte byte) }
{
    match byte {
        b'<' => out.extend_from_slice(b"\\u003c"),
        b'>' => out.extend_from_slice(b"\\u003e"),
        b'&' => out.extend_from_slice(b"\\u0026"),
        _ => Ok(out.push(byte)?),
    }
}

/// Appends the text of JSON as it may stand within a page: each `<`, `>` and `&`, which only
/// strings have, as JSON escapes it. It means the same, and no element can begin or end in it.
pub fn put_shielded(out: &mut Vec<u8>, text: &[u8]) -> Result<(), AllocError>
    ensures { OnOk result (out.new.items ≡ out.old.items ++ shielded text.now) }
{
    for byte in text {
        put_byte(out, *byte)?;
    }
    Ok(())
}

/// No sign of markup is left in shielded data, whatever it is.
pub fn shielded_is_data()
    ensures { (text : List ℕ) → IsData (shielded text) }
{}
