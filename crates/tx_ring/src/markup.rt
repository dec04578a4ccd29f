//! Text as markup has it.
ghost use Rattle.std.specs.Prelude.{◌≡◌, ◌<◌, ◌++◌, length, OnOk};
ghost use Rattle.tx_ring.specs.Markup.{is_no_character, named_byte, marked_byte, marked};

use std::alloc::AllocError;

// Whether the byte at a place ends a character that markup may not have: U+FFFE or U+FFFF.
fn is_no_character(text: &[u8], at: usize) -> bool
    requires { at < length text.now }
    ensures { result ≡ is_no_character text.now at }
{
    text[at.saturating_sub(2)] == 239 && text[at.saturating_sub(1)] == 191 && text[at] >= 190
}

// Appends a byte: a sign that markup has a use for by its name.
fn put_named(out: &mut Vec<u8>, byte: u8) -> Result<(), AllocError>
    ensures { OnOk result (out.new.items ≡ out.old.items ++ named_byte byte) }
{
    match byte {
        b'&' => out.extend_from_slice(b"&amp;"),
        b'<' => out.extend_from_slice(b"&lt;"),
        b'>' => out.extend_from_slice(b"&gt;"),
        _ => out.extend_from_slice(&[byte]),
    }
}

// Appends the byte at a place.
fn put_marked(out: &mut Vec<u8>, text: &[u8], at: usize) -> Result<(), AllocError>
    requires { at < length text.now }
    ensures { OnOk result (out.new.items ≡ out.old.items ++ marked_byte text.now at) }
{
    if is_no_character(text, at) {
        return out.extend_from_slice(&[189]);
    }
    put_named(out, text[at])
}

/// Appends text, so that it ends no element.
pub fn put_text(out: &mut Vec<u8>, text: &[u8]) -> Result<(), AllocError>
    ensures { OnOk result (out.new.items ≡ out.old.items ++ marked text.now) }
{
    for i in 0..text.len() {
        put_marked(out, text, i)?;
    }
    Ok(())
}
