//! The text of a line's parts, appended to bytes that are kept from line to line: a kept buffer
//! allocates only where it grows.
ghost use Rattle.std.specs.Prelude.{◌≡◌, ℕ, [], ◌∷◌, ◌++◌, ◌<◌, ◌≤◌, decimal, length, get_or, false, OnOk, IsTrue, IsAscii};
ghost use Rattle.tx_text.specs.declared.plain.TheConstants.{BLOCK};
ghost use Rattle.tx_text.specs.Plain.{is_foreign};
ghost use Rattle.serde_json.specs.Written.{compact_text};
ghost use Rattle.json.specs.Print.{escape, escape_letter, escape_byte};
ghost use Rattle.std.specs.Char.{digit_char};
ghost use Rattle.tx_text.specs.Texts.{text_of};

use crate::plain::{BLOCK, is_simple_block};
use itoa::{Buffer, write_digits};
use std::alloc::AllocError;

// How many digits a number of at most eight has.
fn digits_of(n: u64) -> usize
    requires { n < 100000000 }
    ensures len { result ≡ length (decimal n) }
    ensures few { result ≤ BLOCK }
{
    if n < 10_000 {
        if n < 100 {
            if n < 10 { 1 } else { 2 }
        } else if n < 1_000 {
            3
        } else {
            4
        }
    } else if n < 1_000_000 {
        if n < 100_000 { 5 } else { 6 }
    } else if n < 10_000_000 {
        7
    } else {
        8
    }
}

// Appends a number of more digits than eight.
#[inline(never)]
fn put_long(out: &mut Vec<u8>, n: u64) -> Result<(), AllocError>
    ensures { OnOk result (out.new.items ≡ out.old.items ++ decimal n) }
{
    let mut buffer = Buffer::new();
    out.extend_from_slice(buffer.format(n).as_bytes())
}

/// Appends a number in decimal digits. Up to eight of them are copied as a block, of which the line
/// then keeps as many as there are.
pub fn put_digits(out: &mut Vec<u8>, n: u64) -> Result<(), AllocError>
    ensures { OnOk result (out.new.items ≡ out.old.items ++ decimal n) }
{
    if n >= 100_000_000 {
        return put_long(out, n);
    }
    let end = digits_of(n);
    let mut block = [0; BLOCK];
    write_digits(n, &mut block, end);
    let from = out.len();
    out.extend_from_slice(&block)?;
    out.truncate(from + end);
    Ok(())
}

// Whether each byte stands for itself in a string.
fn is_plain(bytes: &[u8]) -> bool
    ensures { IsTrue result → escape bytes.now ≡ bytes.now }
{
    let mut at = 0;
    'bytes: while at < bytes.len() {
        let byte = bytes[at];
        if byte < 32 || byte == b'"' || byte == b'\\' {
            return false;
        }
        at += 1;
    }
    true
}

// Whether the bytes from here on are ASCII that stands for itself in a string, one by one.
fn is_simple_from(bytes: &[u8], from: usize) -> bool
    requires { from ≤ length bytes.now }
    ensures { IsTrue result → (k : ℕ) → from ≤ k → k < length bytes.now → is_foreign (get_or bytes.now k 0) ≡ false }
{
    let mut at = from;
    'bytes: while at < bytes.len() {
        let byte = bytes[at];
        if byte < 32 || byte == b'"' || byte == b'\\' || byte >= 128 {
            return false;
        }
        at += 1;
    }
    true
}

/// Whether the bytes are ASCII that stands for itself in a string.
pub(crate) fn is_simple(bytes: &[u8]) -> bool
    ensures same { IsTrue result → escape bytes.now ≡ bytes.now }
    ensures ascii { IsTrue result → IsAscii bytes.now }
{
    let mut at = 0;
    'lanes: while bytes.len() - at >= BLOCK {
        if !is_simple_block(bytes, at) {
            return false;
        }
        at += BLOCK;
    }
    is_simple_from(bytes, at)
}

fn letter(byte: u8) -> u8
    ensures { result ≡ escape_letter byte }
{
    match byte {
        b'"' | b'\\' => byte,
        8 => b'b',
        12 => b'f',
        b'\n' => b'n',
        b'\r' => b'r',
        b'\t' => b't',
        _ => 0,
    }
}

fn hex(digit: u8) -> u8
    requires { digit < 16 }
    ensures { result ≡ digit_char digit }
{
    if digit < 10 {
        b'0' + digit
    } else {
        b'a' - 10 + digit
    }
}

#[tactic(auto, unfolding(json::specs::Print::escape_byte))]
fn put_byte(out: &mut Vec<u8>, byte: u8) -> Result<(), AllocError>
    ensures { OnOk result (out.new.items ≡ out.old.items ++ escape_byte byte) }
{
    let letter = letter(byte);
    if letter > 0 {
        return out.extend_from_slice(&[b'\\', letter]);
    }
    if byte < 32 {
        return out.extend_from_slice(&[b'\\', b'u', b'0', b'0', hex(byte / 16), hex(byte % 16)]);
    }
    out.extend_from_slice(&[byte])
}

fn put_escaped(out: &mut Vec<u8>, bytes: &[u8]) -> Result<(), AllocError>
    ensures { OnOk result (out.new.items ≡ out.old.items ++ escape bytes.now) }
{
    if is_plain(bytes) {
        return out.extend_from_slice(bytes);
    }
    for byte in bytes {
        put_byte(out, *byte)?;
    }
    Ok(())
}

// Appends bytes between quotes.
fn put_quoted(out: &mut Vec<u8>, bytes: &[u8]) -> Result<(), AllocError>
    ensures { OnOk result (out.new.items ≡ ((out.old.items ++ 34 ∷ []) ++ bytes.now) ++ 34 ∷ []) }
{
    out.push(b'"')?;
    out.extend_from_slice(bytes)?;
    out.push(b'"')?;
    Ok(())
}

/// Appends bytes as a JSON string, `null` where they are no UTF-8.
pub fn put_string(out: &mut Vec<u8>, bytes: &[u8]) -> Result<(), AllocError>
    ensures { OnOk result (out.new.items ≡ out.old.items ++ compact_text (text_of bytes.now)) }
{
    if is_simple(bytes) {
        return put_quoted(out, bytes);
    }
    if str::from_utf8(bytes).is_err() {
        return out.extend_from_slice(b"null");
    }
    out.extend_from_slice(b"\"")?;
    put_escaped(out, bytes)?;
    out.extend_from_slice(b"\"")
}

/// Appends a comma and a number.
pub fn put_number(out: &mut Vec<u8>, n: u64) -> Result<(), AllocError>
    ensures { OnOk result (out.new.items ≡ out.old.items ++ 44 ∷ decimal n) }
{
    out.push(b',')?;
    put_digits(out, n)
}

/// Appends a comma and bytes as a JSON string, `null` where they are no UTF-8.
pub fn put_text(out: &mut Vec<u8>, bytes: &[u8]) -> Result<(), AllocError>
    ensures { OnOk result (out.new.items ≡ out.old.items ++ 44 ∷ compact_text (text_of bytes.now)) }
{
    out.push(b',')?;
    put_string(out, bytes)
}

/// Appends the end of a line: a bracket and a newline.
#[inline(always)]
pub fn put_end(out: &mut Vec<u8>) -> Result<(), AllocError>
    ensures { OnOk result (out.new.items ≡ out.old.items ++ 93 ∷ 10 ∷ []) }
{
    out.extend_from_slice(b"]\n")
}

/// Appends a word, as it is written, a comma and a number.
pub fn put_stamped(out: &mut Vec<u8>, word: &[u8], n: u64) -> Result<(), AllocError>
    ensures { OnOk result (out.new.items ≡ out.old.items ++ (word.now ++ 44 ∷ decimal n)) }
{
    out.extend_from_slice(word)?;
    put_number(out, n)
}
