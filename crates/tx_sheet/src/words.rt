//! Keys, values and names as a picture shows them.
ghost use Rattle.std.specs.Prelude.{◌≡◌, ◌≤◌, ◌↔◌, ◌++◌, All, IsTrue, IfOk, OnOk, string_bytes};
ghost use Rattle.tx_sheet.specs.Words.{IsWord};

use itoa::Buffer;
use std::alloc::{AllocError, Global};
use unicode_width::UnicodeWidthChar;

/// The most places that a text takes as it is.
const MAX_PLACES: usize = 24;

/// How many places of a longer one are shown.
const FIRST_PLACES: usize = 18;

// How many places a character takes in a line: none that is not printable, or that ends a line or
// is a space of another kind.
fn places_of(character: char) -> usize {
    match character {
        '\u{a0}' | '\u{2028}' | '\u{2029}' => 0,
        _ => character.width().unwrap_or(0),
    }
}

/// How many places a text takes in a line.
pub fn places(text: &str) -> usize {
    let mut count = 0usize;
    for character in text.chars() {
        count = count.saturating_add(places_of(character));
    }
    count
}

/// Appends a number.
pub fn put_number(out: &mut String, number: u64) -> Result<(), AllocError> {
    let mut buffer = Buffer::new();
    out.push_str(buffer.format(number))
}

// Whether a text is shown as it is: it is not empty, has no space and is printable.
fn is_plain(text: &str) -> bool {
    for character in text.chars() {
        if character == ' ' || places_of(character) == 0 {
            return false;
        }
    }
    !text.is_empty()
}

// A digit of base 16.
fn digit(n: u32) -> char {
    char::from_digit(n % 16, 16).unwrap_or('0')
}

// Appends one unit of UTF-16 as JSON escapes it.
fn put_unit(out: &mut String, unit: u32) -> Result<(), AllocError> {
    out.push_str("\\u")?;
    out.push(digit(unit / 4096))?;
    out.push(digit(unit / 256))?;
    out.push(digit(unit / 16))?;
    out.push(digit(unit))
}

// Appends a character that is not printable, as JSON escapes it.
fn put_escape(out: &mut String, character: char) -> Result<(), AllocError> {
    let code = u32::from(character);
    if code < 65536 {
        return put_unit(out, code);
    }
    let above = code - 65536;
    put_unit(out, 55296 + above / 1024)?;
    put_unit(out, 56320 + above % 1024)
}

// Appends a character within a JSON string.
fn put_character(out: &mut String, character: char) -> Result<(), AllocError> {
    match character {
        '"' => out.push_str("\\\""),
        '\\' => out.push_str("\\\\"),
        '\n' => out.push_str("\\n"),
        '\r' => out.push_str("\\r"),
        '\t' => out.push_str("\\t"),
        _ if places_of(character) == 0 => put_escape(out, character),
        _ => out.push(character),
    }
}

// Appends a text as a JSON string.
fn put_quoted(out: &mut String, text: &str) -> Result<(), AllocError> {
    out.push('"')?;
    for character in text.chars() {
        put_character(out, character)?;
    }
    out.push('"')
}

/// Appends the first places of a text, so many.
pub fn put_first(out: &mut String, text: &str, count: usize) -> Result<(), AllocError> {
    let mut left = count;
    for character in text.chars() {
        let places = places_of(character);
        if left < places {
            return Ok(());
        }
        left -= places;
        out.push(character)?;
    }
    Ok(())
}

// Appends a text, the beginning of one that takes too many places, with its length in bytes.
fn put_cut(out: &mut String, text: &str, len: usize) -> Result<(), AllocError> {
    if places(text) <= MAX_PLACES {
        return out.push_str(text);
    }
    put_first(out, text, FIRST_PLACES)?;
    out.push_str("..+")?;
    put_number(out, len as u64)
}

// Whether these are ASCII characters that are printable, and no spaces.
fn are_graphic(bytes: &[u8]) -> bool
    ensures { IsTrue result ↔ All (λ b. (33 ≤ b) × (b ≤ 126)) bytes.now }
{
    bytes.iter().all(|byte| *byte >= b'!' && *byte <= b'~')
}

// Whether a text is a short word, as most are.
fn is_word(text: &str) -> bool
    ensures { IsTrue result ↔ IsWord text.now }
{
    !text.is_empty() && text.len() <= MAX_PLACES && are_graphic(text.as_bytes())
}

/// Appends a key, a value or a name: as it is where it is printable, not empty and has no space,
/// else as a JSON string; of a long one its beginning and its length in bytes.
pub(crate) fn put_shown(out: &mut String, text: &str) -> Result<(), AllocError>
    ensures { OnOk result (IsWord text.now → string_bytes out.new ≡ string_bytes out.old ++ text.now) }
{
    if is_word(text) {
        return out.push_str(text);
    }
    if is_plain(text) {
        return put_cut(out, text, text.len());
    }
    let mut quoted = String::new(*out.allocator());
    put_quoted(&mut quoted, text)?;
    put_cut(out, quoted.as_str(), text.len())
}

/// Appends a key or a value as it is shown.
pub(crate) fn put_bytes(out: &mut String, bytes: &[u8]) -> Result<(), AllocError>
    ensures { OnOk result (IsWord bytes.now → string_bytes out.new ≡ string_bytes out.old ++ bytes.now) }
{
    match str::from_utf8(bytes) {
        Ok(text) => put_shown(out, text),
        Err(_) => put_shown(out, "(no text)"),
    }
}

/// A key or a value as it is shown.
pub(crate) fn shown_bytes(alloc: Global, bytes: &[u8]) -> Result<String, AllocError>
    ensures { IfOk result (λ text. IsWord bytes.now → string_bytes text ≡ bytes.now) }
{
    let mut out = String::new(alloc);
    put_bytes(&mut out, bytes)?;
    Ok(out)
}

/// A key, a value or a name as it is shown.
pub fn shown(alloc: Global, text: &str) -> Result<String, AllocError> {
    let mut out = String::new(alloc);
    put_shown(&mut out, text)?;
    Ok(out)
}

/// Appends a space and a key, a value or a name.
pub(crate) fn put_text(out: &mut String, text: &str) -> Result<(), AllocError> {
    out.push(' ')?;
    put_shown(out, text)
}

/// Appends words and a number.
pub fn put_stamp(out: &mut String, words: &str, number: u64) -> Result<(), AllocError> {
    out.push_str(words)?;
    put_number(out, number)
}
