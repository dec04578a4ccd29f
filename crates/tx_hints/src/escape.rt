//! Texts made safe for a terminal.
use std::alloc::{AllocError, Global};
use unicode_width::UnicodeWidthChar;

/// How many places a character takes in a line of a terminal: none where it is no sign of its own,
/// as a control character, an accent alone, or what turns the direction of a text.
pub fn places_of(character: char) -> usize {
    match character {
        '\u{ad}' | '\u{2028}' | '\u{2029}' | '\u{fff9}'..='\u{fffb}' => 0,
        _ => character.width().unwrap_or(0),
    }
}

// A digit of base 16.
fn digit(n: u32) -> char {
    char::from_digit(n % 16, 16).unwrap_or('0')
}

// Appends one unit of UTF-16 as JSON escapes it.
fn put_unit(out: &mut String, unit: u32) -> Result<(), AllocError> {
    out.push_str("\\u")?;
    out.push(digit(unit / 4096))?;
    out.push(digit(unit / 256))?;
    out.push(digit(unit / 16))?;
    out.push(digit(unit))
}

// Appends a character as JSON escapes it.
fn put_escape(out: &mut String, character: char) -> Result<(), AllocError> {
    let code = u32::from(character);
    if code < 65536 {
        return put_unit(out, code);
    }
    let above = code - 65536;
    put_unit(out, 55296 + above / 1024)?;
    put_unit(out, 56320 + above % 1024)
}

// Appends a character as it is, or as JSON escapes it where it takes no place.
fn put_seen(out: &mut String, character: char) -> Result<(), AllocError> {
    match character {
        '\n' => out.push_str("\\n"),
        '\r' => out.push_str("\\r"),
        '\t' => out.push_str("\\t"),
        _ if places_of(character) == 0 => put_escape(out, character),
        _ => out.push(character),
    }
}

/// A text as it is told: one line in which every character is seen. One that takes no place at a
/// terminal, and so might do something else there, is written as JSON escapes it: control
/// characters, ends of lines among them, and what turns the direction of a text. All else stands as
/// it is.
pub fn escaped(alloc: Global, text: &str) -> Result<String, AllocError> {
    let mut out = String::new(alloc);
    'characters: for character in text.chars() {
        put_seen(&mut out, character)?;
    }
    Ok(out)
}

/// A part of an output as a terminal is to show it: the same, but that ends of lines and tabs stay.
/// In JSON, where only strings have such characters, it means the same.
pub fn escaped_output(alloc: Global, text: &str) -> Result<String, AllocError> {
    let mut out = String::new(alloc);
    'characters: for character in text.chars() {
        match character {
            '\n' | '\t' => out.push(character)?,
            _ => put_seen(&mut out, character)?,
        }
    }
    Ok(out)
}

/// The same of a text of several lines, which stay lines.
pub fn escaped_lines(alloc: Global, text: &str) -> Result<String, AllocError> {
    let mut out = String::new(alloc);
    'lines: for line in text.lines() {
        let line = escaped(alloc, line)?;
        out.push_str(line.as_str())?;
        out.push('\n')?;
    }
    Ok(out)
}
