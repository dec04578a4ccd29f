//! Why a line is no JSON value.
use serde_json::Error;
use std::alloc::{AllocError, Global};

// The byte order mark of UTF-8.
const MARK: [u8; 3] = [0xef, 0xbb, 0xbf];

// The most brackets and braces of a value that are open at once.
const MAX_DEPTH: usize = 127;

// Whether a line has nothing in it.
fn is_blank(line: &[u8]) -> bool {
    line.iter()
        .all(|byte| matches!(*byte, b' ' | b'\t' | b'\r'))
}

// The most brackets and braces that are open at once in the beginning of a line.
fn depth_of(bytes: &[u8]) -> usize {
    let (mut depth, mut most) = (0_usize, 0_usize);
    let (mut is_text, mut is_escaped) = (false, false);
    'bytes: for byte in bytes {
        match *byte {
            _ if is_escaped => is_escaped = false,
            b'\\' if is_text => is_escaped = true,
            b'"' => is_text = !is_text,
            b'[' | b'{' if !is_text => {
                depth = depth.saturating_add(1);
                most = most.max(depth);
            }
            b']' | b'}' if !is_text => depth = depth.saturating_sub(1),
            _ => {}
        }
    }
    most
}

/// Why a line, which is UTF-8, is no JSON value, which the parser refuses so.
pub fn wrong_json(alloc: Global, line: &[u8], error: &Error) -> Result<String, AllocError> {
    if line.starts_with(&MARK) {
        return "the line begins with a byte order mark".to_string(alloc);
    }
    if is_blank(line) {
        return "the line is empty".to_string(alloc);
    }
    let column = error.column();
    if depth_of(line.get(..column).unwrap_or(line)) > MAX_DEPTH {
        return format!(in alloc; "the line is nested deeper than {MAX_DEPTH}");
    }
    // The parser counts its lines too, and this is one.
    let said = format!(in alloc; "{error}")?;
    let end = said.as_str().find(" at line ").unwrap_or(said.len());
    let what = said.as_str().get(..end).unwrap_or_default();
    format!(in alloc; "the line is no JSON value: {what} at byte {column}")
}
