//! A line that is an array of strings, numbers and nulls, by a scan of its bytes. A line with an
//! escape, or of another shape, is left to others.
ghost use Rattle.std.specs.Prelude.{◌≡◌, ◌≢◌, ◌<◌, ◌≤◌, ◌-◌, ◌∷◌, ℕ, [], length, get_or, drop, slice_range, false, Some, IsTrue, IfSome, MatchOption};
ghost use Rattle.tx_text.specs.Plain.{is_stop};
ghost use Rattle.json.specs.Token.{string as string_token, null as null_token, end_array};
ghost use Rattle.json.specs.Lex.{token, in_word, lex};
ghost use Rattle.std.specs.List.{prefix_len};
ghost use Rattle.std.specs.Char.{is_ascii_digit};
ghost use Rattle.std.specs.Str.{IsUtf8};
ghost use Rattle.serde_json.specs.Data.{array};
ghost use Rattle.serde_json.specs.Read.{read};
ghost use Rattle.tx_text.specs.Parts.{json_of, parts_items};
ghost use Rattle.tx_text.specs.Scan.{Runs, Same, Begins, BeginsNumber, BeginsPart, EndsWord, ReadParts};

use crate::part::{MAX_PARTS, Part, Parts};
use crate::plain::{BLOCK, plain_in};
use fast_float::Numeral;

// Whether the byte stands for itself in a string.
fn is_plain(byte: u8) -> bool
    ensures { IsTrue result → (32 ≤ byte) × (byte ≢ 34) × (byte ≢ 92) }
{
    byte >= 32 && byte != b'"' && byte != b'\\'
}

// The end of the plain bytes from here on, one by one.
fn plain_end_from(bytes: &[u8], from: usize) -> usize
    requires { from ≤ length bytes.now }
    ensures range { (from ≤ result) × (result ≤ length bytes.now) }
    ensures plain { (k : ℕ) → from ≤ k → k < result → is_stop (get_or bytes.now k 0) ≡ false }
{
    let mut at = from;
    'bytes: while at < bytes.len() && is_plain(bytes[at]) {
        at += 1;
    }
    at
}

// The end of the plain bytes from here on.
fn plain_end(bytes: &[u8], from: usize) -> usize
    requires { from ≤ length bytes.now }
    ensures range { (from ≤ result) × (result ≤ length bytes.now) }
    ensures runs { Runs (drop from bytes.now) (slice_range bytes.now from result) (drop result bytes.now) }
{
    let mut at = from;
    'lanes: while bytes.len() - at >= BLOCK {
        let plain = plain_in(bytes, at);
        at += plain;
        if plain < BLOCK {
            return at;
        }
    }
    plain_end_from(bytes, at)
}

// The first byte from here on that is no space, where there are some.
#[cold]
#[inline(never)]
fn past_many(bytes: &[u8], from: usize) -> usize
    requires { from ≤ length bytes.now }
    ensures range { result ≤ length bytes.now }
    ensures same { Same (drop from bytes.now) (drop result bytes.now) }
{
    let mut at = from;
    'bytes: while at < bytes.len() && bytes[at] == b' ' {
        at += 1;
    }
    at
}

// The first byte from here on that is no space. Mostly there is none.
fn past_spaces(bytes: &[u8], from: usize) -> usize
    requires { from ≤ length bytes.now }
    ensures range { result ≤ length bytes.now }
    ensures same { Same (drop from bytes.now) (drop result bytes.now) }
{
    if from < bytes.len() && bytes[from] == b' ' {
        past_many(bytes, from)
    } else {
        from
    }
}

// Passes this byte, and spaces before it.
pub(crate) fn pass(line: &str, from: usize, byte: u8) -> Option<usize>
    requires { from ≤ length line.now }
    ensures range { IfSome result (λ at. at ≤ length line.now) }
    ensures same { IfSome result (λ at. Same (drop from line.now) (byte ∷ drop at line.now)) }
    ensures after { IfSome result (λ at. (1 ≤ at) × (get_or line.now (at - 1) 0 ≡ byte)) }
{
    let bytes = line.as_bytes();
    if from < bytes.len() && bytes[from] == byte {
        return Some(from + 1);
    }
    let at = past_spaces(bytes, from);
    if at < bytes.len() && bytes[at] == byte {
        Some(at + 1)
    } else {
        None
    }
}

// The string from here on, with what comes after it.
pub(crate) fn string(line: &str, from: usize) -> Option<(&str, usize)>
    requires { from ≤ length line.now }
    ensures range { IfSome result (λ found. found.1 ≤ length line.now) }
    ensures begins { IfSome result (λ found. Begins (drop from line.now) (token (string_token found.0.now))
        (drop found.1 line.now)) }
{
    let start = pass(line, from, b'"')?;
    let bytes = line.as_bytes();
    let stop = plain_end(bytes, start);
    if stop == bytes.len() || bytes[stop] != b'"' {
        return None;
    }
    Some((&line[start..stop], stop + 1))
}

// The end of the digits from here on.
fn digits_end(bytes: &[u8], from: usize) -> usize
    requires { from ≤ length bytes.now }
    ensures range { (from ≤ result) × (result ≤ length bytes.now) }
    ensures digits { prefix_len is_ascii_digit (drop from bytes.now) ≡ result - from }
    ensures lexemes { lex in_word (drop from bytes.now) ≡ lex in_word (drop result bytes.now) }
{
    let mut at = from;
    'bytes: while at < bytes.len() {
        if !bytes[at].is_ascii_digit() {
            return at;
        }
        at += 1;
    }
    at
}

// Whether a number or a word may end before this byte.
fn ends_word(byte: u8) -> bool
    ensures { IsTrue result → EndsWord byte }
{
    byte == b',' || byte == b']' || byte == b' '
}

// The whole number from here on, with what comes after it. Of `0` it says nothing.
fn number(line: &str, from: usize) -> Option<(u64, usize)>
    requires { from ≤ length line.now }
    ensures range { IfSome result (λ found. found.1 ≤ length line.now) }
    ensures begins { IfSome result (λ found. BeginsNumber (drop from line.now) found.0 (drop found.1 line.now)) }
{
    let bytes = line.as_bytes();
    let start = past_spaces(bytes, from);
    let end = digits_end(bytes, start);
    if end == start || end == bytes.len() || bytes[start] < b'1' || bytes[start] > b'9' {
        return None;
    }
    if !ends_word(bytes[end]) {
        return None;
    }
    let n = Numeral::scan(&bytes[start..end]).to_u64()?;
    Some((n, end))
}

// What comes after the word `null`, where it stands from here on.
fn null(line: &str, from: usize) -> Option<usize>
    requires { from ≤ length line.now }
    ensures range { IfSome result (λ at. at ≤ length line.now) }
    ensures begins { IfSome result (λ at. Begins (drop from line.now) (token null_token) (drop at line.now)) }
{
    let bytes = line.as_bytes();
    let start = past_spaces(bytes, from);
    if bytes.len() - start < 5 {
        return None;
    }
    if bytes[start] != b'n' || bytes[start + 1] != b'u' || bytes[start + 2] != b'l' {
        return None;
    }
    if bytes[start + 3] != b'l' || !ends_word(bytes[start + 4]) {
        return None;
    }
    Some(start + 4)
}

// Whether the array ends here, and the line with it.
pub(crate) fn is_over(line: &str, from: usize) -> bool
    requires { from ≤ length line.now }
    ensures { IsTrue result → Begins (drop from line.now) (token end_array) [] }
{
    let bytes = line.as_bytes();
    match pass(line, from, b']') {
        Some(at) => past_spaces(bytes, at) == bytes.len(),
        None => false,
    }
}

// The member from here on, with what comes after it.
fn member(line: &str, from: usize) -> Option<(Part<'_>, usize)>
    requires { from ≤ length line.now }
    ensures range { IfSome result (λ found. found.1 ≤ length line.now) }
    ensures begins { IfSome result (λ found. BeginsPart (drop from line.now) found.0 (drop found.1 line.now)) }
{
    if let Some((text, after)) = string(line, from) {
        return Some((Part::Text(text), after));
    }
    if let Some((n, after)) = number(line, from) {
        return Some((Part::Number(n), after));
    }
    let after = null(line, from)?;
    Some((Part::Null, after))
}

// A line as text. Most have ASCII alone, which is seen a word at a time.
pub(crate) fn text_of(line: &[u8]) -> Option<&str>
    ensures { IfSome result (λ text. (text.now ≡ line.now) × IsUtf8 line.now) }
{
    if line.is_ascii() {
        return Some(unsafe { str::from_utf8_unchecked(line) });
    }
    match str::from_utf8(line) {
        Ok(text) => Some(text),
        Err(_) => None,
    }
}

/// Puts the plain members of a line's array into `parts`, up to its end, or up to the position of
/// the first that is none.
pub(crate) fn leading<'a>(line: &'a str, parts: &mut Parts<'a>) -> Option<Option<usize>>
    requires { parts.old.items ≡ [] }
    ensures { IfSome result (λ position. MatchOption position
        (read line.now ≡ Some (array (parts_items parts.new.items)))
        (λ at. (at ≤ length line.now) × ReadParts line.now parts.new.items (drop at line.now))) }
{
    let mut at = pass(line, 0, b'[')?;
    'parts: while parts.len() < MAX_PARTS {
        let Some((part, after)) = member(line, at) else {
            return Some(Some(at));
        };
        parts.push(part);
        let Some(next) = pass(line, after, b',') else {
            return if is_over(line, after) {
                Some(None)
            } else {
                None
            };
        };
        at = next;
    }
    None
}

/// Puts the members of a line into `parts`, in place of what was there, where it is an array of one
/// to `MAX_PARTS` strings with no escape, whole numbers that do not begin with 0, and nulls, with
/// spaces between them at most. Of any other line it says nothing: it may be the same array in
/// another spelling.
pub fn scanned<'a>(line: &'a [u8], parts: &mut Parts<'a>) -> bool
    ensures { IsTrue result → json_of line.now ≡ Some (array (parts_items parts.new.items)) }
{
    parts.clear();
    let Some(text) = text_of(line) else {
        return false;
    };
    match leading(text, parts) {
        Some(None) => true,
        Some(Some(_)) | None => false,
    }
}
