//! The text of an input, and the lines of a text that is at hand.
ghost use Rattle.std.specs.Prelude.{◌≡◌, ◌≢◌, ◌<◌, ◌≤◌, ◌∷◌, length, take, slice_index, map, All, IfOk, IfSome, true, false};
ghost use Rattle.tx_text.specs.Lines.{lines_of as lines_in, NoNewline};
ghost use Rattle.tx_film.specs.Lines.{AreLines};

use memchr::memchr;
use std::alloc::{AllocError, Global};
use std::io::{BufRead, ErrorKind};
use tx_text::Broken;

/// All that is left to read. `Input` where a read failed, `Memory` where a growth was refused.
pub fn read_all<R: BufRead>(alloc: Global, reader: &mut R) -> Result<Vec<u8>, Broken>
    ensures { IfOk result (λ text. IfSome (R.remaining reader.old) (λ input. text.items ≡ input)) }
{
    let mut text = Vec::new(alloc);
    match reader.read_to_end(&mut text) {
        Ok(_) => Ok(text),
        Err(error) if error.kind() == ErrorKind::OutOfMemory => Err(Broken::Memory),
        Err(_) => Err(Broken::Input),
    }
}

// The bytes before the first newline, and whether there is one.
fn before_newline(bytes: &[u8]) -> (usize, bool)
    ensures range { result.0 ≤ length bytes.now }
    ensures before { All (λ x. x ≢ 10) (take result.0 bytes.now) }
    ensures found { result.1 ≡ true → (result.0 < length bytes.now) × (slice_index bytes.now result.0 ≡ 10) }
    ensures whole { result.1 ≡ false → result.0 ≡ length bytes.now }
{
    match memchr(b'\n', bytes) {
        Some(at) => (at, true),
        None => (bytes.len(), false),
    }
}

// The first line, and what comes after it.
fn first_line(text: &[u8]) -> (&[u8], &[u8])
    requires { 0 < length text.now }
    ensures shorter { length result.1.now < length text.now }
    ensures none { NoNewline result.0.now }
    ensures lines { lines_in text.now ≡ result.0.now ∷ lines_in result.1.now }
{
    let (len, is_ended) = before_newline(text);
    let next = if is_ended { len + 1 } else { len };
    (&text[..len], &text[next..])
}

/// The lines of a text, each ended by a newline or by the end of the text.
pub fn lines_of(alloc: Global, text: &[u8]) -> Result<Vec<&[u8]>, AllocError>
    ensures lines { IfOk result (λ lines. map (λ line. line.now) lines.items ≡ lines_in text.now) }
    ensures whole { IfOk result (λ lines. AreLines (map (λ line. line.now) lines.items)) }
{
    let mut lines = Vec::new(alloc);
    let mut rest = text;
    'lines: while !rest.is_empty() {
        let (line, more) = first_line(rest);
        lines.push(line)?;
        rest = more;
    }
    Ok(lines)
}
