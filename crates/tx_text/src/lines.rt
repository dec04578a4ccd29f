//! Reading a text line by line, what is at hand at a time. A line is ended by a newline or by the
//! end of the input; the last newline begins no line.
ghost use Rattle.std.specs.Prelude.{◌≡◌, ◌≢◌, ◌<◌, ◌≤◌, length, take, slice_index, All, IfOk, IfSome, true, false};
ghost use Rattle.tx_text.specs.Lines.{IsFirstLine, ReadsLine, TakesBytes};

use crate::Broken;
use memchr::memchr;
use std::io::{BufRead, ErrorKind};
use tx_types::limits::MAX_LINE_BYTES;

/// What stands next in the input.
#[derive(Clone, Copy, Debug, PartialEq, Eq)]
pub enum Found {
    Line,
    Long,
    End,
}

// What was at hand: nothing since the input is at its end, a part of a line, or the rest of a line
// with its newline.
#[derive(Clone, Copy, Debug, PartialEq, Eq)]
enum Took {
    Nothing,
    Part,
    Rest,
}

// The bytes before the first newline, and whether there is one.
fn before_newline(bytes: &[u8]) -> (usize, bool)
    ensures range { result.0 ≤ length bytes.now }
    ensures before { All (λ x. x ≢ 10) (take result.0 bytes.now) }
    ensures found { result.1 ≡ true → (result.0 < length bytes.now) × (slice_index bytes.now result.0 ≡ 10) }
    ensures whole { result.1 ≡ false → result.0 ≡ length bytes.now }
{
    match memchr(b'\n', bytes) {
        Some(at) => (at, true),
        None => (bytes.len(), false),
    }
}

// Takes what is at hand, up to the first newline.
fn take_some<R: BufRead>(reader: &mut R, line: &mut Vec<u8>) -> Result<Took, Broken>
    ensures { IfOk result (λ took. TakesBytes (R.remaining reader.old) (R.remaining reader.new)
        line.old.items line.new.items took) }
{
    let available = match reader.fill_buf() {
        Ok(available) => available,
        Err(e) => {
            return if e.kind() == ErrorKind::Interrupted {
                Ok(Took::Part)
            } else {
                Err(Broken::Input)
            };
        }
    };
    if available.is_empty() {
        return Ok(Took::Nothing);
    }
    let (len, found) = before_newline(available);
    if line.extend_from_slice(&available[..len]).is_err() {
        return Err(Broken::Memory);
    }
    if found {
        reader.consume(len + 1);
        Ok(Took::Rest)
    } else {
        reader.consume(len);
        Ok(Took::Part)
    }
}

/// The first line of these bytes, where it lies whole in them with its newline, and is not too
/// long.
#[inline(always)]
pub fn whole_line(bytes: &[u8]) -> Option<&[u8]>
    ensures short { IfSome result (λ line. length line.now ≤ MAX_LINE_BYTES) }
    ensures first { IfSome result (λ line. IsFirstLine line.now bytes.now) }
{
    let (len, found) = before_newline(bytes);
    if !found || len > MAX_LINE_BYTES {
        return None;
    }
    Some(&bytes[..len])
}

/// Reads the next line into `line`, without its newline, and tells what was found. A line is too
/// long where it has more than `MAX_LINE_BYTES`; of such a one no more is read than was at hand
/// where it grew too long. A read that was interrupted is made again.
///
/// `Input` where a read failed, `Memory` where a growth of `line` was refused.
pub fn read_line<R: BufRead>(reader: &mut R, line: &mut Vec<u8>) -> Result<Found, Broken>
    // At any reader.
    ensures short { IfOk result (λ found. found ≡ Found.Line → length line.new.items ≤ MAX_LINE_BYTES) }
    // Where the bytes are known.
    ensures reads { IfOk result (λ found. IfSome (R.remaining reader.old)
        (λ bytes. ReadsLine bytes (R.remaining reader.new) found line.new.items)) }
{
    line.clear();
    'parts: for _ in 0..u64::MAX {
        match take_some(reader, line)? {
            Took::Nothing if line.is_empty() => return Ok(Found::End),
            Took::Nothing => return Ok(Found::Line),
            Took::Rest if line.len() > MAX_LINE_BYTES => return Ok(Found::Long),
            Took::Rest => return Ok(Found::Line),
            Took::Part => if line.len() > MAX_LINE_BYTES {
                return Ok(Found::Long);
            },
        }
    }
    Err(Broken::Input)
}
