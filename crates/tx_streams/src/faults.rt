//! The faults among the lines that are written.
ghost use Rattle.std.specs.Prelude.{◌≡◌};

use memchr::memchr;
use std::alloc::Global;
use std::io;
use std::io::Write;
use tx_types::Cause;

/// How many faults are noted at most.
pub const MAX_NOTED: usize = 16;

// A fault's line is no shorter and no longer: a number, two words and what stands between.
const MIN_FAULT_BYTES: usize = 17;

const MAX_FAULT_BYTES: usize = 48;

/// A fault: the number of its line, and its cause.
#[derive(Clone, Copy, Debug, PartialEq, Eq)]
pub struct NotedFaults {
    pub number: u64,
    pub cause: Cause,
}

/// A writer that notes the first faults among the lines that it is given, one at each call, and the
/// first that tell of a transaction that wrote nothing.
#[derive(Drop)]
pub struct Noting<W> {
    writer: W,
    faults: Vec<NotedFaults>,
    /// The numbers of the lines that tell so.
    read_only: Vec<u64>,
}

fn cause_of(word: &str) -> Option<Cause> {
    match word {
        "json" => Some(Cause::Json),
        "form" => Some(Cause::Form),
        "name" => Some(Cause::Name),
        "order" => Some(Cause::Order),
        "long" => Some(Cause::Long),
        "lines" => Some(Cause::Lines),
        "sessions" => Some(Cause::Sessions),
        _ => None,
    }
}

// Whether a line has the length and the last bytes of a fault's, which few others have.
#[inline(always)]
fn ends_as_fault(line: &[u8]) -> bool {
    matches!(line.len(), MIN_FAULT_BYTES..=MAX_FAULT_BYTES)
        && matches!(line, [.., b'"', b']', b'\n'])
}

/// The fault that a line tells: `[number,"E16","cause"]` and a newline.
pub fn fault_in(line: &[u8]) -> Option<NotedFaults> {
    if !ends_as_fault(line) {
        return None;
    }
    let comma = memchr(b',', line)?;
    if !matches!(&line[comma..], [b',', b'"', b'E', b'1', b'6', ..]) {
        return None;
    }
    let (number, rest) = str::from_utf8(line).ok()?.split_once(",\"E16\",\"")?;
    let (word, _) = rest.split_once('"')?;
    let number = number.strip_prefix('[')?.parse::<u64>().ok()?;
    Some(NotedFaults {
        number,
        cause: cause_of(word)?,
    })
}

// The number of a line that tells of a transaction that wrote nothing.
fn read_only_in(line: &[u8]) -> Option<u64> {
    let text = str::from_utf8(line).ok()?;
    let number = text.strip_suffix(",\"outcome\",\"read-only\"]\n")?;
    number.strip_prefix('[')?.parse::<u64>().ok()
}

impl<W> Noting<W> {
    pub fn new(alloc: Global, writer: W) -> Noting<W> {
        Noting {
            writer,
            faults: Vec::new(alloc),
            read_only: Vec::new(alloc),
        }
    }

    /// The faults that were noted, in the order in which they were written.
    pub fn faults(&self) -> &[NotedFaults]
        ensures { result.now ≡ self.now.faults.items }
    {
        self.faults.as_slice()
    }

    /// The numbers of the lines that told of a transaction that wrote nothing, of the first of
    /// them.
    pub fn read_only(&self) -> &[u64] {
        self.read_only.as_slice()
    }

    // Notes a fault, or an end with nothing written, if there is room.
    #[cold]
    #[inline(never)]
    fn note(&mut self, line: &[u8])
        ensures { self.new.writer ≡ self.old.writer }
    {
        // With no room for it a sentence is left out, and its line is written all the same.
        if let Some(fault) = fault_in(line) {
            if self.faults.len() < MAX_NOTED {
                let _ = self.faults.push(fault);
            }
        } else if self.read_only.len() < MAX_NOTED {
            if let Some(number) = read_only_in(line) {
                let _ = self.read_only.push(number);
            }
        }
    }
}

// What is written is what the writer below is given.
impl<W: Write> Write for Noting<W> {
    ghost contents = { λ w. W.contents w.writer };

    #[inline(always)]
    fn write(&mut self, buf: &[u8]) -> io::Result<usize> {
        if ends_as_fault(buf) {
            self.note(buf);
        }
        self.writer.write(buf)
    }

    fn flush(&mut self) -> io::Result<()> {
        self.writer.flush()
    }
}
