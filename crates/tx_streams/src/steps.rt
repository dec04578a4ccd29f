//! The machine's steps among the lines that a script writes with them.
use crate::faults::fault_in;
use memchr::memchr;
use std::alloc::Global;
use std::io;
use std::io::Write;

/// A writer that hands on, of the lines that it is given, the machine's steps, and keeps the line
/// of a fault.
#[derive(Drop)]
pub struct Steps<W> {
    writer: W,
    /// The line of the fault that was written, with its newline.
    fault: Vec<u8>,
    /// Whether the line that is being written is handed on; None between two lines.
    hands_on: Option<bool>,
}

impl<W> Steps<W> {
    pub fn new(alloc: Global, writer: W) -> Steps<W> {
        Steps {
            writer,
            fault: Vec::new(alloc),
            hands_on: None,
        }
    }

    /// The line of the fault that was written, with its newline; empty where there was none.
    pub fn fault(&self) -> &[u8] {
        self.fault.as_slice()
    }
}

// Whether a line is a step beside a number: a reply has a word behind its number.
fn is_numbered_step(line: &[u8]) -> bool {
    match memchr(b',', line) {
        Some(comma) => line[comma..].starts_with(b",["),
        None => false,
    }
}

// Whether a line is handed on, by how it begins: replies begin with a number, steps with a word, or
// a number before their own bracket, and a verdict begins with a word.
fn is_handed_on(line: &[u8]) -> bool {
    if line.starts_with(b"[\"") {
        return !line.starts_with(b"[\"check\"");
    }
    is_numbered_step(line)
}

impl<W: Write> Write for Steps<W> {
    fn write(&mut self, buf: &[u8]) -> io::Result<usize> {
        if self.hands_on.is_none() && fault_in(buf).is_some() {
            self.fault.extend_from_slice(buf)?;
            return Ok(buf.len());
        }
        let hands_on = self.hands_on.unwrap_or_else(|| is_handed_on(buf));
        let len = if hands_on {
            self.writer.write(buf)?
        } else {
            buf.len()
        };
        let is_ended = buf[..len].last() == Some(&b'\n');
        self.hands_on = if is_ended { None } else { Some(hands_on) };
        Ok(len)
    }

    fn flush(&mut self) -> io::Result<()> {
        self.writer.flush()
    }
}
