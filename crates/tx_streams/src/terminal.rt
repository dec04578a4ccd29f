//! What is written, as a terminal is to show it.
use std::alloc::{AllocError, Global};
use std::io;
use std::io::Write;
use tx_hints::escaped_output;

/// A writer to what may be a terminal. There each character is seen: one that takes no place is
/// written as JSON escapes it, and bytes that are no UTF-8 as U+FFFD. To a file or a pipe all goes
/// as it is.
#[derive(Drop)]
pub struct Escaping<W> {
    alloc: Global,
    writer: W,
    is_terminal: bool,
    /// The first bytes of a character that is not whole yet.
    begun: Vec<u8>,
}

// How many bytes, at the end of these, begin a character that is not whole: of two, three or four.
fn begun_in(bytes: &[u8]) -> usize {
    match bytes {
        [.., 0xc0..=0xff] => 1,
        [.., 0xe0..=0xff, 0x80..=0xbf] => 2,
        [.., 0xf0..=0xff, 0x80..=0xbf, 0x80..=0xbf] => 3,
        _ => 0,
    }
}

impl<W> Escaping<W> {
    pub fn new(alloc: Global, writer: W, is_terminal: bool) -> Escaping<W> {
        Escaping {
            alloc,
            writer,
            is_terminal,
            begun: Vec::new(alloc),
        }
    }

    // What bytes behind those that are held make, and keeps those of a character that is not whole.
    fn shown(&mut self, bytes: &[u8]) -> Result<String, AllocError> {
        self.begun.extend_from_slice(bytes)?;
        let end = self
            .begun
            .len()
            .saturating_sub(begun_in(self.begun.as_slice()));
        let whole = self.begun.get(..end).unwrap_or_default();
        let text = String::from_utf8_lossy(self.alloc, whole)?;
        let rest = self.begun.get(end..).unwrap_or_default();
        let rest = rest.to_vec(self.alloc)?;
        self.begun = rest;
        escaped_output(self.alloc, text.as_str())
    }
}

impl<W: Write> Write for Escaping<W> {
    fn write(&mut self, buf: &[u8]) -> io::Result<usize> {
        if !self.is_terminal {
            return self.writer.write(buf);
        }
        let text = self.shown(buf)?;
        self.writer.write_all(text.as_bytes())?;
        Ok(buf.len())
    }

    fn flush(&mut self) -> io::Result<()> {
        self.writer.flush()
    }
}
