//! Readers and writers that fail.
ghost use Rattle.std.specs.Prelude.{Some};

use std::alloc::Global;
use std::io;
use std::io::{BufReader, ErrorKind, Read, Write};

// A writer that takes a byte a write, and fails once it has no room.
#[derive(Drop)]
pub(crate) struct Drip {
    pub held: Vec<u8>,
    pub room: usize,
}

impl Write for Drip {
    ghost contents = { λ w. Some w.held.items };

    fn write(&mut self, buf: &[u8]) -> io::Result<usize> {
        if buf.is_empty() {
            return Ok(0);
        }
        if self.room == 0 {
            return Err(io::Error::from(ErrorKind::WouldBlock));
        }
        self.held.push(buf[0])?;
        self.room -= 1;
        Ok(1)
    }

    fn flush(&mut self) -> io::Result<()> {
        if self.room == 0 {
            return Err(io::Error::from(ErrorKind::WouldBlock));
        }
        Ok(())
    }
}

// A reader that fails once it has made some reads.
#[derive(Drop)]
pub(crate) struct Torn<'a> {
    pub bytes: &'a [u8],
    pub good: usize,
}

impl Read for Torn<'_> {
    ghost remaining = { λ r. Some r.bytes.now };

    fn read(&mut self, buf: &mut [u8]) -> io::Result<usize> {
        if self.good == 0 {
            return Err(io::Error::from(ErrorKind::WouldBlock));
        }
        self.good -= 1;
        self.bytes.read(buf)
    }
}

// A reader of this text that reads a byte at a time, and fails once it has made some reads.
pub(crate) fn torn_reader(
    alloc: Global,
    text: &str,
    good: usize,
) -> io::Result<BufReader<Torn<'_>>> {
    let bytes = text.as_bytes();
    BufReader::with_capacity(alloc, 1, Torn { bytes, good })
}
