//! Why a stream failed.
use std::cell::Cell;
use std::io;
use std::io::{Read, Write};
use tx_text::Broken;

/// Why a command was broken off, and what the system said of it.
#[derive(Clone, Copy, Debug)]
pub(crate) struct Stopped {
    pub why: Broken,
    pub cause: Option<io::Error>,
}

impl From<Broken> for Stopped {
    fn from(why: Broken) -> Stopped {
        Stopped { why, cause: None }
    }
}

/// A stream that notes why it failed.
#[derive(Drop)]
pub(crate) struct Failing<'a, S> {
    stream: S,
    failure: &'a Cell<Option<io::Error>>,
}

impl<'a, S> Failing<'a, S> {
    pub(crate) fn new(stream: S, failure: &'a Cell<Option<io::Error>>) -> Failing<'a, S> {
        Failing { stream, failure }
    }
}

impl<S: Read> Read for Failing<'_, S> {
    fn read(&mut self, buf: &mut [u8]) -> io::Result<usize> {
        let read = self.stream.read(buf);
        if let Err(error) = read {
            self.failure.set(Some(error));
        }
        read
    }
}

impl<S: Write> Write for Failing<'_, S> {
    fn write(&mut self, buf: &[u8]) -> io::Result<usize> {
        let written = self.stream.write(buf);
        if let Err(error) = written {
            self.failure.set(Some(error));
        }
        written
    }

    fn flush(&mut self) -> io::Result<()> {
        let flushed = self.stream.flush();
        if let Err(error) = flushed {
            self.failure.set(Some(error));
        }
        flushed
    }
}
