//! The streams of a program that answers as it is asked: what was written is handed on before it
//! waits for more input.
ghost use Rattle.std.specs.Prelude.{◌≡◌};

use std::cell::RefCell;
use std::io;
use std::io::{ErrorKind, Read, Write};

/// A writer that is shared with a reader, which hands on what the writer holds back.
#[derive(Drop)]
pub struct Shared<'a, W> {
    writer: &'a RefCell<W>,
}

impl<'a, W> Shared<'a, W> {
    pub fn new(writer: &'a RefCell<W>) -> Shared<'a, W> {
        Shared { writer }
    }
}

impl<W: Write> Write for Shared<'_, W> {
    #[inline(always)]
    fn write(&mut self, buf: &[u8]) -> io::Result<usize> {
        match self.writer.try_borrow_mut() {
            Ok(mut writer) => writer.write(buf),
            Err(_) => Err(io::Error::from(ErrorKind::Other)),
        }
    }

    fn flush(&mut self) -> io::Result<()> {
        match self.writer.try_borrow_mut() {
            Ok(mut writer) => writer.flush(),
            Err(_) => Err(io::Error::from(ErrorKind::Other)),
        }
    }
}

/// A reader that, each time it is to read, first hands on what was written, and at a terminal shows
/// a prompt.
#[derive(Drop)]
pub struct Asking<'a, R, W, E> {
    reader: R,
    written: Shared<'a, W>,
    terminal: Option<E>,
    is_cut_off: bool,
}

impl<'a, R, W, E> Asking<'a, R, W, E> {
    pub fn new(reader: R, written: Shared<'a, W>, terminal: Option<E>) -> Asking<'a, R, W, E> {
        Asking {
            reader,
            written,
            terminal,
            is_cut_off: false,
        }
    }

    /// Whether it read no more since it could not hand on what was written.
    pub fn is_cut_off(&self) -> bool
        ensures { result ≡ self.now.is_cut_off }
    {
        self.is_cut_off
    }
}

impl<R: Read, W: Write, E: Eprint> Read for Asking<'_, R, W, E> {
    fn read(&mut self, buf: &mut [u8]) -> io::Result<usize> {
        if let Err(error) = self.written.flush() {
            self.is_cut_off = true;
            return Err(error);
        }
        if let Some(terminal) = &self.terminal {
            terminal.eprint("> ")?;
        }
        self.reader.read(buf)
    }
}
