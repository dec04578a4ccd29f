//! Comments and empty lines, passed over.
use std::alloc::{AllocError, Global};
use std::cell::RefCell;
use std::io;
use std::io::{ErrorKind, Read};

/// Which lines were passed over.
#[derive(Debug, Drop)]
pub struct Dropped {
    /// How many lines were handed on.
    handed_on: u64,
    /// How many were before each line that was passed over.
    before: Vec<u64>,
}

impl Dropped {
    /// None so far.
    pub fn new(alloc: Global) -> Dropped {
        Dropped {
            handed_on: 0,
            before: Vec::new(alloc),
        }
    }

    /// The number in its text of the line that was handed on as the one of this number.
    pub fn place_of(&self, number: u64) -> u64 {
        let mut place = number;
        'dropped: for before in &self.before {
            if *before < number {
                place = place.saturating_add(1);
            }
        }
        place
    }

    // Notes a line that is passed over.
    fn add(&mut self) -> Result<(), AllocError> {
        self.before.push(self.handed_on)?;
        Ok(())
    }
}

// What of a line was read.
#[derive(Clone, Copy, Debug, PartialEq, Eq)]
enum LinePart {
    /// Blanks at most.
    Start,
    /// The beginning of a comment.
    Comment,
    /// The beginning of any other line.
    Text,
}

/// A reader that passes over empty lines and those that begin with `#`, and blanks before the first
/// character of a line.
#[derive(Drop)]
pub struct Comments<'a, I> {
    reader: I,
    dropped: &'a RefCell<Dropped>,
    /// Where in a line it is. None where it passes over nothing.
    part: Option<LinePart>,
}

impl<'a, I> Comments<'a, I> {
    /// Such a reader, or where `is_on` is false one that passes over nothing.
    pub fn new(reader: I, dropped: &'a RefCell<Dropped>, is_on: bool) -> Comments<'a, I> {
        Comments {
            reader,
            dropped,
            part: if is_on { Some(LinePart::Start) } else { None },
        }
    }

    // Notes the end of a line: whether that was handed on.
    fn end_line(&mut self, is_handed_on: bool) -> io::Result<()> {
        let Ok(mut dropped) = self.dropped.try_borrow_mut() else {
            return Err(io::Error::from(ErrorKind::Other));
        };
        if is_handed_on {
            dropped.handed_on = dropped.handed_on.saturating_add(1);
        } else {
            dropped.add()?;
        }
        Ok(())
    }

    // Whether a byte is handed on.
    fn takes(&mut self, part: LinePart, byte: u8) -> io::Result<bool> {
        let (part, is_taken) = match (part, byte) {
            (LinePart::Start, b' ' | b'\t' | b'\r') => (LinePart::Start, false),
            (LinePart::Start | LinePart::Comment, b'\n') => {
                self.end_line(false)?;
                (LinePart::Start, false)
            }
            (LinePart::Start, b'#') | (LinePart::Comment, _) => (LinePart::Comment, false),
            (LinePart::Text, b'\n') => {
                self.end_line(true)?;
                (LinePart::Start, true)
            }
            (LinePart::Start | LinePart::Text, _) => (LinePart::Text, true),
        };
        self.part = Some(part);
        Ok(is_taken)
    }

    // Moves what is handed on of these bytes to their beginning: how many that are.
    fn sift(&mut self, bytes: &mut [u8]) -> io::Result<usize> {
        let mut len = 0_usize;
        'bytes: for k in 0..bytes.len() {
            let byte = bytes[k];
            let is_taken = match self.part {
                Some(part) => self.takes(part, byte)?,
                None => true,
            };
            if is_taken {
                if let Some(place) = bytes.get_mut(len) {
                    *place = byte;
                    len = len.saturating_add(1);
                }
            }
        }
        Ok(len)
    }
}

impl<I: Read> Read for Comments<'_, I> {
    fn read(&mut self, buf: &mut [u8]) -> io::Result<usize> {
        'blocks: for _ in 0..u64::MAX {
            let len = self.reader.read(buf)?;
            if self.part.is_none() || len == 0 {
                return Ok(len);
            }
            let taken = self.sift(&mut buf[..len])?;
            if taken > 0 {
                return Ok(taken.min(buf.len()));
            }
        }
        Ok(0)
    }
}
