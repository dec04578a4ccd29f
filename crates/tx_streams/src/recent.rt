//! The lines that were read last, kept so that one of them can be shown.
ghost use Rattle.std.specs.Prelude.{◌≡◌};

use memchr::{memchr, memrchr};
use std::alloc::{AllocError, Global};
use std::io::{BufRead, Read};
use std::{io, mem};

/// How many bytes are asked for at a time.
const BLOCK: usize = 8192;

/// A buffered reader that keeps what it read last, and the line that it is in: a reader of lines
/// over it, which takes one line at a time, finds that line here. It is read in place: of a block
/// only the beginning of a line that ends in the next one is copied.
#[derive(Drop)]
pub struct Recent<R> {
    reader: R,
    /// How many bytes are asked for at a time.
    block: usize,
    /// What is held, and then room for more.
    room: Vec<u8>,
    held: usize,
    /// Where the next block is read. Each room grows to the most that was held in it.
    next: Vec<u8>,
    /// Up to where it was taken.
    taken: usize,
    /// How many lines were taken.
    lines: u64,
    /// How many lines ended before what is held. None once it could not be held for want of memory.
    before: Option<u64>,
}

// The bytes up to the first newline.
fn first_line(bytes: &[u8]) -> &[u8] {
    match memchr(b'\n', bytes) {
        Some(at) => &bytes[..at],
        None => bytes,
    }
}

// So many bytes of room.
fn room_of(alloc: Global, len: usize) -> Result<Vec<u8>, AllocError> {
    let mut room = Vec::with_capacity(alloc, len)?;
    room.resize(len, 0)?;
    Ok(room)
}

// Whether there is room for so many bytes, which is made where it can be.
fn has_room(room: &mut Vec<u8>, len: usize) -> bool {
    len <= room.len() || room.resize(len, 0).is_ok()
}

// Where a block has room behind a line of this length. Where there is none, lines are no longer
// held.
fn place(room: &mut Vec<u8>, before: &mut Option<u64>, len: usize, block: usize) -> usize {
    match len.checked_add(block) {
        Some(end) if before.is_some() && has_room(room, end) => len,
        _ => {
            *before = None;
            0
        }
    }
}

// Reads a block from there on.
fn read_at<R: Read>(
    reader: &mut R,
    block: usize,
    room: &mut Vec<u8>,
    at: usize,
) -> io::Result<usize> {
    match room.as_mut_slice().get_mut(at..) {
        Some(rest) => {
            let len = rest.len().min(block);
            reader.read(&mut rest[..len])
        }
        None => Ok(0),
    }
}

impl<R> Recent<R> {
    pub fn new(alloc: Global, reader: R) -> Result<Recent<R>, AllocError>
    where
        R: Drop,
    {
        Recent::with_block(alloc, BLOCK, reader)
    }

    /// Such a reader that asks for so many bytes at a time.
    pub fn with_block(alloc: Global, block: usize, reader: R) -> Result<Recent<R>, AllocError>
    where
        R: Drop,
    {
        Ok(Recent {
            reader,
            block,
            room: room_of(alloc, block)?,
            held: 0,
            next: room_of(alloc, block)?,
            taken: 0,
            lines: 0,
            before: Some(0),
        })
    }

    /// The reader below.
    pub fn inner(&self) -> &R
        ensures { result.now ≡ self.now.reader }
    {
        &self.reader
    }

    // What is held.
    fn held(&self) -> &[u8] {
        self.room.get(..self.held).unwrap_or_default()
    }

    // What was read and is not yet taken.
    #[inline(always)]
    fn at_hand(&self) -> &[u8] {
        self.room.get(self.taken..self.held).unwrap_or_default()
    }

    /// The line of this number, without its newline, where it is held.
    pub fn line(&self, number: u64) -> Option<&[u8]> {
        let mut left = number.checked_sub(self.before?)?.checked_sub(1)?;
        let mut rest = self.held();
        'lines: for _ in 0..u64::MAX {
            if left == 0 {
                return Some(first_line(rest));
            }
            let at = memchr(b'\n', rest)?;
            rest = rest.get(at..)?.split_first()?.1;
            left -= 1;
        }
        None
    }
}

impl<R: Read> Recent<R> {
    // Reads a block behind the line that is held alone.
    fn read_behind(&mut self) -> io::Result<()> {
        let at = place(&mut self.room, &mut self.before, self.held, self.block);
        let read = read_at(&mut self.reader, self.block, &mut self.room, at)?;
        if read > 0 {
            self.taken = at;
            self.held = at.saturating_add(read);
        }
        Ok(())
    }

    // Reads a block behind the line that begins at `from`, and lets the lines go that ended before,
    // all of which were taken. At the end of input they stay.
    fn read_anew(&mut self, from: usize) -> io::Result<()> {
        let mut begun = self.room.get(from..self.held).unwrap_or_default();
        let at = place(&mut self.next, &mut self.before, begun.len(), self.block);
        begun.read(self.next.as_mut_slice())?;
        let read = read_at(&mut self.reader, self.block, &mut self.next, at)?;
        if read > 0 {
            mem::swap(&mut self.room, &mut self.next);
            self.before = self.before.map(|_| self.lines);
            self.taken = at;
            self.held = at.saturating_add(read);
        }
        Ok(())
    }

    // Reads more, once all was taken.
    #[inline(never)]
    fn read_on(&mut self) -> io::Result<()> {
        match memrchr(b'\n', self.held()) {
            None => self.read_behind(),
            Some(at) => self.read_anew(at.saturating_add(1)),
        }
    }
}

impl<R: Read> BufRead for Recent<R> {
    #[inline(always)]
    fn fill_buf(&mut self) -> io::Result<&[u8]> {
        if self.taken >= self.held {
            self.read_on()?;
        }
        Ok(self.at_hand())
    }

    #[inline(always)]
    fn consume(&mut self, amount: usize) {
        let taken = self.taken.saturating_add(amount).min(self.held);
        if matches!(self.room.get(self.taken..taken), Some([.., b'\n'])) {
            self.lines = self.lines.wrapping_add(1);
        }
        self.taken = taken;
    }
}

impl<R: Read> Read for Recent<R> {
    fn read(&mut self, buf: &mut [u8]) -> io::Result<usize> {
        let mut at_hand = self.fill_buf()?;
        let len = at_hand.read(buf)?;
        self.consume(len);
        Ok(len)
    }
}
