//! What was read, kept for who looks at it once more.
use memchr::memchr;
use std::cell::RefCell;
use std::io;
use std::io::Read;

/// A reader that keeps a copy of what it reads first, up to so many bytes.
#[derive(Drop)]
pub struct Copied<'a, I> {
    reader: I,
    copy: &'a RefCell<Vec<u8>>,
    /// How many bytes more are kept.
    left: usize,
}

impl<'a, I> Copied<'a, I> {
    /// At most `most` bytes are kept, behind what the copy has.
    pub fn new(reader: I, copy: &'a RefCell<Vec<u8>>, most: usize) -> Copied<'a, I> {
        Copied {
            reader,
            copy,
            left: most,
        }
    }

    // Keeps what was read. Where there is no memory for it, no more is kept.
    fn keep(&mut self, bytes: &[u8]) {
        let bytes = bytes.get(..self.left).unwrap_or(bytes);
        let is_kept = match self.copy.try_borrow_mut() {
            Ok(mut copy) => copy.extend_from_slice(bytes).is_ok(),
            Err(_) => false,
        };
        self.left = if is_kept {
            self.left.saturating_sub(bytes.len())
        } else {
            0
        };
    }
}

impl<I: Read> Read for Copied<'_, I> {
    fn read(&mut self, buf: &mut [u8]) -> io::Result<usize> {
        let len = self.reader.read(buf)?;
        if self.left > 0 {
            self.keep(&buf[..len]);
        }
        Ok(len)
    }
}

/// The first lines of a text, so many, with their newlines.
pub fn first_lines(text: &[u8], count: u64) -> &[u8] {
    let mut end = 0_usize;
    'lines: for _ in 0..count {
        let rest = text.get(end..).unwrap_or_default();
        match memchr(b'\n', rest) {
            Some(at) => end = end.saturating_add(at).saturating_add(1),
            None => return text,
        }
    }
    text.get(..end).unwrap_or(text)
}
