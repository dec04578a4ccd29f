//! A script that goes on after a fault, line by line as it comes from a file or another program.
ghost use Rattle.std.specs.Prelude.{◌≡◌, ◌+◌, All, vec_len, length};
ghost use Rattle.tx_types.specs.declared.limits.TheConstants as limits;
ghost use Rattle.tx_cells.specs.Contents.{nothing_held};
ghost use Rattle.tx_script.specs.Players.{IsPlayer};

use crate::notes::tell_why;
use memchr::memchr;
use std::io::{BufRead, ErrorKind, Write};
use std::marker::Brand;
use tx_cells::Fresh;
use tx_journal::{JournalId, Opened};
use tx_line_store::{Lines, journal};
use tx_script::{Broken, End};
use tx_text::{finish, send};
use tx_types::limits::MAX_LINE_BYTES;

// The bytes before the first newline, and whether there is one.
fn line_end(bytes: &[u8]) -> (usize, bool) {
    match memchr(b'\n', bytes) {
        Some(at) => (at, true),
        None => (bytes.len(), false),
    }
}

// Keeps of a line's bytes as many as show that it is too long.
fn keep(line: &mut Vec<u8>, bytes: &[u8]) -> Result<(), Broken> {
    let room = (MAX_LINE_BYTES + 1).saturating_sub(line.len());
    line.extend_from_slice(bytes.get(..room).unwrap_or(bytes))?;
    Ok(())
}

// Reads a line to its end, of which no more is kept than shows that it is too long: whether there
// is one.
fn read_whole<I: BufRead>(reader: &mut I, line: &mut Vec<u8>) -> Result<bool, Broken> {
    line.clear();
    let mut is_begun = false;
    'parts: for _ in 0..u64::MAX {
        let available = match reader.fill_buf() {
            Ok(available) => available,
            Err(e) if e.kind() == ErrorKind::Interrupted => continue,
            Err(_) => return Err(Broken::Input),
        };
        if available.is_empty() {
            return Ok(is_begun);
        }
        let (len, is_ended) = line_end(available);
        keep(line, available.get(..len).unwrap_or_default())?;
        if is_ended {
            reader.consume(len.saturating_add(1));
            return Ok(true);
        }
        reader.consume(len);
        is_begun = true;
    }
    Err(Broken::Input)
}

// What is read, and what is written.
#[derive(Drop)]
struct Onward<'a, I, O> {
    host: HostRuntime,
    reader: &'a mut I,
    writer: &'a mut O,
    // The line that was read last.
    line: Vec<u8>,
    // How many first lines were faults.
    before: u64,
    // What is told of it.
    text: Vec<u8>,
    // Whether some line was a fault.
    is_faulted: bool,
}

impl<'a, I: BufRead, O: Write> Onward<'a, I, O> {
    // Nothing was read yet.
    fn new(host: HostRuntime, reader: &'a mut I, writer: &'a mut O) -> Onward<'a, I, O> {
        Onward {
            host,
            reader,
            writer,
            line: Vec::new(host.alloc()),
            before: 0,
            text: Vec::new(host.alloc()),
            is_faulted: false,
        }
    }

    // Reads the next line: whether there is one.
    fn next_line(&mut self) -> Result<bool, Broken> {
        read_whole(self.reader, &mut self.line)
    }

    // Writes what was said of the line that was read last: whether it was no fault. Of a fault it
    // tells why, and how far its session is where that is why.
    fn tell<J: JournalId, F: Fresh>(&mut self, lines: &Lines<J, F>) -> Result<bool, Broken>
        requires { IsPlayer J.bounds lines.now.player }
    {
        self.text.clear();
        lines.put_said(&mut self.text)?;
        send(self.writer, self.text.as_slice())?;
        let Some(cause) = lines.fault() else {
            return Ok(true);
        };
        self.is_faulted = true;
        let line = self.line.as_slice();
        let stage = lines.stage_at(self.host.alloc(), line).unwrap_or(None);
        tell_why(self.host, lines.number(), cause, line, stage);
        Ok(false)
    }

    // Plays the line that was read last over a journal that was opened, and, unless it is a fault,
    // all that follow: whether it was none.
    fn play<J: JournalId, F: Fresh>(
        &mut self,
        opened: Opened,
        families: Vec<F>,
    ) -> Result<bool, Broken>
        requires named { (opened.table ≡ J.table) × (opened.bounds ≡ J.bounds) × (opened.seats ≡ J.seats) }
        requires few { vec_len families ≡ length opened.bounds + 1 }
        requires seats { opened.seats ≡ length opened.bounds + 2 + limits.MAX_LIVE_SESSIONS }
        requires empty { All (λ f. F.content f ≡ (λ k. nothing_held)) families.items }
    {
        let alloc = self.host.alloc();
        let first = self.line.as_slice();
        let mut lines = Lines::<J, F>::open(alloc, opened, families, self.before, first)?;
        if !self.tell(&lines)? {
            self.before = lines.number();
            return Ok(false);
        }
        'lines: for _ in 0..u64::MAX {
            if !self.next_line()? {
                break;
            }
            lines.play(alloc, self.line.as_slice())?;
            self.tell(&lines)?;
        }
        Ok(true)
    }

    // The same over the regions that the line says, or one where it says none.
    fn begin<F: Fresh>(&mut self) -> Result<bool, Broken> {
        let (opened, families) = journal::<F>(self.host.alloc(), self.line.as_slice())?;
        self.play::<Brand, F>(opened, families)
    }

    // Reads lines until one of them is a first step that is no fault, and plays all from it on:
    // whether some line was a fault.
    fn go_on<F: Fresh>(&mut self) -> Result<bool, Broken> {
        'firsts: for _ in 0..u64::MAX {
            if !self.next_line()? || self.begin::<F>()? {
                break;
            }
        }
        finish(self.writer)?;
        Ok(self.is_faulted)
    }
}

/// Plays a script to the end of its input, over families of this kind: each line is replied to as
/// `simulate` does, with its number. One that is a fault is told in its place, on standard error
/// why, and the next one is read; it leaves all as it was. The first line that is no fault may say
/// the regions. There is no limit of lines but that of the player, which tries 4,294,967,295: each
/// further one is a fault. A line that is too long is read to its end.
///
/// `Faulted` where some line was a fault. `Input` where a read failed, `Output` where a write or
/// the flush failed, `Memory` where a growth was refused outside of a step's own calls.
pub fn go_on<F: Fresh, I: BufRead, O: Write>(
    host: HostRuntime,
    reader: &mut I,
    writer: &mut O,
) -> Result<End, Broken> {
    if Onward::new(host, reader, writer).go_on::<F>()? {
        Ok(End::Faulted)
    } else {
        Ok(End::Well)
    }
}
