//! How far a command has come, told at a terminal.
use memchr::memchr_iter;
use std::io;
use std::io::{Read, Write};
use std::sync::atomic::{AtomicBool, AtomicU64, Ordering};
use std::time::Instant;

// After how many steps the clock is looked at.
const STRIDE: u64 = 256;

/// How far a command has come, which is told on standard error at most once a second. Threads share
/// it.
#[derive(Drop)]
pub struct ProgressLine {
    rt: HostRuntime,
    /// When it began; None where nothing is told.
    began: Option<Instant>,
    lines: AtomicU64,
    steps: AtomicU64,
    /// The second in which it was told last.
    told: AtomicU64,
    /// Whether it stands at the terminal.
    is_shown: AtomicBool,
}

impl ProgressLine {
    /// Nothing has come yet. It is told from now on, or not at all.
    pub fn new(rt: HostRuntime, is_told: bool) -> ProgressLine {
        let began = if is_told {
            Instant::now(&rt).ok()
        } else {
            None
        };
        ProgressLine {
            rt,
            began,
            lines: AtomicU64::new(0),
            steps: AtomicU64::new(0),
            told: AtomicU64::new(0),
            is_shown: AtomicBool::new(false),
        }
    }

    /// Whether it is told at all.
    pub fn is_told(&self) -> bool {
        self.began.is_some()
    }

    /// So many more lines were read.
    pub fn add_lines(&self, lines: u64) {
        self.lines.fetch_add(lines, Ordering::SeqCst);
        self.report();
    }

    /// One more step was made.
    pub fn add_step(&self) {
        if self.began.is_some() {
            let before = self.steps.fetch_add(1, Ordering::SeqCst);
            if before.is_multiple_of(STRIDE) {
                self.report();
            }
        }
    }

    // Tells how far it has come, in a second in which nobody has told it.
    fn report(&self) {
        let Some(began) = self.began else {
            return;
        };
        let Ok(elapsed) = began.elapsed(&self.rt) else {
            return;
        };
        let second = elapsed.as_secs();
        let last = self.told.load(Ordering::SeqCst);
        if second > last && self.take_turn(last, second) {
            self.is_shown.store(true, Ordering::SeqCst);
            // What cannot be told is left out.
            let _ = self.print();
        }
    }

    // Whether this thread is the one that tells it in this second.
    fn take_turn(&self, last: u64, second: u64) -> bool {
        self.told
            .compare_exchange(last, second, Ordering::SeqCst, Ordering::SeqCst)
            .is_ok()
    }

    fn print(&self) -> io::Result<()> {
        let lines = self.lines.load(Ordering::SeqCst);
        let steps = self.steps.load(Ordering::SeqCst);
        let line_end = if lines == 1 { "" } else { "s" };
        let step_end = if steps == 1 { "" } else { "s" };
        if steps == 0 {
            eprint!(self.rt; "\rtxkv: {lines} line{line_end} read")
        } else {
            eprint!(self.rt; "\rtxkv: {lines} line{line_end} read, {steps} step{step_end} made")
        }
    }

    /// Takes away what stands at the terminal, before something else is written there.
    pub fn erase(&self) {
        if self.began.is_some() && self.is_shown.swap(false, Ordering::SeqCst) {
            let _ = eprint!(self.rt; "\r\x1b[K");
        }
    }
}

// How many lines end in these bytes.
fn count_lines(bytes: &[u8]) -> u64 {
    let mut count = 0_u64;
    'newlines: for _ in memchr_iter(b'\n', bytes) {
        count = count.wrapping_add(1);
    }
    count
}

/// A reader whose lines are counted as they are read.
#[derive(Drop)]
pub struct Counted<'a, I> {
    reader: I,
    progress: &'a ProgressLine,
}

impl<'a, I> Counted<'a, I> {
    pub fn new(reader: I, progress: &'a ProgressLine) -> Counted<'a, I> {
        Counted { reader, progress }
    }
}

impl<I: Read> Read for Counted<'_, I> {
    fn read(&mut self, buf: &mut [u8]) -> io::Result<usize> {
        let len = self.reader.read(buf)?;
        if self.progress.is_told() {
            self.progress.add_lines(count_lines(&buf[..len]));
        }
        Ok(len)
    }
}

/// A writer that takes away what is shown of the progress before it writes.
#[derive(Drop)]
pub struct Erasing<'a, O> {
    writer: O,
    progress: &'a ProgressLine,
}

impl<'a, O> Erasing<'a, O> {
    pub fn new(writer: O, progress: &'a ProgressLine) -> Erasing<'a, O> {
        Erasing { writer, progress }
    }
}

impl<O: Write> Write for Erasing<'_, O> {
    fn write(&mut self, buf: &[u8]) -> io::Result<usize> {
        self.progress.erase();
        self.writer.write(buf)
    }

    fn flush(&mut self) -> io::Result<()> {
        self.writer.flush()
    }
}
