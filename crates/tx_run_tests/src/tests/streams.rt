//! How a run ends: with a fault of one session, and on readers and writers that fail, at each read
//! in turn, at each write, and after each byte.
ghost use Rattle.std.specs.Prelude.{Some};

use std::alloc::Global;
use std::io;
use std::io::{BufRead, BufReader, ErrorKind, Read, Write};
use std::sync::Wait;
use std::test::Fail;
use std::thread::Threads;
use tx_nested::NestedCells;
use tx_run::{Plain, Settings, run_script};
use tx_sched::Open;
use tx_text::{Broken, End};

static SCRIPT: &str = r#"["begin","A"]
["put","A","a","5"]
["put","A","b","6"]
["declare","A","async",10]
["prewrite","A"]
["prewrite","A"]
["commit","A"]
["commit","A"]
["finish","A"]
"#;

static REPLIES: &str = r#"[1,"start",1]
[2,"ok"]
[3,"ok"]
[4,"ok"]
[5,"prewritten",3]
[6,"prewritten",3]
[7,"committed",3]
[8,"committed",3]
[9,"outcome","committed",3]
["outcomes",1,0,0,0]
["total",11]
"#;

// The lines that have an answer of their own are written one by one, and then both sums at once.
const ANSWERS: usize = 9;

// Runs a script by one worker: how it ended.
fn run<T, R, W>(rt: &T, alloc: Global, reader: &mut R, writer: &mut W) -> Result<End, Broken>
where
    T: Threads + Wait + Sync + Send + Clone + Drop,
    R: BufRead,
    W: Write,
{
    let (end, played) = run_script::<NestedCells, _, _, _, _, _>(
        rt,
        alloc,
        Settings::new(1),
        &Plain,
        &Open,
        reader,
        writer,
    )?;
    drop(played);
    Ok(end)
}

static ENDS: [(&str, End); 5] = [
    ("[\"begin\",\"A\"]\n", End::Well),
    ("[\"get\",\"A\",\"a\"]\n[\"begin\",\"B\"]\n", End::Faulted),
    ("[\"begin\",\"B\"]\n[\"get\",\"A\",\"a\"]\n", End::Faulted),
    ("[\"begin\",\"A\"]\n[\"commit\",\"A\"]\n", End::Faulted),
    ("[\"begin\",\"A\"]\n[", End::Faulted),
];

// A fault that ends one session shows in the end, whichever session it is.
#[test]
fn a_fault_shows_in_the_end(rt: HostRuntime) -> Result<(), Fail> {
    for (script, end) in ENDS {
        let mut reader = script.as_bytes();
        let mut writer = Vec::new(rt.alloc());
        let ended = run(&rt, rt.alloc(), &mut reader, &mut writer);
        drop(writer);
        assert_eq!(rt; ended, Ok(end), "{script}");
    }
    Ok(())
}

// How many lines a text has, where each is whole and they are the first of the replies.
fn first_lines_in(written: &[u8]) -> Option<usize> {
    let is_whole = written.is_empty() || written.ends_with(b"\n");
    if is_whole && REPLIES.as_bytes().starts_with(written) {
        Some(written.iter().filter(|byte| **byte == b'\n').count())
    } else {
        None
    }
}

// A reader that fails once it has made some reads.
#[derive(Drop)]
struct Torn<'a> {
    bytes: &'a [u8],
    good: usize,
}

impl Read for Torn<'_> {
    ghost remaining = { λ r. Some r.bytes.now };

    fn read(&mut self, buf: &mut [u8]) -> io::Result<usize> {
        if self.good == 0 {
            return Err(io::Error::from(ErrorKind::WouldBlock));
        }
        self.good -= 1;
        self.bytes.read(buf)
    }
}

// How the script ends on a reader that fails after so many reads, of a byte each, and how many
// bytes it writes.
fn ended_at_read<T>(rt: &T, alloc: Global, good: usize) -> io::Result<(Result<End, Broken>, usize)>
where
    T: Threads + Wait + Sync + Send + Clone + Drop,
{
    let torn = Torn {
        bytes: SCRIPT.as_bytes(),
        good,
    };
    let mut reader = BufReader::with_capacity(alloc, 1, torn)?;
    let mut writer = Vec::new(alloc);
    let ended = run(rt, alloc, &mut reader, &mut writer);
    Ok((ended, writer.len()))
}

// A script is read whole before anything of it is done.
#[test]
fn each_read_fails(rt: HostRuntime) -> Result<(), Fail> {
    for good in 0..=SCRIPT.len() {
        let ended = ended_at_read(&rt, rt.alloc(), good)?;
        assert_eq!(rt; ended, (Err(Broken::Input), 0), "after {good} reads");
    }
    Ok(())
}

// A writer that takes up to so many bytes at once, and fails once it has made some writes.
#[derive(Drop)]
struct Tired {
    held: Vec<u8>,
    most: usize,
    good: usize,
}

impl Write for Tired {
    ghost contents = { λ w. Some w.held.items };

    fn write(&mut self, buf: &[u8]) -> io::Result<usize> {
        if self.good == 0 {
            return Err(io::Error::from(ErrorKind::WouldBlock));
        }
        let taken = buf.len().min(self.most);
        self.held.extend_from_slice(&buf[..taken])?;
        self.good -= 1;
        Ok(taken)
    }

    fn flush(&mut self) -> io::Result<()> {
        Ok(())
    }
}

// How the script ends on a writer that takes so much at once and fails after so many writes: how
// many lines it has then, where they are whole, and how many bytes, where they begin the replies.
fn ended_at_write<T>(
    rt: &T,
    alloc: Global,
    most: usize,
    good: usize,
) -> (Result<End, Broken>, Option<usize>, Option<usize>)
where
    T: Threads + Wait + Sync + Send + Clone + Drop,
{
    let mut reader = SCRIPT.as_bytes();
    let mut writer = Tired {
        held: Vec::new(alloc),
        most,
        good,
    };
    let ended = run(rt, alloc, &mut reader, &mut writer);
    let written = writer.held.as_slice();
    let is_beginning = REPLIES.as_bytes().starts_with(written);
    let bytes = if is_beginning {
        Some(written.len())
    } else {
        None
    };
    (ended, first_lines_in(written), bytes)
}

#[test]
fn each_write_fails(rt: HostRuntime) -> Result<(), Fail> {
    for good in 0..=ANSWERS {
        let (ended, lines, _) = ended_at_write(&rt, rt.alloc(), usize::MAX, good);
        assert_eq!(rt; (ended, lines), (Err(Broken::Output), Some(good)));
    }
    let (ended, lines, _) = ended_at_write(&rt, rt.alloc(), usize::MAX, ANSWERS + 1);
    assert_eq!(rt; (ended, lines), (Ok(End::Well), Some(ANSWERS + 2)));
    Ok(())
}

#[test]
fn each_byte_is_written_alone(rt: HostRuntime) -> Result<(), Fail> {
    for good in 0..REPLIES.len() {
        let (ended, _, bytes) = ended_at_write(&rt, rt.alloc(), 1, good);
        assert_eq!(rt; (ended, bytes), (Err(Broken::Output), Some(good)));
    }
    let (ended, _, bytes) = ended_at_write(&rt, rt.alloc(), 1, usize::MAX);
    assert_eq!(rt; (ended, bytes), (Ok(End::Well), Some(REPLIES.len())));
    Ok(())
}
