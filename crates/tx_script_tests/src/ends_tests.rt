//! Scripts and a trace on readers and writers that fail: at each read in turn, at each write, and
//! after each byte.
ghost use Rattle.std.specs.Prelude.{Some};

use crate::streams::{Drip, torn_reader};
use std::alloc::Global;
use std::io;
use std::io::{BufRead, ErrorKind, Write};
use std::test::Fail;
use tx_check::check;
use tx_flat::FlatCells;
use tx_script::{Broken, End, Plain, simulate, simulate_checked};

static SCRIPT: &str = r#"["begin","A"]
["put","A","a","x"]
["put","A","b","y"]
["declare","A","async",10]
["prewrite","A"]
["prewrite","A"]
["commit","A"]
["commit","A"]
["finish","A"]
["begin","B"]
["get","B","a"]
["scan","B","a","z",10]
["scan","B","a","z",1]
"#;

static REPLIES: &str = r#"[1,"start",1]
[2,"ok"]
[3,"ok"]
[4,"ok"]
[5,"prewritten",3]
[6,"prewritten",3]
[7,"committed",3]
[8,"committed",3]
[9,"outcome","committed",3]
[10,"start",3]
[11,"value","x"]
[12,"rows",[["a","x"],["b","y"]]]
[13,"rows",[["a","x"]]]
"#;

static CHECKED: &str = r#"[1,"start",1]
[2,"ok"]
[3,"ok"]
[4,"ok"]
[5,"prewritten",3]
[6,"prewritten",3]
[7,"committed",3]
[8,"committed",3]
[9,"outcome","committed",3]
[10,"start",3]
[11,"value","x"]
[12,"rows",[["a","x"],["b","y"]]]
[13,"rows",[["a","x"]]]
["draw",1]
["begin",1]
["draw",2]
["declare",1,[["a","put","x"],["b","put","y"]]]
["commit",1,3]
["answer",1,"committed",3]
["draw",3]
["begin",3]
["read",3,"a","x"]
["scan",3,"a","z",10,[["a","x"],["b","y"]]]
["scan",3,"a","z",1,[["a","x"]]]
["check","yes"]
"#;

static TRACE: &str = r#"["draw",1]
["begin",1]
["declare",1,[["a","put","x"],["b","put","y"]]]
["commit",1,2]
["draw",2]
["scan",2,"a","z",10,[["a","x"],["b","y"]]]
"#;

static VERDICT: &str = "[\"check\",\"yes\"]\n";

/// What reads a text and writes another.
#[derive(Clone, Copy, Debug)]
enum Command {
    Simulate,
    SimulateChecked,
    Check,
}

const COMMANDS: [Command; 3] = [Command::Simulate, Command::SimulateChecked, Command::Check];

impl Command {
    fn run<R: BufRead, W: Write>(
        self,
        alloc: Global,
        reader: &mut R,
        writer: &mut W,
    ) -> Result<End, Broken> {
        match self {
            Command::Simulate => {
                simulate::<FlatCells, _, _, _>(alloc, &Plain, reader, writer, &mut None)
            }
            Command::SimulateChecked => {
                simulate_checked::<FlatCells, _, _, _>(alloc, &Plain, reader, writer, &mut None)
            }
            Command::Check => check(alloc, reader, writer),
        }
    }

    fn input(self) -> &'static str {
        match self {
            Command::Simulate | Command::SimulateChecked => SCRIPT,
            Command::Check => TRACE,
        }
    }

    fn output(self) -> &'static str {
        match self {
            Command::Simulate => REPLIES,
            Command::SimulateChecked => CHECKED,
            Command::Check => VERDICT,
        }
    }

    // How many lines are written once so many were read, and no more can be.
    fn answers(self, lines: usize) -> usize {
        match self {
            Command::Simulate | Command::SimulateChecked => lines,
            Command::Check => 0,
        }
    }
}

// How many lines a text has.
fn lines_in(text: &[u8]) -> usize {
    text.iter().filter(|byte| **byte == b'\n').count()
}

// Whether this is the first lines of a text, so many and whole.
fn are_first_lines(written: &[u8], text: &str, count: usize) -> bool {
    text.as_bytes().starts_with(written)
        && lines_in(written) == count
        && (written.is_empty() || written.ends_with(b"\n"))
}

// Whether a reader that fails after so many reads, of a byte each, ends the command with just what
// it answers to the lines before.
fn ends_at_read(alloc: Global, command: Command, good: usize, lines: usize) -> io::Result<bool> {
    let mut reader = torn_reader(alloc, command.input(), good)?;
    let mut writer = Vec::new(alloc);
    let ended = command.run(alloc, &mut reader, &mut writer);
    let answered = command.answers(lines);
    Ok(
        ended == Err(Broken::Input)
            && are_first_lines(writer.as_slice(), command.output(), answered),
    )
}

#[test]
fn each_read_fails(rt: HostRuntime) -> Result<(), Fail> {
    for command in COMMANDS {
        let input = command.input().as_bytes();
        for good in 0..=input.len() {
            let lines = lines_in(&input[..good]);
            let ended = ends_at_read(rt.alloc(), command, good, lines)?;
            assert!(rt; ended, "{command:?}, after {good} reads");
        }
    }
    Ok(())
}

// A writer that takes what it is given, and fails once it has made some writes.
#[derive(Drop)]
struct Tired {
    held: Vec<u8>,
    good: usize,
}

impl Write for Tired {
    ghost contents = { λ w. Some w.held.items };

    fn write(&mut self, buf: &[u8]) -> io::Result<usize> {
        if self.good == 0 {
            return Err(io::Error::from(ErrorKind::WouldBlock));
        }
        self.held.extend_from_slice(buf)?;
        self.good -= 1;
        Ok(buf.len())
    }

    fn flush(&mut self) -> io::Result<()> {
        Ok(())
    }
}

// Whether a writer that fails after so many writes has a line of each of them, and no more.
fn ends_at_write(alloc: Global, command: Command, good: usize) -> bool {
    let mut reader = command.input().as_bytes();
    let mut writer = Tired {
        held: Vec::new(alloc),
        good,
    };
    let ended = command.run(alloc, &mut reader, &mut writer);
    ended == Err(Broken::Output) && are_first_lines(writer.held.as_slice(), command.output(), good)
}

#[test]
fn each_write_fails(rt: HostRuntime) -> Result<(), Fail> {
    for command in COMMANDS {
        for good in 0..lines_in(command.output().as_bytes()) {
            let ended = ends_at_write(rt.alloc(), command, good);
            assert!(rt; ended, "{command:?}, after {good} writes");
        }
    }
    Ok(())
}

// How a command ends on a writer that takes a byte a write and has so much room, and how many bytes
// it has then of the whole.
fn written_in(alloc: Global, command: Command, room: usize) -> (bool, Option<usize>) {
    let mut reader = command.input().as_bytes();
    let mut writer = Drip {
        held: Vec::new(alloc),
        room,
    };
    let ended = command.run(alloc, &mut reader, &mut writer);
    let is_beginning = command
        .output()
        .as_bytes()
        .starts_with(writer.held.as_slice());
    let count = if is_beginning {
        Some(writer.held.len())
    } else {
        None
    };
    (ended == Err(Broken::Output), count)
}

#[test]
fn each_byte_is_written_alone(rt: HostRuntime) -> Result<(), Fail> {
    for command in COMMANDS {
        let whole = command.output().len();
        for room in 0..=whole {
            let written = written_in(rt.alloc(), command, room);
            assert_eq!(rt; written, (true, Some(room)), "{command:?}");
        }
        let written = written_in(rt.alloc(), command, usize::MAX);
        assert_eq!(rt; written, (false, Some(whole)), "{command:?}");
    }
    Ok(())
}
