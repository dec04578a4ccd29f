//! Streams that answer as they are asked, and the lines and faults that are kept of them.
use std::alloc::Global;
use std::cell::{Cell, RefCell};
use std::fmt::Display;
use std::io;
use std::io::{ErrorKind, Read, Write};
use std::test::Fail;
use tx_streams::{
    Asking, Counted, Erasing, NotedFaults, Noting, ProgressLine, Recent, Shared, Steps, fault_in,
};
use tx_text::{Found, read_line};
use tx_types::Cause;

// A writer that holds back what it is given until it is flushed.
#[derive(Drop)]
struct Held {
    text: Vec<u8>,
    handed_on: usize,
    is_closed: bool,
}

impl Write for Held {
    fn write(&mut self, buf: &[u8]) -> io::Result<usize> {
        self.text.extend_from_slice(buf)?;
        Ok(buf.len())
    }

    fn flush(&mut self) -> io::Result<()> {
        if self.is_closed {
            return Err(io::Error::from(ErrorKind::BrokenPipe));
        }
        self.handed_on = self.text.len();
        Ok(())
    }
}

// A terminal that counts its prompts.
#[derive(Drop)]
struct Terminal {
    prompts: Cell<usize>,
}

impl Eprint for Terminal {
    fn eprint<D: Display + Drop>(&self, value: D) -> io::Result<()> {
        drop(value);
        self.prompts.set(self.prompts.get().wrapping_add(1));
        Ok(())
    }

    fn eprintln<D: Display + Drop>(&self, value: D) -> io::Result<()> {
        drop(value);
        Err(io::Error::from(ErrorKind::Other))
    }
}

// A reader that gives a few bytes at a time.
#[derive(Drop)]
struct Crumbs<'a> {
    bytes: &'a [u8],
    most: usize,
}

impl Read for Crumbs<'_> {
    fn read(&mut self, buf: &mut [u8]) -> io::Result<usize> {
        let len = self.most.min(buf.len());
        let mut reader = self.bytes;
        let read = reader.read(&mut buf[..len])?;
        self.bytes = reader;
        Ok(read)
    }
}

// What was handed on, where nobody else has the writer.
fn handed_on(written: &RefCell<Held>) -> usize {
    match written.try_borrow() {
        Ok(held) => held.handed_on,
        Err(_) => 0,
    }
}

#[test]
fn what_was_written_is_handed_on_before_a_read(rt: HostRuntime) -> Result<(), Fail> {
    let written = RefCell::new(Held {
        text: Vec::new(rt.alloc()),
        handed_on: 0,
        is_closed: false,
    });
    let terminal = Terminal {
        prompts: Cell::new(0),
    };
    let crumbs = Crumbs {
        bytes: b"abcdefg",
        most: 3,
    };
    let mut asking = Asking::new(crumbs, Shared::new(&written), Some(&terminal));
    let mut writer = Shared::new(&written);
    let mut buf = [0u8; 8];
    for (round, read) in [(1, 3), (2, 3), (3, 1), (4, 0)] {
        writer.write_all(b"reply")?;
        let before = handed_on(&written);
        let len = asking.read(&mut buf)?;
        let is_asked = len == read && terminal.prompts.get() == round;
        let is_handed_on = before < 5 * round && handed_on(&written) == 5 * round;
        assert!(rt; is_asked && is_handed_on, "read {round}");
    }
    assert!(rt; !asking.is_cut_off());
    Ok(())
}

// Neither what counts lines nor what takes the progress away changes what goes through it.
#[test]
fn lines_are_counted_on_their_way(rt: HostRuntime) -> Result<(), Fail> {
    let progress = ProgressLine::new(rt, false);
    let mut counted = Counted::new(b"a\nb".as_slice(), &progress);
    let mut buf = [0u8; 8];
    let len = counted.read(&mut buf)?;
    assert_eq!(rt; &buf[..len], b"a\nb".as_slice());
    let mut text = Vec::new(rt.alloc());
    let mut erasing = Erasing::new(&mut text, &progress);
    erasing.write_all(b"reply")?;
    erasing.flush()?;
    assert_eq!(rt; text.as_slice(), b"reply".as_slice());
    Ok(())
}

#[test]
fn nothing_is_read_where_nothing_can_be_handed_on(rt: HostRuntime) -> Result<(), Fail> {
    let written = RefCell::new(Held {
        text: Vec::new(rt.alloc()),
        handed_on: 0,
        is_closed: true,
    });
    let crumbs = Crumbs {
        bytes: b"abc",
        most: 3,
    };
    let nowhere: Option<&Terminal> = None;
    let mut asking = Asking::new(crumbs, Shared::new(&written), nowhere);
    let mut buf = *b"....";
    assert!(rt; asking.read(&mut buf).is_err());
    assert_eq!(rt; buf, *b"....");
    assert!(rt; asking.is_cut_off());
    Ok(())
}

// Whether the next line is this one, and is there once it was read.
fn is_next(
    reader: &mut Recent<Crumbs<'_>>,
    line: &mut Vec<u8>,
    number: u64,
    wanted: &str,
) -> Result<bool, Fail> {
    let found = read_line(reader, line)?;
    let is_read = found == Found::Line && line.as_slice() == wanted.as_bytes();
    Ok(is_read && reader.line(number) == Some(wanted.as_bytes()))
}

// Whether each line is there once it was read, the last still at the end, and none that is none.
fn keeps_lines(alloc: Global, text: &str, most: usize) -> Result<bool, Fail> {
    let crumbs = Crumbs {
        bytes: text.as_bytes(),
        most,
    };
    let mut reader = Recent::with_block(alloc, 5, crumbs)?;
    let mut line = Vec::new(alloc);
    let mut are_kept = true;
    for (number, wanted) in [(1, "ab"), (2, ""), (3, "cdefghij"), (4, "k"), (5, "lm")] {
        are_kept &= is_next(&mut reader, &mut line, number, wanted)?;
    }
    let is_over = read_line(&mut reader, &mut line)? == Found::End;
    let are_others = reader.line(0).is_some() || reader.line(6).is_some();
    Ok(are_kept && is_over && !are_others && reader.line(5) == Some(b"lm".as_slice()))
}

// Whatever comes at a time, the line that was read last is there, and one that is still to come is
// not.
#[test]
fn lines_at_hand_are_kept(rt: HostRuntime) -> Result<(), Fail> {
    let text = "ab\n\ncdefghij\nk\nlm";
    for most in 1..=text.len() {
        let are_kept = keeps_lines(rt.alloc(), text, most)?;
        assert!(rt; are_kept, "{most} bytes at a time");
    }
    Ok(())
}

#[test]
fn faults_are_noted(rt: HostRuntime) -> Result<(), Fail> {
    let mut noting = Noting::new(rt.alloc(), Vec::new(rt.alloc()));
    for line in [
        "[1,\"start\",1]\n",
        "[2,\"E16\",\"name\"]\n",
        "[3,\"value\",\"[2,\\\"E16\\\",\\\"name\\\"]\"]\n",
        "[4,\"E1\",\"a\",1,\"a\",2,\"async\"]\n",
        "[18446744073709551615,\"E16\",\"sessions\"]\n",
    ] {
        noting.write_all(line.as_bytes())?;
    }
    let wanted = [
        NotedFaults {
            number: 2,
            cause: Cause::Name,
        },
        NotedFaults {
            number: u64::MAX,
            cause: Cause::Sessions,
        },
    ];
    assert_eq!(rt; noting.faults(), wanted.as_slice());
    Ok(())
}

// The lines of faults, as they are written.
static FAULTS: [(&str, Cause); 7] = [
    ("[7,\"E16\",\"json\"]\n", Cause::Json),
    ("[7,\"E16\",\"form\"]\n", Cause::Form),
    ("[7,\"E16\",\"name\"]\n", Cause::Name),
    ("[7,\"E16\",\"order\"]\n", Cause::Order),
    ("[7,\"E16\",\"long\"]\n", Cause::Long),
    ("[7,\"E16\",\"lines\"]\n", Cause::Lines),
    ("[7,\"E16\",\"sessions\"]\n", Cause::Sessions),
];

static NO_FAULTS: [&str; 5] = [
    "",
    "[]",
    "[\"E16\",\"form\"]",
    "[7,\"E15\",\"form\"]",
    "[7,\"E16\",\"fork\"]",
];

#[test]
fn lines_of_faults_are_known(rt: HostRuntime) {
    for (line, cause) in FAULTS {
        assert_eq!(rt;
            fault_in(line.as_bytes()),
            Some(NotedFaults { number: 7, cause })
        );
    }
    for line in NO_FAULTS {
        assert_eq!(rt; fault_in(line.as_bytes()), None, "{line}");
    }
}

// A writer that takes so many bytes at a time.
#[derive(Drop)]
struct Sips {
    text: Vec<u8>,
    most: usize,
}

impl Write for Sips {
    fn write(&mut self, buf: &[u8]) -> io::Result<usize> {
        let len = self.most.min(buf.len());
        self.text.extend_from_slice(&buf[..len])?;
        Ok(len)
    }

    fn flush(&mut self) -> io::Result<()> {
        Ok(())
    }
}

static CHECKED: [&str; 8] = [
    "[1,\"start\",1]\n",
    "[2,\"outcome\",\"read-only\"]\n",
    "[\"draw\",1]\n",
    "[\"begin\",1]\n",
    "[2,[\"draw\",2]]\n",
    "[\"check\",\"yes\"]\n",
    "[2,\"rows\",[[\"a\",\"x\"]]]\n",
    "[3,\"E16\",\"order\"]\n",
];

// Whether a writer that takes so many bytes at a time is given just the steps, and the fault is
// kept.
fn tells_steps(alloc: Global, most: usize) -> Result<bool, Fail> {
    let text = Vec::new(alloc);
    let mut sips = Sips { text, most };
    let mut steps = Steps::new(alloc, &mut sips);
    for line in CHECKED {
        steps.write_all(line.as_bytes())?;
    }
    steps.flush()?;
    let is_kept = steps.fault() == b"[3,\"E16\",\"order\"]\n".as_slice();
    drop(steps);
    let wanted = "[\"draw\",1]\n[\"begin\",1]\n[2,[\"draw\",2]]\n";
    Ok(is_kept && sips.text.as_slice() == wanted.as_bytes())
}

// However few bytes the writer below takes at a time, it is given the steps, whole.
#[test]
fn steps_are_told_alone(rt: HostRuntime) -> Result<(), Fail> {
    for most in 1..=24 {
        let are_told = tells_steps(rt.alloc(), most)?;
        assert!(rt; are_told, "{most} bytes at a time");
    }
    Ok(())
}
