//! Command lines that ask for pictures of a part of a run.
use crate::command_lines::{TEXT, asks_for, words_of};
use clap::error::ErrorKind;
use std::alloc::Global;
use std::test::Fail;
use tx_command::{CellsKind, CommandLine, CommandTask, ExplainOptions, USUAL_WIDTH, parse};

// A part of a run that is asked for: its options, the names of keys and those of sessions.
type Asked = (ExplainOptions, Option<&'static str>, Option<&'static str>);

static LINES: ExplainOptions = ExplainOptions {
    from: 3,
    to: Some(9),
    ..TEXT
};

static WIDE: ExplainOptions = ExplainOptions {
    width: Some(40),
    ..TEXT
};

// Command lines, and the part that they ask for.
static PARTS: [(&str, Asked); 5] = [
    ("explain", (TEXT, None, None)),
    ("explain --from 3 --to=9", (LINES, None, None)),
    ("explain --width 40", (WIDE, None, None)),
    ("explain --keys a,b", (TEXT, Some("a,b"), None)),
    (
        "explain --sessions=A --keys b",
        (TEXT, Some("b"), Some("A")),
    ),
];

// The job that is asked for.
fn job_of_part(asked: Asked) -> CommandLine<'static> {
    let (options, keys, sessions) = asked;
    CommandLine {
        task: CommandTask::Explain(options),
        cells: CellsKind::Flat,
        has_stats: false,
        has_comments: false,
        keep: "",
        keys,
        sessions,
        file: None,
    }
}

#[test]
fn command_lines_say_parts(rt: HostRuntime) -> Result<(), Fail> {
    for (line, asked) in PARTS {
        let is_asked = asks_for(rt.alloc(), line, job_of_part(asked))?;
        assert!(rt; is_asked, "{line}");
    }
    Ok(())
}

// Command lines that ask for no picture, and why.
static REFUSED: [(&str, ErrorKind); 10] = [
    ("explain --from 0", ErrorKind::ValueValidation),
    ("explain --to 1000001", ErrorKind::ValueValidation),
    ("explain --width 39", ErrorKind::ValueValidation),
    ("explain --keys", ErrorKind::InvalidValue),
    ("explain --keys a --keys b", ErrorKind::ArgumentConflict),
    ("explain --html --from 2", ErrorKind::ArgumentConflict),
    ("explain --html --keys a", ErrorKind::ArgumentConflict),
    ("explain --sessions A --html", ErrorKind::ArgumentConflict),
    ("explain --width 80 --svg", ErrorKind::ArgumentConflict),
    ("simulate --from 2", ErrorKind::UnknownArgument),
];

// Whether a command line is refused so.
fn is_refused(alloc: Global, line: &str, kind: ErrorKind) -> Result<bool, Fail> {
    let words = words_of(alloc, line)?;
    match parse(alloc, words.as_slice(), USUAL_WIDTH) {
        Ok(_) => Ok(false),
        Err(error) => Ok(error.kind() == kind),
    }
}

#[test]
fn pictures_are_refused(rt: HostRuntime) -> Result<(), Fail> {
    for (line, kind) in REFUSED {
        let is_refused = is_refused(rt.alloc(), line, kind)?;
        assert!(rt; is_refused, "{line}");
    }
    Ok(())
}
