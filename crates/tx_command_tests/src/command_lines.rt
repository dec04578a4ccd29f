//! Command lines as a user writes them, and what they come to.
use std::alloc::Global;
use std::test::Fail;
use tx_command::{
    CellsKind, CommandEnd, CommandLine, CommandTask, ExplainOptions, USUAL_WIDTH, job_of,
    message_of, parse, status_of,
};
use tx_text::{Broken, End};

/// The words of a command line, the first of which is the program as a shell names it.
pub(crate) fn words_of(alloc: Global, line: &str) -> Result<Vec<String>, Fail> {
    let mut words = Vec::new(alloc);
    words.push("/usr/local/bin/txkv".to_string(alloc)?)?;
    for word in line.split(' ') {
        if !word.is_empty() {
            words.push(word.to_string(alloc)?)?;
        }
    }
    Ok(words)
}

/// A run that is shown as text, with nothing left out.
pub(crate) const TEXT: ExplainOptions = ExplainOptions {
    svg: false,
    html: false,
    machine: false,
    from: 1,
    to: None,
    width: None,
};

// Command lines, the tasks that they ask for, and the files that those read.
static JOBS: [(&str, CommandTask, Option<&str>); 23] = [
    ("simulate", CommandTask::Simulate, None),
    ("simulate -", CommandTask::Simulate, None),
    ("simulate a.script", CommandTask::Simulate, Some("a.script")),
    ("simulate --check", CommandTask::SimulateChecked, None),
    (
        "simulate a --check",
        CommandTask::SimulateChecked,
        Some("a"),
    ),
    ("simulate --steps a", CommandTask::SimulateSteps, Some("a")),
    ("simulate --go-on a", CommandTask::SimulateOn, Some("a")),
    (
        "simulate --beside --steps a",
        CommandTask::SimulateBeside,
        Some("a"),
    ),
    (
        "simulate -- --check",
        CommandTask::Simulate,
        Some("--check"),
    ),
    (
        "explain a.script",
        CommandTask::Explain(TEXT),
        Some("a.script"),
    ),
    (
        "explain --svg",
        CommandTask::Explain(ExplainOptions { svg: true, ..TEXT }),
        None,
    ),
    (
        "explain --machine --svg",
        CommandTask::Explain(ExplainOptions {
            svg: true,
            machine: true,
            ..TEXT
        }),
        None,
    ),
    (
        "explain --html a.script",
        CommandTask::Explain(ExplainOptions { html: true, ..TEXT }),
        Some("a.script"),
    ),
    ("check", CommandTask::Check, None),
    ("check dir/a.trace", CommandTask::Check, Some("dir/a.trace")),
    ("check --why", CommandTask::CheckWithReason, None),
    ("check a --why", CommandTask::CheckWithReason, Some("a")),
    ("check --all", CommandTask::CheckAll(false), None),
    (
        "check --why --all a",
        CommandTask::CheckAll(true),
        Some("a"),
    ),
    ("run --workers 1", CommandTask::Run(1, None), None),
    ("run --workers=64 a", CommandTask::Run(64, None), Some("a")),
    (
        "run - --gc-life-time 1 --workers 4",
        CommandTask::Run(4, Some(1)),
        None,
    ),
    (
        "run --workers 2 --gc-life-time 4398046511104",
        CommandTask::Run(2, Some(4_398_046_511_104)),
        None,
    ),
];

/// Whether a command line asks for this job.
pub(crate) fn asks_for(alloc: Global, line: &str, job: CommandLine<'_>) -> Result<bool, Fail> {
    let words = words_of(alloc, line)?;
    let matches = parse(alloc, words.as_slice(), USUAL_WIDTH)?;
    Ok(job_of(&matches) == job)
}

#[test]
fn command_lines_say_jobs(rt: HostRuntime) -> Result<(), Fail> {
    for (line, task, file) in JOBS {
        let job = CommandLine {
            task,
            cells: CellsKind::Flat,
            has_stats: false,
            has_comments: false,
            keep: "",
            keys: None,
            sessions: None,
            file,
        };
        let is_asked = asks_for(rt.alloc(), line, job)?;
        assert!(rt; is_asked, "{line}");
    }
    Ok(())
}

// Command lines, and the families that they ask for.
static CELLS: [(&str, CellsKind); 5] = [
    ("simulate --cells flat", CellsKind::Flat),
    ("simulate --cells nested", CellsKind::Nested),
    ("simulate --cells=nested --check a", CellsKind::Nested),
    ("run --workers 2 --cells nested", CellsKind::Nested),
    ("run --cells flat --workers 2 a", CellsKind::Flat),
];

// Command lines, whether comments are passed over, and what a reply is to have in it.
static SCRIPTS: [(&str, bool, &str); 6] = [
    ("simulate --comments a", true, ""),
    ("explain --comments --svg", true, ""),
    ("run --comments --workers 2", true, ""),
    ("run --workers 2", false, ""),
    ("reduce --keep E1 a", false, "E1"),
    ("reduce --comments --keep=,\"lost\"", true, ",\"lost\""),
];

// Whether a command line says so.
fn says(alloc: Global, line: &str, has_comments: bool, keep: &str) -> Result<bool, Fail> {
    let words = words_of(alloc, line)?;
    let matches = parse(alloc, words.as_slice(), USUAL_WIDTH)?;
    let job = job_of(&matches);
    Ok(job.has_comments == has_comments && job.keep == keep)
}

#[test]
fn command_lines_say_how_scripts_are_read(rt: HostRuntime) -> Result<(), Fail> {
    for (line, has_comments, keep) in SCRIPTS {
        let is_said = says(rt.alloc(), line, has_comments, keep)?;
        assert!(rt; is_said, "{line}");
    }
    Ok(())
}

// Whether a command line asks for what the run came to.
static STATS: [(&str, bool); 3] = [
    ("run --workers 2", false),
    ("run --workers 2 --stats", true),
    ("run --stats --workers 2 a", true),
];

// Whether a command line asks for what the run came to, and the families that it asks for.
fn asked_of(alloc: Global, line: &str) -> Result<(bool, CellsKind), Fail> {
    let words = words_of(alloc, line)?;
    let matches = parse(alloc, words.as_slice(), USUAL_WIDTH)?;
    let job = job_of(&matches);
    Ok((job.has_stats, job.cells))
}

#[test]
fn command_lines_ask_for_stats(rt: HostRuntime) -> Result<(), Fail> {
    for (line, has_stats) in STATS {
        let (is_asked, _) = asked_of(rt.alloc(), line)?;
        assert!(rt; is_asked == has_stats, "{line}");
    }
    Ok(())
}

#[test]
fn command_lines_say_families(rt: HostRuntime) -> Result<(), Fail> {
    for (line, cells) in CELLS {
        let (_, asked) = asked_of(rt.alloc(), line)?;
        assert!(rt; asked == cells, "{line}");
    }
    Ok(())
}

#[test]
fn ends_have_statuses(rt: HostRuntime) {
    assert_eq!(rt; status_of(Ok(CommandEnd::of(End::Well))), 0);
    assert_eq!(rt; status_of(Ok(CommandEnd::of(End::Faulted))), 2);
    assert_eq!(rt; status_of(Ok(CommandEnd::of(End::No))), 3);
    assert_eq!(rt; status_of(Ok(CommandEnd::Open)), 5);
}

#[test]
fn failures_are_told(rt: HostRuntime) {
    for (broken, message) in [
        (Broken::Input, "the input failed"),
        (Broken::Output, "the output failed"),
        (Broken::Memory, "out of memory"),
    ] {
        assert!(rt;
            status_of(Err(broken)) == 4 && message_of(broken) == message,
            "{message}"
        );
    }
}
