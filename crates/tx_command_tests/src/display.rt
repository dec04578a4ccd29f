//! What is shown on standard error beside the sentences.
use crate::command_lines::TEXT;
use std::test::Fail;
use std::time::Duration;
use tx_command::{
    CellsKind, CommandLine, CommandTask, Display, ExplainOptions, Stats, Terminals, fitted,
    shown_at,
};

// Who types and sees the replies and standard error; whose input and output go elsewhere; and whose
// input is a terminal alone.
const TYPED: Terminals = Terminals {
    input: true,
    output: true,
    error: true,
};

const PIPED: Terminals = Terminals {
    input: false,
    output: false,
    error: true,
};

const QUIET: Terminals = Terminals {
    input: true,
    output: false,
    error: false,
};

// A prompt is for who types and sees the replies; the progress for who sees standard error while a
// command is at work that writes nothing before its end.
static SHOWN: [(CommandTask, Option<&str>, Terminals, Display); 9] = [
    (CommandTask::Simulate, None, TYPED, Display::Prompts),
    (CommandTask::Check, None, TYPED, Display::Prompts),
    (CommandTask::Simulate, Some("a"), TYPED, Display::Nothing),
    (CommandTask::Check, Some("a"), TYPED, Display::ProgressLine),
    (
        CommandTask::CheckWithReason,
        Some("a"),
        TYPED,
        Display::ProgressLine,
    ),
    (
        CommandTask::Run(2, None),
        None,
        PIPED,
        Display::ProgressLine,
    ),
    (CommandTask::SimulateChecked, None, PIPED, Display::Nothing),
    (CommandTask::Run(2, None), None, QUIET, Display::Nothing),
    (CommandTask::Check, Some("a"), QUIET, Display::Nothing),
];

// A job that does this task with a file.
fn job_of<'a>(task: CommandTask, file: Option<&'a str>) -> CommandLine<'a> {
    CommandLine {
        task,
        cells: CellsKind::Flat,
        has_stats: false,
        has_comments: false,
        keep: "",
        keys: None,
        sessions: None,
        file,
    }
}

#[test]
fn terminals_say_what_is_shown(rt: HostRuntime) {
    for (task, file, terminals, display) in SHOWN {
        assert!(rt; shown_at(job_of(task, file), terminals) == display);
    }
}

// A run shown as text in lines of so many places.
fn text_of(width: Option<usize>) -> ExplainOptions {
    ExplainOptions { width, ..TEXT }
}

// How a run is asked for, and how it is shown at a terminal of 72 places, and elsewhere: text fits
// the terminal unless a width is asked for.
static WIDTHS: [(Option<usize>, bool, bool, Option<usize>, Option<usize>); 4] = [
    (None, false, false, Some(72), None),
    (Some(132), false, false, Some(132), Some(132)),
    (None, true, false, None, None),
    (None, false, true, None, None),
];

#[test]
fn text_of_a_run_fits_a_terminal(rt: HostRuntime) {
    for (width, svg, html, typed, piped) in WIDTHS {
        let asked = ExplainOptions {
            svg,
            html,
            ..text_of(width)
        };
        let job = job_of(CommandTask::Explain(asked), None);
        for (terminals, width) in [(TYPED, typed), (QUIET, piped)] {
            let shown = ExplainOptions { width, ..asked };
            let wanted = job_of(CommandTask::Explain(shown), None);
            assert!(rt; fitted(job, terminals, 72) == wanted);
        }
    }
    let job = job_of(CommandTask::Simulate, None);
    assert!(rt; fitted(job, TYPED, 72) == job);
}

#[test]
fn stats_are_told(rt: HostRuntime) -> Result<(), Fail> {
    let stats = Stats {
        committed: 798,
        aborted: 2,
        unknown: 1,
        read_only: 3,
        transfers: 803,
        collected: 0,
        elapsed: Duration::from_millis(250),
    };
    let told = format!(in rt.alloc(); "{stats}")?;
    assert_eq!(rt;
        told.as_str(),
        "txkv: 798 committed, 2 aborted, 1 unknown, 3 read-only\ntxkv: 0 write records collected\ntxkv: 0.250 seconds, 3212 transfers a second\n"
    );
    let stats = Stats {
        collected: 1,
        transfers: 1,
        elapsed: Duration::from_millis(1000),
        ..stats
    };
    let told = format!(in rt.alloc(); "{stats}")?;
    assert!(rt;
        told.ends_with(
            "\ntxkv: 1 write record collected\ntxkv: 1.000 seconds, 1 transfer a second\n"
        )
    );
    let told = format!(in rt.alloc(); "{}", Stats::NOTHING)?;
    assert!(rt; told.ends_with("\ntxkv: 0.000 seconds\n"));
    Ok(())
}
