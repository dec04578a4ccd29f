//! What a command line says of a script by chance.
use crate::command_lines::asks_for;
use crate::notes::shown_for;
use std::alloc::Global;
use std::test::Fail;
use tx_command::{
    CellsKind, CommandLine, CommandTask, Display, GenerateOptions, Terminals, shown_at,
};
use tx_types::Mode;

// What is asked for where the seed alone is said.
const PLAIN: GenerateOptions = GenerateOptions {
    seed: 7,
    steps: 60,
    sessions: 4,
    regions: 2,
    keys: 4,
    faults: 15,
    mode: None,
};

// The job of a script by chance, which reads nothing.
fn job(options: GenerateOptions) -> CommandLine<'static> {
    CommandLine {
        task: CommandTask::Generate(options),
        cells: CellsKind::Flat,
        has_stats: false,
        has_comments: false,
        keep: "",
        keys: None,
        sessions: None,
        file: None,
    }
}

// Command lines, and what they ask for.
static ASKED: [(&str, GenerateOptions); 5] = [
    ("generate --seed 7", PLAIN),
    (
        "generate --seed 18446744073709551615 --steps=1000000",
        GenerateOptions {
            seed: 18_446_744_073_709_551_615,
            steps: 1_000_000,
            ..PLAIN
        },
    ),
    (
        "generate --sessions 256 --regions 26 --keys 26 --faults 100 --seed 7",
        GenerateOptions {
            sessions: 256,
            regions: 26,
            keys: 26,
            faults: 100,
            ..PLAIN
        },
    ),
    (
        "generate --seed 7 --faults 0 --mode async",
        GenerateOptions {
            faults: 0,
            mode: Some(Mode::Async),
            ..PLAIN
        },
    ),
    (
        "generate --seed 7 --mode two-phase",
        GenerateOptions {
            mode: Some(Mode::TwoPhase),
            ..PLAIN
        },
    ),
];

#[test]
fn command_lines_say_scripts(rt: HostRuntime) -> Result<(), Fail> {
    for (line, options) in ASKED {
        let is_asked = asks_for(rt.alloc(), line, job(options))?;
        assert!(rt; is_asked, "{line}");
    }
    Ok(())
}

// Command lines that ask for no script, and how the text begins that says why.
static REFUSED: [(&str, &str); 7] = [
    (
        "generate",
        "error: the following required arguments were not provided:\n  --seed <N>\n",
    ),
    (
        "generate --seed x",
        "error: invalid value 'x' for '--seed <N>': invalid digit found in string\n",
    ),
    (
        "generate --seed 7 --steps 1000001",
        "error: invalid value '1000001' for '--steps <N>': 1000001 is not in 1..=1000000\n",
    ),
    (
        "generate --seed 7 --keys 27",
        "error: invalid value '27' for '--keys <N>': 27 is not in 1..=26\n",
    ),
    (
        "generate --seed 7 --faults 101",
        "error: invalid value '101' for '--faults <P>': 101 is not in 0..=100\n",
    ),
    (
        "generate --seed 7 --mode async2",
        "error: invalid value 'async2' for '--mode <MODE>'\n  [possible values: both, two-phase, async]\n",
    ),
    (
        "generate --seed 7 a.script",
        "error: unexpected argument 'a.script' found\n",
    ),
];

// Whether a command line is refused with a text that begins so.
fn is_refused(alloc: Global, line: &str, beginning: &str) -> Result<bool, Fail> {
    match shown_for(alloc, line)? {
        Some((told, _, _)) => Ok(told.starts_with(beginning)),
        None => Ok(false),
    }
}

#[test]
fn other_scripts_are_refused(rt: HostRuntime) -> Result<(), Fail> {
    for (line, beginning) in REFUSED {
        let is_refused = is_refused(rt.alloc(), line, beginning)?;
        assert!(rt; is_refused, "{line}");
    }
    Ok(())
}

// It awaits no line.
#[test]
fn no_prompt_is_shown(rt: HostRuntime) {
    let typed = Terminals {
        input: true,
        output: true,
        error: true,
    };
    assert_eq!(rt; shown_at(job(PLAIN), typed), Display::Nothing);
}
