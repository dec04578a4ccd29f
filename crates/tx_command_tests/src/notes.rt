//! What is told in place of a job, and what is at fault in a command line.
use crate::command_lines::words_of;
use clap::error::ErrorKind;
use std::alloc::Global;
use std::test::Fail;
use tx_command::{USUAL_WIDTH, fault_text, parse};

const TRY_HELP: &str = "\n\nFor more information, try '--help'.\n";

// Faults of the command line, and what is told of them before that last line.
static FAULTS: [(&str, &str); 24] = [
    (
        "",
        "error: 'txkv' requires a subcommand but one was not provided\n  [subcommands: simulate, \
        explain, generate, reduce, run, check, import, example, refusals, completions, help]\n\
        \nUsage: txkv <COMMAND>",
    ),
    (
        "simulat",
        "error: unrecognized subcommand 'simulat'\n\n  tip: a similar subcommand exists: \
        'simulate'\n\nUsage: txkv <COMMAND>",
    ),
    (
        "help simulat",
        "error: unrecognized subcommand 'simulat'\n\n  tip: a similar subcommand exists: \
        'simulate'\n\nUsage: txkv <COMMAND>",
    ),
    (
        "si\u{1b}[2J\u{202e}",
        "error: unrecognized subcommand 'si\\u001b[2J\\u202e'\n\nUsage: txkv <COMMAND>",
    ),
    (
        "run --workers 1\u{9b}",
        "error: invalid value '1\\u009b' for '--workers <N>': invalid digit found in string",
    ),
    (
        "bench",
        "error: unrecognized subcommand 'bench'\n\nUsage: txkv <COMMAND>",
    ),
    (
        "--frob",
        "error: unexpected argument '--frob' found\n\nUsage: txkv <COMMAND>",
    ),
    (
        "simulate --chek",
        "error: unexpected argument '--chek' found\n\n  tip: a similar argument exists: \
        '--check'\n\nUsage: txkv simulate --check [FILE]",
    ),
    (
        "simulate --check --check",
        "error: the argument '--check' cannot be used multiple times\n\nUsage: txkv simulate \
        [OPTIONS] [FILE]",
    ),
    (
        "simulate --check --steps",
        "error: the argument '--check' cannot be used with '--steps'\n\nUsage: txkv simulate \
        --check [FILE]",
    ),
    (
        "check a b",
        "error: unexpected argument 'b' found\n\nUsage: txkv check [OPTIONS] [FILE]",
    ),
    (
        "run",
        "error: the following required arguments were not provided:\n  --workers <N>\n\n\
        Usage: txkv run --workers <N> [FILE]",
    ),
    (
        "run --workers",
        "error: a value is required for '--workers <N>' but none was supplied",
    ),
    (
        "run --workers 0",
        "error: invalid value '0' for '--workers <N>': 0 is not in 1..=64",
    ),
    (
        "run --workers -1",
        "error: invalid value '-1' for '--workers <N>': invalid digit found in string",
    ),
    (
        "generate --seed -1",
        "error: invalid value '-1' for '--seed <N>': invalid digit found in string",
    ),
    (
        "run --workers 65",
        "error: invalid value '65' for '--workers <N>': 65 is not in 1..=64",
    ),
    (
        "run --workers abc",
        "error: invalid value 'abc' for '--workers <N>': invalid digit found in string",
    ),
    (
        "run --workers 18446744073709551616",
        "error: invalid value '18446744073709551616' for '--workers <N>': number too large \
        to fit in target type",
    ),
    (
        "run --workers 4 --workers 5",
        "error: the argument '--workers <N>' cannot be used multiple times\n\nUsage: txkv \
        run [OPTIONS] --workers <N> [FILE]",
    ),
    (
        "run --workers 4 --gc-life-time 0",
        "error: invalid value '0' for '--gc-life-time <TICKS>': 0 is not in 1..=4398046511104",
    ),
    (
        "completions ksh",
        "error: invalid value 'ksh' for '<SHELL>'\n  [possible values: bash, zsh, fish]\n\
        \n  tip: a similar value exists: 'zsh'",
    ),
    (
        "completions",
        "error: the following required arguments were not provided:\n  <SHELL>\n\nUsage: \
        txkv completions <SHELL>",
    ),
    (
        "run --workers 4 --gc-life-time 4398046511105",
        "error: invalid value '4398046511105' for '--gc-life-time <TICKS>': 4398046511105 \
        is not in 1..=4398046511104",
    ),
];

/// What is shown in place of a job: the text, what kind it is of, and whether it is a fault's. None
/// where there is a job.
pub(crate) fn shown_for(
    alloc: Global,
    line: &str,
) -> Result<Option<(String, ErrorKind, bool)>, Fail> {
    let words = words_of(alloc, line)?;
    match parse(alloc, words.as_slice(), USUAL_WIDTH) {
        Ok(_) => Ok(None),
        Err(error) => {
            let told = format!(in alloc; "{error}")?;
            Ok(Some((told, error.kind(), error.use_stderr())))
        }
    }
}

// Whether a command line is at fault, and just this is told of it before the last line.
fn is_fault(alloc: Global, line: &str, text: &str) -> Result<bool, Fail> {
    match shown_for(alloc, line)? {
        Some((told, _, true)) => Ok(told.strip_suffix(TRY_HELP) == Some(text)),
        _ => Ok(false),
    }
}

#[test]
fn faults_of_the_command_line_are_told(rt: HostRuntime) -> Result<(), Fail> {
    for (line, text) in FAULTS {
        let is_fault = is_fault(rt.alloc(), line, text)?;
        assert!(rt; is_fault, "{line}");
    }
    Ok(())
}

// Command lines with an option that is none of their command, and what is told of them.
static TIPS: [(&str, &str); 4] = [
    (
        "explain --check",
        "error: unexpected argument '--check' found\n\n  tip: '--check' is an option of txkv \
        simulate\n\nUsage: txkv explain [OPTIONS] [FILE]",
    ),
    (
        "check --cells a",
        "error: unexpected argument '--cells' found\n\n  tip: '--cells' is an option of txkv \
        simulate, txkv explain, txkv run\n\nUsage: txkv check [OPTIONS] [FILE]",
    ),
    (
        "check --frob",
        "error: unexpected argument '--frob' found\n\n  tip: '--frob' as the name of a file is \
        '-- --frob'\n\nUsage: txkv check [OPTIONS] [FILE]",
    ),
    (
        "simulate --chek",
        "error: unexpected argument '--chek' found\n\n  tip: a similar argument exists: \
        '--check'\n\nUsage: txkv simulate --check [FILE]",
    ),
];

// Whether just this is told of a command line, before the last line.
fn is_told(alloc: Global, line: &str, text: &str) -> Result<bool, Fail> {
    let words = words_of(alloc, line)?;
    match parse(alloc, words.as_slice(), USUAL_WIDTH) {
        Ok(_) => Ok(false),
        Err(error) => {
            let told = fault_text(alloc, &error)?;
            Ok(told.strip_suffix(TRY_HELP) == Some(text))
        }
    }
}

#[test]
fn options_of_other_commands_are_told(rt: HostRuntime) -> Result<(), Fail> {
    for (line, text) in TIPS {
        let is_told = is_told(rt.alloc(), line, text)?;
        assert!(rt; is_told, "{line}");
    }
    Ok(())
}
