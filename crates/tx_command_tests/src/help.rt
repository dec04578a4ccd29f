//! Help: its text, and that it fits a terminal.
use crate::command_lines::words_of;
use crate::notes::shown_for;
use clap::error::ErrorKind;
use std::alloc::Global;
use std::test::Fail;
use tx_command::{parse, width_of};

const TOP: &str = "The transaction layer of a key-value store, in one process

Usage: txkv <COMMAND>

Commands:
  simulate     Run a script of sessions, and write one reply line a step
  explain      Run a script as simulate does, and show its run
  generate     Write a script by chance, with requests lost, repeated, held and
               late
  reduce       Make a script shorter, as long as a reply shows a text
  run          Run the sessions of a script side by side, on several threads
  check        Check a trace: is it a run of the one-step machine?
  import       Judge a history of any store: is it snapshot isolation?
  example      Print an example: a script, a run, a trace, a history
  refusals     Tell what each refusal means, E1 to E17
  completions  Write what completes command lines in a shell
  help         Print this message or the help of the given subcommand(s)

Options:
  -h, --help     Print help
  -V, --version  Print version

Examples:
";

const SIMULATE: &str = "Run a script of sessions, and write one reply line a step

Usage: txkv simulate [OPTIONS] [FILE]

Arguments:
  [FILE]  The file to read; - or nothing is standard input

Options:
      --check         Writes the machine's steps of the run after its replies,
                      and that they are one
      --steps         Writes the machine's steps of the run alone, as a trace
                      for txkv check
      --beside        With --steps, writes each step beside the number of the
                      line that made it
      --go-on         Tells a fault and reads the next line, with no limit of
                      lines: for programs that ask by lines
      --comments      Passes over empty lines and lines that begin with #; what
                      is left is numbered
      --cells <KIND>  How the regions keep what they hold; the replies are the
                      same [default: flat] [possible values: flat, nested]
  -h, --help          Print help

A script has one step a line, each a JSON array; s names a session, D is a
delivery:
";

const RUN: &str = "Run the sessions of a script side by side, on several threads

Usage: txkv run [OPTIONS] --workers <N> [FILE]

Arguments:
  [FILE]  The file to read; - or nothing is standard input

Options:
      --workers <N>           How many threads make steps, 1 to 64
      --gc-life-time <TICKS>  Collects meanwhile what is out of date for so many
                              ticks; else nothing
      --stats                 Tells on standard error what the run came to, and
                              how long it took
      --comments              Passes over empty lines and lines that begin with
                              #; what is left is numbered
      --cells <KIND>          How the regions keep what they hold; the replies
                              are the same [default: flat] [possible values:
                              flat, nested]
  -h, --help                  Print help

The script is read whole. Its seeds run in the order of their lines, and then
the lines of each session in theirs, the sessions side by side. s names a
session; mode is \"two-phase\" or \"async\":
";

const CHECK: &str = "Check a trace: is it a run of the one-step machine?

Usage: txkv check [OPTIONS] [FILE]

Arguments:
  [FILE]  The file to read; - or nothing is standard input

Options:
      --why   Tells after a no why the machine does not make that step
      --all   Goes on after a no, as if that line were not there
  -h, --help  Print help

The machine commits each transaction in one step. A trace has one step a line,
each a JSON array:
";

// Requests for help, how the text begins, and how it ends.
static HELPS: [(&str, &str, &str); 26] = [
    (
        "--help",
        TOP,
        "\n  4  a read, a write or a growth failed\n  5  the verdict open\n",
    ),
    ("help", TOP, "open\n"),
    ("-h", TOP, "open\n"),
    ("help --help", TOP, "open\n"),
    (
        "simulate --help",
        SIMULATE,
        "  echo '[\"get\",\"A\",\"a\"]' | txkv simulate\n      [1,\"E16\",\"name\"], no \
        session is live, status 2\n",
    ),
    ("help simulate", SIMULATE, "status 2\n"),
    (
        "run --help",
        RUN,
        "  echo '[\"get\",\"A\",\"a\"]' | txkv run --workers 1\n      [1,\"E16\",\"name\"] \
        and both sums, status 2\n",
    ),
    (
        "check --help",
        CHECK,
        "  echo '[\"draw\"]' | txkv check\n      [1,\"E16\",\"form\"], the first line that \
        is no step, status 2\n",
    ),
    ("check a.trace -h", CHECK, "status 2\n"),
    (
        "help refusals",
        "Tell what each refusal means, E1 to E17\n\nUsage: txkv refusals [REFUSAL]\n",
        "  E17  AlreadyExists      A key that is to be inserted has a value, in the\n                          \
        buffer or at the start\n",
    ),
    (
        "refusals",
        "A refusal is the reply of its line, and the script goes on; with E16 it ends.\n",
        "  E17  AlreadyExists      A key that is to be inserted has a value, in the\n                          \
        buffer or at the start\n",
    ),
    ("refusals E5", E5, E5),
    ("help E5", E5, E5),
    ("help e5", E5, E5),
    ("refusals e5", E5, E5),
    (
        "help lose",
        "  \"lose\"                         It never arrives\n",
        "\n",
    ),
    (
        "help hold",
        "  \"hold\",name                    It is kept under a name, and not taken, until\n",
        "                                 that is delivered\n",
    ),
    (
        "help two-phase",
        "  [\"declare\",s,\"two-phase\",ttl]  Fixes its write set; its locks live ttl ticks\n",
        "\n",
    ),
    (
        "help transfer",
        "  [\"transfer\",s,from,to,n,mode]   Moves the amount n",
        "in one transaction\n",
    ),
    (
        "help append",
        "  [\"append\",key,value]  It put the value behind those of the key's list\n",
        "\n",
    ),
    (
        "help insert",
        "  [\"insert\",s,key,value]         Enters a put of a key that must have no value;\n",
        "                                 E17 where it has one\n",
    ),
    (
        "example",
        "commit_then_read.script       One",
        "isolation\n",
    ),
    (
        "example lost_update.trace",
        "[\"draw\",1]\n[\"begin\",1]\n",
        "\n[\"commit\",1,4]\n",
    ),
    (
        "completions bash",
        "_txkv_words() {\n",
        "\ncomplete -o default -F _txkv_words txkv\n",
    ),
    (
        "completions zsh",
        "#compdef txkv\n",
        "\ncomplete -o default -F _txkv_words txkv\n",
    ),
    (
        "completions fish",
        "complete -c txkv -n __fish_use_subcommand -f -a simulate -d 'Run a script of sessions,",
        " E15 E16 E17'\n",
    ),
];

const E5: &str = "  E5   CommitTsExpired    A commit below the lock's minimum: another may be
                          drawn [the minimum]
";

// Whether a command line asks for a text of this kind that begins and ends so.
fn is_shown(
    alloc: Global,
    line: &str,
    kind: ErrorKind,
    beginning: &str,
    ending: &str,
) -> Result<bool, Fail> {
    match shown_for(alloc, line)? {
        Some((told, of, false)) => {
            Ok(of == kind && told.starts_with(beginning) && told.ends_with(ending))
        }
        _ => Ok(false),
    }
}

#[test]
fn help_is_told(rt: HostRuntime) -> Result<(), Fail> {
    for (line, beginning, ending) in HELPS {
        let is_shown = is_shown(rt.alloc(), line, ErrorKind::DisplayHelp, beginning, ending)?;
        assert!(rt; is_shown, "{line}");
    }
    Ok(())
}

#[test]
fn version_is_told(rt: HostRuntime) -> Result<(), Fail> {
    let kind = ErrorKind::DisplayVersion;
    let is_shown = is_shown(
        rt.alloc(),
        "--version",
        kind,
        "txkv 0.1.0\n",
        "txkv 0.1.0\n",
    )?;
    assert!(rt; is_shown);
    Ok(())
}

// No line of help is longer than a terminal.
static PAGES: [&str; 12] = [
    "--help",
    "help simulate",
    "help explain",
    "help generate",
    "help reduce",
    "help run",
    "help check",
    "help import",
    "help example",
    "help refusals",
    "help completions",
    "example",
];

// Whether no line of what is shown takes more than so many places.
fn fits(alloc: Global, line: &str, width: usize) -> Result<bool, Fail> {
    let words = words_of(alloc, line)?;
    match parse(alloc, words.as_slice(), width) {
        Ok(_) => Ok(false),
        Err(error) => {
            let text = format!(in alloc; "{error}")?;
            Ok(text.as_str().lines().all(|line| line.len() <= width))
        }
    }
}

#[test]
fn help_fits_a_terminal(rt: HostRuntime) -> Result<(), Fail> {
    for line in PAGES {
        let fits = fits(rt.alloc(), line, 80)? && fits(rt.alloc(), line, 120)?;
        assert!(rt; fits, "{line}");
    }
    Ok(())
}

#[test]
fn columns_say_how_wide_a_terminal_is(rt: HostRuntime) {
    assert!(rt; width_of(None) == 80 && width_of(Some("x")) == 80 && width_of(Some("")) == 80);
    assert!(rt; width_of(Some("132")) == 132 && width_of(Some("7")) == 50);
}
