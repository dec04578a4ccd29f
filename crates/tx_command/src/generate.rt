//! What a script by chance is to be like, as a command line says it.
use crate::help;
use clap::builder::ValueParser;
use clap::{Arg, ArgMatches, Command};
use std::alloc::{AllocError, Global};
use tx_types::Mode;
use tx_types::limits::{MAX_LINES, MAX_LIVE_SESSIONS};

/// The most keys, and the most regions, of a script by chance.
const MAX_LETTERS: u64 = 26;

/// What a script by chance is to be like.
#[derive(Clone, Copy, Debug, PartialEq, Eq)]
pub struct GenerateOptions {
    pub seed: u64,
    /// How many lines it has.
    pub steps: u64,
    /// How many sessions live at once, at most.
    pub sessions: usize,
    pub regions: u32,
    pub keys: u32,
    /// How many of a hundred requests do not simply arrive.
    pub faults: u32,
    /// How its transactions commit; None is some so, some so.
    pub mode: Option<Mode>,
}

static MODES: [&str; 3] = ["both", "two-phase", "async"];

// An option that is a number from the first to the last of these.
fn number<'a>(alloc: Global, name: &'a str, least: u64, most: u64) -> Arg<'a> {
    Arg::new(alloc, name)
        .long(name)
        .value_name("N")
        .allow_negative_numbers(true)
        .value_parser(ValueParser::Unsigned(least, most))
}

// How its transactions commit.
fn mode<'a>(alloc: Global) -> Arg<'a> {
    Arg::new(alloc, "mode")
        .long("mode")
        .value_name("MODE")
        .help("How its transactions commit")
        .value_parser(ValueParser::Names(&MODES))
        .default_value("both")
}

// How much there is of something in a script, 1 or more: the name of its option, the most, how much
// where nothing is said, and what help says of it.
#[derive(Clone, Copy)]
struct Amount {
    name: &'static str,
    most: u64,
    usual: &'static str,
    help: &'static str,
}

static AMOUNTS: [Amount; 4] = [
    Amount {
        name: "steps",
        most: MAX_LINES,
        usual: "60",
        help: "How many lines it has",
    },
    Amount {
        name: "sessions",
        most: MAX_LIVE_SESSIONS as u64,
        usual: "4",
        help: "How many sessions live at once, at most",
    },
    Amount {
        name: "regions",
        most: MAX_LETTERS,
        usual: "2",
        help: "How many regions there are",
    },
    Amount {
        name: "keys",
        most: MAX_LETTERS,
        usual: "4",
        help: "How many keys there are",
    },
];

// The option that says an amount.
fn amount_option<'a>(alloc: Global, amount: Amount) -> Arg<'a> {
    number(alloc, amount.name, 1, amount.most)
        .default_value(amount.usual)
        .help(amount.help)
}

// A command with the options that say amounts.
fn with_amounts<'a>(alloc: Global, command: Command<'a>) -> Result<Command<'a>, AllocError> {
    let mut command = command;
    for amount in AMOUNTS {
        command = command.arg(amount_option(alloc, amount))?;
    }
    Ok(command)
}

// How many of its requests do not simply arrive.
fn faults<'a>(alloc: Global) -> Arg<'a> {
    number(alloc, "faults", 0, 100)
        .value_name("P")
        .default_value("15")
        .help("How many of a hundred requests are lost, unanswered, repeated or held")
}

/// The command that writes one.
pub(crate) fn generate<'a>(alloc: Global) -> Result<Command<'a>, AllocError> {
    let seed = number(alloc, "seed", 0, u64::MAX)
        .required(true)
        .help("Which script: the same options give the same one");
    let command = Command::new(alloc, "generate")
        .about(help::GENERATE_ABOUT)
        .after_help(help::GENERATE_HELP)
        .arg(seed)?;
    with_amounts(alloc, command)?
        .arg(faults(alloc))?
        .arg(mode(alloc))
}

/// What the options of a command line say of it.
pub(crate) fn generate_options(asked: &ArgMatches<'_>) -> GenerateOptions {
    GenerateOptions {
        seed: asked.get_one::<u64>("seed").unwrap_or(0),
        steps: asked.get_one::<u64>("steps").unwrap_or(60),
        sessions: asked.get_one::<usize>("sessions").unwrap_or(4),
        regions: asked.get_one::<u32>("regions").unwrap_or(2),
        keys: asked.get_one::<u32>("keys").unwrap_or(4),
        faults: asked.get_one::<u32>("faults").unwrap_or(15),
        mode: match asked.get_str("mode") {
            Some("two-phase") => Some(Mode::TwoPhase),
            Some("async") => Some(Mode::Async),
            _ => None,
        },
    }
}
