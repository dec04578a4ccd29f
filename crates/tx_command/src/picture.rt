//! How a run is shown, as a command line says it.
use crate::cells::cells_option;
use crate::commands::{comments, file, flag, with};
use crate::help;
use clap::builder::ValueParser;
use clap::{Arg, ArgMatches, Command};
use std::alloc::{AllocError, Global};
use tx_types::limits::MAX_LINES;

/// The fewest and the most places that lines of a picture may be asked to have.
const LEAST_WIDTH: u64 = 40;

const MOST_WIDTH: u64 = 10_000;

/// How a run is shown.
#[derive(Clone, Copy, Debug, PartialEq, Eq)]
pub struct ExplainOptions {
    /// Whether as a drawing, in place of text.
    pub svg: bool,
    /// Whether as a page, in place of text.
    pub html: bool,
    /// Whether with the machine's steps.
    pub machine: bool,
    /// The number of the first line that is shown.
    pub from: u64,
    /// The number of the last line that is shown, where that is not the last of the script.
    pub to: Option<u64>,
    /// How many places a line of text has at most; as many as it takes where that is not told.
    pub width: Option<usize>,
}

/// What the options of a command line say of it.
pub(crate) fn explain_options(asked: &ArgMatches<'_>) -> ExplainOptions {
    ExplainOptions {
        svg: asked.get_flag("svg"),
        html: asked.get_flag("html"),
        machine: asked.get_flag("machine"),
        from: asked.get_one::<u64>("from").unwrap_or(1),
        to: asked.get_one::<u64>("to"),
        width: asked.get_one::<usize>("width"),
    }
}

// A page of a run: it shows all of it.
fn page<'a>(alloc: Global) -> Result<Arg<'a>, AllocError> {
    let help = "Writes a page in place of text: the drawing, and what stands at each line, by keys";
    flag(alloc, "html", help)
        .conflicts_with("svg")?
        .conflicts_with("from")?
        .conflicts_with("to")?
        .conflicts_with("keys")?
        .conflicts_with("sessions")?
        .conflicts_with("width")
}

// The number of a line.
fn line_number<'a>(alloc: Global, name: &'a str, help: &'a str) -> Arg<'a> {
    Arg::new(alloc, name)
        .long(name)
        .value_name("N")
        .help(help)
        .allow_negative_numbers(true)
        .value_parser(ValueParser::Unsigned(1, MAX_LINES))
}

// Names, parted by commas.
fn names<'a>(alloc: Global, name: &'a str, value: &'a str, help: &'a str) -> Arg<'a> {
    Arg::new(alloc, name)
        .long(name)
        .value_name(value)
        .help(help)
}

// How wide a text is.
fn width<'a>(alloc: Global) -> Result<Arg<'a>, AllocError> {
    Arg::new(alloc, "width")
        .long("width")
        .value_name("N")
        .help(
            "How many places a line of text has, 40 or more; else as many as a terminal, or as it takes",
        )
        .allow_negative_numbers(true)
        .value_parser(ValueParser::Unsigned(LEAST_WIDTH, MOST_WIDTH))
        .conflicts_with("svg")
}

// A command with the options that say which part of a run is shown.
fn with_part<'a>(alloc: Global, command: Command<'a>) -> Result<Command<'a>, AllocError> {
    let from = "Shows only the lines from this one on, which keep their numbers";
    let to = "Shows only the lines up to this one";
    let keys = "Shows only these keys, and what went on there";
    let sessions = "Shows only the lines of these sessions, and those of none";
    command
        .arg(line_number(alloc, "from", from))?
        .arg(line_number(alloc, "to", to))?
        .arg(names(alloc, "keys", "KEY,..", keys))?
        .arg(names(alloc, "sessions", "NAME,..", sessions))
}

/// The command that shows a run.
pub(crate) fn explain<'a>(alloc: Global) -> Result<Command<'a>, AllocError> {
    let svg = "Writes a drawing in place of text, an SVG: time goes down, requests are arrows";
    let machine =
        "Shows with each line the machine's steps that it made, as where a commit happened";
    let command = Command::new(alloc, "explain")
        .about(help::EXPLAIN_ABOUT)
        .after_help(help::EXPLAIN_HELP)
        .arg(flag(alloc, "svg", svg))?;
    let command = with(command, page(alloc))?.arg(flag(alloc, "machine", machine))?;
    let command = with(with_part(alloc, command)?, width(alloc))?;
    command
        .arg(comments(alloc))?
        .arg(cells_option(alloc))?
        .arg(file(alloc))
}
