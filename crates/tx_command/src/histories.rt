//! `txkv import`, as a command line says it: what is asked for of a history, and how it is told.
use crate::commands::{file, flag, with};
use crate::help;
use clap::builder::ValueParser;
use clap::{Arg, ArgMatches, Command};
use std::alloc::{AllocError, Global};

// How many cycles a search may meet, where that is not told, and at most.
const BUDGET: u64 = 20_000;

const MAX_BUDGET: u64 = 1_000_000_000;

/// What a history may be asked to be.
#[derive(Clone, Copy, Debug, PartialEq, Eq)]
pub enum LevelKind {
    /// Snapshot isolation.
    Snapshot,
    /// Serializable; with `--strict` strictly so.
    Serializable,
}

/// What is asked of a history.
#[derive(Clone, Copy, Debug, PartialEq, Eq)]
pub struct ImportOptions {
    /// What its reads and writes are to be.
    pub level: LevelKind,
    /// Whether each process saw what it had done.
    pub sessions: bool,
    /// Whether what began after another had ended came after it.
    pub strict: bool,
    /// Whether a yes is told by a trace.
    pub trace: bool,
    /// Whether a cycle is written for Graphviz.
    pub dot: bool,
    /// Whether a cycle is drawn, as an SVG.
    pub svg: bool,
    /// Whether each verdict stands on a page, with its pictures.
    pub html: bool,
    /// Whether it goes on after a no.
    pub all: bool,
    /// How many cycles a search for an order may meet.
    pub budget: u64,
}

static NAMES: [&str; 2] = ["snapshot", "serializable"];

// The option that says it.
fn level_option<'a>(alloc: Global) -> Arg<'a> {
    Arg::new(alloc, "level")
        .long("level")
        .value_name("LEVEL")
        .help("What is asked for: snapshot isolation, or that transactions ran one by one")
        .value_parser(ValueParser::Names(&NAMES))
        .default_value("snapshot")
}

// What a command line says of it: snapshot isolation where it says nothing.
fn level_of(asked: &ArgMatches<'_>) -> LevelKind {
    match asked.get_str("level") {
        Some("serializable") => LevelKind::Serializable,
        _ => LevelKind::Snapshot,
    }
}

/// What a command line asks for of a history.
pub(crate) fn import_options(asked: &ArgMatches<'_>) -> ImportOptions {
    ImportOptions {
        level: level_of(asked),
        sessions: asked.get_flag("sessions"),
        strict: asked.get_flag("strict"),
        trace: asked.get_flag("trace"),
        dot: asked.get_flag("dot"),
        svg: asked.get_flag("svg"),
        html: asked.get_flag("html"),
        all: asked.get_flag("all"),
        budget: asked.get_one::<u64>("budget").unwrap_or(BUDGET),
    }
}

// A drawing of a no. Several are a page.
fn drawing_of_no<'a>(alloc: Global) -> Result<Arg<'a>, AllocError> {
    let help = "Draws a no, an SVG, in place of its line; for every no take --all --html";
    flag(alloc, "svg", help)
        .conflicts_with("dot")?
        .conflicts_with("all")
}

// A page of what is answered.
fn page<'a>(alloc: Global) -> Result<Arg<'a>, AllocError> {
    let help = "Writes a page: the line, its sentences, and a picture of a no";
    flag(alloc, "html", help)
        .conflicts_with("dot")?
        .conflicts_with("svg")?
        .conflicts_with("trace")
}

// How long a search may go on.
fn budget<'a>(alloc: Global) -> Arg<'a> {
    Arg::new(alloc, "budget")
        .long("budget")
        .value_name("N")
        .help("How many circles a search for an order may meet, 20000 unless told, some seconds")
        .allow_negative_numbers(true)
        .value_parser(ValueParser::Unsigned(0, MAX_BUDGET))
}

/// The command.
pub(crate) fn import<'a>(alloc: Global) -> Result<Command<'a>, AllocError> {
    let sessions = "Asks as well that each process sees what it did before";
    let strict = "Asks as well that what began after another had ended comes after it";
    let trace = "Writes a yes as a trace that txkv check judges, in place of its line";
    let dot = "Writes a no for Graphviz, in place of its line";
    let all = "Goes on after a no, as if nobody knew what its transactions had read";
    let command = Command::new(alloc, "import")
        .about(help::IMPORT_ABOUT)
        .after_help(help::IMPORT_HELP)
        .arg(level_option(alloc))?
        .arg(flag(alloc, "sessions", sessions))?
        .arg(flag(alloc, "strict", strict))?
        .arg(flag(alloc, "trace", trace))?
        .arg(flag(alloc, "dot", dot))?;
    let command = with(command, drawing_of_no(alloc))?;
    let command = with(command, page(alloc))?;
    command
        .arg(flag(alloc, "all", all))?
        .arg(budget(alloc))?
        .arg(file(alloc))
}
