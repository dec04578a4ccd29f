//! The commands of the program, and what a command line asks for.
use crate::cells::{CellsKind, cells_of, cells_option};
use crate::generate::{GenerateOptions, generate, generate_options};
use crate::help;
use crate::histories::{ImportOptions, import, import_options};
use crate::picture::{ExplainOptions, explain, explain_options};
use crate::samples::SAMPLE_NAMES;
use crate::topics::REFUSAL_NAMES;
use clap::builder::ValueParser;
use clap::{Arg, ArgAction, ArgMatches, Command};
use std::alloc::{AllocError, Global};
use tx_sentences::InputKind;
use tx_types::limits::MAX_WORKERS;

/// The longest that a version may be kept, in ticks: as long as all timestamps last.
const MAX_LIFE_TIME: u64 = 4_398_046_511_104;

/// What is done with the input.
#[derive(Clone, Copy, Debug, PartialEq, Eq)]
pub enum CommandTask {
    Simulate,
    /// Simulate, and go on after a fault.
    SimulateOn,
    /// Simulate, and tell the machine's steps of the run.
    SimulateChecked,
    /// Simulate, and tell the machine's steps alone.
    SimulateSteps,
    /// Simulate, and tell the machine's steps alone, each beside the number of its line.
    SimulateBeside,
    /// Simulate, and show the run.
    Explain(ExplainOptions),
    /// Write a script by chance.
    Generate(GenerateOptions),
    /// Make a script shorter that shows something.
    Reduce,
    /// By so many workers; what is out of date for so many ticks is collected meanwhile.
    Run(usize, Option<u64>),
    Check,
    /// Check, and after a no tell why.
    CheckWithReason,
    /// Check, and go on after a no; tell why, where that is asked for.
    CheckAll(bool),
    /// Judge a history of any store.
    Import(ImportOptions),
}

impl CommandTask {
    /// What the lines say that it reads: none where it reads none.
    pub fn reads(self) -> Option<InputKind> {
        match self {
            CommandTask::Simulate
            | CommandTask::SimulateOn
            | CommandTask::SimulateChecked
            | CommandTask::SimulateSteps
            | CommandTask::SimulateBeside
            | CommandTask::Explain(_)
            | CommandTask::Reduce => Some(InputKind::Script),
            CommandTask::Run(..) => Some(InputKind::Run),
            CommandTask::Check | CommandTask::CheckWithReason | CommandTask::CheckAll(_) => {
                Some(InputKind::Trace)
            }
            CommandTask::Import(_) => Some(InputKind::History),
            CommandTask::Generate(_) => None,
        }
    }
}

/// What the command line asks for.
#[derive(Clone, Copy, Debug, PartialEq, Eq)]
pub struct CommandLine<'a> {
    pub task: CommandTask,
    /// The families that the regions of a script have.
    pub cells: CellsKind,
    /// Whether what a run came to is told on standard error.
    pub has_stats: bool,
    /// Whether empty lines and those that begin with `#` are passed over.
    pub has_comments: bool,
    /// What a reply of a script that is made shorter must have in it.
    pub keep: &'a str,
    /// The names of the keys that a picture shows, parted by commas; None is all.
    pub keys: Option<&'a str>,
    /// The names of the sessions that a picture shows, parted by commas; None is all.
    pub sessions: Option<&'a str>,
    /// The file that it reads; None is standard input.
    pub file: Option<&'a str>,
}

// What the command of this name does, by its options.
fn task_of(name: &str, asked: &ArgMatches<'_>) -> CommandTask {
    match name {
        "run" => CommandTask::Run(
            asked.get_one::<usize>("workers").unwrap_or(1),
            asked.get_one::<u64>("gc-life-time"),
        ),
        "simulate" if asked.get_flag("go-on") => CommandTask::SimulateOn,
        "simulate" if asked.get_flag("check") => CommandTask::SimulateChecked,
        "simulate" if asked.get_flag("beside") => CommandTask::SimulateBeside,
        "simulate" if asked.get_flag("steps") => CommandTask::SimulateSteps,
        "simulate" => CommandTask::Simulate,
        "import" => CommandTask::Import(import_options(asked)),
        "generate" => CommandTask::Generate(generate_options(asked)),
        "reduce" => CommandTask::Reduce,
        "explain" => CommandTask::Explain(explain_options(asked)),
        _ if asked.get_flag("all") => CommandTask::CheckAll(asked.get_flag("why")),
        _ if asked.get_flag("why") => CommandTask::CheckWithReason,
        _ => CommandTask::Check,
    }
}

// The names that are asked of a picture: options of other commands are called so as well.
fn names_asked<'a>(command: &str, asked: &ArgMatches<'a>, option: &str) -> Option<&'a str> {
    if command == "explain" {
        asked.get_str(option)
    } else {
        None
    }
}

/// The job of a command line that was read.
pub fn job_of<'a>(matches: &ArgMatches<'a>) -> CommandLine<'a> {
    match matches.subcommand() {
        Some((name, asked)) => CommandLine {
            task: task_of(name, asked),
            cells: cells_of(asked),
            has_stats: asked.get_flag("stats"),
            has_comments: asked.get_flag("comments"),
            keep: asked.get_str("keep").unwrap_or_default(),
            keys: names_asked(name, asked, "keys"),
            sessions: names_asked(name, asked, "sessions"),
            file: file_of(asked),
        },
        None => CommandLine {
            task: CommandTask::Check,
            cells: CellsKind::Flat,
            has_stats: false,
            has_comments: false,
            keep: "",
            keys: None,
            sessions: None,
            file: None,
        },
    }
}

// The file that is named: `-` names none.
fn file_of<'a>(asked: &ArgMatches<'a>) -> Option<&'a str> {
    asked.get_str("file").filter(|name| *name != "-")
}

/// The file that a command reads.
pub(crate) fn file<'a>(alloc: Global) -> Arg<'a> {
    Arg::new(alloc, "file")
        .value_name("FILE")
        .help("The file to read; - or nothing is standard input")
}

/// What is asked for by its name alone.
pub(crate) fn flag<'a>(alloc: Global, name: &'a str, help: &'a str) -> Arg<'a> {
    Arg::new(alloc, name)
        .long(name)
        .action(ArgAction::SetTrue)
        .help(help)
}

/// What passes over comments.
pub(crate) fn comments<'a>(alloc: Global) -> Arg<'a> {
    let help = "Passes over empty lines and lines that begin with #; what is left is numbered";
    flag(alloc, "comments", help)
}

/// A command with one more argument, if there was memory for that.
pub(crate) fn with<'a>(
    command: Command<'a>,
    arg: Result<Arg<'a>, AllocError>,
) -> Result<Command<'a>, AllocError> {
    command.arg(arg?)
}

// A command with one more below it, if there was memory for that.
fn with_command<'a>(
    command: Command<'a>,
    below: Result<Command<'a>, AllocError>,
) -> Result<Command<'a>, AllocError> {
    command.subcommand(below?)
}

fn check<'a>(alloc: Global) -> Result<Command<'a>, AllocError> {
    let why = "Tells after a no why the machine does not make that step";
    let all = "Goes on after a no, as if that line were not there";
    Command::new(alloc, "check")
        .about(help::CHECK_ABOUT)
        .after_help(help::CHECK_HELP)
        .arg(flag(alloc, "why", why))?
        .arg(flag(alloc, "all", all))?
        .arg(file(alloc))
}

// The machine's steps alone.
fn steps<'a>(alloc: Global) -> Result<Arg<'a>, AllocError> {
    let help = "Writes the machine's steps of the run alone, as a trace for txkv check";
    flag(alloc, "steps", help).conflicts_with("check")
}

// The line beside each of these steps.
fn beside<'a>(alloc: Global) -> Result<Arg<'a>, AllocError> {
    let help = "With --steps, writes each step beside the number of the line that made it";
    flag(alloc, "beside", help).requires_arg("steps")
}

// Going on after a fault.
fn go_on<'a>(alloc: Global) -> Result<Arg<'a>, AllocError> {
    let help =
        "Tells a fault and reads the next line, with no limit of lines: for programs that ask by lines";
    flag(alloc, "go-on", help)
        .conflicts_with("check")?
        .conflicts_with("steps")
}

fn simulate<'a>(alloc: Global) -> Result<Command<'a>, AllocError> {
    let checked = "Writes the machine's steps of the run after its replies, and that they are one";
    let command = Command::new(alloc, "simulate")
        .about(help::SIMULATE_ABOUT)
        .after_help(help::SIMULATE_HELP)
        .arg(flag(alloc, "check", checked))?;
    let command = with(command, steps(alloc))?;
    let command = with(command, beside(alloc))?;
    let command = with(command, go_on(alloc))?;
    command
        .arg(comments(alloc))?
        .arg(cells_option(alloc))?
        .arg(file(alloc))
}

// How many threads make the steps of a run.
fn workers<'a>(alloc: Global) -> Arg<'a> {
    Arg::new(alloc, "workers")
        .long("workers")
        .value_name("N")
        .help("How many threads make steps, 1 to 64")
        .required(true)
        .allow_negative_numbers(true)
        .value_parser(ValueParser::Unsigned(1, MAX_WORKERS as u64))
}

// How long what is out of date is kept in a run.
fn life_time<'a>(alloc: Global) -> Arg<'a> {
    Arg::new(alloc, "gc-life-time")
        .long("gc-life-time")
        .value_name("TICKS")
        .help("Collects meanwhile what is out of date for so many ticks; else nothing")
        .allow_negative_numbers(true)
        .value_parser(ValueParser::Unsigned(1, MAX_LIFE_TIME))
}

fn run<'a>(alloc: Global) -> Result<Command<'a>, AllocError> {
    let stats = "Tells on standard error what the run came to, and how long it took";
    Command::new(alloc, "run")
        .about(help::RUN_ABOUT)
        .after_help(help::RUN_HELP)
        .arg(workers(alloc))?
        .arg(life_time(alloc))?
        .arg(flag(alloc, "stats", stats))?
        .arg(comments(alloc))?
        .arg(cells_option(alloc))?
        .arg(file(alloc))
}

static SHELLS: [&str; 3] = ["bash", "zsh", "fish"];

fn completions<'a>(alloc: Global) -> Result<Command<'a>, AllocError> {
    let shell = Arg::new(alloc, "shell")
        .value_name("SHELL")
        .help("The shell: bash, zsh or fish")
        .required(true)
        .value_parser(ValueParser::Names(&SHELLS));
    Command::new(alloc, "completions")
        .about(help::COMPLETIONS_ABOUT)
        .after_help(help::COMPLETIONS_HELP)
        .arg(shell)
}

fn refusals<'a>(alloc: Global) -> Result<Command<'a>, AllocError> {
    let refusal = Arg::new(alloc, "refusal")
        .value_name("REFUSAL")
        .help("The one to tell of; nothing is all")
        .ignore_case(true)
        .value_parser(ValueParser::Names(&REFUSAL_NAMES));
    Command::new(alloc, "refusals")
        .about(help::REFUSALS_ABOUT)
        .after_help(help::REFUSALS)
        .arg(refusal)
}

fn example<'a>(alloc: Global) -> Result<Command<'a>, AllocError> {
    let name = Arg::new(alloc, "name")
        .value_name("NAME")
        .help("Which; nothing lists them")
        .value_parser(ValueParser::Names(&SAMPLE_NAMES));
    Command::new(alloc, "example")
        .about(help::EXAMPLE_ABOUT)
        .after_help(help::EXAMPLE_HELP)
        .arg(name)
}

fn reduce<'a>(alloc: Global) -> Result<Command<'a>, AllocError> {
    let keep = Arg::new(alloc, "keep")
        .long("keep")
        .value_name("TEXT")
        .help("What a reply is to have in it")
        .required(true);
    Command::new(alloc, "reduce")
        .about(help::REDUCE_ABOUT)
        .after_help(help::REDUCE_HELP)
        .arg(keep)?
        .arg(comments(alloc))?
        .arg(file(alloc))
}

/// The program with its commands, as a command line may say them.
pub(crate) fn program<'a>(alloc: Global) -> Result<Command<'a>, AllocError> {
    let command = Command::new(alloc, "txkv")
        .about(help::ABOUT)
        .version("0.1.0")
        .after_help(help::EXAMPLES)
        .subcommand_required(true);
    let command = with_command(command, simulate(alloc))?;
    let command = with_command(command, explain(alloc))?;
    let command = with_command(command, generate(alloc))?;
    let command = with_command(command, reduce(alloc))?;
    let command = with_command(command, run(alloc))?;
    let command = with_command(command, check(alloc))?;
    let command = with_command(command, import(alloc))?;
    let command = with_command(command, example(alloc))?;
    let command = with_command(command, refusals(alloc))?;
    with_command(command, completions(alloc))
}
