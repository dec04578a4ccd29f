//! A command line, read: what it asks for, or what is shown in its place.
use crate::commands::program;
use crate::samples::{SAMPLES, text_of_sample};
use crate::topics::{topic, topic_words};
use clap::error::ErrorKind;
use clap::{ArgMatches, Command, Error};
use std::alloc::{AllocError, Global};
use tx_hints::{Shell, escaped, wrapped};

/// How many places a line of help takes at most, where nobody says.
pub const USUAL_WIDTH: usize = 80;

// The fewest and the most that one may ask for.
const LEAST_WIDTH: usize = 50;

const MOST_WIDTH: usize = 200;

/// How many places a line takes at most at a terminal that says it has so many, as `COLUMNS` does.
pub fn width_of(columns: Option<&str>) -> usize {
    let Some(columns) = columns else {
        return USUAL_WIDTH;
    };
    match columns.parse::<usize>() {
        Ok(width) => width.max(LEAST_WIDTH).min(MOST_WIDTH),
        Err(_) => USUAL_WIDTH,
    }
}

// The shell that is named.
fn shell_of(asked: &ArgMatches<'_>) -> Shell {
    match asked.get_str("shell") {
        Some("zsh") => Shell::Zsh,
        Some("fish") => Shell::Fish,
        _ => Shell::Bash,
    }
}

// A text that is all that is shown, as help is.
fn text_alone(alloc: Global, text: &str) -> Error {
    let shown = Command::new(alloc, "txkv").override_help(text);
    match shown.try_get_matches_from(&["txkv", "--help"]) {
        Err(error) => error,
        // Who asks for help gets no matches.
        Ok(_) => Error::from(AllocError),
    }
}

// A text of help with no line over so many places.
fn help_alone(alloc: Global, text: &str, width: usize) -> Result<Error, AllocError> {
    let text = wrapped(alloc, text, width)?;
    Ok(text_alone(alloc, text.as_str().trim_end()))
}

// Words made safe to be told, but for the one at this place.
fn escaped_words(
    alloc: Global,
    words: &[String],
    left_out: Option<usize>,
) -> Result<Vec<String>, AllocError> {
    let mut safe = Vec::new(alloc);
    'words: for (place, word) in words.iter().enumerate() {
        if Some(place) != left_out {
            safe.push(escaped(alloc, word.as_str())?)?;
        }
    }
    Ok(safe)
}

// What is shown for words in place of a job, where something is.
fn shown_alone(alloc: Global, words: &[String]) -> Result<Option<Error>, AllocError> {
    match program(alloc)?.try_get_matches_from(words) {
        Err(error) => Ok(Some(error)),
        Ok(_) => Ok(None),
    }
}

// What is told of words that are at fault: of the words as they can be told.
fn fault_of(alloc: Global, words: &[String]) -> Result<Error, AllocError> {
    let safe = escaped_words(alloc, words, None)?;
    match shown_alone(alloc, safe.as_slice())? {
        Some(error) => Ok(error),
        // What is at fault stays so when it is escaped.
        None => Ok(Error::from(AllocError)),
    }
}

// What is shown for the word behind `help`, where that names no command: what it is, or that it is
// nothing, as for a command of that name.
fn help_on(
    alloc: Global,
    words: &[String],
    word: &str,
    width: usize,
) -> Result<Option<Error>, AllocError> {
    if let Some(text) = topic(alloc, word)? {
        return Ok(Some(help_alone(alloc, text.as_str(), width)?));
    }
    let others = escaped_words(alloc, words, Some(1))?;
    let Some(error) = shown_alone(alloc, others.as_slice())? else {
        return Ok(None);
    };
    match error.kind() {
        ErrorKind::InvalidSubcommand => Ok(Some(error)),
        ErrorKind::DisplayHelp => {
            let text = format!(in alloc; "{error}")?;
            Ok(Some(help_alone(alloc, text.as_str(), width)?))
        }
        _ => Ok(None),
    }
}

// What is shown in place of matches.
fn shown_for(
    alloc: Global,
    words: &[String],
    error: Error,
    width: usize,
) -> Result<Error, AllocError> {
    if error.kind() == ErrorKind::OutOfMemory {
        return Ok(error);
    }
    if let [_, first, word] = words {
        if first.as_str() == "help" {
            if let Some(shown) = help_on(alloc, words, word.as_str(), width)? {
                return Ok(shown);
            }
        }
    }
    if error.use_stderr() {
        return fault_of(alloc, words);
    }
    if error.kind() != ErrorKind::DisplayHelp {
        return Ok(error);
    }
    let text = format!(in alloc; "{error}")?;
    help_alone(alloc, text.as_str(), width)
}

// The list of the examples.
fn list_of_samples(alloc: Global) -> Result<String, AllocError> {
    let mut text = String::new(alloc);
    'samples: for sample in SAMPLES {
        let line = format!(in alloc; "{:30}{}\n", sample.name, sample.about)?;
        text.push_str(line.as_str())?;
    }
    Ok(text)
}

// What completes command lines in a shell.
fn completions(alloc: Global, shell: Shell) -> Result<String, AllocError> {
    let words = topic_words(alloc)?;
    tx_hints::completions(alloc, &program(alloc)?, words.as_slice(), shell)
}

// What a command shows that does nothing else: the table of refusals, an example, what completes
// command lines.
fn text_of(alloc: Global, matches: &ArgMatches<'_>, width: usize) -> Result<Option<Error>, Error> {
    match matches.subcommand() {
        Some(("refusals", asked)) => {
            let refusal = asked.get_str("refusal").unwrap_or_default();
            match topic(alloc, refusal)? {
                Some(text) => Ok(Some(help_alone(alloc, text.as_str(), width)?)),
                None => Ok(Some(help_alone(alloc, crate::help::REFUSALS, width)?)),
            }
        }
        Some(("example", asked)) => match asked.get_str("name") {
            Some(name) => Ok(Some(text_alone(alloc, text_of_sample(name).trim_end()))),
            None => {
                let text = list_of_samples(alloc)?;
                Ok(Some(help_alone(alloc, text.as_str(), width)?))
            }
        },
        Some(("completions", asked)) => {
            let text = completions(alloc, shell_of(asked))?;
            Ok(Some(text_alone(alloc, text.as_str())))
        }
        _ => Ok(None),
    }
}

/// The command that the words ask for, the first of which is the program; `Err` also where they ask
/// for what is only shown: help, the version, the table of refusals, an example, and what completes
/// command lines in a shell. Help has lines of so many places at most. What is told of words at
/// fault is safe to be shown at a terminal, whatever they have in them.
pub fn parse<'a>(
    alloc: Global,
    words: &'a [String],
    width: usize,
) -> Result<ArgMatches<'a>, Error> {
    match program(alloc)?.try_get_matches_from(words) {
        Err(error) => Err(shown_for(alloc, words, error, width)?),
        Ok(matches) => match text_of(alloc, &matches, width)? {
            Some(shown) => Err(shown),
            None => Ok(matches),
        },
    }
}
