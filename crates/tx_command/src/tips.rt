//! What is told of a command line at fault.
use crate::commands::program;
use clap::{Command, Error};
use std::alloc::{AllocError, Global};

// The word of which a line says how it is passed as a value.
fn word_in(line: &str) -> Option<&str> {
    let rest = line.strip_prefix("  tip: to pass '")?;
    let (word, _) = rest.split_once("' as a value, use '")?;
    Some(word)
}

// Whether a command has the option that this word says.
fn has_option(command: &Command<'_>, word: &str) -> bool {
    let Some(name) = word.strip_prefix("--") else {
        return false;
    };
    'options: for arg in command.get_arguments() {
        if arg.get_long() == Some(name) {
            return true;
        }
    }
    false
}

// Appends a command that has an option, the first of them behind what it is.
fn put_owner(out: &mut String, command: &Command<'_>, is_first: bool) -> Result<(), AllocError> {
    if is_first {
        out.push_str(" is an option of txkv ")?;
    } else {
        out.push_str(", txkv ")?;
    }
    out.push_str(command.get_name())
}

// Appends which commands have the option that a word says: whether some has.
fn put_commands_with(alloc: Global, out: &mut String, word: &str) -> Result<bool, AllocError> {
    let program = program(alloc)?;
    let mut is_found = false;
    'commands: for command in program.get_subcommands() {
        if has_option(command, word) {
            put_owner(out, command, !is_found)?;
            is_found = true;
        }
    }
    Ok(is_found)
}

// Appends what may have been meant by a word that is no option here: that of another command, or
// the name of a file.
fn put_tip(alloc: Global, out: &mut String, word: &str) -> Result<(), AllocError> {
    let tip = format!(in alloc; "  tip: '{word}'")?;
    out.push_str(tip.as_str())?;
    if put_commands_with(alloc, out, word)? {
        return Ok(());
    }
    let file = format!(in alloc; " as the name of a file is '-- {word}'")?;
    out.push_str(file.as_str())
}

/// What is told of a command line at fault, in lines. Of an option that is none of its command it
/// says which commands have it; where none has, how a file of that name is read.
pub fn fault_text(alloc: Global, error: &Error) -> Result<String, AllocError> {
    let told = format!(in alloc; "{error}")?;
    let mut out = String::new(alloc);
    'lines: for line in told.as_str().lines() {
        match word_in(line) {
            Some(word) => put_tip(alloc, &mut out, word)?,
            None => out.push_str(line)?,
        }
        out.push('\n')?;
    }
    Ok(out)
}
