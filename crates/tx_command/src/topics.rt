//! What a word is: a step, a delivery, an operation of a history, or a refusal.
use crate::help::{CHECK_HELP, IMPORT_HELP, REFUSALS, RUN_HELP, SIMULATE_HELP};
use std::alloc::{AllocError, Global};

/// The refusals by their numbers.
pub(crate) static REFUSAL_NAMES: [&str; 17] = [
    "E1", "E2", "E3", "E4", "E5", "E6", "E7", "E8", "E9", "E10", "E11", "E12", "E13", "E14", "E15",
    "E16", "E17",
];

// The texts that have a line for each step, delivery or operation: a word is told of by the first
// that has it.
fn texts() -> [&'static str; 4] {
    [SIMULATE_HELP, RUN_HELP, CHECK_HELP, IMPORT_HELP]
}

// Whether a line of help goes on with what a line before it says.
fn goes_on(line: &str) -> bool {
    line.starts_with("     ")
}

// The word of a step, a delivery or an operation that a line of help tells of.
fn word_told(line: &'static str) -> Option<&'static str> {
    let rest = line
        .strip_prefix("  [\"")
        .or_else(|| line.strip_prefix("  \""))?;
    let (word, _) = rest.split_once('"')?;
    Some(word)
}

// Appends the lines of a text that tell of this word, which stands there in quotes, each with those
// that go on with it.
fn put_lines_with(out: &mut String, text: &'static str, quoted: &str) -> Result<(), AllocError> {
    let mut is_part = false;
    'lines: for line in text.lines() {
        let begins = word_told(line).is_some() && line.contains(quoted);
        is_part = begins || (is_part && goes_on(line));
        if is_part {
            out.push_str(line)?;
            out.push('\n')?;
        }
    }
    Ok(())
}

// Appends the lines of the table of refusals that tell of one.
fn put_refusal(out: &mut String, start: &str) -> Result<(), AllocError> {
    let mut is_part = false;
    'lines: for line in REFUSALS.lines() {
        is_part = line.starts_with(start) || (is_part && goes_on(line));
        if is_part {
            out.push_str(line)?;
            out.push('\n')?;
        }
    }
    Ok(())
}

// The number of a refusal as the table has it: typed in small letters it is the same.
fn refusal_of(word: &str) -> Option<&'static str> {
    let found = REFUSAL_NAMES
        .iter()
        .find(|name| name.eq_ignore_ascii_case(word))?;
    Some(*found)
}

/// What a step's word, a delivery's, an operation's or a refusal is, as help has it. None where it
/// is none of these.
pub fn topic(alloc: Global, word: &str) -> Result<Option<String>, AllocError> {
    let mut out = String::new(alloc);
    if let Some(name) = refusal_of(word) {
        let start = format!(in alloc; "  {name} ")?;
        put_refusal(&mut out, start.as_str())?;
        return Ok(Some(out));
    }
    let quoted = format!(in alloc; "\"{word}\"")?;
    'texts: for text in texts() {
        if out.is_empty() && !word.contains('"') {
            put_lines_with(&mut out, text, quoted.as_str())?;
        }
    }
    if out.is_empty() {
        Ok(None)
    } else {
        Ok(Some(out))
    }
}

// Appends the words of a text that are not there yet. Of one letter, as `r` of a history, a word is
// no nearer to what is typed than any other.
fn add_words(words: &mut Vec<&'static str>, text: &'static str) -> Result<(), AllocError> {
    'lines: for line in text.lines() {
        if let Some(word) = word_told(line) {
            if word.len() > 1 && !words.contains(&word) {
                words.push(word)?;
            }
        }
    }
    Ok(())
}

/// The words that have a topic, of two letters and more.
pub fn topic_words(alloc: Global) -> Result<Vec<&'static str>, AllocError> {
    let mut words = Vec::new(alloc);
    'texts: for text in texts() {
        add_words(&mut words, text)?;
    }
    words.extend_from_slice(REFUSAL_NAMES.as_slice())?;
    Ok(words)
}
