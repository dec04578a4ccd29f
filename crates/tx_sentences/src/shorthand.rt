//! Steps as people type them, and as pictures show them: `A put a x` for `["put","A","a","x"]`.
use crate::form::{Form, Kind, More, form_of, words_of};
use crate::input::InputKind;
use std::alloc::{AllocError, Global};
use tx_hints::{escaped, meant};
use tx_text::put_string;

// Where in what was typed a word ends.
#[derive(Clone, Copy, Debug)]
struct Quotes {
    is_open: bool,
    is_escaped: bool,
}

impl Quotes {
    // The quotes behind a character.
    fn after(self, character: char) -> Quotes {
        match character {
            _ if self.is_escaped => Quotes {
                is_escaped: false,
                ..self
            },
            '\\' if self.is_open => Quotes {
                is_escaped: true,
                ..self
            },
            '"' => Quotes {
                is_open: !self.is_open,
                ..self
            },
            _ => self,
        }
    }
}

// The words of a text: between blanks that stand in no quotes.
fn words_in(alloc: Global, text: &str) -> Result<Vec<&str>, AllocError> {
    let mut words = Vec::new(alloc);
    let mut quotes = Quotes {
        is_open: false,
        is_escaped: false,
    };
    let mut from = 0_usize;
    'characters: for (at, character) in text.char_indices() {
        if character.is_whitespace() && !quotes.is_open {
            if from < at {
                words.push(text.get(from..at).unwrap_or_default())?;
            }
            from = at.saturating_add(character.len_utf8());
        }
        quotes = quotes.after(character);
    }
    if from < text.len() {
        words.push(text.get(from..).unwrap_or_default())?;
    }
    Ok(words)
}

// Whether a member of this kind is a number.
fn is_number(kind: Kind) -> bool {
    matches!(
        kind,
        Kind::Stamp | Kind::Ttl | Kind::Ticks | Kind::Limit | Kind::Amount
    )
}

// Whether a word that stands behind these members is a number.
fn is_number_at(form: Form, place: usize) -> bool {
    match form.members.get(place) {
        Some(kind) => is_number(*kind),
        None => form.more == More::MaxCommit,
    }
}

// Appends a word as a member: a number where one stands there, else a string.
fn put_member(out: &mut Vec<u8>, word: &str, is_number: bool) -> Result<(), AllocError> {
    let is_plain = is_number && word.bytes().all(|byte| byte.is_ascii_digit());
    if is_plain || word.starts_with('"') {
        return Ok(out.extend_from_slice(word.as_bytes())?);
    }
    put_string(out, word.as_bytes())
}

// Appends words behind the word of a step, as its members.
fn put_members(out: &mut Vec<u8>, form: Form, words: &[&str]) -> Result<(), AllocError> {
    'words: for (place, word) in words.iter().enumerate() {
        out.push(b',')?;
        put_member(out, word, is_number_at(form, place))?;
    }
    Ok(())
}

// Appends the keys between the regions.
fn put_bounds(out: &mut Vec<u8>, words: &[&str]) -> Result<(), AllocError> {
    let mut between = b",[".as_slice();
    'words: for word in words {
        out.extend_from_slice(between)?;
        put_member(out, word, false)?;
        between = b",";
    }
    out.push(b']')?;
    Ok(())
}

// The step with this word, and these words behind it.
fn step_with(alloc: Global, word: &str, form: Form, words: &[&str]) -> Result<Vec<u8>, AllocError> {
    let mut out = Vec::new(alloc);
    out.push(b'[')?;
    put_string(&mut out, word.as_bytes())?;
    if matches!(form.members, [Kind::Bounds]) {
        put_bounds(&mut out, words)?;
    } else {
        put_members(&mut out, form, words)?;
    }
    out.push(b']')?;
    Ok(out)
}

// The form of a step that this word begins, as it is typed: no word of a session's step does so.
fn own_form(number: u64, word: &str) -> Option<Form> {
    let form = form_of(InputKind::Script, number, word)?;
    match form.members {
        [Kind::Session, ..] => None,
        _ => Some(form),
    }
}

/// Whether a line is typed as people type steps, and not as JSON.
pub fn is_shorthand(line: &[u8]) -> bool {
    let first = line.iter().find(|byte| !byte.is_ascii_whitespace());
    matches!(first, Some(byte) if byte.is_ascii_alphanumeric() || *byte == b'_')
}

/// The step of one session, `A put a x`, or of none, `tick 3`, that was typed so for the line of
/// this number: as a line of a script. A word with blanks in it is typed as a JSON string, and what
/// a step wants and no word says is left out. None where no word is that of a step.
pub fn step_typed(alloc: Global, number: u64, text: &str) -> Result<Option<Vec<u8>>, AllocError> {
    let words = words_in(alloc, text)?;
    let (Some(first), second) = (words.first(), words.get(1)) else {
        return Ok(None);
    };
    let rest = words.as_slice().get(1..).unwrap_or_default();
    if let Some(form) = own_form(number, first) {
        return Ok(Some(step_with(alloc, first, form, rest)?));
    }
    let Some(second) = second else {
        return match form_of(InputKind::Script, number, first) {
            Some(form) => Ok(Some(step_with(alloc, first, form, rest)?)),
            None => Ok(None),
        };
    };
    let (word, form, name) = match form_of(InputKind::Script, number, second) {
        Some(form) => (second, form, first),
        None => match form_of(InputKind::Script, number, first) {
            Some(form) => (first, form, second),
            None => return Ok(None),
        },
    };
    let mut members = Vec::new(alloc);
    members.push(*name)?;
    members.extend_from_slice(words.as_slice().get(2..).unwrap_or_default())?;
    Ok(Some(step_with(alloc, word, form, members.as_slice())?))
}

/// What is told of a line that was typed in words, none of which is that of a step.
pub fn no_step_typed(alloc: Global, number: u64, text: &str) -> Result<String, AllocError> {
    let words = words_in(alloc, text)?;
    let place = if words.len() > 1 { 1 } else { 0 };
    let word = words.get(place).copied().unwrap_or_default();
    let known = words_of(alloc, InputKind::Script, number)?;
    let meant = meant(alloc, word, known.as_slice())?;
    let more = if meant.is_empty() {
        "; :help tells of all"
    } else {
        meant.as_str()
    };
    let told = format!(in alloc; "line {number}: json: no word of it is that of a step{more}")?;
    escaped(alloc, told.as_str())
}
