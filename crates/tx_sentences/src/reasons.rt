//! Why a line is a fault, in a sentence for who wrote it: the line, the member and the rule.
use crate::form::{Form, More, form_of, words_of};
use crate::history::wrong_transaction;
use crate::input::InputKind;
use crate::line::{Member, members_in};
use crate::member::{is_of, meant_for, rule_of};
use crate::show::shown;
use crate::state::{too_many, wrong_name, wrong_state};
use serde_json::{Error, Value};
use std::alloc::{AllocError, Global};
use tx_hints::{escaped, meant, wrong_json};
use tx_streams::NotedFaults;
use tx_types::Cause;

/// Where a line stands.
#[derive(Clone, Copy, Debug, PartialEq, Eq)]
pub struct Place<'a> {
    /// The file; None is standard input.
    pub file: Option<&'a str>,
    /// The number of the line there, comments and empty lines counted.
    pub line: u64,
}

// The word of a cause, as the line of a fault has it.
fn word_of(cause: Cause) -> &'static str {
    match cause {
        Cause::Json => "json",
        Cause::Form => "form",
        Cause::Name => "name",
        Cause::Order => "order",
        Cause::Long => "long",
        Cause::Lines => "lines",
        Cause::Sessions => "sessions",
    }
}

// A member is not what it should be.
fn no_such(
    alloc: Global,
    member: Member<'_>,
    what: &str,
    rule: &str,
) -> Result<Option<String>, AllocError> {
    no_such_word(alloc, member, what, rule, "")
}

// A member is not the word that it should be, and which was meant.
fn no_such_word(
    alloc: Global,
    member: Member<'_>,
    what: &str,
    rule: &str,
    meant: &str,
) -> Result<Option<String>, AllocError> {
    let member = shown(alloc, member)?;
    Ok(Some(format!(in alloc; "{member} is no {what} ({rule}){meant}")?))
}

// Which other command reads the step with this word and these members.
fn reader_of(
    alloc: Global,
    kind: InputKind,
    word: &str,
    members: &[Member<'_>],
) -> Result<Option<InputKind>, AllocError> {
    'kinds: for other in [InputKind::Script, InputKind::Run, InputKind::Trace] {
        if other == kind {
            continue;
        }
        if let Some(form) = form_of(other, 2, word) {
            if wrong_members(alloc, word, form, members)?.is_none() {
                return Ok(Some(other));
            }
        }
    }
    Ok(None)
}

// Why there is no step with this word among those that a command reads.
fn unknown_step(
    alloc: Global,
    kind: InputKind,
    number: u64,
    word: Member<'_>,
    members: &[Member<'_>],
) -> Result<String, AllocError> {
    let command = kind.command();
    let name = word.as_str().unwrap_or_default();
    if name == "regions" && kind != InputKind::Trace {
        return "only line 1 may say the regions".to_string(alloc);
    }
    let word = shown(alloc, word)?;
    if let Some(other) = reader_of(alloc, kind, name, members)? {
        let other = other.command();
        return format!(in alloc; "{word} is no step of {command}; {other} has it");
    }
    let words = words_of(alloc, kind, number)?;
    let meant = meant(alloc, name, words.as_slice())?;
    format!(in alloc; "{word} is no step of {command}{meant}")
}

// Why a step with the word of a script's has no members of one: it is a step of the machine, or one
// of a script in a trace.
fn misplaced(
    alloc: Global,
    kind: InputKind,
    word: &str,
    members: &[Member<'_>],
) -> Result<Option<String>, AllocError> {
    let text = match (kind, reader_of(alloc, kind, word, members)?) {
        (InputKind::Script | InputKind::Run, Some(InputKind::Trace)) => {
            "it is a step of a trace, which txkv check reads"
        }
        (InputKind::Trace, Some(_)) => "it is a step of a script, which txkv simulate reads",
        _ => return Ok(None),
    };
    Ok(Some(text.to_string(alloc)?))
}

// A member stands where the step has ended.
fn beyond(alloc: Global, members: &[Member<'_>]) -> Result<Option<String>, AllocError> {
    match members.first() {
        None => Ok(None),
        Some(member) => {
            let member = shown(alloc, *member)?;
            Ok(Some(format!(in alloc; "{member} stands behind the last member of the step")?))
        }
    }
}

// Why these members are no delivery.
fn wrong_delivery(alloc: Global, rest: &[Member<'_>]) -> Result<Option<String>, AllocError> {
    let Some((first, after)) = rest.split_first() else {
        return Ok(None);
    };
    match (first.as_str(), after) {
        (Some("lose" | "lose-reply" | "repeat"), _) => beyond(alloc, after),
        (Some("hold"), []) => Ok(Some("\"hold\" wants a name behind it".to_string(alloc)?)),
        (Some("hold"), [name, more @ ..]) => {
            if name.as_str().is_none() {
                return no_such(alloc, *name, "held request's name", "a string");
            }
            beyond(alloc, more)
        }
        _ => {
            let word = first.as_str().unwrap_or_default();
            let meant = meant(alloc, word, &["lose", "lose-reply", "repeat", "hold"])?;
            let rule = "lose, lose-reply, repeat, hold";
            no_such_word(alloc, *first, "delivery", rule, meant.as_str())
        }
    }
}

// Why these members are no timestamp that ends a step.
fn wrong_stamp(alloc: Global, rest: &[Member<'_>]) -> Result<Option<String>, AllocError> {
    match rest.split_first() {
        None => Ok(None),
        Some((stamp, _)) if stamp.value.as_u64().is_none() => {
            no_such(alloc, *stamp, "timestamp", "a whole number below 2^64")
        }
        Some((_, more)) => beyond(alloc, more),
    }
}

// Why these members may not follow those of a form, the last but one or last of which is this word.
fn wrong_rest(
    alloc: Global,
    form: Form,
    members: &[Member<'_>],
    rest: &[Member<'_>],
) -> Result<Option<String>, AllocError> {
    let word = match members.get(1) {
        Some(word) => word.as_str(),
        None => None,
    };
    match (form.more, word) {
        (More::Delivery, _) => wrong_delivery(alloc, rest),
        (More::MaxCommit, Some("async")) => wrong_stamp(alloc, rest),
        (More::At, Some("committed")) if rest.is_empty() => Ok(Some(
            "\"committed\" wants its timestamp behind it".to_string(alloc)?,
        )),
        (More::At, Some("committed")) => wrong_stamp(alloc, rest),
        _ => beyond(alloc, rest),
    }
}

// What a step wants that has too few members.
fn too_few(alloc: Global, word: &str, form: Form) -> Result<Option<String>, AllocError> {
    let mut text = format!(in alloc; "\"{word}\" wants behind it: ")?;
    let mut between = "";
    'members: for kind in form.members {
        let (what, _) = rule_of(*kind);
        text.push_str(between)?;
        text.push_str(what)?;
        between = ", ";
    }
    Ok(Some(text))
}

// Why members are not those of a step.
fn wrong_members(
    alloc: Global,
    word: &str,
    form: Form,
    members: &[Member<'_>],
) -> Result<Option<String>, AllocError> {
    'members: for (kind, member) in form.members.iter().zip(members) {
        if !is_of(*kind, member.value) {
            let (what, rule) = rule_of(*kind);
            let meant = meant_for(alloc, *kind, member.as_str().unwrap_or_default())?;
            return no_such_word(alloc, *member, what, rule, meant.as_str());
        }
    }
    match members.get(form.members.len()..) {
        None => too_few(alloc, word, form),
        Some(rest) => wrong_rest(alloc, form, members, rest),
    }
}

// A transfer moves between two keys.
fn is_to_itself(word: &str, members: &[Member<'_>]) -> bool {
    match members {
        [_, from, to, _, _] => word == "transfer" && from.as_str() == to.as_str(),
        _ => false,
    }
}

// Why the step with this word and these members is none of those that a command reads.
fn wrong_step(
    alloc: Global,
    kind: InputKind,
    number: u64,
    first: Member<'_>,
    members: &[Member<'_>],
) -> Result<Option<String>, AllocError> {
    let word = first.as_str().unwrap_or_default();
    let Some(form) = form_of(kind, number, word) else {
        return Ok(Some(unknown_step(alloc, kind, number, first, members)?));
    };
    if is_to_itself(word, members) {
        return Ok(Some("a transfer moves between two different keys".to_string(alloc)?));
    }
    let why = wrong_members(alloc, word, form, members)?;
    if why.is_some() {
        if let Some(why) = misplaced(alloc, kind, word, members)? {
            return Ok(Some(why));
        }
    }
    Ok(why)
}

// Why members are no step, or why their step is a fault of this cause.
fn wrong_line(
    alloc: Global,
    kind: InputKind,
    fault: NotedFaults,
    members: &[Member<'_>],
    state: Option<&str>,
) -> Result<Option<String>, AllocError> {
    let Some((first, members)) = members.split_first() else {
        return Ok(Some("the array is empty: a step begins with its word".to_string(alloc)?));
    };
    let Some(word) = first.as_str() else {
        return no_such(alloc, *first, "step's word", "a string");
    };
    match fault.cause {
        Cause::Name => wrong_name(alloc, word, members),
        Cause::Order => wrong_state(alloc, word, members, state),
        Cause::Sessions => too_many(alloc, word),
        _ => wrong_step(alloc, kind, fault.number, *first, members),
    }
}

// Why a value, which is that of a line, is no step, or why its step is a fault of this cause.
fn wrong_value(
    alloc: Global,
    kind: InputKind,
    fault: NotedFaults,
    line: &str,
    value: &Value,
    state: Option<&str>,
) -> Result<Option<String>, AllocError> {
    if let Some(values) = value.as_array() {
        let members = members_in(alloc, line, values.as_slice())?;
        return wrong_line(alloc, kind, fault, members.as_slice(), state);
    }
    let hint = if value.is_object() {
        ": transactions of a history are for txkv import"
    } else {
        ""
    };
    Ok(Some(format!(in alloc; "the line is no array{hint}")?))
}

// Why a line is no JSON value, which the parser refuses so; of a script's line that begins with a
// colon, also where such words are answered.
fn no_json(
    alloc: Global,
    kind: InputKind,
    line: &str,
    error: &Error,
) -> Result<String, AllocError> {
    let mut why = wrong_json(alloc, line.as_bytes(), error)?;
    if kind == InputKind::Script && line.trim().starts_with(':') {
        why.push_str("; words with a colon are for a terminal")?;
    }
    Ok(why)
}

/// Why a line is a fault, where that can be said of the line: the member, and the rule that it
/// breaks; or `state`, what is so of its session, where that is known.
pub fn why(
    alloc: Global,
    kind: InputKind,
    fault: NotedFaults,
    line: &[u8],
    state: Option<&str>,
) -> Result<Option<String>, AllocError> {
    if matches!(fault.cause, Cause::Long | Cause::Lines) {
        return Ok(None);
    }
    let Ok(text) = str::from_utf8(line) else {
        return Ok(Some("the line is not UTF-8".to_string(alloc)?));
    };
    match Value::from_slice(alloc, line) {
        Ok(value) => match kind {
            InputKind::History => wrong_transaction(alloc, text, &value),
            _ => wrong_value(alloc, kind, fault, text, &value, state),
        },
        Err(error) if error.is_memory() => Err(AllocError),
        Err(error) => Ok(Some(no_json(alloc, kind, text, &error)?)),
    }
}

// A cause in words, where no more can be said of a line.
fn cause_in_words(alloc: Global, kind: InputKind, cause: Cause) -> Result<String, AllocError> {
    match (kind, cause) {
        (InputKind::History, Cause::Form) => {
            "the history is at fault here, as is told above".to_string(alloc)
        }
        _ => format!(in alloc; "{cause}"),
    }
}

/// Where a line stands, as a sentence begins: its file and its number, as editors read them.
pub(crate) fn place_in_words(
    alloc: Global,
    place: Place<'_>,
    number: u64,
) -> Result<String, AllocError> {
    let Place { file, line } = place;
    let step = if line == number {
        String::new(alloc)
    } else {
        format!(in alloc; " step {number}:")?
    };
    match file {
        Some(file) => format!(in alloc; "{file}:{line}:{step}"),
        None => format!(in alloc; "line {line}:{step}"),
    }
}

/// The sentence for a fault: where its line stands, its cause, and why, by the line where it is at
/// hand, and by what is so of its session where that is known. It is one line, and safe to be shown
/// at a terminal, whatever the line has in it.
pub fn reason(
    alloc: Global,
    kind: InputKind,
    place: Place<'_>,
    fault: NotedFaults,
    line: Option<&[u8]>,
    state: Option<&str>,
) -> Result<String, AllocError> {
    let found = match line {
        Some(line) => why(alloc, kind, fault, line, state)?,
        None => None,
    };
    let why = match found {
        Some(why) => why,
        None => cause_in_words(alloc, kind, fault.cause)?,
    };
    let place = place_in_words(alloc, place, fault.number)?;
    let word = word_of(fault.cause);
    let sentence = format!(in alloc; "{place} {word}: {why}")?;
    escaped(alloc, sentence.as_str())
}
