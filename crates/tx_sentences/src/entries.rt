//! What a session had entered that ended with nothing declared.
use crate::reasons::{Place, place_in_words};
use std::alloc::{AllocError, Global};
use tx_hints::escaped;
use tx_steps::{Line, Op, Program, Step};
use tx_text::{Broken, Parts};

// What a line does to what its session has entered.
#[derive(Clone, Copy, Debug, PartialEq, Eq)]
enum Entering<'a> {
    /// It begins a session of this name, which has entered nothing.
    Begins(&'a str),
    /// A session of this name enters something.
    Enters(&'a str),
    /// A session of this name is gone.
    Ends(&'a str),
    Nothing,
}

fn entering_of<'a>(step: Option<Step<&'a str>>) -> Entering<'a> {
    match step {
        Some(Step::Begin(name)) => Entering::Begins(name),
        Some(Step::Act(name, Op::Put(..) | Op::Insert(..) | Op::Delete(_) | Op::Lock(_))) => {
            Entering::Enters(name)
        }
        Some(Step::Act(name, Op::Finish)) => Entering::Ends(name),
        _ => Entering::Nothing,
    }
}

// The name of the session that a line ends.
fn ended_by(alloc: Global, number: u64, line: &[u8]) -> Result<Option<String>, Broken> {
    let mut parts = Parts::new();
    let Ok(said) = Line::read(alloc, number, line, &mut parts)? else {
        return Ok(None);
    };
    match entering_of(said.step(Program::Simulate)) {
        Entering::Ends(name) => Ok(Some(name.to_string(alloc)?)),
        _ => Ok(None),
    }
}

// Whether a session has something entered behind a line, where that line alone says so: what comes
// before it then makes no difference.
fn entered_by(alloc: Global, number: u64, line: &[u8], name: &str) -> Result<Option<bool>, Broken> {
    let mut parts = Parts::new();
    let Ok(said) = Line::read(alloc, number, line, &mut parts)? else {
        return Ok(None);
    };
    Ok(match entering_of(said.step(Program::Simulate)) {
        Entering::Begins(other) if other == name => Some(false),
        Entering::Enters(other) if other == name => Some(true),
        _ => None,
    })
}

/// The name of the session that the line of this number ends, where that session had entered
/// something before. Where its outcome is that it wrote nothing, it never declared it.
pub fn undeclared_at(
    alloc: Global,
    lines: &[&[u8]],
    number: u64,
) -> Result<Option<String>, Broken> {
    let Ok(count) = usize::try_from(number) else {
        return Ok(None);
    };
    let Some(([before @ .., last], _)) = lines.split_at_checked(count) else {
        return Ok(None);
    };
    let Some(name) = ended_by(alloc, number, last)? else {
        return Ok(None);
    };
    for back in 0..before.len() {
        let at = before.len() - 1 - back;
        let number = (at as u64).saturating_add(1);
        if let Some(entered) = entered_by(alloc, number, before[at], name.as_str())? {
            return Ok(if entered { Some(name) } else { None });
        }
    }
    Ok(None)
}

/// What is told of such a session.
pub fn note_undeclared(
    alloc: Global,
    place: Place<'_>,
    number: u64,
    name: &str,
) -> Result<String, AllocError> {
    let place = place_in_words(alloc, place, number)?;
    let note = format!(in alloc;
        "{place} session \"{name}\" ends as read-only: what it had entered was never declared"
    )?;
    escaped(alloc, note.as_str())
}
