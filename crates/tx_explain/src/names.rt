//! Names that a script does not have.
use std::alloc::{AllocError, Global};
use tx_cut::Cut;
use tx_film::{keys_of, lines_of, session_named};
use tx_steps::{Line, Program};
use tx_text::{Broken, Parts};

/// A name that no line of a script has.
#[derive(Clone, Copy, Debug, PartialEq, Eq)]
pub enum MissingName<'a> {
    /// No line names a key so.
    Key(&'a str),
    /// No line names a session so.
    Session(&'a str),
}

// Of so many names none was found.
fn none_found(alloc: Global, count: usize) -> Result<Vec<bool>, AllocError> {
    let mut found = Vec::new(alloc);
    for _ in 0..count {
        found.push(false)?;
    }
    Ok(found)
}

// Notes that a name was found, where it is one of these.
fn note_found(names: &[&str], found: &mut [bool], name: &str) {
    'names: for (place, sought) in names.iter().enumerate() {
        if let (true, Some(is_found)) = (*sought == name, found.get_mut(place)) {
            *is_found = true;
        }
    }
}

// Notes the session of a line, where it is one of these.
fn note_session(
    alloc: Global,
    names: &[&str],
    found: &mut [bool],
    line: &[u8],
) -> Result<(), Broken> {
    let mut parts = Parts::new();
    let Ok(said) = Line::read(alloc, 1, line, &mut parts)? else {
        return Ok(());
    };
    if let Some(step) = said.step(Program::Simulate) {
        if let Some(name) = session_named(&step) {
            note_found(names, found, name);
        }
    }
    Ok(())
}

// The first of these names that was not found.
fn first_missing<'a>(names: &[&'a str], found: &[bool]) -> Option<&'a str> {
    'names: for (name, is_found) in names.iter().zip(found) {
        if !*is_found {
            return Some(*name);
        }
    }
    None
}

// The first of these names that no session has.
fn missing_session<'a>(
    alloc: Global,
    lines: &[&[u8]],
    names: &[&'a str],
) -> Result<Option<&'a str>, Broken> {
    let mut found = none_found(alloc, names.len())?;
    'lines: for line in lines {
        note_session(alloc, names, found.as_mut_slice(), line)?;
    }
    Ok(first_missing(names, found.as_slice()))
}

// The first of these names that no key has.
fn missing_key<'a>(
    alloc: Global,
    lines: &[&[u8]],
    names: &[&'a str],
) -> Result<Option<&'a str>, Broken> {
    let keys = keys_of(alloc, lines)?;
    'names: for name in names {
        if !keys.iter().any(|key| key.as_bytes() == name.as_bytes()) {
            return Ok(Some(*name));
        }
    }
    Ok(None)
}

/// The first name that is asked for and that no line of a script has: of keys, and then of
/// sessions.
pub fn missing_in<'a>(
    alloc: Global,
    script: &[u8],
    cut: Cut<'a>,
) -> Result<Option<MissingName<'a>>, Broken> {
    let lines = lines_of(alloc, script)?;
    if let Some(name) = missing_key(alloc, lines.as_slice(), cut.keys)? {
        return Ok(Some(MissingName::Key(name)));
    }
    match missing_session(alloc, lines.as_slice(), cut.sessions)? {
        Some(name) => Ok(Some(MissingName::Session(name))),
        None => Ok(None),
    }
}
