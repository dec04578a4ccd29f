//! What is asked at a terminal between two lines of a script.
use crate::answers::Answers;
use memchr::memchr;
use std::alloc::{AllocError, Global};
use std::io::Write;
use tx_cells::Fresh;
use tx_command::{SIMULATE_HELP, topic, topic_words};
use tx_film::{RunQuestion, keys_of, lines_of};
use tx_hints::{escaped, meant};
use tx_script::{Broken, Plain, simulate, simulate_checked};
use tx_step_text::put_step;
use tx_steps::{Line, Op, Program, Step};
use tx_streams::Steps;
use tx_text::{Parts, finish, put_string, send};
use tx_types::Key;

const QUESTIONS: &str = "At a terminal:
  A put a x     A step, as pictures show it, or as JSON: [\"put\",\"A\",\"a\",\"x\"]
  :help WORD    A step, a delivery or a refusal: :help commit, :help hold
  :help         All steps, and these words
  :keys         What stands on each key: its lock, its records, its long values
  :sessions     The live sessions, each with its last line and the reply to it
  :held         The requests held and not delivered yet, and where they go
  :why          Why the last refused line was refused, and which line caused it
  :steps        The steps of the one-step machine so far
  :machine      What a session that begins now would read of that machine
  :explain      The run so far, as txkv explain shows it
  :script       The lines that went well
  :write FILE   Writes these to a new file
  :read FILE    Plays the lines of a file, up to a fault
  :undo         Takes back the last line that went well
  :quit         Leaves, as quit, exit and the end of the input do
Lines are edited and found again in: rlwrap txkv simulate
";

/// What a line is, that was typed.
#[derive(Clone, Copy, Debug, PartialEq, Eq)]
pub(crate) enum Asked<'a> {
    /// A comment, or nothing.
    Nothing,
    /// A step, or what is to be one.
    Step,
    /// A question, answered by what was played.
    Question,
    Quit,
    Undo,
    /// The lines of this file are to be played.
    Read(&'a str),
    /// The lines that went well are to be written to this file.
    Write(&'a str),
}

// What a line is that begins with a word of its own.
fn asked_by<'a>(word: &str, rest: &'a str) -> Asked<'a> {
    match (word, rest) {
        (":quit" | ":q" | ":exit" | "quit" | "exit", "") => Asked::Quit,
        (":undo", "") => Asked::Undo,
        (":read", name) if !name.is_empty() => Asked::Read(name),
        (":write", name) if !name.is_empty() => Asked::Write(name),
        ("help" | "?", _) => Asked::Question,
        _ if word.starts_with(':') => Asked::Question,
        _ => Asked::Step,
    }
}

/// What a line is.
pub(crate) fn asked_of(line: &[u8]) -> Asked<'_> {
    let Ok(text) = str::from_utf8(line) else {
        return Asked::Step;
    };
    let text = text.trim();
    if text.is_empty() || text.starts_with('#') {
        return Asked::Nothing;
    }
    match text.split_once(' ') {
        Some((word, rest)) => asked_by(word, rest.trim()),
        None => asked_by(text, ""),
    }
}

// That there is no help on a word, and which word was meant.
fn no_help(alloc: Global, word: &str) -> Result<String, AllocError> {
    let known = topic_words(alloc)?;
    let meant = meant(alloc, word, known.as_slice())?;
    let more = if meant.is_empty() {
        "; :help tells of all"
    } else {
        meant.as_str()
    };
    let word = escaped(alloc, word)?;
    format!(in alloc; "{word} is no step, no delivery and no refusal{more}\n")
}

// What a step, a delivery or a refusal is.
fn help_on(alloc: Global, word: &str) -> Result<Vec<u8>, Broken> {
    match topic(alloc, word)? {
        Some(text) => Ok(text.into_bytes()),
        None => Ok(no_help(alloc, word)?.into_bytes()),
    }
}

// Appends keys, each with what it was replied to its line behind the number.
fn put_keys(out: &mut Vec<u8>, keys: &[Key], replies: &[&[u8]]) -> Result<(), AllocError> {
    'keys: for (key, reply) in keys.iter().zip(replies) {
        put_string(out, key.as_bytes())?;
        let at = memchr(b',', reply).unwrap_or(0);
        out.extend_from_slice(b" [")?;
        out.extend_from_slice(reply.get(at.saturating_add(1)..).unwrap_or_default())?;
        out.push(b'\n')?;
    }
    Ok(())
}

// Appends a step for each key that shows what stands on it. Keys that lines name are UTF-8.
fn put_versions(out: &mut Vec<u8>, keys: &[Key]) -> Result<(), AllocError> {
    'keys: for key in keys {
        let text = str::from_utf8(key.as_bytes()).unwrap_or_default();
        put_step(out, &Step::Versions(text))?;
        out.push(b'\n')?;
    }
    Ok(())
}

// What stands on each key that the lines name.
fn keys<F: Fresh>(alloc: Global, script: &[u8]) -> Result<Vec<u8>, Broken> {
    let lines = lines_of(alloc, script)?;
    let keys = keys_of(alloc, lines.as_slice())?;
    let mut shown = script.to_vec(alloc)?;
    put_versions(&mut shown, keys.as_slice())?;
    let mut replies = Vec::new(alloc);
    simulate::<F, _, _, _>(
        alloc,
        &Plain,
        &mut shown.as_slice(),
        &mut replies,
        &mut None,
    )?;
    let replies = lines_of(alloc, replies.as_slice())?;
    let mut out = Vec::new(alloc);
    put_keys(
        &mut out,
        keys.as_slice(),
        replies.get(lines.len()..).unwrap_or_default(),
    )?;
    Ok(out)
}

// The machine's steps so far.
fn steps<F: Fresh>(alloc: Global, script: &[u8]) -> Result<Vec<u8>, Broken> {
    let mut out = Vec::new(alloc);
    let mut steps = Steps::new(alloc, &mut out);
    simulate_checked::<F, _, _, _>(alloc, &Plain, &mut &*script, &mut steps, &mut None)?;
    drop(steps);
    Ok(out)
}

// A live session, and the place of its last line.
#[derive(Debug, Drop)]
struct LiveSession {
    name: String,
    line: usize,
}

// Notes a line of this name, by which its session is gone or goes on.
fn note(
    alloc: Global,
    live: &mut Vec<LiveSession>,
    name: &str,
    is_gone: bool,
    line: usize,
) -> Result<(), AllocError> {
    let found = live
        .iter()
        .position(|session| session.name.as_str() == name);
    if let Some(k) = found {
        if is_gone && k < live.len() {
            live.remove(k);
        } else if let Some(session) = live.get_mut(k) {
            session.line = line;
        }
        return Ok(());
    }
    let name = name.to_string(alloc)?;
    live.push(LiveSession { name, line })?;
    Ok(())
}

// Notes whose line this is.
fn note_line(
    alloc: Global,
    live: &mut Vec<LiveSession>,
    text: &[u8],
    line: usize,
) -> Result<(), Broken> {
    let mut parts = Parts::new();
    let Ok(said) = Line::read(alloc, 1, text, &mut parts)? else {
        return Ok(());
    };
    match said.step(Program::Simulate) {
        Some(Step::Act(name, Op::Finish | Op::Stop)) => note(alloc, live, name, true, line)?,
        Some(Step::Begin(name) | Step::Act(name, _) | Step::Send(name, ..)) => {
            note(alloc, live, name, false, line)?;
        }
        _ => {}
    }
    Ok(())
}

// The live sessions after these lines.
fn live_after(alloc: Global, lines: &[&[u8]]) -> Result<Vec<LiveSession>, Broken> {
    let mut live = Vec::new(alloc);
    'lines: for (line, text) in lines.iter().enumerate() {
        note_line(alloc, &mut live, text, line)?;
    }
    Ok(live)
}

// The live sessions: the last line of each, and its reply.
fn sessions<F: Fresh>(alloc: Global, script: &[u8]) -> Result<Vec<u8>, Broken> {
    let lines = lines_of(alloc, script)?;
    let live = live_after(alloc, lines.as_slice())?;
    let mut replies = Vec::new(alloc);
    simulate::<F, _, _, _>(alloc, &Plain, &mut &*script, &mut replies, &mut None)?;
    let replies = lines_of(alloc, replies.as_slice())?;
    let mut out = Vec::new(alloc);
    'sessions: for session in &live {
        out.extend_from_slice(lines.get(session.line).copied().unwrap_or_default())?;
        out.extend_from_slice(b"  ")?;
        out.extend_from_slice(replies.get(session.line).copied().unwrap_or_default())?;
        out.push(b'\n')?;
    }
    Ok(out)
}

// What is known of a word, or with none, of all steps; and the questions.
fn help(alloc: Global, word: &str) -> Result<Vec<u8>, Broken> {
    if !word.is_empty() && !word.starts_with(':') {
        return help_on(alloc, word);
    }
    let mut out = Vec::new(alloc);
    if word.is_empty() {
        out.extend_from_slice(SIMULATE_HELP.as_bytes())?;
        out.extend_from_slice(b"\n\n")?;
    }
    out.extend_from_slice(QUESTIONS.as_bytes())?;
    Ok(out)
}

/// Answers what is asked after these lines.
pub(crate) fn answer_question<F: Fresh, O: Write, A: Answers>(
    alloc: Global,
    answers: &A,
    line: &[u8],
    script: &[u8],
    writer: &mut O,
) -> Result<(), Broken> {
    let line = str::from_utf8(line).unwrap_or_default().trim();
    let (word, rest) = line.split_once(' ').unwrap_or((line, ""));
    let text = match word {
        ":keys" => keys::<F>(alloc, script)?,
        ":sessions" => sessions::<F>(alloc, script)?,
        ":held" => answers.answer::<F>(alloc, RunQuestion::Held, script)?,
        ":why" => answers.answer::<F>(alloc, RunQuestion::Why, script)?,
        ":steps" => steps::<F>(alloc, script)?,
        ":machine" => answers.answer::<F>(alloc, RunQuestion::Machine, script)?,
        ":script" => script.to_vec(alloc)?,
        ":explain" => answers.picture::<F>(alloc, script)?,
        "help" | ":help" | "?" => help(alloc, rest.trim())?,
        other => help(alloc, other)?,
    };
    send(writer, text.as_slice())?;
    finish(writer)
}
