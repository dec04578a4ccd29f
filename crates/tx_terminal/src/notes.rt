//! What is told on standard error of a line that was played.
use tx_film::lines_of;
use tx_script::{Broken, SessionStage};
use tx_sentences::{
    InputKind, Place, is_shorthand, no_step_typed, note_undeclared, reason, undeclared_at,
};
use tx_streams::NotedFaults;
use tx_types::Cause;

// Tells that what was typed in words is no step.
fn tell_words(host: HostRuntime, number: u64, line: &[u8]) {
    let text = str::from_utf8(line).unwrap_or_default();
    if let Ok(why) = no_step_typed(host.alloc(), number, text) {
        let _ = eprintln!(host; "txkv: {why}");
    }
}

/// Tells why the line of this number is a fault, and how far its session is where that is why. What
/// cannot be told is left out.
pub(crate) fn tell_why(
    host: HostRuntime,
    number: u64,
    cause: Cause,
    line: &[u8],
    stage: Option<SessionStage>,
) {
    let fault = NotedFaults { number, cause };
    let state = stage.map(|stage| stage.as_str());
    let place = Place {
        file: None,
        line: number,
    };
    let kind = InputKind::Script;
    if let Ok(why) = reason(host.alloc(), kind, place, fault, Some(line), state) {
        let _ = eprintln!(host; "txkv: {why}");
    }
}

/// The same of a line that was typed, maybe in words.
pub(crate) fn tell_fault(
    host: HostRuntime,
    number: u64,
    cause: Cause,
    line: &[u8],
    stage: Option<SessionStage>,
) {
    if cause == Cause::Json && is_shorthand(line) {
        tell_words(host, number, line);
    } else {
        tell_why(host, number, cause, line, stage);
    }
}

// The note on a session that had entered something and never declared it, where the last of these
// lines ended one so.
fn note_of(host: HostRuntime, number: u64, script: &[u8]) -> Result<Option<String>, Broken> {
    let alloc = host.alloc();
    let lines = lines_of(alloc, script)?;
    let place = Place {
        file: None,
        line: number,
    };
    match undeclared_at(alloc, lines.as_slice(), lines.len() as u64)? {
        Some(name) => Ok(Some(note_undeclared(alloc, place, number, name.as_str())?)),
        None => Ok(None),
    }
}

/// Tells of a session that had entered something and never declared it, where the reply to the last
/// of these lines is that it wrote nothing.
pub(crate) fn tell_undeclared(host: HostRuntime, number: u64, reply: &[u8], script: &[u8]) {
    if !reply.ends_with(b"\"read-only\"]\n") {
        return;
    }
    if let Ok(Some(note)) = note_of(host, number, script) {
        let _ = eprintln!(host; "txkv: {note}");
    }
}
