//! The last line of a script that was refused, told to wait or left without an answer.
use crate::obstacle::{KeyObstacle, Obstacle, maker_of, met_by};
use crate::words::put_line;
use std::alloc::{AllocError, Global};
use tx_client::Status;
use tx_film::{Film, Frame};
use tx_reply::ScriptReply;
use tx_sheet::{Row, Sending, sheet_of};
use tx_text::{Broken, put_string};
use tx_types::Key;

// Whether a line was refused, told to wait or left without an answer.
fn is_refused(frame: &Frame, row: &Row) -> bool {
    match &frame.reply {
        Ok(ScriptReply::Lost | ScriptReply::Status(Status::Waiting(_))) => true,
        _ => row.is_refused(),
    }
}

// The place of the last such line.
fn last_refused(film: &Film, rows: &[Row]) -> Option<usize> {
    let mut last = None;
    'rows: for (place, (frame, row)) in film.frames().iter().zip(rows).enumerate() {
        if is_refused(frame, row) {
            last = Some(place);
        }
    }
    last
}

// Why a line had no other answer, in a sentence.
fn reason_of(row: &Row) -> &str {
    match row.sending {
        Sending::Lost => "the request never arrived",
        Sending::ReplyLost => "a region took the request, and its reply was lost",
        Sending::Held => "the request was held on its way",
        _ if row.is_refused() => row.reason.as_str(),
        _ if row.answer.is_empty() => "no answer came",
        _ => "nothing is decided yet",
    }
}

// Appends such a line, what was replied to it, and why.
fn put_refusal(
    out: &mut Vec<u8>,
    lines: &[&[u8]],
    place: usize,
    row: &Row,
) -> Result<(), AllocError> {
    put_line(out, lines, place)?;
    let answer = if row.answer.is_empty() {
        "lost"
    } else {
        row.answer.as_str()
    };
    out.extend_from_slice(b": ")?;
    out.extend_from_slice(answer.as_bytes())?;
    out.extend_from_slice(b": ")?;
    out.extend_from_slice(reason_of(row).as_bytes())?;
    out.extend_from_slice(b"\n")
}

// What is said of something in the way before its key, and of the line that made it.
fn words_of(obstacle: KeyObstacle) -> (&'static [u8], &'static [u8]) {
    match obstacle {
        KeyObstacle::Lock(_) => (b"the lock on ", b" put"),
        KeyObstacle::Minimum(_) => (b"the minimum of the lock on ", b" set"),
        KeyObstacle::Commit(_) | KeyObstacle::Value(_) => (b"the write record on ", b" left"),
        KeyObstacle::Rollback(_) => (b"the rollback on ", b" left"),
    }
}

// Appends what stood in the way: what is to be said of the line that made it.
fn put_obstacle(
    out: &mut Vec<u8>,
    keys: &[Key],
    obstacle: Obstacle,
) -> Result<&'static [u8], AllocError> {
    out.extend_from_slice(b"it met ")?;
    match obstacle {
        Obstacle::OnKey(place, on_key) => {
            let (words, verb) = words_of(on_key);
            out.extend_from_slice(words)?;
            if let Some(key) = keys.get(place) {
                put_string(out, key.as_bytes())?;
            }
            Ok(verb)
        }
        Obstacle::SafePoint(_) => {
            out.extend_from_slice(b"the safe point")?;
            Ok(b" raised")
        }
    }
}

// Appends what the line at this place met, and the line that had made it, where something is known
// to have stood in its way.
fn put_cause(
    out: &mut Vec<u8>,
    keys: &[Key],
    lines: &[&[u8]],
    film: &Film,
    rows: &[Row],
    place: usize,
) -> Result<(), AllocError> {
    let Some(taking) = film.takings(place).last() else {
        return Ok(());
    };
    let Some(obstacle) = met_by(keys, taking) else {
        return Ok(());
    };
    let verb = put_obstacle(out, keys, obstacle)?;
    let before = rows.get(..place).unwrap_or_default();
    if let Some(maker) = maker_of(before, film, obstacle) {
        out.extend_from_slice(b" that ")?;
        put_line(out, lines, maker)?;
        out.extend_from_slice(verb)?;
    }
    out.extend_from_slice(b"\n")
}

/// Of the last line that was refused, told to wait or left without an answer: what was replied to
/// it and why, and what it met, with the line that had made that. Or that there is no such line.
pub(crate) fn last_refusal(
    alloc: Global,
    keys: &[Key],
    lines: &[&[u8]],
    film: &Film,
) -> Result<Vec<u8>, Broken> {
    let sheet = sheet_of(alloc, keys, lines, film, false)?;
    let rows = sheet.rows.as_slice();
    let mut out = Vec::new(alloc);
    let Some(place) = last_refused(film, rows) else {
        out.extend_from_slice(b"no line was refused, told to wait or left without an answer\n")?;
        return Ok(out);
    };
    if let Some(row) = rows.get(place) {
        put_refusal(&mut out, lines, place, row)?;
        put_cause(&mut out, keys, lines, film, rows, place)?;
    }
    Ok(out)
}
