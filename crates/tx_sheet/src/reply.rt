//! A reply as a picture shows it.
use crate::words::{put_number, put_shown, put_stamp, put_text};
use serde_json::Value;
use std::alloc::AllocError;

/// The words of a reply line.
#[derive(Clone, Copy, Drop)]
pub(crate) struct Reply<'a> {
    pub word: &'a str,
    pub rest: &'a [Value],
}

/// The words of a value that is a reply line.
pub(crate) fn reply_of(value: &Value) -> Option<Reply<'_>> {
    match value.as_array()?.as_slice() {
        [_, word, rest @ ..] => Some(Reply {
            word: word.as_str()?,
            rest,
        }),
        _ => None,
    }
}

impl<'a> Reply<'a> {
    /// The number at this place behind its word, 0 where none stands there.
    pub fn number(&self, place: usize) -> u64 {
        match self.rest.get(place) {
            Some(value) => value.as_u64().unwrap_or(0),
            None => 0,
        }
    }

    /// The text at this place behind its word.
    pub fn text(&self, place: usize) -> &'a str {
        match self.rest.get(place) {
            Some(value) => value.as_str().unwrap_or("null"),
            None => "null",
        }
    }

    /// Whether it is a refusal or a fault.
    pub fn is_refusal(&self) -> bool {
        self.word.starts_with('E')
    }
}

// Appends a member of a reply; one that is a list, as of what stands on a key, whole.
fn put_member(out: &mut String, value: &Value) -> Result<(), AllocError> {
    match (value.as_str(), value.as_u64()) {
        (Some(text), _) => put_shown(out, text),
        (None, Some(number)) => put_number(out, number),
        (None, None) => {
            let text = format!(in *out.allocator(); "{value}")?;
            out.push_str(text.as_str())
        }
    }
}

// Appends members, each with a space before it.
fn put_members(out: &mut String, members: &[Value]) -> Result<(), AllocError> {
    'members: for member in members {
        out.push(' ')?;
        put_member(out, member)?;
    }
    Ok(())
}

// Appends a row: its key and its value.
fn put_row(out: &mut String, row: &Value) -> Result<(), AllocError> {
    let Some(members) = row.as_array() else {
        return Ok(());
    };
    if let [key, value] = members.as_slice() {
        out.push(' ')?;
        put_member(out, key)?;
        out.push('=')?;
        put_member(out, value)?;
    }
    Ok(())
}

// Appends what a scan found.
fn put_rows(out: &mut String, rows: &[Value]) -> Result<(), AllocError> {
    if rows.is_empty() {
        return out.push_str("= no rows");
    }
    out.push('=')?;
    'rows: for row in rows {
        put_row(out, row)?;
    }
    Ok(())
}

// Appends what a scan found, by the reply's members.
fn put_found(out: &mut String, rest: &[Value]) -> Result<(), AllocError> {
    match rest {
        [rows] => match rows.as_array() {
            Some(rows) => put_rows(out, rows.as_slice()),
            None => Ok(()),
        },
        _ => Ok(()),
    }
}

// Appends that a key is locked.
fn put_locked(out: &mut String, minimum: u64) -> Result<(), AllocError> {
    if minimum == 0 {
        out.push_str("locked")
    } else {
        put_stamp(out, "locked, min ", minimum)
    }
}

// Appends the words of an outcome.
fn put_outcome(out: &mut String, rest: &[Value]) -> Result<(), AllocError> {
    let Some((first, more)) = rest.split_first() else {
        return Ok(());
    };
    put_member(out, first)?;
    put_members(out, more)
}

// Appends how many there are of what is called so, in the plural where there is not one.
fn put_count(out: &mut String, count: u64, noun: &str) -> Result<(), AllocError> {
    put_number(out, count)?;
    out.push_str(noun)?;
    if count == 1 {
        return Ok(());
    }
    out.push('s')
}

// Appends what a collection dropped.
fn put_collected(out: &mut String, records: u64, values: u64) -> Result<(), AllocError> {
    put_count(out, records, " record")?;
    out.push_str(", ")?;
    put_count(out, values, " value")?;
    out.push_str(" dropped")
}

// Appends a count of regions.
fn put_regions(out: &mut String, count: u64) -> Result<(), AllocError> {
    put_count(out, count, " region")
}

// Appends a word and what stands behind it.
fn put_plain(out: &mut String, word: &str, rest: &[Value]) -> Result<(), AllocError> {
    out.push_str(word)?;
    put_members(out, rest)
}

/// Appends a reply that is no refusal.
pub(crate) fn put_answer(out: &mut String, reply: Reply<'_>) -> Result<(), AllocError> {
    match reply.word {
        "start" => put_stamp(out, "starts at ", reply.number(0)),
        "drawn" => put_stamp(out, "drew ", reply.number(0)),
        "committed" => put_stamp(out, "committed at ", reply.number(0)),
        "last" => put_stamp(out, "now ", reply.number(0)),
        "ttl" => put_stamp(out, "lives ", reply.number(0)),
        "value" => {
            out.push('=')?;
            put_text(out, reply.text(0))
        }
        "none" => out.push_str("= none"),
        "prewritten" => put_locked(out, reply.number(0)),
        "rows" => put_found(out, reply.rest),
        "outcome" => put_outcome(out, reply.rest),
        "regions" => put_regions(out, reply.number(0)),
        "collected" => put_collected(out, reply.number(0), reply.number(1)),
        word => put_plain(out, word, reply.rest),
    }
}

/// Appends a reply, where it says more than that the step was done or its request was lost.
pub(crate) fn put_reply(out: &mut String, reply: Reply<'_>) -> Result<(), AllocError> {
    match reply.word {
        "ok" | "lost" => Ok(()),
        word if reply.is_refusal() => out.push_str(word),
        _ => put_answer(out, reply),
    }
}
