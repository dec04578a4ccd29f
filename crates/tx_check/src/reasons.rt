//! The line that says why the machine does not make a step.
ghost use Rattle.std.specs.Prelude.{◌≡◌, ◌++◌, codes, decimal, true, OnOk};
ghost use Rattle.serde_json.specs.Data.{null, object, string};
ghost use Rattle.serde_json.specs.Written.{compact_text};
ghost use Rattle.serde_json.specs.Written as written;
ghost use Rattle.tx_check.specs.Steps.{found_data};
ghost use Rattle.tx_text.specs.Texts.{text_of, members_text};
ghost use Rattle.tx_check.specs.Reasons.{committed_data, reason_members, reason_text, reason_word, reason_words, seen_members, standing_word, writer_members};

use std::alloc::AllocError;
use tx_machine::{SeenValue, Standing, Why, Writer};
use tx_text::{put_digits, put_number, put_string};
use tx_types::{Fate, Key, Ts, Value};

// ---- members, each behind its name as it is written

pub(crate) fn put_null(out: &mut Vec<u8>, name: &[u8]) -> Result<(), AllocError>
    ensures { OnOk result (out.new.items ≡ out.old.items ++ (name.now ++ compact_text null)) }
{
    out.extend_from_slice(name)?;
    out.extend_from_slice(b"null")
}

pub(crate) fn put_count(out: &mut Vec<u8>, name: &[u8], n: u64) -> Result<(), AllocError>
    ensures { OnOk result (out.new.items ≡ out.old.items ++ (name.now ++ decimal n)) }
{
    out.extend_from_slice(name)?;
    put_digits(out, n)
}

pub(crate) fn put_stamp(out: &mut Vec<u8>, name: &[u8], at: Ts) -> Result<(), AllocError>
    ensures { OnOk result (out.new.items ≡ out.old.items ++ (name.now ++ decimal at)) }
{
    put_count(out, name, at.get())
}

fn put_value(out: &mut Vec<u8>, name: &[u8], value: &Value) -> Result<(), AllocError>
    ensures { OnOk result (out.new.items ≡ out.old.items ++ (name.now ++ compact_text (text_of value.now))) }
{
    out.extend_from_slice(name)?;
    put_string(out, value.as_bytes())
}

// A value, or null.
fn put_found(out: &mut Vec<u8>, name: &[u8], found: &Option<Value>) -> Result<(), AllocError>
    ensures { OnOk result (out.new.items ≡ out.old.items ++ (name.now ++ compact_text (found_data found.now))) }
{
    match found {
        Some(value) => put_value(out, name, value),
        None => put_null(out, name),
    }
}

// The key, which comes first in its object.
fn put_key(out: &mut Vec<u8>, key: &Key) -> Result<(), AllocError>
    ensures { OnOk result (out.new.items ≡ out.old.items ++ (codes "{\"key\":" ++ compact_text (text_of key.now))) }
{
    out.extend_from_slice(b"{\"key\":")?;
    put_string(out, key.as_bytes())
}

// The word of how far a transaction has come, as it is written.
#[tactic(auto, unfolding(json::specs::Print::escape_byte))]
fn standing_word(is: &Standing) -> &'static [u8]
    ensures { result.now ≡ compact_text (string (standing_word is.now)) }
{
    match is {
        Standing::Undrawn => b"\"undrawn\"",
        Standing::Drawn => b"\"drawn\"",
        Standing::Begun => b"\"begun\"",
        Standing::Declared => b"\"declared\"",
        Standing::Ended(Fate::Committed(_)) => b"\"committed\"",
        Standing::Ended(Fate::Aborted) => b"\"aborted\"",
    }
}

pub(crate) fn put_standing(out: &mut Vec<u8>, name: &[u8], is: &Standing) -> Result<(), AllocError>
    ensures { OnOk result (out.new.items ≡ out.old.items
        ++ (name.now ++ compact_text (string (standing_word is.now)))) }
{
    out.extend_from_slice(name)?;
    out.extend_from_slice(standing_word(is))
}

// Where a transaction committed, or null.
pub(crate) fn put_committed(out: &mut Vec<u8>, name: &[u8], is: &Standing) -> Result<(), AllocError>
    ensures { OnOk result (out.new.items ≡ out.old.items ++ (name.now ++ compact_text (committed_data is.now))) }
{
    match is {
        Standing::Ended(Fate::Committed(commit)) => put_stamp(out, name, *commit),
        _ => put_null(out, name),
    }
}

// Who left what a read sees, and the end of the object.
#[tactic(auto, unfolding(json::specs::Print::escape_byte))]
fn put_writer(out: &mut Vec<u8>, by: Writer) -> Result<(), AllocError>
    ensures { OnOk result (out.new.items ≡ out.old.items ++ written.members_text true (writer_members by)) }
{
    put_stamp(out, b",\"by\":", by.start)?;
    put_stamp(out, b",\"committed\":", by.commit)?;
    out.extend_from_slice(b"}")
}

// What a read sees, who left it, and the end of the object.
#[tactic(auto, unfolding(json::specs::Print::escape_byte))]
fn put_seen(out: &mut Vec<u8>, seen: &SeenValue) -> Result<(), AllocError>
    ensures { OnOk result (out.new.items ≡ out.old.items ++ written.members_text true (seen_members seen.now)) }
{
    match seen {
        SeenValue::Nothing => out.extend_from_slice(
            b",\"is\":null,\"by\":null,\"committed\":null}",
        ),
        SeenValue::Deleted(by) => {
            put_null(out, b",\"is\":")?;
            put_writer(out, *by)
        }
        SeenValue::Left(value, by) => {
            put_value(out, b",\"is\":", value)?;
            put_writer(out, *by)
        }
    }
}

// ---- what is told of each reason

#[tactic(auto, unfolding(json::specs::Print::escape_byte))]
fn put_last(out: &mut Vec<u8>, at: Ts, last: Ts) -> Result<(), AllocError>
    ensures { OnOk result (out.new.items ≡ out.old.items ++ compact_text (object (reason_members (Why.Last at last)))) }
{
    put_stamp(out, b"{\"at\":", at)?;
    put_stamp(out, b",\"last\":", last)?;
    out.extend_from_slice(b"}")
}

#[tactic(auto, unfolding(json::specs::Print::escape_byte))]
fn put_state(out: &mut Vec<u8>, start: Ts, is: &Standing) -> Result<(), AllocError>
    ensures { OnOk result (out.new.items ≡ out.old.items
        ++ compact_text (object (reason_members (Why.State start is.now)))) }
{
    put_stamp(out, b"{\"start\":", start)?;
    put_standing(out, b",\"is\":", is)?;
    put_committed(out, b",\"committed\":", is)?;
    out.extend_from_slice(b"}")
}

#[tactic(auto, unfolding(json::specs::Print::escape_byte))]
fn put_empty(out: &mut Vec<u8>, start: Ts) -> Result<(), AllocError>
    ensures { OnOk result (out.new.items ≡ out.old.items ++ compact_text (object (reason_members (Why.Empty start)))) }
{
    put_stamp(out, b"{\"start\":", start)?;
    out.extend_from_slice(b"}")
}

#[tactic(auto, unfolding(json::specs::Print::escape_byte))]
fn put_twice(out: &mut Vec<u8>, start: Ts, key: &Key) -> Result<(), AllocError>
    ensures { OnOk result (out.new.items ≡ out.old.items
        ++ compact_text (object (reason_members (Why.Twice start key.now)))) }
{
    put_key(out, key)?;
    put_stamp(out, b",\"start\":", start)?;
    out.extend_from_slice(b"}")
}

#[tactic(auto, unfolding(json::specs::Print::escape_byte))]
fn put_early(out: &mut Vec<u8>, start: Ts, commit: Ts) -> Result<(), AllocError>
    ensures { OnOk result (out.new.items ≡ out.old.items
        ++ compact_text (object (reason_members (Why.Early start commit)))) }
{
    put_stamp(out, b"{\"start\":", start)?;
    put_stamp(out, b",\"commit\":", commit)?;
    out.extend_from_slice(b"}")
}

#[tactic(auto, unfolding(json::specs::Print::escape_byte))]
fn put_conflict(out: &mut Vec<u8>, key: &Key, other: Writer, start: Ts) -> Result<(), AllocError>
    ensures { OnOk result (out.new.items ≡ out.old.items
        ++ compact_text (object (reason_members (Why.Conflict key.now other start)))) }
{
    put_key(out, key)?;
    put_stamp(out, b",\"other\":", other.start)?;
    put_stamp(out, b",\"start\":", start)?;
    put_stamp(out, b",\"committed\":", other.commit)?;
    out.extend_from_slice(b"}")
}

#[tactic(auto, unfolding(json::specs::Print::escape_byte))]
fn put_unread(out: &mut Vec<u8>, key: &Key, at: Ts, commit: Ts) -> Result<(), AllocError>
    ensures { OnOk result (out.new.items ≡ out.old.items
        ++ compact_text (object (reason_members (Why.Unread key.now at commit)))) }
{
    put_key(out, key)?;
    put_stamp(out, b",\"at\":", at)?;
    put_stamp(out, b",\"commit\":", commit)?;
    out.extend_from_slice(b"}")
}

#[tactic(auto, unfolding(json::specs::Print::escape_byte))]
fn put_exists(out: &mut Vec<u8>, key: &Key, at: Ts, seen: &SeenValue) -> Result<(), AllocError>
    ensures { OnOk result (out.new.items ≡ out.old.items
        ++ compact_text (object (reason_members (Why.Exists key.now at seen.now)))) }
{
    put_key(out, key)?;
    put_stamp(out, b",\"at\":", at)?;
    put_seen(out, seen)
}

#[tactic(auto, unfolding(json::specs::Print::escape_byte))]
fn put_too_many(out: &mut Vec<u8>, rows: u64, limit: u32) -> Result<(), AllocError>
    ensures { OnOk result (out.new.items ≡ out.old.items
        ++ compact_text (object (reason_members (Why.Count rows limit)))) }
{
    put_count(out, b"{\"rows\":", rows)?;
    put_count(out, b",\"limit\":", u64::from(limit))?;
    out.extend_from_slice(b"}")
}

#[tactic(auto, unfolding(json::specs::Print::escape_byte))]
fn put_order(out: &mut Vec<u8>, key: &Key) -> Result<(), AllocError>
    ensures { OnOk result (out.new.items ≡ out.old.items
        ++ compact_text (object (reason_members (Why.Order key.now)))) }
{
    put_key(out, key)?;
    out.extend_from_slice(b"}")
}

#[tactic(auto, unfolding(json::specs::Print::escape_byte))]
fn put_read(
    out: &mut Vec<u8>,
    key: &Key,
    at: Ts,
    claims: &Option<Value>,
    seen: &SeenValue,
) -> Result<(), AllocError>
    ensures { OnOk result (out.new.items ≡ out.old.items
        ++ compact_text (object (reason_members (Why.Read key.now at claims.now seen.now)))) }
{
    put_key(out, key)?;
    put_stamp(out, b",\"at\":", at)?;
    put_found(out, b",\"claims\":", claims)?;
    put_seen(out, seen)
}

fn put_object(out: &mut Vec<u8>, why: &Why) -> Result<(), AllocError>
    ensures { OnOk result (out.new.items ≡ out.old.items ++ compact_text (object (reason_members why.now))) }
{
    match why {
        Why::Last { at, last } => put_last(out, *at, *last),
        Why::State { start, is } => put_state(out, *start, is),
        Why::Empty { start } => put_empty(out, *start),
        Why::Twice { start, key } => put_twice(out, *start, key),
        Why::Early { start, commit } => put_early(out, *start, *commit),
        Why::Conflict { key, other, start } => put_conflict(out, key, *other, *start),
        Why::Unread { key, at, commit } => put_unread(out, key, *at, *commit),
        Why::Exists { key, at, seen } => put_exists(out, key, *at, seen),
        Why::Count { rows, limit } => put_too_many(out, *rows, *limit),
        Why::Order { key } => put_order(out, key),
        Why::Read {
            key,
            at,
            claims,
            seen,
        } => put_read(out, key, *at, claims, seen),
    }
}

// ---- the line

// The word of a reason, as it is written.
#[tactic(auto, unfolding(json::specs::Print::escape_byte))]
fn word_of(why: &Why) -> &'static [u8]
    ensures { result.now ≡ compact_text (string (reason_word why.now)) }
{
    match why {
        Why::Last { .. } => b"\"last\"",
        Why::State { .. } => b"\"state\"",
        Why::Empty { .. } => b"\"empty\"",
        Why::Twice { .. } => b"\"twice\"",
        Why::Early { .. } => b"\"early\"",
        Why::Conflict { .. } => b"\"conflict\"",
        Why::Unread { .. } => b"\"unread\"",
        Why::Exists { .. } => b"\"exists\"",
        Why::Count { .. } => b"\"count\"",
        Why::Order { .. } => b"\"order\"",
        Why::Read { .. } => b"\"read\"",
    }
}

// The word of a reason, and what is told of it, each with a comma before it.
fn put_words(out: &mut Vec<u8>, why: &Why) -> Result<(), AllocError>
    ensures { OnOk result (out.new.items ≡ out.old.items ++ members_text (reason_words why.now)) }
{
    out.extend_from_slice(b",")?;
    out.extend_from_slice(word_of(why))?;
    out.extend_from_slice(b",")?;
    put_object(out, why)
}

/// Appends the line that says why the step of the line of this number is not made, with its
/// newline.
#[tactic(auto, unfolding(json::specs::Print::escape_byte))]
pub(crate) fn put_reason(out: &mut Vec<u8>, number: u64, why: &Why) -> Result<(), AllocError>
    ensures { OnOk result (out.new.items ≡ out.old.items ++ reason_text number why.now) }
{
    out.extend_from_slice(b"[\"why\"")?;
    put_number(out, number)?;
    put_words(out, why)?;
    out.extend_from_slice(b"]\n")
}
