//! The line that says who wrote what a refused read claims, and what became of him.
ghost use Rattle.std.specs.Prelude.{◌≡◌, ◌++◌, ◌∷◌, ◌+◌, ◌<◌, ◌≤◌, length, decimal, OnOk, IfSome};
ghost use Rattle.std.specs.List.{list_any, position, slice_get};
ghost use Rattle.serde_json.specs.Written.{compact_text};
ghost use Rattle.serde_json.specs.Data.{object};
ghost use Rattle.tx_text.specs.Texts.{line_text};
ghost use Rattle.tx_check.specs.Writers.{writer_words, leaves, puts, declares, ends, start_at, standing_at, step_at, line_at, writer_members, writer_data, writer_text};

use crate::reasons::{put_committed, put_count, put_null, put_stamp, put_standing};
use std::alloc::AllocError;
use tx_machine::{Standing, Step, Why};
use tx_text::{put_end, put_number};
use tx_types::limits::MAX_LINES;
use tx_types::{Change, Fate, Key, Mutation, Ts, Value};

fn leaves(mutation: &Mutation, value: &Value) -> bool
    ensures { result ≡ leaves mutation.now value.now }
{
    match mutation {
        Mutation::Put(left) | Mutation::Insert(left) => *left == *value,
        Mutation::Delete | Mutation::Lock => false,
    }
}

fn puts(change: &Change, key: &Key, value: &Value) -> bool
    ensures { result ≡ puts change.now key.now value.now }
{
    change.key == *key && leaves(&change.mutation, value)
}

// Whether one of the changes does.
fn has_put(set: &[Change], key: &Key, value: &Value) -> bool
    ensures { result ≡ list_any (λ change. puts change key.now value.now) set.now }
{
    set.iter().any(|change| puts(change, key, value))
}

fn declares(step: &Step, key: &Key, value: &Value) -> bool
    ensures { result ≡ declares step.now key.now value.now }
{
    match step {
        Step::Declare(_, changes) => has_put(changes.as_slice(), key, value),
        _ => false,
    }
}

fn ends(step: &Step, start: Ts) -> bool
    ensures { result ≡ ends step.now start }
{
    match step {
        Step::Commit(at, _) | Step::Abort(at) => *at == start,
        _ => false,
    }
}

// The first step that puts the value into the key.
fn written(steps: &[Step], key: &Key, value: &Value) -> Option<usize>
    ensures { result ≡ position (λ step. declares step key.now value.now) steps.now }
{
    steps.iter().position(|step| declares(step, key, value))
}

// The step that ends the transaction that started here.
fn ended(steps: &[Step], start: Ts) -> Option<usize>
    ensures { result ≡ position (λ step. ends step start) steps.now }
{
    steps.iter().position(|step| ends(step, start))
}

// What became of a transaction, by the step that ended it.
fn standing(steps: &[Step], end: Option<usize>) -> Standing
    ensures { result ≡ standing_at (step_at steps.now end) }
{
    let Some(at) = end else {
        return Standing::Declared;
    };
    match steps.get(at) {
        Some(Step::Commit(_, commit)) => Standing::Ended(Fate::Committed(*commit)),
        Some(Step::Abort(_)) => Standing::Ended(Fate::Aborted),
        _ => Standing::Declared,
    }
}

// The start of the transaction that declares at a place.
fn start_at(steps: &[Step], at: usize) -> Ts
    ensures { result ≡ start_at (slice_get steps.now at) }
{
    match steps.get(at) {
        Some(Step::Declare(start, _)) => *start,
        _ => Ts::ZERO,
    }
}

// The line of a place.
fn put_place(out: &mut Vec<u8>, name: &[u8], at: usize) -> Result<(), AllocError>
    requires { at < MAX_LINES }
    ensures { OnOk result (out.new.items ≡ out.old.items ++ (name.now ++ decimal (at + 1))) }
{
    put_count(out, name, at as u64 + 1)
}

// The line of a place, or null.
fn put_line_at(out: &mut Vec<u8>, name: &[u8], at: Option<usize>) -> Result<(), AllocError>
    requires { IfSome at (λ at. at < MAX_LINES) }
    ensures { OnOk result (out.new.items ≡ out.old.items ++ (name.now ++ compact_text (line_at at))) }
{
    match at {
        None => put_null(out, name),
        Some(at) => put_place(out, name, at),
    }
}

// A transaction that declares at a place, and what became of it.
#[tactic(auto, unfolding(json::specs::Print::escape_byte))]
fn put_members(
    out: &mut Vec<u8>,
    steps: &[Step],
    at: usize,
    start: Ts,
    end: Option<usize>,
) -> Result<(), AllocError>
    requires declared { at < MAX_LINES }
    requires ended { IfSome end (λ at. at < MAX_LINES) }
    ensures { OnOk result (out.new.items ≡ out.old.items
        ++ compact_text (object (writer_members steps.now at start end))) }
{
    let is = standing(steps, end);
    put_place(out, b"{\"line\":", at)?;
    put_stamp(out, b",\"start\":", start)?;
    put_standing(out, b",\"is\":", &is)?;
    put_committed(out, b",\"committed\":", &is)?;
    put_line_at(out, b",\"ended\":", end)?;
    out.extend_from_slice(b"}")
}

// Who wrote a value, by the place where it is declared.
fn put_writer(out: &mut Vec<u8>, steps: &[Step], written: Option<usize>) -> Result<(), AllocError>
    requires few { length steps.now ≤ MAX_LINES }
    requires within { IfSome written (λ at. at < MAX_LINES) }
    ensures { OnOk result (out.new.items ≡ out.old.items ++ 44 ∷ compact_text (writer_data steps.now written)) }
{
    let Some(at) = written else {
        return out.extend_from_slice(b",null");
    };
    let start = start_at(steps, at);
    let end = ended(steps, start);
    out.push(b',')?;
    put_members(out, steps, at, start, end)
}

// The line that says who wrote a value.
#[tactic(auto, unfolding(json::specs::Print::escape_byte))]
fn put_wrote(
    out: &mut Vec<u8>,
    steps: &[Step],
    number: u64,
    key: &Key,
    value: &Value,
) -> Result<(), AllocError>
    requires { length steps.now ≤ MAX_LINES }
    ensures { OnOk result (out.new.items ≡ out.old.items
        ++ line_text (writer_words steps.now number key.now value.now)) }
{
    let written = written(steps, key, value);
    out.extend_from_slice(b"[\"wrote\"")?;
    put_number(out, number)?;
    put_writer(out, steps, written)?;
    put_end(out)
}

/// Appends the line that says who wrote the value that a refused read claims. Nothing where it
/// claims none, or where another step was refused.
pub(crate) fn put_claimed(
    out: &mut Vec<u8>,
    steps: &[Step],
    number: u64,
    why: &Why,
) -> Result<(), AllocError>
    requires { length steps.now ≤ MAX_LINES }
    ensures { OnOk result (out.new.items ≡ out.old.items ++ writer_text steps.now number why.now) }
{
    match why {
        Why::Read {
            key,
            claims: Some(value),
            ..
        } => put_wrote(out, steps, number, key, value),
        _ => Ok(()),
    }
}
