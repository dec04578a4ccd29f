//! Steps of the one-step machine, read from the members of a trace's line.
ghost use Rattle.std.specs.Prelude.{◌≡◌, Some, None, MatchResult};
ghost use Rattle.serde_json.specs.Find.{as_array, as_str};
ghost use Rattle.serde_json.specs.View.{view, items_view};
ghost use Rattle.tx_text.specs.Parts.{part_data, parts_items};
ghost use Rattle.tx_check.specs.MachineSteps.{number_of, key_of, value_of, found_of, limit_of, plain_of, put_of, change_of, list_of, row_of, two_of, three_of, aborted_of, committed_of, four_of, scan_of, six_of, step_of_items};

use serde_json::Value as Json;
use std::alloc::Global;
use tx_machine::{ScanRead, Step};
use tx_text::Part;
use tx_types::limits::MAX_SCAN_ROWS;
use tx_types::{Change, Changes, Fate, Fault, Key, KeyValue, KeyValues, Mutation, Ts, Value};

/// Why no step was read.
#[derive(Clone, Copy, Debug, PartialEq, Eq)]
pub(crate) enum UnreadStep {
    /// The value is no step.
    Form,
    /// A growth was refused.
    Memory,
}

/// The step that a line's members say; `Form` where they say none.
pub(crate) fn machine_step(alloc: Global, members: &[Part<'_>]) -> Result<Step, UnreadStep>
    ensures { MatchResult result (λ step. step_of_items (parts_items members.now) ≡ Some step)
        (λ e. e ≡ UnreadStep.Form → step_of_items (parts_items members.now) ≡ None) }
{
    match members {
        [word, first] => two(word, first),
        [word, first, second] => three(alloc, word, first, second),
        [word, first, second, third] => four(alloc, word, first, second, third),
        [word, at, from, to, limit, rows] => six(alloc, word, at, from, to, limit, rows),
        _ => Err(UnreadStep::Form),
    }
}

// ---- the steps, by how many members they have

fn two(word: &Part<'_>, first: &Part<'_>) -> Result<Step, UnreadStep>
    ensures { MatchResult result (λ step. two_of (part_data word.now) (part_data first.now) ≡ Some step)
        (λ e. e ≡ UnreadStep.Form → two_of (part_data word.now) (part_data first.now) ≡ None) }
{
    let word = text(word)?;
    if word == "draw" {
        Ok(Step::Draw(timestamp(first)?))
    } else if word == "begin" {
        Ok(Step::Begin(timestamp(first)?))
    } else if word == "abort" {
        Ok(Step::Abort(timestamp(first)?))
    } else {
        Err(UnreadStep::Form)
    }
}

fn three(
    alloc: Global,
    word: &Part<'_>,
    first: &Part<'_>,
    second: &Part<'_>,
) -> Result<Step, UnreadStep>
    ensures { MatchResult result (λ step. three_of (part_data word.now) (part_data first.now) (part_data second.now)
        ≡ Some step)
        (λ e. e ≡ UnreadStep.Form → three_of (part_data word.now) (part_data first.now) (part_data second.now) ≡ None) }
{
    let word = text(word)?;
    if word == "declare" {
        Ok(Step::Declare(timestamp(first)?, changes(alloc, second)?))
    } else if word == "commit" {
        Ok(Step::Commit(timestamp(first)?, timestamp(second)?))
    } else if word == "answer" {
        Ok(Step::Answer(timestamp(first)?, aborted(second)?))
    } else {
        Err(UnreadStep::Form)
    }
}

fn four(
    alloc: Global,
    word: &Part<'_>,
    first: &Part<'_>,
    second: &Part<'_>,
    third: &Part<'_>,
) -> Result<Step, UnreadStep>
    ensures { MatchResult result (λ step. four_of (part_data word.now) (part_data first.now) (part_data second.now)
        (part_data third.now) ≡ Some step)
        (λ e. e ≡ UnreadStep.Form → four_of (part_data word.now) (part_data first.now) (part_data second.now)
        (part_data third.now) ≡ None) }
{
    let word = text(word)?;
    if word == "read" {
        let at = timestamp(first)?;
        let key = key(alloc, second)?;
        Ok(Step::Read(key, at, found(alloc, third)?))
    } else if word == "answer" {
        Ok(Step::Answer(timestamp(first)?, committed(second, third)?))
    } else {
        Err(UnreadStep::Form)
    }
}

fn six(
    alloc: Global,
    word: &Part<'_>,
    at: &Part<'_>,
    from: &Part<'_>,
    to: &Part<'_>,
    limit: &Part<'_>,
    rows: &Part<'_>,
) -> Result<Step, UnreadStep>
    ensures { MatchResult result (λ step. six_of (part_data word.now) (part_data at.now) (part_data from.now)
        (part_data to.now) (part_data limit.now) (part_data rows.now) ≡ Some step)
        (λ e. e ≡ UnreadStep.Form → six_of (part_data word.now) (part_data at.now) (part_data from.now)
        (part_data to.now) (part_data limit.now) (part_data rows.now) ≡ None) }
{
    if text(word)? == "scan" {
        Ok(Step::Scan(scan(alloc, at, from, to, limit, rows)?))
    } else {
        Err(UnreadStep::Form)
    }
}

fn scan(
    alloc: Global,
    at: &Part<'_>,
    from: &Part<'_>,
    to: &Part<'_>,
    limit: &Part<'_>,
    rows: &Part<'_>,
) -> Result<ScanRead, UnreadStep>
    ensures { MatchResult result (λ scan. scan_of (part_data at.now) (part_data from.now) (part_data to.now)
        (part_data limit.now) (part_data rows.now) ≡ Some scan)
        (λ e. e ≡ UnreadStep.Form → scan_of (part_data at.now) (part_data from.now) (part_data to.now)
        (part_data limit.now) (part_data rows.now) ≡ None) }
{
    let at = timestamp(at)?;
    let from = key(alloc, from)?;
    let to = key(alloc, to)?;
    let limit = row_limit(limit)?;
    let rows = key_values(alloc, rows)?;
    Ok(ScanRead {
        from,
        to,
        at,
        limit,
        rows,
    })
}

// ---- their members

fn list<'a>(value: &Part<'a>) -> Result<&'a [Json], UnreadStep>
    ensures { MatchResult result (λ items. as_array (part_data value.now)
        ≡ Some (items_view items.now)) (λ _. as_array (part_data value.now) ≡ None) }
{
    match value.as_array() {
        Some(items) => Ok(items),
        None => Err(UnreadStep::Form),
    }
}

pub(crate) fn text<'a>(value: &Part<'a>) -> Result<&'a str, UnreadStep>
    ensures { MatchResult result (λ text. as_str (part_data value.now)
        ≡ Some text.now) (λ _. as_str (part_data value.now) ≡ None) }
{
    match value.as_str() {
        Some(text) => Ok(text),
        None => Err(UnreadStep::Form),
    }
}

pub(crate) fn timestamp(value: &Part<'_>) -> Result<Ts, UnreadStep>
    ensures { MatchResult result (λ t. number_of (part_data value.now) ≡ Some t) (λ _. number_of (part_data value.now)
        ≡ None) }
{
    match value.as_u64() {
        Some(number) => Ok(Ts::new(number)),
        None => Err(UnreadStep::Form),
    }
}

pub(crate) fn row_limit(value: &Part<'_>) -> Result<u32, UnreadStep>
    ensures { MatchResult result (λ n. limit_of (part_data value.now) ≡ Some n) (λ _. limit_of (part_data value.now)
        ≡ None) }
{
    match value.as_u64() {
        Some(number) if number >= 1 && number <= u64::from(MAX_SCAN_ROWS) => Ok(number as u32),
        _ => Err(UnreadStep::Form),
    }
}

pub(crate) fn key(alloc: Global, value: &Part<'_>) -> Result<Key, UnreadStep>
    ensures { MatchResult result (λ key. key_of (part_data value.now) ≡ Some key) (λ e. e ≡ UnreadStep.Form
        → key_of (part_data value.now) ≡ None) }
{
    let text = text(value)?;
    match Key::new(alloc, text.as_bytes()) {
        Ok(key) => Ok(key),
        Err(Fault::KeyLength) => Err(UnreadStep::Form),
        Err(_) => Err(UnreadStep::Memory),
    }
}

pub(crate) fn plain_value(alloc: Global, value: &Part<'_>) -> Result<Value, UnreadStep>
    ensures { MatchResult result (λ v. value_of (part_data value.now) ≡ Some v) (λ e. e ≡ UnreadStep.Form
        → value_of (part_data value.now) ≡ None) }
{
    let text = text(value)?;
    match Value::new(alloc, text.as_bytes()) {
        Ok(value) => Ok(value),
        Err(Fault::ValueLength) => Err(UnreadStep::Form),
        Err(_) => Err(UnreadStep::Memory),
    }
}

fn found(alloc: Global, value: &Part<'_>) -> Result<Option<Value>, UnreadStep>
    ensures { MatchResult result (λ found. found_of (part_data value.now) ≡ Some found) (λ e. e ≡ UnreadStep.Form
        → found_of (part_data value.now) ≡ None) }
{
    if value.is_null() {
        return Ok(None);
    }
    Ok(Some(plain_value(alloc, value)?))
}

fn aborted(word: &Part<'_>) -> Result<Fate, UnreadStep>
    ensures { MatchResult result (λ fate. aborted_of (part_data word.now)
        ≡ Some fate) (λ _. aborted_of (part_data word.now) ≡ None) }
{
    if text(word)? == "aborted" {
        Ok(Fate::Aborted)
    } else {
        Err(UnreadStep::Form)
    }
}

fn committed(word: &Part<'_>, at: &Part<'_>) -> Result<Fate, UnreadStep>
    ensures { MatchResult result (λ fate. committed_of (part_data word.now) (part_data at.now)
        ≡ Some fate) (λ _. committed_of (part_data word.now) (part_data at.now) ≡ None) }
{
    if text(word)? == "committed" {
        Ok(Fate::Committed(timestamp(at)?))
    } else {
        Err(UnreadStep::Form)
    }
}

fn changes(alloc: Global, value: &Part<'_>) -> Result<Changes, UnreadStep>
    ensures { MatchResult result (λ changes. list_of change_of (part_data value.now) ≡ Some changes) (λ e. e
        ≡ UnreadStep.Form → list_of change_of (part_data value.now) ≡ None) }
{
    let mut changes = Changes::new(alloc);
    for item in list(value)? {
        if changes.push(change(alloc, item)?).is_err() {
            return Err(UnreadStep::Memory);
        }
    }
    Ok(changes)
}

fn change(alloc: Global, value: &Json) -> Result<Change, UnreadStep>
    ensures { MatchResult result (λ change. change_of (view value.now) ≡ Some change) (λ e. e ≡ UnreadStep.Form
        → change_of (view value.now) ≡ None) }
{
    let (name, mutation) = match list(&Part::of(value))? {
        [name, word] => (name, plain(&Part::of(word))?),
        [name, word, value] => (name, put(alloc, &Part::of(word), &Part::of(value))?),
        _ => return Err(UnreadStep::Form),
    };
    let key = key(alloc, &Part::of(name))?;
    Ok(Change { key, mutation })
}

pub(crate) fn plain(word: &Part<'_>) -> Result<Mutation, UnreadStep>
    ensures { MatchResult result (λ m. plain_of (part_data word.now) ≡ Some m) (λ _. plain_of (part_data word.now)
        ≡ None) }
{
    let word = text(word)?;
    if word == "delete" {
        Ok(Mutation::Delete)
    } else if word == "lock" {
        Ok(Mutation::Lock)
    } else {
        Err(UnreadStep::Form)
    }
}

#[tactic(auto, unfolding(crate::specs::MachineSteps::put_of))]
pub(crate) fn put(alloc: Global, word: &Part<'_>, value: &Part<'_>) -> Result<Mutation, UnreadStep>
    ensures { MatchResult result (λ m. put_of (part_data word.now) (part_data value.now) ≡ Some m)
        (λ e. e ≡ UnreadStep.Form → put_of (part_data word.now) (part_data value.now) ≡ None) }
{
    let word = text(word)?;
    if word == "put" {
        Ok(Mutation::Put(plain_value(alloc, value)?))
    } else if word == "insert" {
        Ok(Mutation::Insert(plain_value(alloc, value)?))
    } else {
        Err(UnreadStep::Form)
    }
}

fn key_values(alloc: Global, value: &Part<'_>) -> Result<KeyValues, UnreadStep>
    ensures { MatchResult result (λ rows. list_of row_of (part_data value.now) ≡ Some rows) (λ e. e ≡ UnreadStep.Form
        → list_of row_of (part_data value.now) ≡ None) }
{
    let mut rows = KeyValues::new(alloc);
    for item in list(value)? {
        if rows.push(row(alloc, item)?).is_err() {
            return Err(UnreadStep::Memory);
        }
    }
    Ok(rows)
}

fn row(alloc: Global, value: &Json) -> Result<KeyValue, UnreadStep>
    ensures { MatchResult result (λ row. row_of (view value.now) ≡ Some row) (λ e. e ≡ UnreadStep.Form
        → row_of (view value.now) ≡ None) }
{
    match list(&Part::of(value))? {
        [name, value] => {
            let key = key(alloc, &Part::of(name))?;
            let value = plain_value(alloc, &Part::of(value))?;
            Ok(KeyValue { key, value })
        }
        _ => Err(UnreadStep::Form),
    }
}
