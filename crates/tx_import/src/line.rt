//! What a line's JSON value says.
ghost use Rattle.std.specs.Prelude.{◌≡◌, Some, None, MatchResult};
ghost use Rattle.serde_json.specs.View.{view, items_view};
ghost use Rattle.serde_json.specs.Find.{as_array, as_str, as_bool};
ghost use Rattle.tx_check.specs.MachineSteps.{number_of, all_of};
ghost use Rattle.tx_import.specs.Said.{name_of, signed_of, scalar_of, value_alone, read_of, act_of, op_of};

use crate::line_content::{SaidAct, SaidOp, SaidTransaction};
use crate::name::{Name, Scalar, Words};
use serde_json::Value as Json;
use std::alloc::Global;
use tx_recording::RecordedOutcome;
use tx_types::{Fault, Items, Key};

/// Why nothing was read.
#[derive(Clone, Copy, Debug, PartialEq, Eq)]
pub(crate) enum Unread {
    /// The value is none of these.
    Form,
    /// A growth was refused.
    Memory,
}

pub(crate) fn number(value: &Json) -> Result<u64, Unread>
    ensures { MatchResult result (λ n. number_of (view value.now) ≡ Some n) (λ _. number_of (view value.now) ≡ None) }
{
    match value.as_u64() {
        Some(number) => Ok(number),
        None => Err(Unread::Form),
    }
}

pub(crate) fn text(value: &Json) -> Result<&str, Unread>
    ensures { MatchResult result (λ text. as_str (view value.now) ≡ Some text.now)
        (λ _. as_str (view value.now) ≡ None) }
{
    match value.as_str() {
        Some(text) => Ok(text),
        None => Err(Unread::Form),
    }
}

pub(crate) fn list(value: &Json) -> Result<&[Json], Unread>
    ensures { MatchResult result (λ items. as_array (view value.now) ≡ Some (items_view items.now))
        (λ _. as_array (view value.now) ≡ None) }
{
    match value.as_array() {
        Some(items) => Ok(items.as_slice()),
        None => Err(Unread::Form),
    }
}

pub(crate) fn name(alloc: Global, value: &Json) -> Result<Name, Unread>
    ensures { MatchResult result (λ name. name_of (view value.now) ≡ Some name) (λ e. e ≡ Unread.Form
        → name_of (view value.now) ≡ None) }
{
    if let Some(number) = value.as_u64() {
        return Ok(Name::Number(number));
    }
    let text = text(value)?;
    match Key::new(alloc, text.as_bytes()) {
        Ok(key) => Ok(Name::Text(key)),
        Err(Fault::KeyLength) => Err(Unread::Form),
        Err(_) => Err(Unread::Memory),
    }
}

fn scalar(alloc: Global, value: &Json) -> Result<Scalar, Unread>
    ensures { MatchResult result (λ scalar. scalar_of (view value.now) ≡ Some scalar) (λ e. e ≡ Unread.Form
        → scalar_of (view value.now) ≡ None) }
{
    if let Some(number) = value.as_u64() {
        return Ok(Scalar::Number(number));
    }
    if let Some(number) = value.as_i64() {
        return Ok(Scalar::Negative(number));
    }
    if let Some(truth) = value.as_bool() {
        return Ok(Scalar::Truth(truth));
    }
    let text = text(value)?;
    match Words::new(alloc, text.as_bytes()) {
        Ok(words) => Ok(Scalar::Text(words)),
        Err(Fault::ValueLength) => Err(Unread::Form),
        Err(_) => Err(Unread::Memory),
    }
}

fn scalars(alloc: Global, values: &[Json]) -> Result<Items<Scalar>, Unread>
    ensures { MatchResult result (λ scalars. all_of scalar_of (items_view values.now) ≡ Some scalars)
        (λ e. e ≡ Unread.Form → all_of scalar_of (items_view values.now) ≡ None) }
{
    let Ok(mut scalars) = Items::with_capacity(alloc, values.len()) else {
        return Err(Unread::Memory);
    };
    for value in values {
        if scalars.push(scalar(alloc, value)?).is_err() {
            return Err(Unread::Memory);
        }
    }
    Ok(scalars)
}

// The value that a read of a register found, where there is one.
fn value_alone(alloc: Global, value: &Json) -> Result<Items<Scalar>, Unread>
    ensures { MatchResult result (λ found. value_alone (view value.now) ≡ Some found) (λ e. e ≡ Unread.Form
        → value_alone (view value.now) ≡ None) }
{
    let mut found = Items::new(alloc);
    if value.is_null() {
        return Ok(found);
    }
    match found.push(scalar(alloc, value)?) {
        Ok(()) => Ok(found),
        Err(_) => Err(Unread::Memory),
    }
}

// A read, by what it found.
fn read(alloc: Global, value: &Json) -> Result<SaidAct, Unread>
    ensures { MatchResult result (λ act. read_of (view value.now) ≡ Some act) (λ e. e ≡ Unread.Form
        → read_of (view value.now) ≡ None) }
{
    match value.as_array() {
        Some(items) => Ok(SaidAct::ReadList(scalars(alloc, items.as_slice())?)),
        None => Ok(SaidAct::Read(value_alone(alloc, value)?)),
    }
}

fn act(alloc: Global, word: &Json, value: &Json) -> Result<SaidAct, Unread>
    ensures { MatchResult result (λ act. act_of (view word.now) (view value.now) ≡ Some act) (λ e. e ≡ Unread.Form
        → act_of (view word.now) (view value.now) ≡ None) }
{
    let word = text(word)?;
    if word == "append" {
        Ok(SaidAct::Append(scalar(alloc, value)?))
    } else if word == "w" {
        Ok(SaidAct::Write(scalar(alloc, value)?))
    } else if word == "r" {
        read(alloc, value)
    } else {
        Err(Unread::Form)
    }
}

fn op(alloc: Global, value: &Json) -> Result<SaidOp, Unread>
    ensures { MatchResult result (λ op. op_of (view value.now) ≡ Some op) (λ e. e ≡ Unread.Form
        → op_of (view value.now) ≡ None) }
{
    match list(value)? {
        [word, key, value] => {
            let key = name(alloc, key)?;
            let act = act(alloc, word, value)?;
            Ok(SaidOp { key, act })
        }
        _ => Err(Unread::Form),
    }
}

pub(crate) fn ops(alloc: Global, values: &[Json]) -> Result<Items<SaidOp>, Unread>
    ensures { MatchResult result (λ ops. all_of op_of (items_view values.now) ≡ Some ops) (λ e. e ≡ Unread.Form
        → all_of op_of (items_view values.now) ≡ None) }
{
    let Ok(mut ops) = Items::with_capacity(alloc, values.len()) else {
        return Err(Unread::Memory);
    };
    for value in values {
        if ops.push(op(alloc, value)?).is_err() {
            return Err(Unread::Memory);
        }
    }
    Ok(ops)
}
