//! What a line's JSON object says, member by member.
ghost use Rattle.std.specs.Prelude.{◌≡◌, Some, None, MatchResult};
ghost use Rattle.serde_json.specs.View.{view};
ghost use Rattle.serde_json.specs.Find.{get};
ghost use Rattle.tx_check.specs.MachineSteps.{number_of};
ghost use Rattle.tx_import.specs.Said.{name_of, optional, outcome_said, ops_said, transaction_of};

use crate::line::{Unread, list, name, number, ops, text};
use crate::line_content::{SaidOp, SaidTransaction};
use crate::name::Name;
use serde_json::Value as Json;
use std::alloc::Global;
use tx_recording::RecordedOutcome;
use tx_types::Items;

// The member of this name.
fn member<'a>(value: &'a Json, name: &str) -> Result<&'a Json, Unread>
    ensures { MatchResult result (λ found. get name.now (view value.now) ≡ Some (view found.now))
        (λ _. get name.now (view value.now) ≡ None) }
{
    match value.get(name) {
        Some(found) => Ok(found),
        None => Err(Unread::Form),
    }
}

// The number that the member of this name is, where there is one.
fn number_at(value: &Json, name: &str) -> Result<Option<u64>, Unread>
    ensures { MatchResult result (λ n. optional number_of (get name.now (view value.now)) ≡ Some n)
        (λ _. optional number_of (get name.now (view value.now)) ≡ None) }
{
    match value.get(name) {
        None => Ok(None),
        Some(found) => if found.is_null() {
            Ok(None)
        } else {
            Ok(Some(number(found)?))
        },
    }
}

// The name that the member of this name is, where there is one.
fn name_at(alloc: Global, value: &Json, at: &str) -> Result<Option<Name>, Unread>
    ensures { MatchResult result (λ n. optional name_of (get at.now (view value.now)) ≡ Some n) (λ e. e ≡ Unread.Form
        → optional name_of (get at.now (view value.now)) ≡ None) }
{
    match value.get(at) {
        None => Ok(None),
        Some(found) => if found.is_null() {
            Ok(None)
        } else {
            Ok(Some(name(alloc, found)?))
        },
    }
}

fn outcome(value: &Json) -> Result<RecordedOutcome, Unread>
    ensures { MatchResult result (λ outcome. outcome_said (view value.now) ≡ Some outcome)
        (λ _. outcome_said (view value.now) ≡ None) }
{
    let word = text(member(value, "type")?)?;
    if word == "ok" {
        Ok(RecordedOutcome::Ok)
    } else if word == "fail" {
        Ok(RecordedOutcome::Fail)
    } else if word == "info" {
        Ok(RecordedOutcome::Info)
    } else {
        Err(Unread::Form)
    }
}

fn ops_in(alloc: Global, value: &Json) -> Result<Items<SaidOp>, Unread>
    ensures { MatchResult result (λ ops. ops_said (view value.now) ≡ Some ops) (λ e. e ≡ Unread.Form
        → ops_said (view value.now) ≡ None) }
{
    ops(alloc, list(member(value, "ops")?)?)
}

/// The transaction that the line of this number says; `Form` where it says none.
pub(crate) fn transaction(alloc: Global, line: u64, value: &Json) -> Result<SaidTransaction, Unread>
    ensures { MatchResult result (λ said. transaction_of line (view value.now) ≡ Some said) (λ e. e ≡ Unread.Form
        → transaction_of line (view value.now) ≡ None) }
{
    let outcome = outcome(value)?;
    let id = number_at(value, "id")?.unwrap_or(line);
    let began = number_at(value, "start")?;
    let ended = number_at(value, "end")?;
    let process = name_at(alloc, value, "process")?;
    let ops = ops_in(alloc, value)?;
    Ok(SaidTransaction {
        id,
        outcome,
        process,
        began,
        ended,
        ops,
    })
}
