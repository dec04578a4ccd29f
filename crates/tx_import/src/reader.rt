//! Reading a history from its lines.
ghost use Rattle.std.specs.Prelude.{◌≡◌, ◌≤◌, ◌<◌, ◌+◌, ◌^◌, List, MatchResult, length, OnOk, IfOk, IfSome};
ghost use Rattle.serde_json.specs.View.{view};
ghost use Rattle.tx_text.specs.Lines.{lines_of};
ghost use Rattle.tx_recording.specs.Recordings.{IsRecording};
ghost use Rattle.tx_import.specs.Said.{transaction_of};
ghost use Rattle.tx_import.specs.declared.line_content.SaidTransaction.{SaidTransaction};
ghost use Rattle.tx_import.specs.Histories.{said_in, or_form, Says, SaysNone, IsHistory, IsHistoryOf, IsFaultOf};
ghost use Rattle.tx_import.specs.Numbers.{AreInTurn};
ghost use Rattle.tx_import.specs.Turns.{HistoryTurns};
ghost use Rattle.tx_import.specs.Drafts.{FitsDraft, IsDraftOf};

use crate::draft::{Draft, Tables};
use crate::line::Unread;
use crate::line_content::SaidTransaction;
use crate::member_names::has_one_twice;
use crate::members::transaction;
use json::Scratch;
use serde_json::Value;
use std::alloc::Global;
use std::io::BufRead;
use tx_recording::Recording;
use tx_text::{Broken, Found, read_line, value_of};
use tx_types::Cause;
use tx_types::limits::{MAX_LINE_BYTES, MAX_LINES};

/// A history that was read: its recording, and the names of what it numbers.
#[derive(Drop)]
pub struct NamedHistory {
    pub recording: Recording,
    pub tables: Tables,
}

/// The first line that says no transaction, and why.
#[derive(Clone, Copy, Debug, PartialEq, Eq)]
pub struct LineFault {
    pub number: u64,
    pub cause: Cause,
}

// The transaction that a value says, or that it says none.
fn value_said(
    alloc: Global,
    number: u64,
    value: &Value,
) -> Result<Result<SaidTransaction, Cause>, Broken>
    ensures { IfOk result (λ found. found ≡ or_form (transaction_of number (view value.now))) }
{
    match transaction(alloc, number, value) {
        Ok(said) => Ok(Ok(said)),
        Err(Unread::Form) => Ok(Err(Cause::Form)),
        Err(Unread::Memory) => Err(Broken::Memory),
    }
}

// The transaction that the line of this number says, whatever it has twice, or why it says none.
fn text_said(
    alloc: Global,
    number: u64,
    line: &[u8],
) -> Result<Result<SaidTransaction, Cause>, Broken>
    requires { length line.now ≤ MAX_LINE_BYTES }
    ensures said { IfOk result (λ found. found ≡ said_in number line.now) }
    ensures early { IfOk result (λ found. IfOk found (λ _. number ≤ MAX_LINES)) }
{
    if number > MAX_LINES {
        return Ok(Err(Cause::Lines));
    }
    match value_of(alloc, line)? {
        Ok(value) => value_said(alloc, number, &value),
        Err(cause) => Ok(Err(cause)),
    }
}

// The transaction that the line of this number says, or why it says none.
fn line_said(
    alloc: Global,
    scratch: &mut Scratch,
    number: u64,
    line: &[u8],
) -> Result<Result<SaidTransaction, Cause>, Broken>
    requires { length line.now ≤ MAX_LINE_BYTES }
    ensures said { IfOk result (λ found. MatchResult found (Says number line.now) (SaysNone number line.now)) }
    ensures early { IfOk result (λ found. IfOk found (λ _. number ≤ MAX_LINES)) }
{
    let said = match text_said(alloc, number, line)? {
        Ok(said) => said,
        Err(cause) => return Ok(Err(cause)),
    };
    let Ok(text) = str::from_utf8(line) else {
        return Ok(Err(Cause::Json));
    };
    if has_one_twice(alloc, scratch, text)? {
        return Ok(Err(Cause::Form));
    }
    Ok(Ok(said))
}

// What came of the next line.
#[derive(Clone, Copy, Debug, PartialEq, Eq)]
enum HistoryTurn {
    End,
    Put,
    Faulted(Cause),
}

// Reads the next line, and adds what it says.
fn next<R: BufRead>(
    alloc: Global,
    scratch: &mut Scratch,
    reader: &mut R,
    line: &mut Vec<u8>,
    draft: &mut Draft,
    number: u64,
) -> Result<HistoryTurn, Broken>
    requires fits { FitsDraft draft.old }
    requires few { length draft.old.transactions.items < 2 ^ 30 }
    // At any reader.
    ensures early { IfOk result (λ turn. turn ≡ HistoryTurn.Put → number ≤ MAX_LINES) }
    ensures fits { OnOk result (FitsDraft draft.new) }
    ensures counts { OnOk result (length draft.new.transactions.items ≤ length draft.old.transactions.items + 1) }
    // Where the bytes are known.
    ensures turns { IfOk result (λ turn. IfSome (R.remaining reader.old)
        (λ bytes. HistoryTurns bytes (R.remaining reader.new) draft.old draft.new number turn)) }
{
    match read_line(reader, line)? {
        Found::End => return Ok(HistoryTurn::End),
        Found::Long => return Ok(HistoryTurn::Faulted(Cause::Long)),
        Found::Line => {}
    }
    let said = match line_said(alloc, scratch, number, line)? {
        Ok(said) => said,
        Err(cause) => return Ok(HistoryTurn::Faulted(cause)),
    };
    if !draft.has_room(said.ops.as_slice()) {
        return Ok(HistoryTurn::Faulted(Cause::Lines));
    }
    draft.put(&said)?;
    Ok(HistoryTurn::Put)
}

// The history of a draft.
fn history_of(draft: Draft) -> NamedHistory
    requires fits { FitsDraft draft }
    requires few { length draft.transactions.items < 2 ^ 30 }
    ensures recording { IsRecording result.recording }
    ensures in_turn { AreInTurn result.recording.transactions.items }
    ensures history { (said : List SaidTransaction) → IsDraftOf draft said → IsHistory result said }
{
    let Draft {
        transactions,
        ops,
        elements,
        tables,
    } = draft;
    let keys = tables.keys.len() as u32;
    let values = tables.values.len() as u32;
    // For proofs: no two processes have one name.
    let _ = tables.processes.len();
    NamedHistory {
        recording: Recording {
            transactions,
            ops,
            elements,
            keys,
            values,
        },
        tables,
    }
}

/// Reads a history, or up to the first line that says no transaction.
///
/// `Input` where a read failed, `Memory` where a growth was refused.
pub fn read_history<R: BufRead>(
    alloc: Global,
    reader: &mut R,
) -> Result<Result<NamedHistory, LineFault>, Broken>
    // At any reader.
    ensures recording { IfOk result (λ found. IfOk found (λ history. IsRecording history.recording)) }
    ensures in_turn { IfOk result (λ found. IfOk found (λ history. AreInTurn history.recording.transactions.items)) }
    // Where the bytes are known.
    ensures read { IfOk result (λ found. IfSome (R.remaining reader.old) (λ input. MatchResult found
        (λ history. IsHistoryOf (lines_of input) history) (λ fault. IsFaultOf (lines_of input) fault))) }
{
    let mut draft = Draft::new(alloc);
    let mut scratch = Scratch::new(alloc);
    let mut line = Vec::new(alloc);
    let mut number = 0;
    'lines: loop {
        match next(
            alloc,
            &mut scratch,
            reader,
            &mut line,
            &mut draft,
            number + 1,
        )? {
            HistoryTurn::End => return Ok(Ok(history_of(draft))),
            HistoryTurn::Put => number += 1,
            HistoryTurn::Faulted(cause) => {
                return Ok(Err(LineFault {
                    number: number + 1,
                    cause,
                }));
            }
        }
    }
}
