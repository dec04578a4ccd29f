//! What is said of a transaction: its line, how it ended, who ran it and when.
ghost use Rattle.std.specs.Prelude.{◌≡◌, ◌+◌, ◌++◌, decimal, Option, OnOk, IfOk};
ghost use Rattle.tx_acts.specs.About.{line_word, outcome_text, process_text, number_text, ended_text, part_text, few_text, said_text, about_text};

use crate::ops::{ops_at, transaction_at};
use std::alloc::{AllocError, Global};
use tx_import::NamedHistory;
use tx_recording::{RecordedOutcome, RecordedTransaction};
use tx_text::put_digits;
use tx_verdict_text::put_process;

// Appends the number of a line.
fn put_place(out: &mut Vec<u8>, txn: u32) -> Result<(), AllocError>
    ensures { OnOk result (out.new.items ≡ out.old.items ++ decimal (txn + 1)) }
{
    put_digits(out, u64::from(txn) + 1)
}

/// Appends the number of the line that says a transaction.
pub(crate) fn put_line(out: &mut Vec<u8>, txn: u32) -> Result<(), AllocError>
    ensures { OnOk result (out.new.items ≡ out.old.items ++ line_word txn) }
{
    out.extend_from_slice(b"line ")?;
    put_place(out, txn)
}

// How a transaction ended.
fn outcome_text(outcome: RecordedOutcome) -> &'static str
    ensures { result.now ≡ outcome_text outcome }
{
    match outcome {
        RecordedOutcome::Ok => ", ok",
        RecordedOutcome::Fail => ", fail",
        RecordedOutcome::Info => ", info",
    }
}

// Appends how a transaction ended.
fn put_outcome(out: &mut Vec<u8>, outcome: RecordedOutcome) -> Result<(), AllocError>
    ensures { OnOk result (out.new.items ≡ out.old.items ++ outcome_text outcome) }
{
    out.extend_from_slice(outcome_text(outcome).as_bytes())
}

// Appends a process.
fn put_by(out: &mut Vec<u8>, history: &NamedHistory, process: u32) -> Result<(), AllocError>
    ensures { OnOk result (out.new.items ≡ out.old.items ++ process_text history.now (Option.Some process)) }
{
    out.extend_from_slice(b", process ")?;
    put_process(out, history, process)
}

/// Appends a process, where there is one.
pub(crate) fn put_known_process(
    out: &mut Vec<u8>,
    history: &NamedHistory,
    process: Option<u32>,
) -> Result<(), AllocError>
    ensures { OnOk result (out.new.items ≡ out.old.items ++ process_text history.now process) }
{
    match process {
        Some(process) => put_by(out, history, process),
        None => Ok(()),
    }
}

// Appends a number behind words.
fn put_worded(out: &mut Vec<u8>, words: &[u8], number: u64) -> Result<(), AllocError>
    ensures { OnOk result (out.new.items ≡ out.old.items ++ number_text words.now (Option.Some number)) }
{
    out.extend_from_slice(words)?;
    put_digits(out, number)
}

/// Appends a number behind words, where there is one.
pub(crate) fn put_number(
    out: &mut Vec<u8>,
    words: &[u8],
    number: Option<u64>,
) -> Result<(), AllocError>
    ensures { OnOk result (out.new.items ≡ out.old.items ++ number_text words.now number) }
{
    match number {
        Some(number) => put_worded(out, words, number),
        None => Ok(()),
    }
}

// Appends how a transaction ended, who ran it, and when.
fn put_ended(
    out: &mut Vec<u8>,
    history: &NamedHistory,
    transaction: RecordedTransaction,
) -> Result<(), AllocError>
    ensures { OnOk result (out.new.items ≡ out.old.items ++ ended_text history.now transaction) }
{
    put_outcome(out, transaction.outcome)?;
    put_known_process(out, history, transaction.process)?;
    put_number(out, b", start ", transaction.began)?;
    put_number(out, b", end ", transaction.ended)
}

// Appends how many there are.
fn put_count(out: &mut Vec<u8>, count: usize) -> Result<(), AllocError>
    ensures { OnOk result (out.new.items ≡ out.old.items ++ decimal count) }
{
    put_digits(out, count as u64)
}

// Appends how many of all operations are shown.
fn put_part(out: &mut Vec<u8>, shown: usize, all: usize) -> Result<(), AllocError>
    ensures { OnOk result (out.new.items ≡ out.old.items ++ part_text shown all) }
{
    out.extend_from_slice(b", ")?;
    put_count(out, shown)?;
    out.extend_from_slice(b" of ")?;
    put_count(out, all)?;
    out.extend_from_slice(b" operations")
}

// The same, where they are not all.
fn put_few(out: &mut Vec<u8>, shown: usize, all: usize) -> Result<(), AllocError>
    ensures { OnOk result (out.new.items ≡ out.old.items ++ few_text shown all) }
{
    if shown < all {
        return put_part(out, shown, all);
    }
    Ok(())
}

// What is said of a transaction, by its line and its operations.
fn said_of(
    alloc: Global,
    history: &NamedHistory,
    txn: u32,
    transaction: RecordedTransaction,
    shown: usize,
    all: usize,
) -> Result<Vec<u8>, AllocError>
    ensures { IfOk result (λ text. text.items ≡ said_text history.now txn transaction shown all) }
{
    let mut text = Vec::new(alloc);
    put_line(&mut text, txn)?;
    put_ended(&mut text, history, transaction)?;
    put_few(&mut text, shown, all)?;
    Ok(text)
}

/// What is said of a transaction of which so many operations are shown: its line, how it ended, who
/// ran it and when.
pub fn about(
    alloc: Global,
    history: &NamedHistory,
    txn: u32,
    shown: usize,
) -> Result<Vec<u8>, AllocError>
    ensures { IfOk result (λ text. text.items ≡ about_text history.now txn shown) }
{
    let transaction = transaction_at(&history.recording, txn);
    let ops = ops_at(history, txn);
    said_of(alloc, history, txn, transaction, shown, ops.len())
}
