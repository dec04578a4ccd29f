//! What shows an edge, or a read that cannot be: lines, and what they did with the key.
ghost use Rattle.std.specs.Prelude.{◌≡◌, ◌<◌, ◌++◌, codes, length, Option, OnOk, IfOk};
ghost use Rattle.tx_recording.specs.Recordings.{transaction_at};
ghost use Rattle.tx_acts.specs.Ops.{op_line};
ghost use Rattle.tx_acts.specs.About.{process_text, number_text};
ghost use Rattle.tx_acts.specs.Shown.{behind_at, behind_text, ops_with, did_text, first_text, second_text, shown_text, other_text, read_shown};

use crate::ops::{few_ops, op_line, ops_at, transaction_at};
use crate::transaction::{put_known_process, put_line, put_number};
use std::alloc::{AllocError, Global};
use tx_import::NamedHistory;
use tx_recording::RecordedOp;
use tx_verdict::{CycleStep, EdgeKind, Fact};

// Appends an operation, behind others.
fn put_behind(
    alloc: Global,
    out: &mut Vec<u8>,
    history: &NamedHistory,
    op: RecordedOp,
) -> Result<(), AllocError>
    ensures { OnOk result (out.new.items ≡ out.old.items ++ (codes ", " ++ op_line history.now op)) }
{
    let line = op_line(alloc, history, op)?;
    out.extend_from_slice(b", ")?;
    out.extend_from_slice(line.as_slice())
}

// Appends the operation at a place, behind others.
fn put_behind_at(
    alloc: Global,
    out: &mut Vec<u8>,
    history: &NamedHistory,
    ops: &[RecordedOp],
    place: usize,
) -> Result<(), AllocError>
    requires { place < length ops.now }
    ensures { OnOk result (out.new.items ≡ out.old.items ++ behind_at history.now ops.now place) }
{
    put_behind(alloc, out, history, ops[place])
}

// Appends operations.
fn put_all(
    alloc: Global,
    out: &mut Vec<u8>,
    history: &NamedHistory,
    ops: &[RecordedOp],
) -> Result<(), AllocError>
    ensures { OnOk result (out.new.items ≡ out.old.items ++ behind_text history.now ops.now) }
{
    for i in 0..ops.len() {
        put_behind_at(alloc, out, history, ops, i)?;
    }
    Ok(())
}

// The first eight operations of a transaction with a key.
fn ops_with(
    alloc: Global,
    history: &NamedHistory,
    txn: u32,
    key: u32,
) -> Result<Vec<RecordedOp>, AllocError>
    ensures { IfOk result (λ ops. ops.items ≡ ops_with history.now txn key) }
{
    few_ops(alloc, &[key], ops_at(history, txn))
}

// Appends them.
fn put_with(
    alloc: Global,
    out: &mut Vec<u8>,
    history: &NamedHistory,
    txn: u32,
    key: u32,
) -> Result<(), AllocError>
    ensures { OnOk result (out.new.items ≡ out.old.items ++ did_text history.now txn (Option.Some key)) }
{
    let ops = ops_with(alloc, history, txn, key)?;
    put_all(alloc, out, history, ops.as_slice())
}

// Appends what a transaction did with a key, where there is one.
fn put_did(
    alloc: Global,
    out: &mut Vec<u8>,
    history: &NamedHistory,
    txn: u32,
    key: Option<u32>,
) -> Result<(), AllocError>
    ensures { OnOk result (out.new.items ≡ out.old.items ++ did_text history.now txn key) }
{
    match key {
        Some(key) => put_with(alloc, out, history, txn, key),
        None => Ok(()),
    }
}

// Appends the process of a transaction, where it has one.
fn put_process_of(out: &mut Vec<u8>, history: &NamedHistory, txn: u32) -> Result<(), AllocError>
    ensures { OnOk result (out.new.items ≡ out.old.items
        ++ process_text history.now (transaction_at history.now.recording txn).process) }
{
    let transaction = transaction_at(&history.recording, txn);
    put_known_process(out, history, transaction.process)
}

// Appends when a transaction ended, where that is told.
fn put_end_of(out: &mut Vec<u8>, history: &NamedHistory, txn: u32) -> Result<(), AllocError>
    ensures { OnOk result (out.new.items ≡ out.old.items
        ++ number_text (codes ", end ") (transaction_at history.now.recording txn).ended) }
{
    let transaction = transaction_at(&history.recording, txn);
    put_number(out, b", end ", transaction.ended)
}

// Appends when a transaction began, where that is told.
fn put_start_of(out: &mut Vec<u8>, history: &NamedHistory, txn: u32) -> Result<(), AllocError>
    ensures { OnOk result (out.new.items ≡ out.old.items
        ++ number_text (codes ", start ") (transaction_at history.now.recording txn).began) }
{
    let transaction = transaction_at(&history.recording, txn);
    put_number(out, b", start ", transaction.began)
}

// Appends what shows an edge of who comes first.
fn put_first(
    alloc: Global,
    out: &mut Vec<u8>,
    history: &NamedHistory,
    edge: EdgeKind,
    txn: u32,
    key: Option<u32>,
) -> Result<(), AllocError>
    ensures { OnOk result (out.new.items ≡ out.old.items ++ first_text history.now edge txn key) }
{
    match edge {
        EdgeKind::Ww => put_did(alloc, out, history, txn, key),
        EdgeKind::Wr => put_did(alloc, out, history, txn, key),
        EdgeKind::Rw => put_did(alloc, out, history, txn, key),
        EdgeKind::So => put_process_of(out, history, txn),
        EdgeKind::Rt => put_end_of(out, history, txn),
    }
}

// Appends what shows an edge of the other.
fn put_second(
    alloc: Global,
    out: &mut Vec<u8>,
    history: &NamedHistory,
    edge: EdgeKind,
    txn: u32,
    key: Option<u32>,
) -> Result<(), AllocError>
    ensures { OnOk result (out.new.items ≡ out.old.items ++ second_text history.now edge txn key) }
{
    match edge {
        EdgeKind::Ww => put_did(alloc, out, history, txn, key),
        EdgeKind::Wr => put_did(alloc, out, history, txn, key),
        EdgeKind::Rw => put_did(alloc, out, history, txn, key),
        EdgeKind::So => put_process_of(out, history, txn),
        EdgeKind::Rt => put_start_of(out, history, txn),
    }
}

/// Appends what shows an edge: both lines, and what they did with its key, in at most eight
/// operations each; or the process of both, or the end of the one and the start of the other.
pub fn put_shown(
    alloc: Global,
    out: &mut Vec<u8>,
    history: &NamedHistory,
    step: CycleStep,
) -> Result<(), AllocError>
    ensures { OnOk result (out.new.items ≡ out.old.items ++ shown_text history.now step) }
{
    put_line(out, step.from)?;
    put_first(alloc, out, history, step.edge, step.from, step.key)?;
    out.extend_from_slice(b"; ")?;
    put_line(out, step.to)?;
    put_second(alloc, out, history, step.edge, step.to, step.key)
}

// Appends the line of another transaction, and what it did with a key.
fn put_beside(
    alloc: Global,
    out: &mut Vec<u8>,
    history: &NamedHistory,
    key: u32,
    txn: u32,
) -> Result<(), AllocError>
    ensures { OnOk result (out.new.items ≡ out.old.items
        ++ other_text history.now key (Option.Some txn)) }
{
    out.extend_from_slice(b"; ")?;
    put_line(out, txn)?;
    put_with(alloc, out, history, txn, key)
}

// The same, where one is told of with a read.
fn put_other(
    alloc: Global,
    out: &mut Vec<u8>,
    history: &NamedHistory,
    key: u32,
    by: Option<u32>,
) -> Result<(), AllocError>
    ensures { OnOk result (out.new.items ≡ out.old.items ++ other_text history.now key by) }
{
    match by {
        Some(other) => put_beside(alloc, out, history, key, other),
        None => Ok(()),
    }
}

/// Appends what shows a read that cannot be: the lines of who is told of, and what they did with
/// the key, in at most eight operations each.
pub fn put_read_shown(
    alloc: Global,
    out: &mut Vec<u8>,
    history: &NamedHistory,
    fact: Fact,
) -> Result<(), AllocError>
    ensures { OnOk result (out.new.items ≡ out.old.items ++ read_shown history.now fact) }
{
    put_line(out, fact.txn)?;
    put_with(alloc, out, history, fact.txn, fact.key)?;
    put_other(alloc, out, history, fact.key, fact.by)
}
