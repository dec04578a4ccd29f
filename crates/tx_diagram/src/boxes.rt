//! The box of a transaction in a picture: its line, how it ended, and its operations.
ghost use Rattle.std.specs.Prelude.{◌≡◌, ◌<◌, ◌++◌, length, OnOk, IfOk};
ghost use Rattle.tx_ring.specs.Rings.{row_text};
ghost use Rattle.tx_acts.specs.Ops.{op_line};
ghost use Rattle.tx_diagram.specs.Boxes.{id_text, shown_of, op_row, rows_text, filled_text, box_of};

use std::alloc::{AllocError, Global};
use tx_acts::{about, op_line, ops_at, shown_ops};
use tx_import::NamedHistory;
use tx_recording::RecordedOp;
use tx_ring::{put_box, put_row};
use tx_verdict_text::put_id;

/// The id of a transaction.
pub(crate) fn name(alloc: Global, history: &NamedHistory, txn: u32) -> Result<Vec<u8>, AllocError>
    ensures { IfOk result (λ text. text.items ≡ id_text history.now txn) }
{
    let mut text = Vec::new(alloc);
    put_id(&mut text, history, txn)?;
    Ok(text)
}

/// The operations that are shown of a transaction where these keys matter.
pub(crate) fn shown_of(
    alloc: Global,
    history: &NamedHistory,
    keys: &[u32],
    txn: u32,
) -> Result<Vec<RecordedOp>, AllocError>
    ensures { IfOk result (λ shown. shown.items ≡ shown_of history.now keys.now txn) }
{
    shown_ops(alloc, keys, ops_at(history, txn))
}

// Appends the row of an operation.
fn put_op_row(
    alloc: Global,
    out: &mut Vec<u8>,
    history: &NamedHistory,
    number: usize,
    op: RecordedOp,
) -> Result<(), AllocError>
    ensures { OnOk result (out.new.items ≡ out.old.items ++ row_text number (op_line history.now op)) }
{
    let line = op_line(alloc, history, op)?;
    put_row(out, number, line.as_slice())
}

// Appends the row of the operation at a place.
fn put_op_row_at(
    alloc: Global,
    out: &mut Vec<u8>,
    history: &NamedHistory,
    ops: &[RecordedOp],
    place: usize,
) -> Result<(), AllocError>
    requires { place < length ops.now }
    ensures { OnOk result (out.new.items ≡ out.old.items ++ op_row history.now ops.now place) }
{
    put_op_row(alloc, out, history, place, ops[place])
}

// Appends operations, a row each.
fn put_rows(
    alloc: Global,
    out: &mut Vec<u8>,
    history: &NamedHistory,
    ops: &[RecordedOp],
) -> Result<(), AllocError>
    ensures { OnOk result (out.new.items ≡ out.old.items ++ rows_text history.now ops.now) }
{
    for i in 0..ops.len() {
        put_op_row_at(alloc, out, history, ops, i)?;
    }
    Ok(())
}

// Appends a box with these operations.
fn put_filled(
    alloc: Global,
    out: &mut Vec<u8>,
    history: &NamedHistory,
    rows: usize,
    place: usize,
    kind: &str,
    txn: u32,
    ops: &[RecordedOp],
) -> Result<(), AllocError>
    ensures { OnOk result (out.new.items ≡ out.old.items
        ++ filled_text history.now rows place kind.now txn ops.now) }
{
    let name = name(alloc, history, txn)?;
    let about = about(alloc, history, txn, ops.len())?;
    put_box(out, rows, place, kind, name.as_slice(), about.as_slice())?;
    put_rows(alloc, out, history, ops)
}

/// Appends the box of a transaction at a place, of a kind, up to what leads from it, where each box
/// has so many rows and these keys matter.
pub(crate) fn put_box_of(
    alloc: Global,
    out: &mut Vec<u8>,
    history: &NamedHistory,
    keys: &[u32],
    rows: usize,
    place: usize,
    kind: &str,
    txn: u32,
) -> Result<(), AllocError>
    ensures { OnOk result (out.new.items ≡ out.old.items
        ++ box_of history.now keys.now rows place kind.now txn) }
{
    let shown = shown_of(alloc, history, keys, txn)?;
    let ops = shown.as_slice();
    put_filled(alloc, out, history, rows, place, kind, txn, ops)
}
