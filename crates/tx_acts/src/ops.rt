//! The operations of a transaction, in words.
ghost use Rattle.std.specs.Prelude.{◌≡◌, ◌<◌, ◌≤◌, ◌++◌, codes, length, take, OnOk, IfOk};
ghost use Rattle.tx_recording.specs.Recordings.{transaction_at};
ghost use Rattle.tx_acts.specs.Ops.{value_text, value_at, values_text, seen_text, last_six, last_text, found_text, found_by, did_words, act_text, op_text, is_inner, begins_at, cut_at, shortened, op_line, is_in, keyed_ops, first_ops, shown_ops, range_of, ops_at};

use std::alloc::{AllocError, Global};
use tx_import::NamedHistory;
use tx_recording::{Act, RecordedOp, RecordedOutcome, RecordedTransaction, Recording, Span};
use tx_verdict_text::{put_key, put_value};

// Appends a value behind a space.
fn put_one(out: &mut Vec<u8>, history: &NamedHistory, value: u32) -> Result<(), AllocError>
    ensures { OnOk result (out.new.items ≡ out.old.items ++ value_text history.now value) }
{
    out.extend_from_slice(b" ")?;
    put_value(out, history, value)
}

// Appends the value at a place.
fn put_value_at(
    out: &mut Vec<u8>,
    history: &NamedHistory,
    values: &[u32],
    place: usize,
) -> Result<(), AllocError>
    requires { place < length values.now }
    ensures { OnOk result (out.new.items ≡ out.old.items ++ value_at history.now values.now place) }
{
    put_one(out, history, values[place])
}

// Appends values.
fn put_values(out: &mut Vec<u8>, history: &NamedHistory, values: &[u32]) -> Result<(), AllocError>
    ensures { OnOk result (out.new.items ≡ out.old.items ++ values_text history.now values.now) }
{
    for i in 0..values.len() {
        put_value_at(out, history, values, i)?;
    }
    Ok(())
}

// Appends what was read, where it is not much.
fn put_seen(out: &mut Vec<u8>, history: &NamedHistory, values: &[u32]) -> Result<(), AllocError>
    ensures { OnOk result (out.new.items ≡ out.old.items ++ seen_text history.now values.now) }
{
    if values.len() == 0 {
        return out.extend_from_slice(b" nothing");
    }
    put_values(out, history, values)
}

// The last six values.
fn last_six(values: &[u32]) -> &[u32]
    requires { 6 < length values.now }
    ensures { result.now ≡ last_six values.now }
{
    &values[values.len() - 6..]
}

// Appends the last values of a read.
fn put_last(out: &mut Vec<u8>, history: &NamedHistory, values: &[u32]) -> Result<(), AllocError>
    ensures { OnOk result (out.new.items ≡ out.old.items ++ last_text history.now values.now) }
{
    out.extend_from_slice(b" ..")?;
    put_values(out, history, values)
}

// Appends what was read: of much the last.
fn put_found(out: &mut Vec<u8>, history: &NamedHistory, values: &[u32]) -> Result<(), AllocError>
    ensures { OnOk result (out.new.items ≡ out.old.items ++ found_text history.now values.now) }
{
    if values.len() <= 6 {
        return put_seen(out, history, values);
    }
    put_last(out, history, last_six(values))
}

// The values of a read, where they are there.
fn found_by(history: &NamedHistory, span: Span) -> &[u32]
    ensures { result.now ≡ found_by history.now span }
{
    let first = span.first as usize;
    let upto = first + span.count as usize;
    if upto <= history.recording.elements.len() {
        &history.recording.elements[first..upto]
    } else {
        &[]
    }
}

// Appends what was done with a key, of which the words follow.
fn put_did(
    out: &mut Vec<u8>,
    history: &NamedHistory,
    word: &[u8],
    key: u32,
) -> Result<(), AllocError>
    ensures { OnOk result (out.new.items ≡ out.old.items ++ did_words history.now word.now key) }
{
    out.extend_from_slice(word)?;
    put_key(out, history, key)?;
    out.extend_from_slice(b":")
}

// Appends that a value was appended.
fn put_append(
    out: &mut Vec<u8>,
    history: &NamedHistory,
    key: u32,
    value: u32,
) -> Result<(), AllocError>
    ensures { OnOk result (out.new.items ≡ out.old.items ++ act_text history.now key (Act.Append value)) }
{
    put_did(out, history, b"append ", key)?;
    put_one(out, history, value)
}

// Appends that a value was written.
fn put_write(
    out: &mut Vec<u8>,
    history: &NamedHistory,
    key: u32,
    value: u32,
) -> Result<(), AllocError>
    ensures { OnOk result (out.new.items ≡ out.old.items ++ act_text history.now key (Act.Write value)) }
{
    put_did(out, history, b"write ", key)?;
    put_one(out, history, value)
}

// Appends what was read.
fn put_read(
    out: &mut Vec<u8>,
    history: &NamedHistory,
    key: u32,
    span: Span,
) -> Result<(), AllocError>
    ensures { OnOk result (out.new.items ≡ out.old.items ++ act_text history.now key (Act.Read span)) }
{
    put_did(out, history, b"read ", key)?;
    put_found(out, history, found_by(history, span))
}

// Appends an operation.
fn put_op(out: &mut Vec<u8>, history: &NamedHistory, op: RecordedOp) -> Result<(), AllocError>
    ensures { OnOk result (out.new.items ≡ out.old.items ++ op_text history.now op) }
{
    match op.act {
        Act::Append(value) => put_append(out, history, op.key, value),
        Act::Write(value) => put_write(out, history, op.key, value),
        Act::Read(span) => put_read(out, history, op.key, span),
    }
}

// Whether a byte stands within a character, and is not its first.
fn is_inner(byte: u8) -> bool
    ensures { result ≡ is_inner byte }
{
    byte >= 128 && byte < 192
}

// Whether a character begins at a place.
fn begins_at(text: &[u8], place: usize) -> bool
    requires { place < length text.now }
    ensures { result ≡ begins_at text.now place }
{
    if is_inner(text[place]) { false } else { true }
}

// Where a text is cut.
fn cut_at(text: &[u8]) -> usize
    requires { 58 < length text.now }
    ensures cut { result ≡ cut_at text.now }
    ensures within { result ≤ 56 }
{
    if begins_at(text, 56) {
        56
    } else if begins_at(text, 55) {
        55
    } else if begins_at(text, 54) {
        54
    } else {
        53
    }
}

// What is left of a text that is cut.
fn cut(text: &[u8]) -> &[u8]
    requires { 58 < length text.now }
    ensures { result.now ≡ take (cut_at text.now) text.now }
{
    &text[..cut_at(text)]
}

// Appends the first of a text, and two dots.
fn put_cut(out: &mut Vec<u8>, text: &[u8]) -> Result<(), AllocError>
    requires { 58 < length text.now }
    ensures { OnOk result (out.new.items ≡ out.old.items ++ (take (cut_at text.now) text.now ++ codes "..")) }
{
    out.extend_from_slice(cut(text))?;
    out.extend_from_slice(b"..")
}

// Appends a text, of a long one the first and two dots.
fn put_shortened(out: &mut Vec<u8>, text: &[u8]) -> Result<(), AllocError>
    ensures { OnOk result (out.new.items ≡ out.old.items ++ shortened text.now) }
{
    if text.len() <= 58 {
        return out.extend_from_slice(text);
    }
    put_cut(out, text)
}

// An operation in words.
fn op_words(alloc: Global, history: &NamedHistory, op: RecordedOp) -> Result<Vec<u8>, AllocError>
    ensures { IfOk result (λ text. text.items ≡ op_text history.now op) }
{
    let mut text = Vec::new(alloc);
    put_op(&mut text, history, op)?;
    Ok(text)
}

/// An operation, in at most 58 bytes.
pub fn op_line(alloc: Global, history: &NamedHistory, op: RecordedOp) -> Result<Vec<u8>, AllocError>
    ensures { IfOk result (λ line. line.items ≡ op_line history.now op) }
{
    let text = op_words(alloc, history, op)?;
    let mut line = Vec::new(alloc);
    put_shortened(&mut line, text.as_slice())?;
    Ok(line)
}

// Whether a key is one of these.
fn is_in(keys: &[u32], key: u32) -> bool
    ensures { result ≡ is_in keys.now key }
{
    for i in 0..keys.len() {
        if keys[i] == key {
            return true;
        }
    }
    false
}

// Adds the operations with one of the keys.
fn put_keyed(
    found: &mut Vec<RecordedOp>,
    keys: &[u32],
    ops: &[RecordedOp],
) -> Result<(), AllocError>
    ensures { OnOk result (found.new.items ≡ found.old.items ++ keyed_ops keys.now ops.now) }
{
    for i in 0..ops.len() {
        let op = ops[i];
        if is_in(keys, op.key) {
            found.push(op)?;
        }
    }
    Ok(())
}

// The first eight of these operations.
fn first_ops(ops: &[RecordedOp]) -> &[RecordedOp]
    ensures { result.now ≡ first_ops ops.now }
{
    if ops.len() <= 8 { ops } else { &ops[..8] }
}

// The operations with one of the keys.
fn keyed_ops(alloc: Global, keys: &[u32], ops: &[RecordedOp]) -> Result<Vec<RecordedOp>, AllocError>
    ensures { IfOk result (λ found. found.items ≡ keyed_ops keys.now ops.now) }
{
    let mut found = Vec::new(alloc);
    put_keyed(&mut found, keys, ops)?;
    Ok(found)
}

// The same operations.
fn same_ops(alloc: Global, ops: &[RecordedOp]) -> Result<Vec<RecordedOp>, AllocError>
    ensures { IfOk result (λ same. same.items ≡ ops.now) }
{
    let mut same = Vec::new(alloc);
    same.extend_from_slice(ops)?;
    Ok(same)
}

/// The first eight operations with one of the keys.
pub(crate) fn few_ops(
    alloc: Global,
    keys: &[u32],
    ops: &[RecordedOp],
) -> Result<Vec<RecordedOp>, AllocError>
    ensures { IfOk result (λ few. few.items ≡ first_ops (keyed_ops keys.now ops.now)) }
{
    let keyed = keyed_ops(alloc, keys, ops)?;
    same_ops(alloc, first_ops(keyed.as_slice()))
}

/// Those of the operations that are shown where these keys matter.
pub fn shown_ops(
    alloc: Global,
    keys: &[u32],
    ops: &[RecordedOp],
) -> Result<Vec<RecordedOp>, AllocError>
    ensures { IfOk result (λ shown. shown.items ≡ shown_ops keys.now ops.now) }
{
    if ops.len() <= 8 {
        return same_ops(alloc, ops);
    }
    few_ops(alloc, keys, ops)
}

// A range of operations, where it is there.
fn range_of(ops: &[RecordedOp], first: u32, upto: u32) -> &[RecordedOp]
    ensures { result.now ≡ range_of ops.now first upto }
{
    let (first, upto) = (first as usize, upto as usize);
    if first <= upto && upto <= ops.len() {
        &ops[first..upto]
    } else {
        &[]
    }
}

/// The operations of a transaction, where they are there.
pub fn ops_at(history: &NamedHistory, txn: u32) -> &[RecordedOp]
    ensures { result.now ≡ ops_at history.now txn }
{
    let transaction = transaction_at(&history.recording, txn);
    range_of(
        history.recording.ops.as_slice(),
        transaction.first,
        transaction.upto,
    )
}

/// A transaction; past the last one that did nothing.
pub(crate) fn transaction_at(recording: &Recording, txn: u32) -> RecordedTransaction
    ensures { result ≡ transaction_at recording.now txn }
{
    match recording.transactions.get(txn as usize) {
        Some(transaction) => *transaction,
        None => RecordedTransaction {
            id: 0,
            outcome: RecordedOutcome::Fail,
            process: None,
            began: None,
            ended: None,
            first: 0,
            upto: 0,
        },
    }
}
