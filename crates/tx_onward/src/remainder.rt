//! What is left of a recording when what some transactions read is taken out of it.
ghost use Rattle.std.specs.Prelude.{◌≡◌, ◌≤◌, ◌<◌, ◌++◌, ◌∷◌, [], IfOk, OnOk, false, slice_index_or, length};
ghost use Rattle.std.specs.List.{AllPairs, filter};
ghost use Rattle.tx_recording.specs.Recordings.{IsRecording, txns_of, transaction_at, ops_of as ops_in};
ghost use Rattle.tx_onward.specs.Left.{is_put, without, moved, IsLeft};

use std::alloc::{AllocError, Global};
use tx_recording::{Act, RecordedOp, RecordedTransaction, Recording};

// Whether a transaction was told of.
fn is_told(told: &[bool], txn: usize) -> bool
    ensures { result ≡ slice_index_or told.now txn false }
{
    match told.get(txn) {
        Some(is_told) => *is_told,
        None => false,
    }
}

// Whether an act puts something.
fn is_put(act: Act) -> bool
    ensures { result ≡ is_put act }
{
    match act {
        Act::Append(_) | Act::Write(_) => true,
        Act::Read(_) => false,
    }
}

// Adds those operations that put something.
fn put_puts(left: &mut Vec<RecordedOp>, ops: &[RecordedOp]) -> Result<(), AllocError>
    ensures { OnOk result (left.new.items ≡ left.old.items ++ filter (λ o. is_put o.act) ops.now) }
{
    for i in 0..ops.len() {
        let op = ops[i];
        if is_put(op.act) {
            left.push(op)?;
        }
    }
    Ok(())
}

// Adds operations, without the reads where their transaction was told of.
fn put_ops(left: &mut Vec<RecordedOp>, ops: &[RecordedOp], is_told: bool) -> Result<(), AllocError>
    ensures { OnOk result (left.new.items ≡ left.old.items ++ without is_told ops.now) }
{
    if is_told {
        return put_puts(left, ops);
    }
    left.extend_from_slice(ops)?;
    Ok(())
}

// Adds a transaction, without its reads where it was told of.
fn put_one(
    transactions: &mut Vec<RecordedTransaction>,
    left: &mut Vec<RecordedOp>,
    recording: &Recording,
    is_told: bool,
    txn: usize,
) -> Result<(), AllocError>
    requires recording { IsRecording recording.now }
    requires within { txn < txns_of recording.now }
    requires room { length left.old.items ≤ (transaction_at recording.now txn).first }
    ensures ops { OnOk result (left.new.items ≡ left.old.items ++ without is_told (ops_in recording.now txn)) }
    ensures transactions { OnOk result (transactions.new.items ≡ transactions.old.items
        ++ moved (transaction_at recording.now txn) (length left.old.items) (length left.new.items) ∷ []) }
{
    let transaction = recording.transactions[txn];
    let first = left.len() as u32;
    put_ops(left, recording.ops_of(txn), is_told)?;
    let upto = left.len() as u32;
    transactions.push(RecordedTransaction {
        first,
        upto,
        ..transaction
    })?;
    Ok(())
}

// The same values.
fn same_values(alloc: Global, values: &[u32]) -> Result<Vec<u32>, AllocError>
    ensures { IfOk result (λ same. same.items ≡ values.now) }
{
    let mut same = Vec::new(alloc);
    same.extend_from_slice(values)?;
    Ok(same)
}

/// What is left of a recording when what those transactions read that were told of is taken out:
/// they did all else at the same time, and are known to have committed as before. The operations of
/// each transaction stand behind those of the transactions before it.
pub fn left_of(alloc: Global, recording: &Recording, told: &[bool]) -> Result<Recording, AllocError>
    requires recording { IsRecording recording.now }
    requires in_turn { AllPairs (λ t u. t.upto ≤ u.first) recording.now.transactions.items }
    ensures left { IfOk result (λ left. IsLeft recording.now (λ t. slice_index_or told.now t false) left) }
    ensures recording { IfOk result (λ left. IsRecording left) }
{
    let mut transactions = Vec::new(alloc);
    let mut ops = Vec::new(alloc);
    for txn in 0..recording.transactions.len() {
        put_one(
            &mut transactions,
            &mut ops,
            recording,
            is_told(told, txn),
            txn,
        )?;
    }
    Ok(Recording {
        transactions,
        ops,
        elements: same_values(alloc, recording.elements.as_slice())?,
        keys: recording.keys,
        values: recording.values,
    })
}
