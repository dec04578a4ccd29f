//! A history without the writes of those that failed and of whom nobody read a value.
ghost use Rattle.std.specs.Prelude.{◌≡◌, ◌⊎◌, ℕ, ◌<◌, length, Contains, IfOk, IsTrue, slice_index_or, true, false};
ghost use Rattle.tx_recording.specs.Explanations.{Puts};
ghost use Rattle.tx_recording.specs.Recordings.{IsRecording, txns_of, transaction_at};
ghost use Rattle.tx_import.specs.Numbers.{AreInTurn};
ghost use Rattle.tx_import.specs.Recorders.{IsUnread, IsBareOf, AreBare, AreMarked, emptied};

use crate::reader::NamedHistory;
use std::alloc::{AllocError, Global};
use tx_recording::{Act, RecordedOutcome, RecordedTransaction, Recording};

// The value that an act puts.
fn put_by(act: Act) -> Option<u32>
    ensures { (v : ℕ) → Puts act v → result ≡ Some v }
{
    match act {
        Act::Append(value) => Some(value),
        Act::Write(value) => Some(value),
        Act::Read(_) => None,
    }
}

// Whether a value is put twice.
fn is_put_twice(alloc: Global, recording: &Recording) -> Result<bool, AllocError> {
    let mut put = vec![in alloc; false; recording.values as usize]?;
    for i in 0..recording.ops.len() {
        let Some(value) = put_by(recording.ops[i].act) else {
            continue;
        };
        if let Some(slot) = put.get_mut(value as usize) {
            if *slot {
                return Ok(true);
            }
            *slot = true;
        }
    }
    Ok(false)
}

// Which values were read.
fn read_values(alloc: Global, recording: &Recording) -> Result<Vec<bool>, AllocError>
    requires { IsRecording recording.now }
    ensures { IfOk result (λ read. AreMarked recording.now.elements.items read.items) }
{
    let mut read = vec![in alloc; false; recording.values as usize]?;
    for i in 0..recording.elements.len() {
        read[recording.elements[i] as usize] = true;
    }
    Ok(read)
}

// Whether nobody read what an act puts.
fn is_unmarked(read: &[bool], act: Act) -> bool
    ensures { IsTrue result → (v : ℕ) → Puts act v → slice_index_or read.now v false ≡ true → ⊥ }
{
    let Some(value) = put_by(act) else {
        return true;
    };
    match read.get(value as usize) {
        Some(marked) => !*marked,
        None => false,
    }
}

// Whether a transaction failed, and nobody read a value of it.
fn is_unread(recording: &Recording, read: &[bool], txn: usize) -> bool
    requires recording { IsRecording recording.now }
    requires within { txn < txns_of recording.now }
    requires marked { AreMarked recording.now.elements.items read.now }
    ensures { IsTrue result → IsUnread recording.now txn }
{
    match recording.transactions[txn].outcome {
        RecordedOutcome::Ok => return false,
        RecordedOutcome::Info => return false,
        RecordedOutcome::Fail => {}
    }
    let ops = recording.ops_of(txn);
    for i in 0..ops.len() {
        if !is_unmarked(read, ops[i].act) {
            return false;
        }
    }
    true
}

// A transaction without its operations.
fn without_ops(transaction: RecordedTransaction) -> RecordedTransaction
    ensures { result ≡ emptied transaction }
{
    RecordedTransaction {
        id: transaction.id,
        outcome: transaction.outcome,
        process: transaction.process,
        began: transaction.began,
        ended: transaction.ended,
        first: transaction.first,
        upto: transaction.first,
    }
}

// A transaction, without its operations if it failed and nobody read a value of it.
fn bare_one(recording: &Recording, read: &[bool], txn: usize) -> RecordedTransaction
    requires recording { IsRecording recording.now }
    requires within { txn < txns_of recording.now }
    requires marked { AreMarked recording.now.elements.items read.now }
    ensures { (result ≡ transaction_at recording.now txn)
        ⊎ (IsUnread recording.now txn × (result ≡ emptied (transaction_at recording.now txn))) }
{
    let transaction = recording.transactions[txn];
    if is_unread(recording, read, txn) {
        return without_ops(transaction);
    }
    transaction
}

// The transactions, some that failed without their operations.
fn bare(
    alloc: Global,
    recording: &Recording,
    read: &[bool],
) -> Result<Vec<RecordedTransaction>, AllocError>
    requires recording { IsRecording recording.now }
    requires marked { AreMarked recording.now.elements.items read.now }
    ensures { IfOk result (λ ts. AreBare recording.now ts.items (txns_of recording.now)) }
{
    let mut transactions = Vec::new(alloc);
    for txn in 0..recording.transactions.len() {
        transactions.push(bare_one(recording, read, txn))?;
    }
    Ok(transactions)
}

/// The history without the operations of those that failed and of whom nobody read a value, if some
/// value is put twice: who tries again may put it again.
///
/// `AllocError` where there was no room.
pub fn bare_of(alloc: Global, history: NamedHistory) -> Result<NamedHistory, AllocError>
    requires { IsRecording history.recording }
    ensures recording { IfOk result (λ bare. IsRecording bare.recording) }
    ensures bare { IfOk result (λ bare. IsBareOf history bare) }
    ensures in_turn { IfOk result (λ bare. AreInTurn history.recording.transactions.items
        → AreInTurn bare.recording.transactions.items) }
{
    if !is_put_twice(alloc, &history.recording)? {
        return Ok(history);
    }
    let read = read_values(alloc, &history.recording)?;
    let transactions = bare(alloc, &history.recording, read.as_slice())?;
    let NamedHistory { recording, tables } = history;
    Ok(NamedHistory {
        recording: Recording {
            transactions,
            ops: recording.ops,
            elements: recording.elements,
            keys: recording.keys,
            values: recording.values,
        },
        tables,
    })
}
