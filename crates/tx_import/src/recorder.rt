//! What a recorder got wrong, and writes that came to nothing.
ghost use Rattle.std.specs.Prelude.{◌≡◌, ◌↔◌, ℕ, ◌<◌, IfOk, IfSome, IfNone, IsTrue, slice_index_or, true, false};
ghost use Rattle.tx_recording.specs.Recordings.{IsRecording, txns_of};
ghost use Rattle.tx_import.specs.Recorders.{IsMisrecorded, IsBackward, IsTimely, HaveOneId, HasKeyAs, is_of_list, is_of_register, is_one_as};

use crate::reader::NamedHistory;
use std::alloc::{AllocError, Global};
use tx_recording::{Act, RecordedOp, Recording};

/// What a recorder got wrong, by numbers of keys and transactions.
#[derive(Clone, Copy, Debug, PartialEq, Eq)]
pub enum Misrecorded {
    /// There is no transaction.
    Empty,
    /// It ended before it began.
    EndsEarly(u32),
    /// Both have one id.
    SameId(u32, u32),
    /// This key held a list for the one, and the other read or wrote it as a register.
    Mixed(u32, u32, u32),
}

// Whether a transaction ended before it began.
fn is_backward(recording: &Recording, txn: usize) -> bool
    requires { txn < txns_of recording.now }
    ensures { IsTrue result ↔ IsBackward recording.now txn }
{
    let transaction = recording.transactions[txn];
    let Some(began) = transaction.began else {
        return false;
    };
    let Some(ended) = transaction.ended else {
        return false;
    };
    ended < began
}

// The first that ended before it began.
fn backward(recording: &Recording) -> Option<u32>
    requires { IsRecording recording.now }
    ensures some { IfSome result (λ t. (t < txns_of recording.now) × IsBackward recording.now t) }
    ensures none { IfNone result ((t : ℕ) → t < txns_of recording.now → IsBackward recording.now t → ⊥) }
{
    for txn in 0..recording.transactions.len() {
        if is_backward(recording, txn) {
            return Some(txn as u32);
        }
    }
    None
}

// Whether the ids rise from line to line.
fn are_rising(recording: &Recording) -> bool {
    let transactions = recording.transactions.as_slice();
    for txn in 1..transactions.len() {
        if transactions[txn - 1].id >= transactions[txn].id {
            return false;
        }
    }
    true
}

// The ids with their transactions, in order.
fn by_id(alloc: Global, recording: &Recording) -> Result<Vec<(u64, u32)>, AllocError>
    requires { IsRecording recording.now }
{
    let mut ids = Vec::new(alloc);
    for txn in 0..recording.transactions.len() {
        ids.push((recording.transactions[txn].id, txn as u32))?;
    }
    ids.sort()?;
    Ok(ids)
}

// Whether two transactions have one id.
fn have_one_id(recording: &Recording, first: u32, second: u32) -> bool
    ensures { IsTrue result → HaveOneId recording.now first second }
{
    let transactions = recording.transactions.as_slice();
    if first >= second || second as usize >= transactions.len() {
        return false;
    }
    transactions[first as usize].id == transactions[second as usize].id
}

// Two transactions that have one id.
fn same_id(alloc: Global, recording: &Recording) -> Result<Option<(u32, u32)>, AllocError>
    requires { IsRecording recording.now }
    ensures { IfOk result (λ found. IfSome found (λ two. HaveOneId recording.now two.0 two.1)) }
{
    if are_rising(recording) {
        return Ok(None);
    }
    let ids = by_id(alloc, recording)?;
    for i in 1..ids.len() {
        let (_, first) = ids[i - 1];
        let (_, second) = ids[i];
        if have_one_id(recording, first, second) {
            return Ok(Some((first, second)));
        }
    }
    Ok(None)
}

// Whether an act is one on a list: where it is a read, it is told beside it.
fn is_of_list(act: Act, list: bool) -> bool
    ensures { result ≡ is_of_list act list }
{
    match act {
        Act::Append(_) => true,
        Act::Write(_) => false,
        Act::Read(_) => list,
    }
}

// Whether an act is one on a register. A read of nothing may be one on either.
fn is_of_register(act: Act, list: bool) -> bool
    ensures { result ≡ is_of_register act list }
{
    match act {
        Act::Append(_) => false,
        Act::Write(_) => true,
        Act::Read(span) => !list && span.count >= 1,
    }
}

// Whether the operation at this place of all is a read of a list.
fn list_at(lists: &[bool], place: usize) -> bool
    ensures { result ≡ slice_index_or lists.now place false }
{
    match lists.get(place) {
        Some(list) => *list,
        None => false,
    }
}

// Whether an operation has the key as a list, or else as a register.
fn is_one_as(op: RecordedOp, told: bool, key: u32, list: bool) -> bool
    ensures { IsTrue result → (op.key ≡ key) × (is_one_as list op.act told ≡ true) }
{
    if op.key != key {
        return false;
    }
    if list {
        is_of_list(op.act, told)
    } else {
        is_of_register(op.act, told)
    }
}

// Whether a transaction had the key as a list, or else as a register.
fn has_key_as(history: &NamedHistory, txn: u32, key: u32, list: bool) -> bool
    requires { IsRecording history.now.recording }
    ensures { IsTrue result → (txn < txns_of history.now.recording) × HasKeyAs history.now txn key list }
{
    let recording = &history.recording;
    if txn as usize >= recording.transactions.len() {
        return false;
    }
    let first = recording.transactions[txn as usize].first as usize;
    let ops = recording.ops_of(txn as usize);
    for i in 0..ops.len() {
        if is_one_as(
            ops[i],
            list_at(history.tables.lists.as_slice(), first + i),
            key,
            list,
        ) {
            return true;
        }
    }
    false
}

// By key, who first had it as a list, or as a register.
#[derive(Drop)]
struct Kinds {
    lists: Vec<Option<u32>>,
    registers: Vec<Option<u32>>,
}

// Notes a transaction for a key, unless there is one.
fn note(table: &mut Vec<Option<u32>>, key: u32, txn: u32) {
    if let Some(slot) = table.get_mut(key as usize) {
        if slot.is_none() {
            *slot = Some(txn);
        }
    }
}

impl Kinds {
    // Notes what the operations of a transaction say, of which the first has this place.
    fn note_ops(&mut self, ops: &[RecordedOp], lists: &[bool], first: usize, txn: u32) {
        for i in 0..ops.len() {
            let op = ops[i];
            let list = list_at(lists, first.saturating_add(i));
            if is_of_list(op.act, list) {
                note(&mut self.lists, op.key, txn);
            }
            if is_of_register(op.act, list) {
                note(&mut self.registers, op.key, txn);
            }
        }
    }
}

// What all operations say.
fn kinds_of(alloc: Global, history: &NamedHistory) -> Result<Kinds, AllocError>
    requires { IsRecording history.now.recording }
{
    let recording = &history.recording;
    let lists = history.tables.lists.as_slice();
    let mut kinds = Kinds {
        lists: vec![in alloc; None; recording.keys as usize]?,
        registers: vec![in alloc; None; recording.keys as usize]?,
    };
    for txn in 0..recording.transactions.len() {
        let first = recording.transactions[txn].first as usize;
        kinds.note_ops(recording.ops_of(txn), lists, first, txn as u32);
    }
    Ok(kinds)
}

// The transaction that a table has of a key.
fn noted(table: &[Option<u32>], key: u32) -> Option<u32> {
    let found = table.get(key as usize)?;
    *found
}

// A key that one transaction had as a list and another one as a register.
fn mixed(alloc: Global, history: &NamedHistory) -> Result<Option<Misrecorded>, AllocError>
    requires { IsRecording history.now.recording }
    ensures { IfOk result (λ found. IfSome found (IsMisrecorded history.now)) }
{
    let kinds = kinds_of(alloc, history)?;
    for key in 0..history.recording.keys {
        let Some(list) = noted(kinds.lists.as_slice(), key) else {
            continue;
        };
        let Some(register) = noted(kinds.registers.as_slice(), key) else {
            continue;
        };
        if has_key_as(history, list, key, true) && has_key_as(history, register, key, false) {
            return Ok(Some(Misrecorded::Mixed(key, list, register)));
        }
    }
    Ok(None)
}

/// What the recorder of a recording got wrong, if that is found: that there is no transaction, that
/// one ended before it began, that two have one id, or that a key holds a list for one and was
/// read or written as a register by another.
///
/// `AllocError` where there was no room.
pub fn find_misrecorded(
    alloc: Global,
    history: &NamedHistory,
) -> Result<Option<Misrecorded>, AllocError>
    requires { IsRecording history.now.recording }
    ensures some { IfOk result (λ found. IfSome found (IsMisrecorded history.now)) }
    ensures none { IfOk result (λ found. IfNone found (IsTimely history.now.recording)) }
{
    let recording = &history.recording;
    if recording.transactions.len() == 0 {
        return Ok(Some(Misrecorded::Empty));
    }
    if let Some(txn) = backward(recording) {
        return Ok(Some(Misrecorded::EndsEarly(txn)));
    }
    if let Some((first, second)) = same_id(alloc, recording)? {
        return Ok(Some(Misrecorded::SameId(first, second)));
    }
    let found = mixed(alloc, history)?;
    Ok(found)
}
