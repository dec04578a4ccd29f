//! What each transaction saw of a key before it did anything there.
ghost use Rattle.std.specs.Prelude.{◌≡◌, ◌↔◌, ℕ, ◌+◌, ◌<◌, ◌≤◌, List, length, Contains, OnOk, IfOk, IfSome, IfNone, IsTrue, false, take, drop, slice_index_or};
ghost use Rattle.tx_recording.specs.declared.recording.RecordedOutcome.TheVariants.{Ok as Committed};
ghost use Rattle.tx_recording.specs.Recordings.{IsRecording, txns_of, transaction_at, ops_of, no_op};
ghost use Rattle.tx_recording.specs.Explanations.{after};
ghost use Rattle.tx_views.specs.Views.{IsSeen, IsViewed, IsViewOf, IsAnswered, IsInternal};

use crate::effect::effect_of;
use std::alloc::{AllocError, Global};
use tx_recording::{Act, RecordedOp, Recording, Span};

// What a list that was read says of what the key held before its transaction put anything there.
#[derive(Clone, Copy)]
enum Seen {
    // It held just these.
    Base(Span),
    // Nothing: all values are the reader's own.
    Own,
    // It can have held nothing: the reader's own values are not there.
    Wrong,
}

/// A transaction saw these values in a key, before it put anything there.
#[derive(Clone, Copy, Debug, PartialEq, Eq)]
pub struct RecordedView {
    pub txn: u32,
    pub key: u32,
    pub span: Span,
}

/// What the reads of a recording say.
#[derive(Debug, Drop)]
pub enum Viewed {
    /// In the order of the transactions.
    Views(Vec<RecordedView>),
    /// The read of this transaction, at this place among its operations, lacks its own values.
    Internal(u32, u32),
}

/// Whether these are the values from a place on.
pub fn is_end(list: &[u32], own: &[u32], cut: usize) -> bool
    requires { cut ≤ length list.now }
    ensures { IsTrue result ↔ (drop cut list.now ≡ own.now) }
{
    &list[cut..] == own
}

// What a list that was read behind these operations says.
fn seen_behind(
    alloc: Global,
    recording: &Recording,
    ops: &[RecordedOp],
    key: u32,
    span: Span,
) -> Result<Seen, AllocError>
    requires { span.first + span.count ≤ length recording.now.elements.items }
    ensures { IfOk result (IsSeen recording.now ops.now key span) }
{
    let effect = effect_of(alloc, ops, key)?;
    let list = recording.list_of(span);
    let own = effect.values.as_slice();
    if effect.clears {
        return Ok(if list == own { Seen::Own } else { Seen::Wrong });
    }
    if own.len() > list.len() {
        return Ok(Seen::Wrong);
    }
    let cut = list.len() - own.len();
    if !is_end(list, own, cut) {
        return Ok(Seen::Wrong);
    }
    Ok(Seen::Base(Span {
        first: span.first,
        count: cut as u32,
    }))
}

// How many operations are reads before the first that is not.
fn first_put(ops: &[RecordedOp]) -> usize
    ensures within { result ≤ length ops.now }
    ensures reads { (p k : ℕ) (xs : List ℕ) → p ≤ result → after (take p ops.now) k xs ≡ xs }
{
    for i in 0..ops.len() {
        match ops[i].act {
            Act::Read(_) => {}
            Act::Append(_) | Act::Write(_) => return i,
        }
    }
    ops.len()
}

// What the read of a transaction at a place says.
fn seen_at(
    alloc: Global,
    recording: &Recording,
    ops: &[RecordedOp],
    reads: usize,
    place: usize,
    span: Span,
) -> Result<Seen, AllocError>
    requires there { span.first + span.count ≤ length recording.now.elements.items }
    requires reads { (p k : ℕ) (xs : List ℕ) → p ≤ reads → after (take p ops.now) k xs ≡ xs }
    requires place { place < length ops.now }
    ensures { IfOk result (IsSeen recording.now (take place ops.now) (slice_index_or ops.now place no_op).key span) }
{
    let key = ops[place].key;
    if place <= reads {
        return seen_behind(alloc, recording, &ops[..0], key, span);
    }
    seen_behind(alloc, recording, &ops[..place], key, span)
}

// Adds what the operation of a transaction at a place says, if it is a read. Whether it can have
// seen what it read.
fn add_view(
    alloc: Global,
    views: &mut Vec<RecordedView>,
    recording: &Recording,
    txn: u32,
    reads: usize,
    place: usize,
) -> Result<bool, AllocError>
    requires recording { IsRecording recording.now }
    requires within { txn < txns_of recording.now }
    requires ok { (transaction_at recording.now txn).outcome ≡ Committed }
    requires reads { (p k : ℕ) (xs : List ℕ) → p ≤ reads → after (take p (ops_of recording.now txn)) k xs ≡ xs }
    requires place { place < length (ops_of recording.now txn) }
    requires only { (v : RecordedView) → Contains views.old.items v → IsViewOf recording.now v }
    ensures kept { OnOk result ((v : RecordedView) → Contains views.old.items v → Contains views.new.items v) }
    ensures only { OnOk result ((v : RecordedView) → Contains views.new.items v → IsViewOf recording.now v) }
    ensures answered { IfOk result (λ can. IsTrue can → IsAnswered recording.now views.new.items txn place) }
    ensures internal { IfOk result (λ can. can ≡ false → IsInternal recording.now txn place) }
{
    let ops = recording.ops_of(txn as usize);
    let Act::Read(span) = ops[place].act else {
        return Ok(true);
    };
    match seen_at(alloc, recording, ops, reads, place, span)? {
        Seen::Base(span) => {
            views.push(RecordedView {
                txn,
                key: ops[place].key,
                span,
            })?;
            Ok(true)
        }
        Seen::Own => Ok(true),
        Seen::Wrong => Ok(false),
    }
}

// Adds what the reads of a transaction say, or gives the place of one that it cannot have seen.
fn add_views(
    alloc: Global,
    views: &mut Vec<RecordedView>,
    recording: &Recording,
    txn: u32,
) -> Result<Option<u32>, AllocError>
    requires recording { IsRecording recording.now }
    requires within { txn < txns_of recording.now }
    requires ok { (transaction_at recording.now txn).outcome ≡ Committed }
    requires only { (v : RecordedView) → Contains views.old.items v → IsViewOf recording.now v }
    ensures kept { OnOk result ((v : RecordedView) → Contains views.old.items v → Contains views.new.items v) }
    ensures only { OnOk result ((v : RecordedView) → Contains views.new.items v → IsViewOf recording.now v) }
    ensures answered { IfOk result (λ found. IfNone found ((p : ℕ) → p < length (ops_of recording.now txn)
        → IsAnswered recording.now views.new.items txn p)) }
    ensures internal { IfOk result (λ found. IfSome found (IsInternal recording.now txn)) }
{
    let ops = recording.ops_of(txn as usize);
    let reads = first_put(ops);
    for place in 0..ops.len() {
        if !add_view(alloc, views, recording, txn, reads, place)? {
            return Ok(Some(place as u32));
        }
    }
    Ok(None)
}

/// What the reads of a recording say of what its transactions saw, or a read that its transaction
/// cannot have seen.
pub fn views(alloc: Global, recording: &Recording) -> Result<Viewed, AllocError>
    requires { IsRecording recording.now }
    ensures { IfOk result (IsViewed recording.now) }
{
    let mut views = Vec::new(alloc);
    for txn in 0..recording.transactions.len() {
        if !recording.transactions[txn].outcome.is_ok() {
            continue;
        }
        if let Some(place) = add_views(alloc, &mut views, recording, txn as u32)? {
            return Ok(Viewed::Internal(txn as u32, place));
        }
    }
    Ok(Viewed::Views(views))
}
