//! What one transaction saw that nothing explains.
ghost use Rattle.std.specs.Prelude.{◌≡◌, ℕ, ◌<◌, length, Some, IfOk, IfSome, IsTrue};
ghost use Rattle.tx_recording.specs.declared.recording.RecordedOutcome.TheVariants.{Fail as Failed};
ghost use Rattle.tx_recording.specs.Recordings.{IsRecording, transaction_at, ops_of, list_of};
ghost use Rattle.tx_recording.specs.Explanations.{PutsIn};
ghost use Rattle.tx_views.specs.declared.view.RecordedView.{RecordedView};
ghost use Rattle.tx_views.specs.Views.{IsInternal, IsViewOf};
ghost use Rattle.tx_verdict.specs.Cases.{IsCase};
ghost use Rattle.tx_verdict.specs.Verdicts.{IsWrong};

use crate::block::wrong_block;
use crate::case::Case;
use crate::fit::puts;
use crate::owners::owner_of;
use crate::verdict::{Fact, Rule};
use crate::versions::LostUpdate;
use std::alloc::{AllocError, Global};
use tx_recording::{RecordedOutcome, Recording};
use tx_views::{RecordedView, is_end};

// A fact about a value of a view.
fn fact_of(rule: Rule, view: RecordedView, value: u32, by: Option<u32>) -> Fact
    ensures { result ≡ record { rule = rule; txn = view.txn; key = view.key; value = Some value; by = by } }
{
    Fact {
        rule,
        txn: view.txn,
        key: view.key,
        value: Some(value),
        by,
    }
}

// Whether a transaction failed.
fn is_failed(recording: &Recording, txn: u32) -> bool
    ensures { IsTrue result → (transaction_at recording.now txn).outcome ≡ Failed }
{
    if txn as usize >= recording.transactions.len() {
        return false;
    }
    match recording.transactions[txn as usize].outcome {
        RecordedOutcome::Fail => true,
        RecordedOutcome::Ok | RecordedOutcome::Info => false,
    }
}

// What is wrong with a value that was seen, by who put it.
fn wrong_value(case: &Case<'_>, view: RecordedView, list: &[u32], i: usize) -> Option<Fact>
    requires case { IsCase case.now }
    requires view { IsViewOf case.now.recording.now view }
    requires list { list.now ≡ list_of case.now.recording.now view.span }
    requires within { i < length list.now }
    ensures { IfSome result (IsWrong case.now.recording.now) }
{
    let value = list[i];
    let Some(owner) = owner_of(case.owners, value) else {
        return Some(fact_of(Rule::Unwritten, view, value, None));
    };
    if is_failed(case.recording, owner.txn) {
        return Some(fact_of(Rule::G1a, view, value, Some(owner.txn)));
    }
    if owner.txn == view.txn {
        return Some(fact_of(Rule::Internal, view, value, None));
    }
    None
}

// What is wrong with what was seen.
fn wrong_view(
    alloc: Global,
    case: &Case<'_>,
    view: RecordedView,
) -> Result<Option<Fact>, AllocError>
    requires case { IsCase case.now }
    requires view { IsViewOf case.now.recording.now view }
    ensures { IfOk result (λ found. IfSome found (IsWrong case.now.recording.now)) }
{
    let list = case.recording.list_of(view.span);
    for i in 0..list.len() {
        let found = wrong_value(case, view, list, i);
        if found.is_some() {
            return Ok(found);
        }
    }
    if list.is_empty() {
        return Ok(None);
    }
    wrong_block(alloc, case, view, list, list.len() - 1)
}

// What is wrong with a view beside another one of the same transaction.
fn wrong_again(recording: &Recording, before: RecordedView, view: RecordedView) -> Option<Fact>
    requires before { IsViewOf recording.now before }
    requires view { IsViewOf recording.now view }
    ensures { IfSome result (IsWrong recording.now) }
{
    if before.txn != view.txn {
        return None;
    }
    if before.key != view.key {
        return None;
    }
    if is_end(
        recording.list_of(view.span),
        recording.list_of(before.span),
        0,
    ) {
        return None;
    }
    Some(Fact {
        rule: Rule::Unrepeatable,
        txn: view.txn,
        key: view.key,
        value: None,
        by: None,
    })
}

/// The view that a table has of a key.
pub(crate) fn view_before(views: &[RecordedView], table: &[Option<u32>], key: u32) -> Option<usize>
    ensures { IfSome result (λ i. i < length views.now) }
{
    let Some(Some(place)) = table.get(key as usize) else {
        return None;
    };
    let place = *place as usize;
    if place < views.len() {
        Some(place)
    } else {
        None
    }
}

// Notes the view of a key in a table.
fn note(table: &mut [Option<u32>], key: u32, view: usize) {
    if (key as usize) < table.len() && view <= 0xffff_ffff {
        table[key as usize] = Some(view as u32);
    }
}

/// What is wrong with something that was seen, by itself or beside what its transaction saw before.
pub fn wrong_views(alloc: Global, case: &Case<'_>) -> Result<Option<Fact>, AllocError>
    requires case { IsCase case.now }
    ensures { IfOk result (λ found. IfSome found (IsWrong case.now.recording.now)) }
{
    let mut table = vec![in alloc; None; case.recording.keys as usize]?;
    for i in 0..case.views.len() {
        let view = case.views[i];
        let found = wrong_view(alloc, case, view)?;
        if found.is_some() {
            return Ok(found);
        }
        let found = match view_before(case.views, table.as_slice(), view.key) {
            Some(before) => wrong_again(case.recording, case.views[before], view),
            None => None,
        };
        if found.is_some() {
            return Ok(found);
        }
        note(table.as_mut_slice(), view.key, i);
    }
    Ok(None)
}

// Whether two views are of the same value, or of none.
fn is_same(recording: &Recording, one: RecordedView, other: RecordedView) -> bool
    requires one { IsViewOf recording.now one }
    requires other { IsViewOf recording.now other }
    ensures { IsTrue result → list_of recording.now one.span ≡ list_of recording.now other.span }
{
    is_end(
        recording.list_of(one.span),
        recording.list_of(other.span),
        0,
    )
}

/// Two transactions that saw the same in a key, and both put something there.
pub fn wrong_update(case: &Case<'_>, lost: LostUpdate) -> Option<Fact>
    requires case { IsCase case.now }
    ensures { IfSome result (IsWrong case.now.recording.now) }
{
    let first = lost.first as usize;
    if first >= case.views.len() {
        return None;
    }
    let second = lost.second as usize;
    if second >= case.views.len() {
        return None;
    }
    let one = case.views[first];
    let other = case.views[second];
    let count = case.recording.transactions.len();
    if one.txn as usize >= count {
        return None;
    }
    if other.txn as usize >= count {
        return None;
    }
    if one.txn == other.txn {
        return None;
    }
    if one.key != other.key {
        return None;
    }
    if !is_same(case.recording, one, other) {
        return None;
    }
    if !is_update(case.recording, one) {
        return None;
    }
    if !is_update(case.recording, other) {
        return None;
    }
    Some(Fact {
        rule: Rule::LostUpdate,
        txn: other.txn,
        key: other.key,
        value: None,
        by: Some(one.txn),
    })
}

// Whether the transaction of a view puts into its key, and is known to have committed.
fn is_update(recording: &Recording, view: RecordedView) -> bool
    requires recording { IsRecording recording.now }
    requires view { IsViewOf recording.now view }
    requires within { view.txn < length recording.now.transactions.items }
    ensures { IsTrue result → (v : ℕ) × PutsIn (ops_of recording.now view.txn) view.key v }
{
    puts(recording.ops_of(view.txn as usize), view.key)
}

/// The fact of a read that no state explains.
pub fn internal(recording: &Recording, txn: u32, place: u32) -> Fact
    requires recording { IsRecording recording.now }
    requires internal { IsInternal recording.now txn place }
    ensures { IsWrong recording.now result }
{
    let ops = recording.ops_of(txn as usize);
    Fact {
        rule: Rule::Internal,
        txn,
        key: ops[place as usize].key,
        value: None,
        by: None,
    }
}
