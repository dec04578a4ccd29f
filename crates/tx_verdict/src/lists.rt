//! Which keys hold lists, and what is wrong with the lists that were seen.
ghost use Rattle.std.specs.Prelude.{◌≡◌, ◌≢◌, ◌<◌, false, length, IfOk, IfSome, slice_index, slice_index_or};
ghost use Rattle.tx_recording.specs.Recordings.{IsRecording, list_of};
ghost use Rattle.tx_views.specs.declared.view.RecordedView.{RecordedView};
ghost use Rattle.tx_views.specs.Views.{IsViewOf};
ghost use Rattle.tx_verdict.specs.Cases.{IsCase};
ghost use Rattle.tx_verdict.specs.Facts.{AreLists, HoldsList};
ghost use Rattle.tx_verdict.specs.Verdicts.{IsWrong};

use crate::block::wrong_block;
use crate::case::Case;
use crate::facts::view_before;
use crate::owners::owner_of;
use crate::verdict::{Fact, Rule};
use std::alloc::{AllocError, Global};
use tx_recording::{Act, Recording};
use tx_views::{Owner, RecordedView};

/// By key, whether it holds a list: nothing is written in place of what was there.
///
/// `AllocError` where there was no room.
pub fn list_keys(alloc: Global, recording: &Recording) -> Result<Vec<bool>, AllocError>
    requires { IsRecording recording.now }
    ensures { IfOk result (λ lists. AreLists recording.now lists.items) }
{
    let mut lists = vec![in alloc; true; recording.keys as usize]?;
    for i in 0..recording.ops.len() {
        let op = recording.ops[i];
        match op.act {
            Act::Write(_) => lists[op.key as usize] = false,
            Act::Append(_) | Act::Read(_) => {}
        }
    }
    Ok(lists)
}

/// Whether a key holds a list, by a table of that.
pub fn holds_list(lists: &[bool], key: u32) -> bool
    ensures { result ≡ slice_index_or lists.now key false }
{
    match lists.get(key as usize) {
        Some(holds) => *holds,
        None => false,
    }
}

// The first place at which both lists have a value, and not the same.
fn first_difference(one: &[u32], other: &[u32]) -> Option<usize>
    ensures { IfSome result (λ i. (i < length one.now) × (i < length other.now)
        × (slice_index one.now i ≢ slice_index other.now i)) }
{
    for i in 0..one.len().min(other.len()) {
        if one[i] != other[i] {
            return Some(i);
        }
    }
    None
}

// What is wrong with a list beside another one of the same key: neither begins with the other.
fn wrong_order(recording: &Recording, view: RecordedView, other: RecordedView) -> Option<Fact>
    requires list { HoldsList recording.now view.key }
    requires view { IsViewOf recording.now view }
    requires other { IsViewOf recording.now other }
    ensures { IfSome result (IsWrong recording.now) }
{
    if view.key != other.key {
        return None;
    }
    let list = recording.list_of(view.span);
    let place = first_difference(list, recording.list_of(other.span))?;
    Some(Fact {
        rule: Rule::IncompatibleOrder,
        txn: view.txn,
        key: view.key,
        value: Some(list[place]),
        by: Some(other.txn),
    })
}

// What is wrong with a list beside the longest of its key.
fn wrong_orders(case: &Case<'_>, lists: &[bool], longest: &[Option<u32>]) -> Option<Fact>
    requires case { IsCase case.now }
    requires lists { AreLists case.now.recording.now lists.now }
    ensures { IfSome result (IsWrong case.now.recording.now) }
{
    for i in 0..case.views.len() {
        if !holds_list(lists, case.views[i].key) {
            continue;
        }
        let Some(other) = view_before(case.views, longest, case.views[i].key) else {
            continue;
        };
        let found = wrong_order(case.recording, case.views[i], case.views[other]);
        if found.is_some() {
            return found;
        }
    }
    None
}

// An earlier place of the value at a place, where a table has one.
fn place_before(table: &[usize], list: &[u32], j: usize) -> Option<usize>
    requires { j < length list.now }
    ensures { IfSome result (λ i. (i < j) × (slice_index list.now i ≡ slice_index list.now j)) }
{
    let Some(place) = table.get(list[j] as usize) else {
        return None;
    };
    let i = *place;
    if i >= j {
        return None;
    }
    if list[i] != list[j] {
        return None;
    }
    Some(i)
}

// Notes the place of a value in a table.
fn note_place(table: &mut [usize], value: u32, place: usize) {
    if (value as usize) < table.len() {
        table[value as usize] = place;
    }
}

// What is wrong with a list that has a value twice. It uses a table by value, whatever that has.
fn wrong_twice(case: &Case<'_>, view: RecordedView, table: &mut [usize]) -> Option<Fact>
    requires case { IsCase case.now }
    requires view { IsViewOf case.now.recording.now view }
    ensures { IfSome result (IsWrong case.now.recording.now) }
{
    let list = case.recording.list_of(view.span);
    for j in 0..list.len() {
        if let Some(_earlier) = place_before(table, list, j) {
            return Some(Fact {
                rule: Rule::Duplicate,
                txn: view.txn,
                key: view.key,
                value: Some(list[j]),
                by: None,
            });
        }
        note_place(table, list[j], j);
    }
    None
}

// Whether the value at a place was put by the transaction that put the one before.
fn goes_on(owners: &[Option<Owner>], list: &[u32], i: usize) -> bool
    requires { i < length list.now }
{
    if i == 0 {
        return false;
    }
    match (owner_of(owners, list[i - 1]), owner_of(owners, list[i])) {
        (Some(before), Some(owner)) => before.txn == owner.txn,
        _ => false,
    }
}

// What is wrong with a list that has not all that one transaction put into the key.
fn wrong_blocks(
    alloc: Global,
    case: &Case<'_>,
    view: RecordedView,
) -> Result<Option<Fact>, AllocError>
    requires case { IsCase case.now }
    requires view { IsViewOf case.now.recording.now view }
    ensures { IfOk result (λ found. IfSome found (IsWrong case.now.recording.now)) }
{
    let list = case.recording.list_of(view.span);
    for i in 0..list.len() {
        if goes_on(case.owners, list, i) {
            continue;
        }
        let found = wrong_block(alloc, case, view, list, i)?;
        if found.is_some() {
            return Ok(found);
        }
    }
    Ok(None)
}

// What is wrong with the longest list of a key.
fn wrong_longest(
    alloc: Global,
    case: &Case<'_>,
    longest: &[Option<u32>],
) -> Result<Option<Fact>, AllocError>
    requires case { IsCase case.now }
    ensures { IfOk result (λ found. IfSome found (IsWrong case.now.recording.now)) }
{
    let mut table = vec![in alloc; 0; case.recording.values as usize]?;
    for key in 0..case.recording.keys {
        let Some(place) = view_before(case.views, longest, key) else {
            continue;
        };
        let view = case.views[place];
        let found = wrong_twice(case, view, table.as_mut_slice());
        if found.is_some() {
            return Ok(found);
        }
        let found = wrong_blocks(alloc, case, view)?;
        if found.is_some() {
            return Ok(found);
        }
    }
    Ok(None)
}

/// What is wrong with the lists that were seen: two of one key, of which neither begins with the
/// other, a value that is there twice, or some of what one transaction put into the key without the
/// rest. `longest` has of each key that holds a list a view of it, the longest; where it has
/// others, less is found.
///
/// `AllocError` where there was no room.
pub fn wrong_lists(
    alloc: Global,
    case: &Case<'_>,
    lists: &[bool],
    longest: &[Option<u32>],
) -> Result<Option<Fact>, AllocError>
    requires case { IsCase case.now }
    requires lists { AreLists case.now.recording.now lists.now }
    ensures { IfOk result (λ found. IfSome found (IsWrong case.now.recording.now)) }
{
    let found = wrong_orders(case, lists, longest);
    if found.is_some() {
        return Ok(found);
    }
    wrong_longest(alloc, case, longest)
}
