//! Whether the versions of a chain are known to be committed one after the other.
ghost use Rattle.std.specs.Prelude.{◌≡◌, ◌≢◌, ◌⊎◌, ℕ, ◌+◌, ◌<◌, ◌≤◌, length, ◌&&◌, IfOk, IsTrue, slice_index};
ghost use Rattle.tx_views.specs.declared.view.RecordedView.{RecordedView};
ghost use Rattle.tx_views.specs.Views.{IsViewOf};
ghost use Rattle.tx_history.specs.Records.{IsRecorded, writers_of};
ghost use Rattle.tx_verdict.specs.Cases.{IsCase};
ghost use Rattle.tx_verdict.specs.Reasons.{AddsFirst, IsBased};
ghost use Rattle.tx_verdict.specs.Forced.{IsLinked, AreWriters};

use crate::case::Case;
use crate::owners::{is_by, sees_nothing, sees_writer};
use crate::versions::{Base, Versions};
use std::alloc::{AllocError, Global};
use tx_recording::RecordedOp;
use tx_views::{RecordedView, effect_of};

// Whether operations append to a key, and this value first.
fn is_first(alloc: Global, ops: &[RecordedOp], key: u32, value: u32) -> Result<bool, AllocError>
    ensures { IfOk result (λ is. IsTrue is → AddsFirst ops.now key value) }
{
    let effect = effect_of(alloc, ops, key)?;
    if effect.clears {
        return Ok(false);
    }
    let own = effect.values.as_slice();
    if own.len() == 0 {
        return Ok(false);
    }
    Ok(own[0] == value)
}

// Whether the value at a place of a view is the first that the writer appended to the key, and what
// stands in front of it was put last by the one before, or nothing does before the first.
fn is_within(
    alloc: Global,
    case: &Case<'_>,
    view: RecordedView,
    place: usize,
    key: u32,
    writers: &[u32],
    i: usize,
) -> Result<bool, AllocError>
    requires case { IsCase case.now }
    requires view { IsViewOf case.now.recording.now view }
    requires within { i < length writers.now }
    ensures { IfOk result (λ is. IsTrue is → IsBased case.now.recording.now key writers.now i) }
{
    let list = case.recording.list_of(view.span);
    let writer = writers[i];
    if view.key != key {
        return Ok(false);
    }
    if place >= list.len() {
        return Ok(false);
    }
    if writer as usize >= case.recording.transactions.len() {
        return Ok(false);
    }
    if !is_first(
        alloc,
        case.recording.ops_of(writer as usize),
        key,
        list[place],
    )? {
        return Ok(false);
    }
    if i == 0 {
        return Ok(place == 0);
    }
    if place == 0 {
        return Ok(false);
    }
    Ok(is_by(case.owners, list[place - 1], writers[i - 1]))
}

// Whether the writer of a version is known to have seen the one before it, or nothing before the
// first, by a view of its own.
fn is_viewed(case: &Case<'_>, view: RecordedView, key: u32, writers: &[u32], i: usize) -> bool
    requires case { IsCase case.now }
    requires view { IsViewOf case.now.recording.now view }
    requires within { i < length writers.now }
    ensures { IsTrue result → IsBased case.now.recording.now key writers.now i }
{
    if i == 0 {
        return sees_nothing(case.recording, view, writers[0], key);
    }
    sees_writer(case, view, writers[i], key, writers[i - 1])
}

/// Whether the writer of a version is known to have seen the one before it, or nothing before the
/// first.
pub(crate) fn is_based(
    alloc: Global,
    case: &Case<'_>,
    base: Base,
    key: u32,
    writers: &[u32],
    i: usize,
) -> Result<bool, AllocError>
    requires case { IsCase case.now }
    requires within { i < length writers.now }
    ensures { IfOk result (λ is. IsTrue is → IsBased case.now.recording.now key writers.now i) }
{
    match base {
        Base::Blind => Ok(false),
        Base::View(view) => {
            if view as usize >= case.views.len() {
                return Ok(false);
            }
            Ok(is_viewed(case, case.views[view as usize], key, writers, i))
        }
        Base::Within(view, place) => {
            if view as usize >= case.views.len() {
                return Ok(false);
            }
            is_within(
                alloc,
                case,
                case.views[view as usize],
                place as usize,
                key,
                writers,
                i,
            )
        }
    }
}

/// Whether none of the first so many is this one.
pub(crate) fn is_other(writers: &[u32], count: usize, txn: u32) -> bool
    requires { count ≤ length writers.now }
    ensures { IsTrue result → (i : ℕ) → i < count → slice_index writers.now i ≢ txn }
{
    for i in 0..count {
        if writers[i] == txn {
            return false;
        }
    }
    true
}

// Whether the writer of a version saw the one before it, or is none of those before it, which saw
// one another.
fn is_next(writers: &[u32], i: usize, known: bool, based: bool) -> bool
    requires { i < length writers.now }
    ensures { IsTrue result → ((i ≡ 0) ⊎ IsTrue based) ⊎ (IsTrue known
        × ((j : ℕ) → j < i → slice_index writers.now j ≢ slice_index writers.now i)) }
{
    if i == 0 || based {
        return true;
    }
    known && is_other(writers, i, writers[i])
}

// Whether both are so.
fn both(one: bool, other: bool) -> bool
    ensures { result ≡ (one && other) }
{
    if one { other } else { false }
}

/// Whether each version of a chain is known to be committed when the writer of the next starts: the
/// latter saw it, or it saw none of those before it, which all saw one another.
pub(crate) fn is_chain(
    alloc: Global,
    case: &Case<'_>,
    versions: &Versions,
    chain: u32,
    key: u32,
) -> Result<bool, AllocError>
    requires case { IsCase case.now }
    requires history { IsRecorded versions.now.recorded }
    requires writers { AreWriters case.now.recording.now key (writers_of versions.now.recorded chain) }
    ensures { IfOk result (λ is. IsTrue is → (i : ℕ) → i + 1 < length (writers_of versions.now.recorded chain)
        → IsLinked case.now.recording.now key (writers_of versions.now.recorded chain) i) }
{
    let writers = versions.recorded.writers_of(chain as usize);
    let mut known = true;
    for i in 0..writers.len() {
        let base = versions.base_of(chain as usize, i);
        let based = is_based(alloc, case, base, key, writers, i)?;
        if !is_next(writers, i, known, based) {
            return Ok(false);
        }
        known = both(known, based);
    }
    Ok(true)
}
