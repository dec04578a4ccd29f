//! What stands round a value that was seen.
ghost use Rattle.std.specs.Prelude.{◌≡◌, ◌≢◌, ℕ, ◌<◌, List, ◌++◌, length, false, IfOk, IfSome, IfNone, slice_index};
ghost use Rattle.tx_recording.specs.Recordings.{list_of};
ghost use Rattle.tx_views.specs.Views.{IsViewOf};
ghost use Rattle.tx_verdict.specs.Cases.{IsCase};
ghost use Rattle.tx_verdict.specs.Facts.{IsTornBy, IsDistinct};
ghost use Rattle.tx_verdict.specs.Verdicts.{IsWrong};

use crate::case::Case;
use crate::owners::owner_of;
use crate::verdict::{Fact, Rule};
use std::alloc::{AllocError, Global};
use tx_views::{Effect, RecordedView, effect_of};

// The first place of a value.
fn place_in(values: &[u32], value: u32) -> Option<usize>
    ensures some { IfSome result (λ j. (j < length values.now) × (slice_index values.now j ≡ value)) }
    ensures none { IfNone result ((j : ℕ) → j < length values.now → slice_index values.now j ≢ value) }
{
    for j in 0..values.len() {
        if values[j] == value {
            return Some(j);
        }
    }
    None
}

// Whether a list begins with these values.
fn begins(list: &[u32], own: &[u32]) -> bool
    ensures { result ≡ false → (rest : List ℕ) → list.now ≡ own.now ++ rest → ⊥ }
{
    list.starts_with(own)
}

// Whether the value at a place of a list is part of what an effect leaves: the effect's values in
// place of all there was, or behind something.
fn is_whole(list: &[u32], effect: &Effect, i: usize) -> bool
    requires within { i < length list.now }
    requires once { IsDistinct effect.now.values.items }
    ensures { result ≡ false → IsTornBy list.now effect.now i }
{
    let own = effect.values.as_slice();
    if effect.clears {
        return begins(list, own);
    }
    let Some(j) = place_in(own, list[i]) else {
        return false;
    };
    if j > i {
        return false;
    }
    begins(&list[i - j..], own)
}

/// What is wrong with the value at a place of a list that was seen, since its transaction left
/// another one there, or more before or behind it.
pub(crate) fn wrong_block(
    alloc: Global,
    case: &Case<'_>,
    view: RecordedView,
    list: &[u32],
    i: usize,
) -> Result<Option<Fact>, AllocError>
    requires case { IsCase case.now }
    requires view { IsViewOf case.now.recording.now view }
    requires list { list.now ≡ list_of case.now.recording.now view.span }
    requires within { i < length list.now }
    ensures { IfOk result (λ found. IfSome found (IsWrong case.now.recording.now)) }
{
    let value = list[i];
    let Some(owner) = owner_of(case.owners, value) else {
        return Ok(None);
    };
    if owner.txn as usize >= case.recording.transactions.len() {
        return Ok(None);
    }
    let effect = effect_of(alloc, case.recording.ops_of(owner.txn as usize), view.key)?;
    if is_whole(list, &effect, i) {
        return Ok(None);
    }
    Ok(Some(Fact {
        rule: Rule::G1b,
        txn: view.txn,
        key: view.key,
        value: Some(value),
        by: Some(owner.txn),
    }))
}
