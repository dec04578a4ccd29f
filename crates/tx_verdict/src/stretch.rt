//! Versions of a chain that come one right behind the other.
ghost use Rattle.std.specs.Prelude.{◌≡◌, ◌≢◌, ℕ, ◌<◌, ◌≤◌, List, length, false, IfOk, IsTrue, slice_index};
ghost use Rattle.tx_history.specs.Records.{IsRecorded, writers_of};
ghost use Rattle.tx_verdict.specs.Cases.{IsCase};
ghost use Rattle.tx_verdict.specs.Reasons.{HasWritten, IsNext, IsBased, IsBehind};
ghost use Rattle.tx_verdict.specs.Refutations.{IsTrain};

use crate::case::Case;
use crate::chain::{is_based, is_other};
use crate::fit::puts;
use crate::necessity::is_known;
use crate::versions::{Base, Versions};
use std::alloc::{AllocError, Global};

/// Versions of a chain, from the one at a place to the one at another.
#[derive(Clone, Copy, Debug, PartialEq, Eq)]
pub struct Stretch {
    pub chain: u32,
    pub first: u32,
    pub last: u32,
}

/// Whether a transaction is known to have committed, and puts into the key.
pub(crate) fn has_written(case: &Case<'_>, versions: &Versions, txn: u32, key: u32) -> bool
    requires case { IsCase case.now }
    ensures { IsTrue result → HasWritten case.now.recording.now txn key }
{
    if txn as usize >= case.recording.transactions.len() {
        return false;
    }
    if !is_known(case, versions, txn) {
        return false;
    }
    puts(case.recording.ops_of(txn as usize), key)
}

/// Whether the writer of the version at a place wrote right behind the one before it.
pub(crate) fn is_next_in(
    alloc: Global,
    case: &Case<'_>,
    versions: &Versions,
    chain: u32,
    place: u32,
    key: u32,
    first: u32,
    second: u32,
) -> Result<bool, AllocError>
    requires case { IsCase case.now }
    requires history { IsRecorded versions.now.recorded }
    ensures { IfOk result (λ is. IsTrue is → IsNext case.now.recording.now key first second) }
{
    let writers = versions.recorded.writers_of(chain as usize);
    let at = place as usize;
    if at == 0 {
        return Ok(false);
    }
    if at >= writers.len() {
        return Ok(false);
    }
    if writers[at - 1] != first {
        return Ok(false);
    }
    if writers[at] != second {
        return Ok(false);
    }
    let base = versions.base_of(chain as usize, at);
    let based = is_based(alloc, case, base, key, writers, at)?;
    Ok(based)
}

// Whether the first so many versions of a chain are known to be its first, one right behind the
// other.
fn is_row(
    alloc: Global,
    case: &Case<'_>,
    versions: &Versions,
    writers: &[u32],
    chain: u32,
    count: usize,
    key: u32,
) -> Result<bool, AllocError>
    requires case { IsCase case.now }
    requires within { count ≤ length writers.now }
    ensures { IfOk result (λ is. IsTrue is → (i : ℕ) → i < count
        → HasWritten case.now.recording.now (slice_index writers.now i) key
        × IsBased case.now.recording.now key writers.now i) }
{
    for i in 0..count {
        if !has_written(case, versions, writers[i], key) {
            return Ok(false);
        }
        let base = versions.base_of(chain as usize, i);
        if !is_based(alloc, case, base, key, writers, i)? {
            return Ok(false);
        }
    }
    Ok(true)
}

/// Whether the first so many versions of a chain are known to be its first, one right behind the
/// other, of which one transaction wrote the last, and another one none.
pub(crate) fn is_behind_in(
    alloc: Global,
    case: &Case<'_>,
    versions: &Versions,
    chain: u32,
    count: u32,
    key: u32,
    first: u32,
    second: u32,
) -> Result<bool, AllocError>
    requires case { IsCase case.now }
    requires history { IsRecorded versions.now.recorded }
    ensures { IfOk result (λ is. IsTrue is → IsBehind case.now.recording.now key first second) }
{
    let writers = versions.recorded.writers_of(chain as usize);
    let count = count as usize;
    if count == 0 {
        return Ok(false);
    }
    if count > writers.len() {
        return Ok(false);
    }
    if writers[count - 1] != first {
        return Ok(false);
    }
    if !is_other(writers, count, second) {
        return Ok(false);
    }
    let row = is_row(alloc, case, versions, writers, chain, count, key)?;
    Ok(row)
}

// Whether the version at a place is of the key and not of the other one; behind the first it comes
// right behind the one before it.
fn is_linked(
    alloc: Global,
    case: &Case<'_>,
    versions: &Versions,
    writers: &[u32],
    base: Base,
    key: u32,
    place: usize,
    is_first: bool,
    other: u32,
) -> Result<bool, AllocError>
    requires case { IsCase case.now }
    requires within { place < length writers.now }
    ensures { IfOk result (λ is. IsTrue is → HasWritten case.now.recording.now (slice_index writers.now place) key
        × (slice_index writers.now place ≢ other)
        × (is_first ≡ false → IsBased case.now.recording.now key writers.now place)) }
{
    if writers[place] == other {
        return Ok(false);
    }
    if !has_written(case, versions, writers[place], key) {
        return Ok(false);
    }
    if is_first {
        return Ok(true);
    }
    let based = is_based(alloc, case, base, key, writers, place)?;
    Ok(based)
}

/// Whether the versions of a stretch come one right behind the other, from the one transaction's to
/// the other's, and none is a third one's.
pub(crate) fn is_train(
    alloc: Global,
    case: &Case<'_>,
    versions: &Versions,
    stretch: Stretch,
    key: u32,
    first: u32,
    last: u32,
    other: u32,
) -> Result<bool, AllocError>
    requires case { IsCase case.now }
    requires history { IsRecorded versions.now.recorded }
    ensures { IfOk result (λ is. IsTrue is
        → (ws : List ℕ) × (n : ℕ) × IsTrain case.now.recording.now key ws n first last other) }
{
    let writers = versions.recorded.writers_of(stretch.chain as usize);
    let from = stretch.first as usize;
    let upto = stretch.last as usize;
    if from > upto {
        return Ok(false);
    }
    if upto >= writers.len() {
        return Ok(false);
    }
    if writers[from] != first {
        return Ok(false);
    }
    if writers[upto] != last {
        return Ok(false);
    }
    for i in from..upto + 1 {
        let base = versions.base_of(stretch.chain as usize, i);
        let is_first = i == from;
        if !is_linked(
            alloc, case, versions, writers, base, key, i, is_first, other,
        )? {
            return Ok(false);
        }
    }
    Ok(true)
}
