//! Whether timestamps keep the order in which each process ran its transactions.
ghost use Rattle.std.specs.Prelude.{◌≡◌, ◌<◌, ◌≤◌, Some, None, IfSome, IfOk, IsTrue, true, false, slice_index};
ghost use Rattle.tx_recording.specs.Explanations.{IsSession};
ghost use Rattle.tx_clock.specs.KeptOrder.{live_in, KeepsPairs};

use std::alloc::{AllocError, Global};
use tx_recording::Recording;

/// The number at a place, 0 past the last.
pub(crate) fn number_at(numbers: &[usize], i: usize) -> usize
    ensures { result ≡ slice_index numbers.now i }
{
    match numbers.get(i) {
        Some(number) => *number,
        None => 0,
    }
}

/// Whether it is live, by a table.
pub(crate) fn live_at(live: &[bool], txn: usize) -> bool
    ensures { result ≡ live_in live.now txn }
{
    match live.get(txn) {
        Some(live) => *live,
        None => false,
    }
}

/// Whether what counts starts before the latest of some commits.
pub(crate) fn is_early(counts: bool, start: usize, latest: usize) -> bool
    ensures { result ≡ false → IsTrue counts → latest ≤ start }
{
    if !counts {
        return false;
    }
    start < latest
}

/// The later of two commits, if the second counts.
pub(crate) fn later_of(latest: usize, counts: bool, commit: usize) -> usize
    ensures kept { latest ≤ result }
    ensures upto { IsTrue counts → commit ≤ result }
{
    if counts { latest.max(commit) } else { latest }
}

// The place of a process in a table of so many, if it has one there.
fn slot_of(process: Option<u32>, count: usize) -> Option<usize>
    ensures { IfSome result (λ p. (process ≡ Some p) × (p < count)) }
{
    let Some(process) = process else {
        return None;
    };
    let place = process as usize;
    if place < count { Some(place) } else { None }
}

// Whether there is a process.
fn has_process(process: Option<u32>) -> bool
    ensures { result ≡ false → process ≡ None }
{
    match process {
        Some(_) => true,
        None => false,
    }
}

/// Whether each transaction starts when those that its process ran before have committed.
///
/// `AllocError` where there was no room. A process has a number below that of the transactions.
pub(crate) fn keeps_sessions(
    alloc: Global,
    recording: &Recording,
    live: &[bool],
    starts: &[usize],
    commits: &[usize],
) -> Result<bool, AllocError>
    ensures { IfOk result (λ keeps. IsTrue keeps
        → KeepsPairs (IsSession recording.now) live.now starts.now commits.now) }
{
    let count = recording.transactions.len();
    let mut latest = vec![in alloc; 0; count]?;
    for txn in 0..count {
        let transaction = recording.transactions[txn];
        if !has_process(transaction.process) {
            continue;
        }
        let Some(process) = slot_of(transaction.process, count) else {
            return Ok(false);
        };
        let before = latest[process];
        if is_early(live_at(live, txn), number_at(starts, txn), before) {
            return Ok(false);
        }
        latest[process] = later_of(before, transaction.outcome.is_ok(), number_at(commits, txn));
    }
    Ok(true)
}
