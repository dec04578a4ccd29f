//! Whether timestamps are those of a serial execution.
ghost use Rattle.std.specs.Prelude.{◌≡◌, ◌+◌, IfOk, IsTrue, slice_index};
ghost use Rattle.tx_verdict.specs.declared.question.Level.TheVariants.{Serializable};
ghost use Rattle.tx_verdict.specs.Fits.{AreInTurn, CommitAtOnce};

use crate::question::Level;
use std::alloc::{AllocError, Global};

// By moment, a transaction that starts then, 0 where none does.
fn starters(alloc: Global, starts: &[usize]) -> Result<Vec<usize>, AllocError> {
    let moments = starts.len().saturating_mul(2).saturating_add(2);
    let mut starters = vec![in alloc; 0usize; moments]?;
    for txn in 0..starts.len() {
        let start = starts[txn];
        if start < starters.len() {
            starters[start] = txn;
        }
    }
    Ok(starters)
}

// Whether a transaction is the one of its start, and commits right behind it.
fn commits_at_once(starters: &[usize], starts: &[usize], commits: &[usize], txn: usize) -> bool
    ensures starter { IsTrue result → slice_index starters.now (slice_index starts.now txn) ≡ txn }
    ensures commit { IsTrue result → slice_index commits.now txn ≡ slice_index starts.now txn + 1 }
{
    if txn >= starts.len() || txn >= commits.len() {
        return false;
    }
    let start = starts[txn];
    if start >= starters.len() || commits[txn] <= start {
        return false;
    }
    starters[start] == txn && commits[txn] - start == 1
}

// Whether each live transaction is the one of its start, and commits right behind it.
fn commit_at_once(starters: &[usize], live: &[bool], starts: &[usize], commits: &[usize]) -> bool
    ensures { IsTrue result → CommitAtOnce starters.now live.now starts.now commits.now }
{
    for txn in 0..live.len() {
        if live[txn] && !commits_at_once(starters, starts, commits, txn) {
            return false;
        }
    }
    true
}

// Whether the live transactions run one after the other.
fn are_in_turn(
    alloc: Global,
    live: &[bool],
    starts: &[usize],
    commits: &[usize],
) -> Result<bool, AllocError>
    ensures { IfOk result (λ are. IsTrue are → AreInTurn live.now starts.now commits.now) }
{
    let starters = starters(alloc, starts)?;
    Ok(commit_at_once(starters.as_slice(), live, starts, commits))
}

/// Whether the live transactions run one after the other, where serializability is asked for.
///
/// `AllocError` where there was no room.
pub(crate) fn keeps_level(
    alloc: Global,
    level: Level,
    live: &[bool],
    starts: &[usize],
    commits: &[usize],
) -> Result<bool, AllocError>
    ensures { IfOk result (λ keeps. IsTrue keeps → level ≡ Serializable
        → AreInTurn live.now starts.now commits.now) }
{
    match level {
        Level::Snapshot => Ok(true),
        Level::Serializable => are_in_turn(alloc, live, starts, commits),
    }
}
