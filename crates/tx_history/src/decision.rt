//! Timestamps of a history, or a cycle of its graph.
ghost use Rattle.std.specs.Prelude.{◌≡◌, ℕ, ◌+◌, ◌*◌, ◌<◌, ◌≤◌, length, IfOk, slice_index};
ghost use Rattle.tx_history.specs.Records.{IsRecorded, history_of};
ghost use Rattle.tx_history.specs.Decisions.{IsDecision};

use crate::graph::edges;
use crate::laws::{cycles_refuse_assignments, orders_are_timestamps};
use crate::recorded::Recorded;
use std::alloc::{AllocError, Global};
use tx_order::{Unordered, order, shorten};

/// Whether a history has timestamps.
#[derive(Debug, Drop)]
pub enum HistoryDecision {
    /// These are the starts and the commits of its transactions, each a number of its own.
    Yes(Vec<usize>, Vec<usize>),
    /// It has none, since these nodes are a cycle of its graph: `2 * t` is the start of `t`,
    /// `2 * t + 1` its commit.
    No(Vec<u32>),
}

// Every other one of twice so many numbers.
fn every_other(
    alloc: Global,
    numbers: &[usize],
    first: usize,
    count: usize,
) -> Result<Vec<usize>, AllocError>
    requires first { first < 2 }
    requires enough { 2 * count ≤ length numbers.now }
    ensures count { IfOk result (λ xs. length xs.items ≡ count) }
    ensures each { IfOk result (λ xs. (i : ℕ) → i < count
        → slice_index xs.items i ≡ slice_index numbers.now (2 * i + first)) }
{
    let mut taken = Vec::new(alloc);
    for i in 0..count {
        taken.push(numbers[2 * i + first])?;
    }
    Ok(taken)
}

/// Timestamps under which the history is snapshot isolation, or, where there are none, a cycle of
/// its graph, of as few nodes as `shorten` finds.
///
/// `AllocError` where there was no room to find out.
pub fn decide(alloc: Global, recorded: &Recorded) -> Result<HistoryDecision, AllocError>
    requires { IsRecorded recorded.now }
    ensures { IfOk result (IsDecision (history_of recorded.now)) }
{
    orders_are_timestamps();
    cycles_refuse_assignments();
    let mut graph = edges(alloc, recorded)?;
    let txns = recorded.txns as usize;
    match order(alloc, 2 * recorded.txns, &mut graph) {
        Ok(places) => {
            let starts = every_other(alloc, places.as_slice(), 0, txns)?;
            let commits = every_other(alloc, places.as_slice(), 1, txns)?;
            Ok(HistoryDecision::Yes(starts, commits))
        }
        Err(Unordered::Cycle(nodes)) => {
            let least = shorten(alloc, 2 * recorded.txns, &mut graph, nodes.as_slice())?;
            Ok(HistoryDecision::No(least))
        }
        Err(Unordered::Memory) => Err(AllocError),
    }
}
