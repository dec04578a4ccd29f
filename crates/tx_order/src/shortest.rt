//! A cycle of few edges, where one of many is known.
ghost use Rattle.std.specs.Prelude.{◌<◌, ◌≤◌, length, IfOk};
ghost use Rattle.tx_order.specs.Graphs.{AreWithin, IsCycle};
ghost use Rattle.tx_order.specs.Search.{AreByFrom};

use crate::breadth::Breadth;
use crate::graph::Edge;
use std::alloc::{AllocError, Global};

// From how many nodes of the cycle a shorter one is looked for.
const MOST_STARTS: usize = 16;

// The shorter of a cycle and those that lead through its nodes, over edges in the order of where
// they come from.
fn shorten_by_from(
    alloc: Global,
    nodes: u32,
    edges: &[Edge],
    cycle: &[u32],
) -> Result<Vec<u32>, AllocError>
    requires by_from { AreByFrom edges.now }
    requires within { AreWithin nodes edges.now }
    ensures cycle { IfOk result (λ least. IsCycle edges.now cycle.now → IsCycle edges.now least.items) }
    ensures short { IfOk result (λ least. length least.items ≤ length cycle.now) }
{
    let mut breadth = Breadth::new(alloc, nodes)?;
    let mut least = Vec::from_slice(alloc, cycle)?;
    for i in 0..cycle.len().min(MOST_STARTS) {
        let start = cycle[i];
        if start >= nodes {
            break;
        }
        if let Some(found) = breadth.cycle_through(alloc, edges, start)? {
            if found.len() < least.len() {
                least = found;
            }
        }
    }
    Ok(least)
}

/// A cycle of at most as many nodes as one that is known. From each of its first 16 nodes it
/// searches breadth first for the least one through that node, over at most 65,536 nodes. It sorts
/// the edges by where they come from.
///
/// `AllocError` where there was no room.
pub fn shorten(
    alloc: Global,
    nodes: u32,
    edges: &mut Vec<Edge>,
    cycle: &[u32],
) -> Result<Vec<u32>, AllocError>
    requires { AreWithin nodes edges.old.items }
    ensures cycle { IfOk result (λ least. IsCycle edges.old.items cycle.now → IsCycle edges.old.items least.items) }
    ensures short { IfOk result (λ least. length least.items ≤ length cycle.now) }
{
    edges.sort_by_key(|edge| edge.from)?;
    shorten_by_from(alloc, nodes, edges.as_slice(), cycle)
}
