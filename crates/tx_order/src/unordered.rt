//! Either an order in which each edge rises, or a cycle.
ghost use Rattle.std.specs.Prelude.{◌≡◌, IfOk, IfErr};
ghost use Rattle.std.specs.List.Sorted.{IsPermutation};
ghost use Rattle.tx_order.specs.Graphs.{AreWithin, IsOrder};
ghost use Rattle.tx_order.specs.Search.{AreByFrom};
ghost use Rattle.tx_order.specs.Unordered.{IsUnordered};

use crate::graph::Edge;
use crate::search::Search;
use std::alloc::{AllocError, Global};

/// Why there is no order of a graph's nodes.
#[derive(Debug, Drop)]
pub enum Unordered {
    /// Each of these nodes has an edge to the next, and the last to the first.
    Cycle(Vec<u32>),
    /// There was no room to find out.
    Memory,
}

impl From<AllocError> for Unordered {
    ghost use Rattle.std.specs.Prelude.{◌≡◌};
    ghost use Rattle.tx_order.specs.declared.unordered.Unordered.TheVariants.{Memory};

    ghost from_gives = { λ _ e. e ≡ Memory };

    fn from(_e: AllocError) -> Unordered {
        Unordered::Memory
    }
}

// The order or the cycle, over edges in the order of where they come from.
fn order_by_from(alloc: Global, nodes: u32, edges: &[Edge]) -> Result<Vec<usize>, Unordered>
    requires by_from { AreByFrom edges.now }
    requires within { AreWithin nodes edges.now }
    ensures ok { IfOk result (λ places. IsOrder nodes edges.now places.items) }
    ensures err { IfErr result (λ e. IsUnordered edges.now e) }
{
    let mut search = Search::new(alloc, nodes)?;
    match search.meet_all(edges, nodes)? {
        Some(place) => Err(Unordered::Cycle(search.path_from(alloc, place)?)),
        None => Ok(search.places(alloc)?),
    }
}

/// Gives each of so many nodes a place, such that the places rise along each edge, or finds a
/// cycle. It sorts the edges by where they come from. It costs n log n in the edges, and a few
/// words a node.
///
/// `Unordered::Cycle` where there is no order, `Unordered::Memory` where there was no room to find
/// out.
pub fn order(alloc: Global, nodes: u32, edges: &mut Vec<Edge>) -> Result<Vec<usize>, Unordered>
    requires { AreWithin nodes edges.old.items }
    ensures ok { IfOk result (λ places. IsOrder nodes edges.old.items places.items) }
    ensures err { IfErr result (λ e. IsUnordered edges.old.items e) }
    ensures same { IsPermutation edges.old.items edges.new.items }
{
    edges.sort_by_key(|edge| edge.from)?;
    order_by_from(alloc, nodes, edges.as_slice())
}
