//! An order of a graph's nodes in which each edge rises, or a cycle: which of the two there is, and
//! the one that there is. A search depth first finishes each node after all that its edges lead to;
//! an edge back to a node on its path closes a cycle. A search breadth first shortens it.
#![tactic(auto)]

mod breadth;
mod graph;
mod laws;
mod search;
mod shortest;
mod unordered;

pub use graph::Edge;
pub use laws::cycles_refuse_orders;
pub use shortest::shorten;
pub use unordered::{Unordered, order};
