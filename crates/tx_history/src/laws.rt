//! A history is snapshot isolation exactly where its graph has an order.
ghost use Rattle.std.specs.Prelude.{◌≡◌, ℕ, ◌+◌, ◌*◌, ◌<◌, List, slice_index};
ghost use Rattle.tx_order.specs.declared.graph.Edge.{Edge};
ghost use Rattle.tx_order.specs.Graphs.{AreWithin, IsOrder, IsCycle};
ghost use Rattle.tx_history.specs.Histories.{History, AreWritten, IsAssignment, Rises};
ghost use Rattle.tx_history.specs.Graph.{IsGraph, start_node, commit_node};

use tx_order::cycles_refuse_orders;

/// Numbers that rise along each edge of the graph are timestamps.
pub fn orders_are_assignments()
    ensures { (h : History) (starts commits : ℕ → ℕ) → AreWritten h → Rises h starts commits
        → IsAssignment h starts commits }
{}

/// Timestamps give numbers that rise along each edge: so where the graph has a cycle there are
/// none.
pub fn assignments_are_orders()
    ensures { (h : History) (start commit : ℕ → ℕ) → IsAssignment h start commit
        → Rises h (λ t. 2 * start t + 1) (λ t. 2 * commit t) }
{}

/// The places of the nodes in an order of the graph are timestamps.
pub fn orders_are_timestamps()
    ensures { (h : History) (edges : List Edge) (places starts commits : List ℕ)
        → AreWritten h → IsGraph h edges → AreWithin (2 * h.txns) edges → IsOrder (2 * h.txns) edges places
        → ((t : ℕ) → t < h.txns → slice_index starts t ≡ slice_index places (start_node t))
        → ((t : ℕ) → t < h.txns → slice_index commits t ≡ slice_index places (commit_node t))
        → IsAssignment h (slice_index starts) (slice_index commits) }
{
    orders_are_assignments();
}

/// A history whose graph has a cycle has no timestamps.
pub fn cycles_refuse_assignments()
    ensures { (h : History) (edges : List Edge) (nodes : List ℕ) (start commit : ℕ → ℕ)
        → IsGraph h edges → IsCycle edges nodes → IsAssignment h start commit → ⊥ }
{
    cycles_refuse_orders();
    assignments_are_orders();
}
