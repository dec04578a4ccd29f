//! Why a cycle refuses every order, and not only the one that was looked for.
ghost use Rattle.std.specs.Prelude.{◌<◌, ℕ, List, All};
ghost use Rattle.tx_order.specs.declared.graph.Edge.{Edge};
ghost use Rattle.tx_order.specs.Graphs.{IsCycle};

/// A graph with a cycle has no numbers of its nodes that rise along each edge.
pub fn cycles_refuse_orders()
    ensures { (edges : List Edge) (nodes : List ℕ) (number : ℕ → ℕ)
        → All (λ edge. number edge.from < number edge.to) edges → IsCycle edges nodes → ⊥ }
{}
