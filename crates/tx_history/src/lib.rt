//! Histories of any store whose versions are known, without timestamps: whether there are
//! timestamps under which one is snapshot isolation. Its graph has a start and a commit of each
//! transaction, and an edge wherever each such timestamps rise: it has an order, which gives
//! timestamps, or a cycle, which refuses all.
#![tactic(auto)]

mod decision;
mod dependency;
mod graph;
mod laws;
mod recorded;

pub use decision::{HistoryDecision, decide};
pub use dependency::{Dependency, DependencyKind, dependencies};
pub use graph::edges;
pub use laws::{
    assignments_are_orders, cycles_refuse_assignments, orders_are_assignments,
    orders_are_timestamps,
};
pub use recorded::{After, Read, Recorded};
