//! What finishes transactions whose sessions are gone, and what drops old versions: the resolver of
//! a lock that was met, and the collector.
#![tactic(auto)]

mod collector;
mod findings;
mod resolver;

pub use collector::{Counts, gc};
pub use resolver::resolve;
