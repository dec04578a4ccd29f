//! The judge of a recording: whether it is snapshot isolation. The versions of its keys are put in
//! an order, and are decided as a history; what comes of it is a verdict where the evidence says
//! so.
#![tactic(auto)]

mod attempt;
mod consequences;
mod first;
mod greedy;
mod open_keys;
mod overlap;
mod search;
mod verdict;
mod wide_graph;

pub use verdict::judge;
