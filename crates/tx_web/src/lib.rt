//! The graph of versions of which some keys' orders are open: what holds in each of these orders,
//! the orders that follow, and ways of it.
#![tactic(auto)]

mod lists;
mod order;
mod reach;
mod ways;
mod web;

pub use lists::Lists;
pub use order::{TopologicalOrder, taken_of};
pub use reach::{ChainOrder, Finds, groups_of};
pub use ways::{Paths, ends_of, note_used};
pub use web::{Link, LinkReason, Loose, Web, commit_of, loose_chains, start_of, web_of};
