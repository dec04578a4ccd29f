//! A search for the order of versions that nobody saw: pairs of chains are put in one order or the
//! other, and what closes a cycle is learned as a clause. It ends with an order of all, with a
//! refutation, or where as many cycles were met as it may meet.
#![tactic(auto)]

mod choose;
mod learn;
mod lemmas;
mod net;
mod order_search;
mod pairs;
mod rounds;
mod solver;
mod trail;

pub use order_search::{Sought, search};
pub use rounds::refutation_of;
