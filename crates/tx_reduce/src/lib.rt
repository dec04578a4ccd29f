//! A script made shorter that still shows something: lines are left out, and what is left is played
//! by `simulate`, which says whether it does.
#![tactic(auto)]

mod lines;

pub use lines::reduce;
