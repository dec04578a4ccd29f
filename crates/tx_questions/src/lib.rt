//! Questions on a script's run, where it stands: what is held on its way, what the machine that
//! commits at once has, and why the last refusal came. They are answered by the film of its play
//! (tx_film).
#![tactic(auto)]

mod machine;
mod obstacle;
mod questions;
mod refusal;
mod requests;
mod words;

pub use questions::answer;
