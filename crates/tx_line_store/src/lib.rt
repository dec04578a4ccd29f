//! A store that plays lines of a script one after another, for who has the next line only when the
//! reply to the last one is known: a line that is a fault is told, and the next one is played.
#![tactic(auto)]

mod lines;
mod store;

pub use lines::{Lines, journal};
pub use store::LineStore;
