//! The steps of the one-step machine, read off a run of the protocol as its events come: what a
//! check of the run then looks at.
#![tactic(auto)]

mod log;
mod pending;
mod taken_log;
mod trace;

pub use taken_log::Taking;
pub use trace::Trace;
