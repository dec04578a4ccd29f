//! Checking a trace: each line is a step of the machine, as `simulate --check` writes them, and the
//! verdict says whether the machine makes them all.
//!
//! A line is one JSON array, which `tx_text` reads. The steps of the machine stand in
//! `machine_step` and `listed_step`, the lines that say them in `step_line`, the words of verdicts
//! in `words`, in `reasons` the line that says why a step is not made, and in `writers` that of who
//! wrote what a read claims, by the steps that the walk in `kept` keeps.
#![tactic(auto)]

mod all;
mod checker;
mod explanation;
mod listed_step;
mod machine_step;
mod reasons;
mod step_line;
mod words;
mod writers;

pub use all::check_all;
pub use checker::{check, check_with_reason};
pub use step_line::{put_step, put_step_beside};
pub use words::{Verdict, verdict_line};
