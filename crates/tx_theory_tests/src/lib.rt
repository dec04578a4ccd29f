//! Values and refusals, and journals that threads share. Runs of the machine and the steps of a run
//! are data (`crates/examples/data`).
#![tactic(auto)]

#[cfg(test)]
mod journal;
#[cfg(test)]
mod types;
