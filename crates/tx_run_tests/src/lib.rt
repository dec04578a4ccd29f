//! Runs of workers, with readers and writers that fail, and what the gates of a run see.
#![tactic(auto)]

#[cfg(test)]
mod tests;
