//! Tests of what a program calls.
#![tactic(auto)]

#[cfg(test)]
mod tests;
