//! What stands on regions: the rows of the case tables over records, each kind of families;
//! requests that are planned while others are taken; stores that threads share; updates that end
//! well, are tried again or stop; and scenarios of sessions, a resolver and a collector that
//! scripts have no words for. All else of sessions are rows of `crates/examples/data/scripts.rows`.
#![tactic(auto)]

#[cfg(test)]
mod calls;
#[cfg(test)]
mod clients;
#[cfg(test)]
mod harness;
#[cfg(test)]
mod orphan;
#[cfg(test)]
mod others;
#[cfg(test)]
mod planning_tests;
#[cfg(test)]
mod scenarios;
#[cfg(test)]
mod store_tests;
#[cfg(test)]
mod stores;
#[cfg(test)]
mod table_tests;
#[cfg(test)]
mod update_tests;
#[cfg(test)]
mod words;
