//! Spellings of keys and records, tuples, timelines, and the same scenarios on both families.
#![tactic(auto)]

#[cfg(test)]
mod cells;
#[cfg(test)]
mod codec;
#[cfg(test)]
mod timeline;
#[cfg(test)]
mod tuples;
