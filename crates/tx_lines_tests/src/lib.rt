//! What is scanned of lines and what they say, lines of histories, replies; latches, and jobs side
//! by side.
#![tactic(auto)]

#[cfg(test)]
mod import;
#[cfg(test)]
mod latch;
#[cfg(test)]
mod scan;
#[cfg(test)]
mod sched;
#[cfg(test)]
mod steps;
#[cfg(test)]
mod text;
