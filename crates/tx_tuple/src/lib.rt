//! Tuples as keys: parts that are bytes, texts and numbers, packed so that keys are ordered as
//! their tuples, part by part, and that the keys which begin with a tuple's are those of the tuples
//! that begin with its parts.
#![tactic(auto)]

mod borrow;
mod marks;
mod order;
mod part;
mod readers;
mod tuple;
mod writers;

pub use order::{one_tuple, prefixes, tuple_order};
pub use part::{OwnedPart, Part};
pub use tuple::{pack, unpack};
