//! Reads at a timestamp, by a seat that begins no transaction.
#![tactic(auto)]

mod read;
mod reader;

pub use read::end_of_part;
pub use reader::Reader;
