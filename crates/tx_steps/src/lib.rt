//! The steps of a script, read from a line: a word, and what the word is told of. Here is the one
//! place of their form, for every program that plays scripts.
//!
//! A step is read over the text of its line, and a plain line allocates nothing. Only the form is
//! looked at: the words, how many members there are, which of them are texts and numbers, and the
//! ranges of numbers. Whether a name, a key or a value has too many bytes is looked for later, but
//! for the keys of `regions`.
#![tactic(auto)]

mod bounds;
mod call;
mod delivery;
mod line;
mod members;
mod op;
mod program;
mod runs;
mod step;
mod transfer;
mod word;

pub use bounds::bounds_of;
pub use call::Call;
pub use delivery::Delivery;
pub use line::{Line, scanned_line};
pub use op::Op;
pub use program::Program;
pub use step::{Step, put_step, step_of};
pub use transfer::{MAX_AMOUNT, Transfer};
