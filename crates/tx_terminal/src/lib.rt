//! Scripts that go on after a fault. One that is typed at a terminal: a slip does not end it, and
//! between two lines it is asked what stands where. One that comes from a file or another program:
//! each line is answered, however many there are.
#![tactic(auto)]

mod answers;
mod files;
mod notes;
mod onward;
mod questions;
mod terminal;

pub use answers::Answers;
pub use onward::go_on;
pub use terminal::converse;
