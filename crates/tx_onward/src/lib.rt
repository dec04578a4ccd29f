//! How a recording is judged on after a no: of the transactions that a no tells of, what they read
//! is taken as not known, and what is left is judged again.
#![tactic(auto)]

mod laws;
mod notes;
mod remainder;
mod tells;

pub use laws::refused_left_refuses_whole;
pub use notes::note;
pub use remainder::left_of;
