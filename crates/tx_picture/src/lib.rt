//! A played script as text: a column a session while it lives, a line a step, and beside it what
//! changed of each key. Where lines are to have so many places, columns are narrower, and what is
//! longer goes on below.
#![tactic(auto)]

mod change;
mod columns;
mod entry;
mod layout;
mod wrap;

pub use change::changed_words;
pub use entry::put_sending;
pub use layout::text_of;
