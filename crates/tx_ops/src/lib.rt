//! What a line does to a session that is live, and what it is told: an edit of its buffer, what
//! else it does by itself, and what it sends, over any way to the regions. What is refused by any
//! other rule is so before memory is asked for.
#![tactic(auto)]

mod acts;
mod calls;
mod edits;
mod entries;
mod stage;

pub use acts::act;
pub use calls::{reply_to, send};
pub use stage::{SessionStage, ending_name};
