//! The replies of a script, and the lines that tell them: a store's answer, an outcome, what became
//! of a lock's transaction, and what is shown of a key.
#![tactic(auto)]

mod answer;
mod reply;
mod reply_line;
mod status;
mod versions;

pub use reply::{REFUSAL_BYTES, ScriptReply, put_reply};
pub use reply_line::ReplyLine;
