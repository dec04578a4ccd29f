//! What a run of sessions is given, and what it tells: a script, read whole into its seeds and the
//! lines of each session; the seeds, made in the order of their lines; the log in which a session
//! keeps the answers of its lines; and the text of all answers.
#![tactic(auto)]

mod counts;
mod key_pair;
mod log;
mod replies;
mod reply;
mod script;
mod seeds;
mod session_line;
mod write;

pub use key_pair::KeyPair;
pub use log::RunLog;
pub use replies::Replies;
pub use reply::{LineAnswer, LineReply};
pub use script::{Script, read_script};
pub use seeds::play_seeds;
pub use session_line::{LatchNeed, ScriptLine, SessionLine};
pub use write::{write_all, write_fault};
