//! Scripts by chance: `generate` writes one for `simulate`, with lost, repeated, held and late
//! requests, stopped sessions, resolvers, collections, inserts, and commits in two phases and
//! asynchronous ones.
//!
//! It plays the script while it thinks of it: each line is tried on an engine, and the next one is
//! thought of by whoever knows the replies so far. A line that is a fault is no line of the script.
//! So the script ends well, by contract, and the same settings give the same script. Between lines
//! by chance stand scenes, and at the end a session reads every key.
#![tactic(auto)]

mod author;
mod dice;
mod last_session;
mod lines;
mod play;
mod scene;
mod script;
mod session;
mod settings;
mod thoughts;
mod word;
mod writer;

pub use settings::{MAX_LETTERS, ModeChoice, Settings};
pub use tx_cells::{Makes, Plain};
pub use tx_text::{Broken, End};
pub use writer::generate;
