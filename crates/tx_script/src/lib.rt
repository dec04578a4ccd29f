//! Text in, text out. `simulate` reads the steps of a script, plays them in one thread over regions
//! in which nobody else acts, and writes a reply for each: what it has written is what the script
//! means, which is its only play, whose events are a run of the protocol. `simulate_checked` also
//! writes the machine's steps that are read off that run, and that they are a run of the machine;
//! `simulate_numbered` writes each of them beside the number of the line that made it.
//!
//! Here users find scripts: `simulate`, `check` of tx_check, and how either ends.
//!
//! A line is one JSON array, which `tx_text` reads and writes; `tx_steps` has the steps of
//! scripts, and `tx_engine` the engine.
#![tactic(auto)]

mod asked;
mod line;
mod line_numbers;
mod next;
mod player;
mod run_check;
mod script;
mod simulation;
mod stage;

pub use player::Player;
pub use simulation::{bounds_in, simulate, simulate_checked, simulate_numbered};
pub use tx_cells::{Makes, Plain};
pub use tx_check::{check, check_with_reason};
pub use tx_ops::SessionStage;
pub use tx_text::{Broken, End};
