//! The transaction layer at a shell. `tx_command` reads the words of the command line, `tx_streams`
//! has the streams that answer as they are asked, `tx_sentences` says why a line is a fault; what a
//! command does stands in `tx_script`, `tx_check` and `tx_run`. Here they meet, and how a command
//! ended becomes a status. Pictures, and talks at a terminal, a program brings along.
#![tactic(auto)]

mod answer;
mod cells;
mod counter;
mod failure;
mod generate;
mod invocation;
mod more;
mod notes;
mod perform;
mod program;
mod reduce;
mod stages;
mod stats;
mod steps;

pub use more::MoreCommands;
pub use program::{terminal_width, txkv};
