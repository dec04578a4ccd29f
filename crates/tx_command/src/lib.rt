//! What a user of `txkv` meets beside its output: the words of the command line, the texts of help,
//! the examples that it prints, and the status and the warning with which the program ends.
#![tactic(auto)]

mod cells;
mod commands;
mod display;
mod generate;
mod help;
mod histories;
mod picture;
mod samples;
mod stats;
mod status;
mod tips;
mod topics;
mod words;

pub use cells::{CellsKind, cells_of, cells_option};
pub use commands::{CommandLine, CommandTask, job_of};
pub use display::{Display, Terminals, fitted, shown_at};
pub use generate::GenerateOptions;
pub use help::{REFUSALS, SIMULATE_HELP};
pub use histories::{ImportOptions, LevelKind};
pub use picture::ExplainOptions;
pub use stats::Stats;
pub use status::{CommandEnd, message_of, status_of};
pub use tips::fault_text;
pub use topics::{topic, topic_words};
pub use words::{USUAL_WIDTH, parse, width_of};
