//! The line of a step: the text that `tx_steps` reads as that step. A step's text is written here
//! alone, by whoever makes scripts.
#![tactic(auto)]

mod bounds;
mod laws;
mod step;
mod text;

pub use bounds::put_bounds;
pub use laws::{bounds_are_read_back, scripts_have_their_lines, steps_are_read_back};
pub use step::put_step;
pub use text::StepText;
