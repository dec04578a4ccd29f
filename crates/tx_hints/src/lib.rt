//! What helps who typed something wrong, or is about to type: the word that was meant, why a line
//! is no JSON, and what completes command lines in a shell. And what makes a text fit to be told at
//! a terminal: no character of it does anything there but to be seen, and no line is too long.
#![tactic(auto)]

mod escape;
mod json;
mod near;
mod shells;
mod wrap;

pub use escape::{escaped, escaped_lines, escaped_output, places_of};
pub use json::wrong_json;
pub use near::meant;
pub use shells::{Shell, completions};
pub use wrap::wrapped;
