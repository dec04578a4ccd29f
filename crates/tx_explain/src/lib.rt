//! A script's run, shown as people draw it: `explain` plays a script as `simulate` does, and writes
//! the picture of the film of that play (tx_film): text, a drawing, or a page.
#![tactic(auto)]

mod names;
mod options;
mod script;

pub use names::{MissingName, missing_in};
pub use options::{PictureForm, PictureOptions};
pub use script::explain;
