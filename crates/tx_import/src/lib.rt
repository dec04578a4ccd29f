//! Histories of any store, as lines of JSON: what they say, and whether it is snapshot isolation.
#![tactic(auto)]

mod bare;
mod draft;
mod line;
mod line_content;
mod member_names;
mod members;
mod name;
mod names;
mod reader;
mod recorder;

pub use bare::bare_of;
pub use draft::Tables;
pub use line_content::{SaidAct, SaidOp, SaidTransaction};
pub use name::{Name, Scalar, Words};
pub use names::{KeyedValue, Names, Values};
pub use reader::{LineFault, NamedHistory, read_history};
pub use recorder::{Misrecorded, find_misrecorded};
