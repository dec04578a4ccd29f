//! The text of an HTML page of a run: its parts one after another, and data in it that nothing can
//! end. What is data stands in elements of their own, in which each sign of markup is written as
//! JSON escapes it.
#![tactic(auto)]

mod page;
mod shield;
mod text;

pub use page::{PageFrame, PageParts, put_page};
pub use shield::{put_shielded, shielded_is_data};
pub use text::put_text;
