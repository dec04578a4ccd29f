//! Text line by line. A line is read from what is at hand, taken apart into the members of its JSON
//! array, and bytes are written so that it is known what a failure leaves.
//!
//! A line that is an array of plain strings, whole numbers and nulls is scanned straight from its
//! bytes, and one with a list of rows at its end; of any other `serde_json` is the judge. Nothing
//! is allocated for a line without rows.
#![tactic(auto)]

mod end;
mod fault;
mod lines;
mod list;
mod output;
mod part;
mod plain;
mod row_list;
mod rows;
mod scan;
mod text;
mod value;

pub use end::{Broken, End};
pub use fault::put_fault;
pub use lines::{Found, read_line, whole_line};
pub use list::{Entries, put_list};
pub use output::{finish, send};
pub use part::{MAX_PARTS, Part, Parts, parts_of};
pub use row_list::{ListItem, Scanned, scanned_with_rows};
pub use rows::Rows;
pub use scan::scanned;
pub use text::{put_digits, put_end, put_number, put_stamped, put_string, put_text};
pub use value::value_of;
