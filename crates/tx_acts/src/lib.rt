//! What the transactions of a history did, in words: an operation, a line, what shows an edge of a
//! cycle or a read that cannot be.
#![tactic(auto)]

mod evidence;
mod ops;
mod transaction;

pub use evidence::{put_read_shown, put_shown};
pub use ops::{op_line, ops_at, shown_ops};
pub use transaction::about;
