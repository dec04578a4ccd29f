//! What nearly every user of sessions writes, in one call.
#![tactic(auto)]

mod attempt;
mod completion;
mod ended;
mod failure;
mod lent;
mod many;
mod met_lock;
mod page;
mod range;
mod rows;
mod session;
mod stops;
mod tx;
mod updates;

pub use ended::{Ended, Seats, Unended};
pub use failure::Failure;
pub use met_lock::resolve_met;
pub use range::{add_last, add_rows, split_page};
pub use rows::{KeyRange, Page, greatest, last_of};
pub use stops::{Stop, stop_by};
pub use tx::Tx;
pub use updates::{Watch, Work, update, update_watched};
