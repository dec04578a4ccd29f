//! Laws of the whole protocol in the words of those who use it: what is read once a commit was
//! told, and what the rows of a scan over all regions are.
#![tactic(auto)]

mod reads;
mod scans;

pub use reads::commits_are_read;
pub use scans::scans_see_whole;
