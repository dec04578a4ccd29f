//! Laws of how a session, a resolver and a collector come to an end: how many requests each call
//! sends at most, and that anybody can settle a lock whose time is over.
#![tactic(auto)]

mod requests;
mod settlement;

pub use requests::requests_are_few;
pub use settlement::expired_locks_settle;
