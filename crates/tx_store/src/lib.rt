//! The store: regions, each behind a lock of its own. Nothing but one region is under a lock, and
//! no request waits while it has one.
#![tactic(auto)]

mod seats;
mod store;
mod wire;

pub use store::Store;
pub use wire::Wire;
