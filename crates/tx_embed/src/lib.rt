//! A store that is a value: one region with no lock, and clients, each with at most one transaction
//! that is open over several calls. It is asked by requests of bytes, one after another.
#![tactic(auto)]

mod answer;
mod client;
mod commit;
mod completion;
mod locks;
mod open_transaction;
mod reads;
mod request;
mod session;
mod sole_region;
mod store;

pub use answer::Said;
pub use client::{ClientSlot, Slot};
pub use open_transaction::{Ending, NotCommitted, OpenTransaction};
pub use request::ClientAct;
pub use sole_region::SoleRegion;
pub use store::{EmbeddedStore, MAX_CLIENTS, journal};
