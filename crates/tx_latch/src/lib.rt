//! Latches keep two workers off one key, so that they do not fight. Safety does not rest on them,
//! but on the locks of the regions. A command asks for the slots of its keys and is granted once no
//! earlier one shares a slot with it.
#![tactic(auto)]

mod asked_commands;
mod cid;
mod latches;
mod laws;
mod queues;
mod slot;

pub use cid::Cid;
pub use latches::Latches;
pub use laws::latches_keep_apart;
pub use slot::{Slot, slot_of};
