//! The network of scripts in one thread: requests may be lost, taken twice, or held under a name to
//! be delivered later, and replies may be lost. It has the regions, and what is newest.
#![tactic(auto)]

mod delivery;
mod network;

pub use network::Network;
