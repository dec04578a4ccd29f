//! The engine of scripts in one thread, over the regions and the seats of one journal. Each step is
//! its turn: a definition of what it leads to. In the end all seats are settled, which shows that
//! nobody else acted.
#![tactic(auto)]

mod acts;
mod engine;
mod new_engine;
mod operations;
mod resolver;
mod slots;

pub use engine::Engine;
pub use new_engine::engine_of;
pub use slots::SessionSlot;
