//! The orders that timestamps keep beside those of reads and writes: that in which each process ran
//! its transactions, and that of the recorder's clock.
#![tactic(auto)]

mod clock;
mod orders;
mod sessions;

pub use clock::{ClockEvent, events_of};
pub use orders::keeps_orders;
