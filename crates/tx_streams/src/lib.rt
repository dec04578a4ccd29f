//! The streams of a program that answers as it is asked: what was written is handed on before more
//! is read; the faults among the lines that are written are noted, and what was read last is kept
//! for who tells why; comments are passed over; how far it has come is told; and what goes to a
//! terminal is safe there.
#![tactic(auto)]

mod comments;
mod copied;
mod faults;
mod live;
mod progress;
mod recent;
mod steps;
mod terminal;

pub use comments::{Comments, Dropped};
pub use copied::{Copied, first_lines};
pub use faults::{NotedFaults, Noting, fault_in};
pub use live::{Asking, Shared};
pub use progress::{Counted, Erasing, ProgressLine};
pub use recent::Recent;
pub use steps::Steps;
pub use terminal::Escaping;
