//! The machine that commits each transaction in one step, and a checker of traces against it.
#![tactic(auto)]

mod commit;
mod laws;
mod machine;
mod reads;
mod reason;
mod scan;
mod sets;
mod span;
pub mod step;
mod trace;
mod versions;
mod why;

pub use laws::{locked_reads_are_serial, locked_runs_are_serial, runs_are_snapshots};
pub use machine::{Machine, Refused};
pub use reason::{SeenValue, Standing, Why};
pub use step::{ScanRead, Step};
pub use trace::{Checked, check_steps, check_trace};
pub use versions::Writer;
