//! Sessions side by side on threads. A [`Job`] is a session as the workers see it: steps, each of
//! which names the latch slots of the keys that it touches, and a result at the end.
//! [`run_sessions`] makes the steps of all jobs by several workers.
//!
//! What is proved: each result is one that its job promised. A job's promise is a ghost member of
//! its type, so what a caller needs of a result is proved step by step, in one thread's terms, and
//! holds of what comes back. That steps hold their latches, that two threads work at once and that
//! the run ends is shown by tests.
#![tactic(auto)]

mod gate;
mod job;
mod pool;
mod results;
mod shard;
mod task;
mod turn;

pub use gate::{Gate, Open};
pub use job::Job;
pub use pool::run_sessions;
pub use turn::Turn;
