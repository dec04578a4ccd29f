//! What the clauses of a run say besides how it was played follows from that; and its lines are the
//! turns of `simulate`, where nobody else acts.
#![tactic(auto)]

mod acts;
mod lines;
mod runs;
mod turns;

pub use acts::replies_are_made;
pub use lines::{lines_tell, outcomes_are_told};
pub use runs::{played_runs_tell, runs_are_played, sums_come_last};
pub use turns::{lines_are_turns, one_relation};
