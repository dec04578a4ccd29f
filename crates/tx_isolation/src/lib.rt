//! Snapshot isolation in the words of transactions: what a session reads is of one prefix of the
//! commits, those at or below its start, and no two transactions that overlap commit one key.
#![tactic(auto)]

mod laws;

pub use laws::{commits_are_apart, ended_rows_stay, sessions_read_one_snapshot};
