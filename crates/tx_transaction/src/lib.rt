//! A transaction as its client knows it: its write buffer, what is due of it, what came of its
//! requests, and what is known of its fate. It sends nothing: sessions do.
#![tactic(auto)]

mod answers;
mod buffer;
mod key_entries;
mod key_table;
mod laws;
mod settled;
mod state;
mod transaction;

pub use laws::{decision_stays, rollback_once_aborted};
pub use state::{BufferEntry, Due, Miss, Phase, Progress, Terms};
pub use transaction::Transaction;
