//! Sessions: a client with its seat, which runs one transaction over a store by the rules
//! of tx_transaction.
#![tactic(auto)]

mod order;
mod part;
mod requests;
mod resolved;
mod session;

pub use order::{commits_above, starts_above};
pub use requests::ask;
pub use resolved::{Decision, Met, Resolved, Status, WaitCause};
pub use session::Session;
pub use tx_transaction::{BufferEntry, Miss, Phase, Progress, Terms, Transaction};
