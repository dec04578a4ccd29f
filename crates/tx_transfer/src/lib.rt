//! Transfers between balances, and what else the sessions of a run do over one store: an order, the
//! balances that it moves, the state of a transfer on its way, the context of a session, operations
//! of a session, seeds, the sum of all balances, and collections.
#![tactic(auto)]

mod balance;
mod changes;
mod collector;
mod context;
mod lock_slots;
mod operations;
mod order;
mod plain_reply;
mod progress;
mod refusals;
mod requests;
mod seeds;
mod source;
mod total;
mod transfer;

pub use balance::{BALANCES, MAX_DIGITS, after_transfer, balance_of, value_of};
pub use collector::Collector;
pub use context::Context;
pub use lock_slots::slots_of;
pub use operations::{act, refused, reply_to, send};
pub use order::Order;
pub use plain_reply::PlainReply;
pub use progress::TransferProgress;
pub use refusals::Refusals;
pub use seeds::seed;
pub use source::Source;
pub use total::read_total;
pub use transfer::TransferState;
