//! A recording of what the transactions of some store did, without timestamps, and what explains
//! one: timestamps under which each did just that under snapshot isolation.
#![tactic(auto)]

mod check;
mod recording;

pub use recording::{
    Act, Orders, RecordedOp, RecordedOutcome, RecordedTransaction, Recording, Span,
};
