//! Versions that the transactions of a recording may have written: chains of what they put into
//! each key, in the order that is known, and in an order of what nobody saw. Nothing is said of
//! them here; tx_verdict looks at what they are evidence of.
#![tactic(auto)]

mod assemble;
mod chains;
mod orders;
mod plan;
mod puts;

pub use assemble::versions_of;
pub use chains::{Asked, ChainParts, Extras, plan_of};
pub use plan::{ChainMember, ChainPlan, Follows, first_member, first_put, follows_of, last_put};
pub use puts::{Put, Puts, lives_of, number, put_at, puts_of};
