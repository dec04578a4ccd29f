//! What the reads of a recording say: who put each value, and what each transaction saw of a key
//! before it did anything there.
#![tactic(auto)]

mod effect;
mod owner;
mod view;

pub use effect::{Effect, effect_of};
pub use owner::{Owned, Owner, Twice, owners};
pub use view::{RecordedView, Viewed, is_end, views};
