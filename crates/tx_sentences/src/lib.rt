//! The sentence that says why a line is a fault, for who wrote it; and lines as people type them.
#![tactic(auto)]

mod entries;
mod form;
mod history;
mod input;
mod line;
mod member;
mod reasons;
mod shorthand;
mod show;
mod state;

pub use entries::{note_undeclared, undeclared_at};
pub use input::InputKind;
pub use line::{Member, members_in};
pub use reasons::{Place, reason, why};
pub use shorthand::{is_shorthand, no_step_typed, step_typed};
