//! What `run` and `simulate` say of a step is one relation: what a session makes of it, over
//! whatever way its requests go. A line of a run, made where nobody else acts, is the turn of
//! `simulate`.
#![tactic(auto)]

mod laws;
mod steps;

pub use laws::{
    a_store_is_a_way, answers_are_counted, calls_are_turns, lives_are_turns, one_event_is_alone,
    resolves_are_turns, steps_are_turns,
};
pub use steps::make;
