//! What is answered of a history of any store: a line with the verdict of `tx_judge` in the names
//! of the history, sentences that say why, and a drawing of a no, or a page of all; after a no to
//! the end, where that is asked for.
#![tactic(auto)]

mod all;
mod answer;
mod frame;
mod moment;
mod page;
mod sentences;
mod steps;
mod text;
mod trace;

pub use answer::{AnswerOptions, Answered, CycleForm, ImportEnd, import};
