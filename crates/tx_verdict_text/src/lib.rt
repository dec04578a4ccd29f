//! The line of a verdict, and the words of which it is made: transactions by their ids, keys,
//! values and processes by their names, as a history has them.
#![tactic(auto)]

mod line;
mod refutation;
mod words;

pub use line::{put_known_value, verdict_line};
pub use words::{
    cycle_word, edge_word, put_id, put_key, put_process, put_signed, put_value, rule_word,
    truth_word,
};
