//! A store that plays lines, for programs in C and whatever calls C: it is opened, asked and closed
//! by a pointer that the caller only holds. `include/txkv.h` has the declarations.
#![tactic(auto)]

mod face;
mod store_calls;

pub use face::{txkv_lines_close, txkv_lines_open, txkv_lines_play, txkv_lines_reply};
