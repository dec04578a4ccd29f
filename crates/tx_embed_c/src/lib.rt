//! A store of keys and values, for programs in C and whatever calls C: it is opened, asked and
//! closed by a pointer that the caller only holds. `include/txkv_store.h` has the declarations.
#![tactic(auto)]

mod calls;
mod face;

pub use face::{txkv_store_answer, txkv_store_call, txkv_store_close, txkv_store_open};
