//! The bytes under which keys, versions and records are kept: one spelling for each. Keys are
//! spelled so that the order of their bytes is the order of the keys, and versions so that
//! the versions of a key stand from the newest to the oldest. Bytes that spell nothing are
//! refused by `None`.
#![tactic(auto)]

mod key;
mod marks;
mod order;
mod readers;
mod records;
mod writers;

pub use key::{decode_key, decode_version, encode_key, encode_rest, encode_version};
pub use order::{key_order, version_order};
pub use records::{decode_lock, decode_write, encode_lock, encode_write};
pub use writers::{append_keys, keys_len, value_len};
