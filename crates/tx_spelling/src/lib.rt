//! Keys and versions that are kept as their encoded bytes, and a key that is handed on with its
//! bytes, so that it is spelt once. Contracts see keys.
#![tactic(auto)]

mod byte_order;
mod encoded_key;
mod spelling;
mod version;

pub use encoded_key::EncodedKey;
pub use spelling::{KeyBytes, MAX_ENCODED_REST, ROOM};
pub use version::VersionBytes;
