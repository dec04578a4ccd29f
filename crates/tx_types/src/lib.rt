//! Keys, values, timestamps, the records that a store keeps of them, and every refusal.
#![tactic(auto)]

mod fault;
mod fields;
mod key;
pub mod limits;
mod lists;
mod lock;
mod mutation;
mod name;
mod order;
mod region_no;
mod seat_no;
mod text;
mod ts;
mod value;
mod write;

pub use fault::{Cause, Fault};
pub use key::{Key, is_key};
pub use lists::{Changes, Items, KeyValues, Secondaries};
pub use lock::{LockFacts, LockInfo, LockMode, LockRec};
pub use mutation::{Change, Fate, KeyValue, LockKind, Mode, Mutation, StoredMutation};
pub use name::is_name;
pub use region_no::RegionNo;
pub use seat_no::SeatNo;
pub use text::Text;
pub use ts::Ts;
pub use value::{InlineValue, StoredValue, Value};
pub use write::{CommitRec, WriteRec};
