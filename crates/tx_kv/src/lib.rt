//! Transactions over a store in this process: all that a program calls, by one import.
#![tactic(auto)]

mod client;
mod collection;
mod live;
mod many;
mod maps;
mod numbers;
mod pages;
mod pin;
mod program;
mod ranges;
mod read_result;
mod reads;
mod shared;
mod size;
mod stats;
mod store;
mod unopened;
mod updated;
mod view;

pub use client::Client;
pub use collection::Collected;
pub use maps::Maps;
pub use numbers::{get_number, pack_number, put_number, sum_of, unpack_number};
pub use pin::{Pin, Unpinned};
pub use program::{Program, with_store};
pub use size::Size;
pub use stats::Stats;
pub use tx_client::{Terms, WaitCause};
pub use tx_core::Outcome;
pub use tx_journal::JournalId;
pub use tx_resolve::Counts;
pub use tx_types::{Fault, Key, KeyValue, KeyValues, Mode, Ts, Value};
pub use tx_update::{Failure, KeyRange, Page, Stop, Tx, Work};
pub use unopened::Unopened;
pub use updated::{NotUpdated, Updated};
pub use view::View;
