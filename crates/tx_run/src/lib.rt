//! Scripts of sessions that run side by side. A script is read whole; its seeds run in the order of
//! their lines, and then each session is a job of the workers, with its lines in their order. All
//! of them send to one store, and a `transfer` moves an amount between the balances of two keys.
#![tactic(auto)]

mod job;
mod output;
mod play;
mod refusals;
mod run;
mod sessions;
mod settings;
mod state;

pub use play::RunResult;
pub use run::run_script;
pub use settings::Settings;
pub use tx_cells::{Makes, Plain};
pub use tx_ops::SessionStage;
pub use tx_transfer::{PlainReply, Refusals};
pub use tx_workload::{KeyPair, LineAnswer, LineReply, Replies};
