//! What is evidence of a verdict on a recording. Timestamps of versions are held against the
//! recording; each step of a cycle says what was read or put, and such steps refuse each
//! explanation by themselves; so do orders of open keys, each settled by a round, and a last round;
//! and some reads nothing explains.
#![tactic(auto)]

mod anomaly;
mod anti_dependency;
mod block;
mod case;
mod chain;
mod evidence;
mod facts;
mod fit;
mod ground;
mod lemma;
mod lists;
mod necessity;
mod open_order;
mod owners;
mod pairs;
mod question;
mod refutation;
mod serial;
mod stale_read;
mod steps;
mod stretch;
mod verdict;
mod versions;

pub use anomaly::Anomaly;
pub use case::Case;
pub use evidence::{cycle_of, timestamps};
pub use facts::{internal, wrong_update, wrong_views};
pub use fit::value_of;
pub use ground::{Behind, Ground};
pub use lists::{holds_list, list_keys, wrong_lists};
pub use open_order::is_undecided;
pub use question::{Level, Question};
pub use refutation::{Hint, Lemma, Refutation, Settled, WriteOrder, is_refutation};
pub use stretch::Stretch;
pub use verdict::{Beside, Cycle, CycleStep, EdgeKind, Fact, HistoryVerdict, Rule, Timestamps};
pub use versions::{Base, Home, Lives, LostUpdate, NO_SPAN, Shown, Versions};
