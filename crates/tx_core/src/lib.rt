//! The events of the whole protocol: what seats and regions do, one atomic step each. Over lists of
//! them stand the definitions of what has happened, what may happen and what each answer means
//! (specs/), which docs/PROTOCOL.md tells in words.
#![tactic(auto)]

mod answers;
mod event;
mod fate;
mod headline;
mod later;
mod laws;

pub use answers::one_answer;
pub use event::{Declaration, Event, Outcome, Taken, UnknownCause};
pub use fate::fate_in;
pub use headline::{every_run, runs_exist, shadow_is_the_run, world_runs_are_legal};
pub use later::{histories_go_on, regions_go_on};
pub use laws::{
    allowed_stays, decided_async, decisions_come_first, parts_make_the_whole, prewritten_lock,
    read_only_stays, told_lock,
};
pub use tx_plan::{
    Answer, BatchRollback, Body, Boxed, CheckSecondaryLocks, CheckTxnStatus, Collect, Commit, Get,
    Infos, LocksBelow, Prewrite, RaiseSafe, RegionNo, ResolveLock, Scan, Starts, Target,
    TxnHeartBeat, plan_batch_rollback, plan_check_secondary_locks, plan_check_txn_status,
    plan_commit, plan_get, plan_prewrite, plan_raise_safe, plan_resolve_lock, plan_scan,
    plan_txn_heart_beat,
};
pub use tx_types::SeatNo;
