//! That the theorem over every run (`tx_core::every_run`) needs its premise: for each condition of
//! it a history in which one event misses that condition, each other event may come, and which no
//! steps of the machine explain. So of each case of the tables, and of what answers leave. The
//! conditions left out are specs/Rules.antt, the cases specs/Forgets.antt, what is not left
//! specs/Leaves.antt.
#![tactic(auto)]

mod premise;

pub use premise::{
    events_are_needed, leavings_are_needed, premise_is_enough, requests_are_needed,
    tables_are_needed,
};
