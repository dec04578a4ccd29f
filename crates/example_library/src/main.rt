//! What programs do with the library, one below the other, each a file of its own: money that is
//! moved, a queue of jobs, names that are taken once and a stock that is counted while it is sold,
//! by clients on threads; over keys of several parts a bank, a table with an index, and a queue of
//! claims; and two sessions over a store that is made by hand.
#![tactic(auto)]

mod accounts;
mod claims;
mod names;
mod queue;
mod sessions;
mod stock;
mod transfers;
mod users;

fn main(rt: HostRuntime) -> anyhow::Result<()> {
    transfers::show(&rt)?;
    queue::show(&rt)?;
    names::show(&rt)?;
    stock::show(&rt)?;
    accounts::show(&rt)?;
    users::show(&rt)?;
    claims::show(&rt)?;
    sessions::show(&rt)
}
