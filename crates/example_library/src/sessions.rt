//! Two sessions over a store of two regions, in one thread: each line of the table is a call and
//! what it answers. docs/SESSIONS.md goes through it.
ghost use Rattle.std.specs.Prelude.{◌≡◌, length};

mod regions;
mod story;
mod table;

use anyhow::{Result, bail};
use regions::{journal, store};
use std::alloc::Global;
use std::marker::Brand;
use std::sync::Wait;
use story::tell;
use table::head;
use tx_journal::{JournalId, Opened, Seat};
use tx_nested::NestedCells;
use tx_store::Store;

// The journal has its name here, and so have the seats, the store and the sessions.
fn run<J: JournalId, R: Print + Wait>(rt: &R, alloc: Global, opened: Opened) -> Result<()>
    requires name { (opened.table ≡ J.table) × (opened.bounds ≡ J.bounds) × (opened.seats ≡ J.seats) }
    requires counts { (length J.bounds ≡ 1) × (J.seats ≡ 4) }
{
    let (store, seats) = store::<J>(alloc, opened)?;
    let told = seated(rt, alloc, &store, seats);
    drop(store);
    told
}

// Each session has a seat.
fn seated<J: JournalId, R: Print + Wait>(
    rt: &R,
    alloc: Global,
    store: &Store<J, NestedCells>,
    mut seats: Vec<Seat<J>>,
) -> Result<()> {
    match (seats.pop(), seats.pop()) {
        (Some(b), Some(a)) => tell(rt, alloc, store, a, b),
        _ => bail!("two seats"),
    }
}

/// Prints the table.
pub fn show<R: Print + AllocGlobal + Wait>(rt: &R) -> Result<()> {
    let alloc = rt.alloc();
    head(rt)?;
    let opened = journal(alloc)?;
    run::<Brand, _>(rt, alloc, opened)
}
