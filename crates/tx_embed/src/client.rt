//! What a client does by a seat of its own: one transaction after another.
ghost use Rattle.std.specs.Prelude.{◌≡◌};
ghost use Rattle.tx_update.specs.Updates.{SeatGoesOn};
ghost use Rattle.tx_embed.specs.declared.client.Slot.TheVariants.{Open as Opened};
ghost use Rattle.tx_embed.specs.declared.request.ClientAct.TheVariants as acts;
ghost use Rattle.tx_embed.specs.Acts.{Acts, IsWithin, commit_terms};
ghost use Rattle.tx_embed.specs.Told.{told_found, told_row, told_entry, told_ending};

use crate::answer::Said;
use crate::open_transaction::{Ending, NotCommitted, OpenTransaction};
use crate::request::ClientAct;
use crate::sole_region::SoleRegion;
use std::alloc::Global;
use std::mem;
use tx_client::Terms;
use tx_journal::{JournalId, Seat};
use tx_types::{KeyValue, Mode, Value};
use tx_update::Stop;

/// What a client has: a seat, or a transaction that is open, or neither while it acts.
#[derive(Drop)]
pub enum Slot<F, O> {
    /// A seat, for the next transaction.
    Idle(F),
    /// A transaction.
    Open(O),
    /// What was here acts, and comes back before the call ends.
    Lent,
}

/// The slot of a client.
pub type ClientSlot<J> = Slot<Seat<J>, OpenTransaction<J>>;

// The terms of each commit. No other call comes between its requests, so that a lock which somebody
// meets was left: its time is over at once.
fn terms() -> Terms
    ensures { result ≡ commit_terms }
{
    Terms {
        mode: Mode::TwoPhase,
        ttl: 0,
        max_commit: None,
    }
}

// What is said of the read of a key.
fn told_found(found: Result<Option<Value>, Stop>) -> Said
    ensures { result ≡ told_found found }
{
    match found {
        Ok(Some(value)) => Said::Found(value),
        Ok(None) => Said::Absent,
        Err(stop) => Said::Stopped(stop),
    }
}

// What is said of the read of a row.
fn told_row(row: Result<Option<KeyValue>, Stop>) -> Said
    ensures { result ≡ told_row row }
{
    match row {
        Ok(Some(row)) => Said::Row(row),
        Ok(None) => Said::Absent,
        Err(stop) => Said::Stopped(stop),
    }
}

// What is said of what was to be entered.
fn told_entry(done: Result<(), Stop>) -> Said
    ensures { result ≡ told_entry done }
{
    match done {
        Ok(()) => Said::Done,
        Err(stop) => Said::Stopped(stop),
    }
}

// What is said of a commit.
fn told_ending(ending: Ending) -> Said
    ensures { result ≡ told_ending ending }
{
    match ending {
        Ok(Some(at)) => Said::Committed(at),
        Ok(None) => Said::ReadOnly,
        Err(NotCommitted::Stopped(stop)) => Said::Stopped(stop),
        Err(NotCommitted::Unknown) => Said::Unknown,
    }
}

// Begins a transaction by the seat of a client.
fn begin<J: JournalId>(alloc: Global, slot: &mut ClientSlot<J>) -> Said
    ensures { Acts J.bounds acts.Begin slot.old result slot.new }
{
    match mem::replace(slot, Slot::Lent) {
        Slot::Idle(seat) => match OpenTransaction::begin(alloc, seat) {
            Ok(begun) => {
                *slot = Slot::Open(begun);
                Said::Done
            }
            Err(seat) => {
                *slot = Slot::Idle(seat);
                Said::Spent
            }
        },
        other => {
            *slot = other;
            Said::Busy
        }
    }
}

// Commits the transaction of a client.
fn commit<J: JournalId>(
    alloc: Global,
    slot: &mut ClientSlot<J>,
    resolver: Seat<J>,
    region: &mut SoleRegion<J>,
) -> (Said, Seat<J>)
    ensures acts { Acts J.bounds acts.Commit slot.old result.0 slot.new }
    ensures resolver { SeatGoesOn resolver result.1 }
{
    match mem::replace(slot, Slot::Lent) {
        Slot::Open(transaction) => {
            region.show();
            let (ending, seat, resolver) = transaction.commit(alloc, &terms(), resolver, region);
            *slot = Slot::Idle(seat);
            (told_ending(ending), resolver)
        }
        other => {
            *slot = other;
            (Said::NoTransaction, resolver)
        }
    }
}

// Leaves the transaction of a client.
fn abort<J: JournalId>(slot: &mut ClientSlot<J>) -> Said
    ensures { Acts J.bounds acts.Abort slot.old result slot.new }
{
    match mem::replace(slot, Slot::Lent) {
        Slot::Open(transaction) => {
            *slot = Slot::Idle(transaction.abort());
            Said::Done
        }
        other => {
            *slot = other;
            Said::NoTransaction
        }
    }
}

// What is done within a transaction that is open.
fn step<J: JournalId>(
    alloc: Global,
    transaction: &mut OpenTransaction<J>,
    asked: ClientAct,
    resolver: &mut Seat<J>,
    region: &mut SoleRegion<J>,
) -> Said
    requires within { IsWithin asked }
    ensures acts { Acts J.bounds asked (Opened transaction.old) result (Opened transaction.new) }
    ensures resolver { SeatGoesOn resolver.old resolver.new }
{
    // For proofs: it loses nothing.
    region.show();
    match asked {
        ClientAct::Get(key) => told_found(transaction.get(&key, resolver, region)),
        ClientAct::Next(from, to) => told_row(transaction.next(
            alloc, &from, &to, resolver, region,
        )),
        ClientAct::Put(key, value) => told_entry(transaction.put(key, value)),
        ClientAct::Insert(key, value) => told_entry(transaction.insert(key, value)),
        ClientAct::Delete(key) => told_entry(transaction.delete(key)),
        ClientAct::Lock(key) => told_entry(transaction.lock(key)),
        ClientAct::Begin | ClientAct::Commit | ClientAct::Abort => unreachable!(),
    }
}

/// A client does what is asked.
pub(crate) fn act<J: JournalId>(
    alloc: Global,
    slot: &mut ClientSlot<J>,
    asked: ClientAct,
    mut resolver: Seat<J>,
    region: &mut SoleRegion<J>,
) -> (Said, Seat<J>)
    ensures acts { Acts J.bounds asked slot.old result.0 slot.new }
    ensures resolver { SeatGoesOn resolver result.1 }
{
    match asked {
        ClientAct::Begin => (begin(alloc, slot), resolver),
        ClientAct::Commit => commit(alloc, slot, resolver, region),
        ClientAct::Abort => (abort(slot), resolver),
        asked => match slot {
            Slot::Open(transaction) => {
                let said = step(alloc, transaction, asked, &mut resolver, region);
                (said, resolver)
            }
            _ => (Said::NoTransaction, resolver),
        },
    }
}
