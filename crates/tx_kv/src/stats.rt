//! What the clients of a store have done so far.
ghost use Rattle.std.specs.Prelude.{◌≡◌};
ghost use Rattle.tx_core.specs.Histories.{last};
ghost use Rattle.tx_reader.specs.Readers.{OnlySees};
ghost use Rattle.tx_kv.specs.Clients.{KeepsTerms};
ghost use Rattle.tx_kv.specs.Counters.{AddsUp, safe_upto};

use crate::client::Client;
use crate::live::{Live, safe_upto};
use std::sync::Wait;
use std::sync::atomic::{AtomicU64, Ordering};
use tx_journal::JournalId;
use tx_types::Ts;
use tx_update::{Seats, Stop, Watch};

/// What the clients of a store have done so far, all together, as it stands when it is asked for.
#[derive(Clone, Copy, Debug)]
pub struct Stats {
    /// How often a work was done: `commits`, `reads`, `refused` and `retries` together.
    pub tries: u64,
    /// Updates that were committed.
    pub commits: u64,
    /// Updates that went well and wrote nothing.
    pub reads: u64,
    /// Updates that began a transaction and did not go well.
    pub refused: u64,
    /// Tries that came to nothing and were made again: `conflicts`, `waits` and `others` together.
    pub retries: u64,
    /// Those of them that another transaction's commit stopped.
    pub conflicts: u64,
    /// Those that a lock stopped whose transaction lives or cannot be asked.
    pub waits: u64,
    /// Those that were rolled back, or began below the safe point.
    pub others: u64,
    /// Collections, and the write records that they dropped.
    pub collections: u64,
    pub dropped: u64,
    /// The least timestamp at which a client reads now, or that one keeps; none where there is
    /// none.
    pub oldest: Option<Ts>,
    /// The highest safe point that a collection may take now: `oldest`, or the last timestamp that
    /// was drawn where that is less.
    pub safe: Ts,
}

/// The counters of a store.
#[derive(Drop)]
pub(crate) struct Tally {
    commits: AtomicU64,
    reads: AtomicU64,
    refused: AtomicU64,
    conflicts: AtomicU64,
    waits: AtomicU64,
    others: AtomicU64,
    collections: AtomicU64,
    dropped: AtomicU64,
}

// What a counter has.
fn read(counter: &AtomicU64) -> u64 {
    counter.load(Ordering::SeqCst)
}

impl Tally {
    /// Nothing was done.
    pub(crate) fn new() -> Tally {
        Tally {
            commits: AtomicU64::new(0),
            reads: AtomicU64::new(0),
            refused: AtomicU64::new(0),
            conflicts: AtomicU64::new(0),
            waits: AtomicU64::new(0),
            others: AtomicU64::new(0),
            collections: AtomicU64::new(0),
            dropped: AtomicU64::new(0),
        }
    }

    /// An update went well: whether it was committed.
    pub(crate) fn updated(&self, committed: bool) {
        let which = if committed {
            &self.commits
        } else {
            &self.reads
        };
        which.fetch_add(1, Ordering::SeqCst);
    }

    /// An update did not go well.
    pub(crate) fn refused(&self) {
        self.refused.fetch_add(1, Ordering::SeqCst);
    }

    /// A collection dropped so many write records.
    pub(crate) fn collected(&self, records: u64) {
        self.collections.fetch_add(1, Ordering::SeqCst);
        self.dropped.fetch_add(records, Ordering::SeqCst);
    }

    // What was counted, where this is the last timestamp that was drawn.
    fn stats(&self, live: &Live, last: Ts) -> Stats
        ensures adds { AddsUp result }
        ensures safe { result.safe ≡ safe_upto result.oldest last }
    {
        let (commits, reads, refused) = (
            read(&self.commits),
            read(&self.reads),
            read(&self.refused),
        );
        let (conflicts, waits, others) = (
            read(&self.conflicts),
            read(&self.waits),
            read(&self.others),
        );
        let retries = conflicts.saturating_add(waits).saturating_add(others);
        let ended = commits.saturating_add(reads).saturating_add(refused);
        let oldest = live.oldest();
        let safe = safe_upto(&oldest, last);
        Stats {
            tries: ended.saturating_add(retries),
            commits,
            reads,
            refused,
            retries,
            conflicts,
            waits,
            others,
            collections: read(&self.collections),
            dropped: read(&self.dropped),
            oldest,
            safe,
        }
    }
}

impl Watch for Tally {
    fn stopped(&self, stop: &Stop) {
        let which = match stop {
            Stop::Conflict(_) => &self.conflicts,
            Stop::Waits(..) => &self.waits,
            _ => &self.others,
        };
        which.fetch_add(1, Ordering::SeqCst);
    }
}

impl<'a, J: JournalId, R: Wait> Client<'a, J, R> {
    /// What all clients of its store have done so far, and up to where it may be collected.
    ///
    /// ```
    /// let stats = client.stats();
    /// ```
    pub fn stats(&mut self) -> Stats
        ensures adds { AddsUp result }
        ensures safe { result.safe ≡ safe_upto result.oldest (last self.new.seats.resolves.events) }
        ensures begins { self.new.seats.begins ≡ self.old.seats.begins }
        ensures resolves { OnlySees self.old.seats.resolves self.new.seats.resolves }
        ensures terms { KeepsTerms self.old self.new }
    {
        let Some(
            Seats {
                begins,
                mut resolves,
            },
        ) = self.seats.take()
        else {
            unreachable!()
        };
        let last = resolves.last();
        self.seats = Some(Seats { begins, resolves });
        self.tally.stats(self.live, last)
    }
}
