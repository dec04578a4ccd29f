//! The collection of what no read can find any more.
ghost use Rattle.std.specs.Prelude.{◌≡◌, ◌≤◌, IfOk, IfErr};
ghost use Rattle.tx_journal.specs.Senders.{IsSender, LosesNothing};
ghost use Rattle.tx_reader.specs.Readers.{OnlySees};
ghost use Rattle.tx_kv.specs.Clients.{KeepsTerms};
ghost use Rattle.tx_kv.specs.Collections.{GoesAsFar, HasCollected, IsCollectFault};

use crate::client::Client;
use crate::live::{Live, safe_upto};
use std::sync::Wait;
use tx_journal::{JournalId, Reply, Request, Seat, Sender};
use tx_resolve::{Counts, gc};
use tx_store::Wire;
use tx_types::{Fault, Ts};
use tx_update::Seats;

/// What a collection dropped, and at which safe point: no read below that is answered any more.
#[derive(Clone, Copy, Debug)]
pub struct Collected {
    pub safe: Ts,
    /// What held it back, where the safe point is this: the least timestamp at which a client read
    /// as it looked, or that one kept; none where there was none.
    pub oldest: Option<Ts>,
    /// Write records, and values that stood apart from them.
    pub dropped: Counts,
}

// Collects by a seat, at the least of `keep`, of the last timestamp and of those at which the
// clients read.
fn collect_by<J: JournalId, S: Sender<Request<J>, Reply<J>>>(
    live: &Live,
    keep: Ts,
    seat: &mut Seat<J>,
    sender: &mut S,
) -> Result<Collected, Fault>
    requires way { IsSender J.bounds S.fits S.sends S.keys_between }
    requires lossless { LosesNothing S.sends }
    ensures kept { IfOk result (λ collected. collected.safe ≤ keep) }
    ensures far { IfOk result
        (λ collected. GoesAsFar keep seat.old.events seat.new.events collected.oldest collected.safe) }
    ensures done { IfOk result (λ done. HasCollected J.bounds seat.new.events done.safe done.dropped) }
    ensures err { IfErr result (IsCollectFault seat.new.events) }
    ensures seat { OnlySees seat.old seat.new }
{
    let now = seat.last();
    let oldest = live.oldest();
    let safe = Ts::new(keep.get().min(safe_upto(&oldest, now).get()));
    let dropped = gc(seat, safe, sender)?;
    Ok(Collected {
        safe,
        oldest,
        dropped,
    })
}

impl<'a, J: JournalId, R: Wait> Client<'a, J, R> {
    /// It is to collect by itself, before the next update after each so many: all that nobody reads
    /// any more. Never where it is 0, as at first. What a collection is refused by is not told: it
    /// is made again after as many updates more.
    ///
    /// ```
    /// client.collect_every(2);
    /// ```
    pub fn collect_every(&mut self, updates: u32)
        ensures { self.new ≡ self.old }
    {
        self.every = updates;
        self.since = 0;
    }

    // One update more: collects where that is due.
    pub(crate) fn collect_if_due(&mut self)
        ensures begins { self.new.seats.begins ≡ self.old.seats.begins }
        ensures resolves { OnlySees self.old.seats.resolves self.new.seats.resolves }
        ensures terms { KeepsTerms self.old self.new }
    {
        if self.every == 0 || self.since < self.every {
            self.since = self.since.saturating_add(1);
            return;
        }
        self.since = 1;
        drop(self.collect(Ts::new(u64::MAX)));
    }

    /// Drops what no read at `keep` or above finds, and no client that reads or writes by now: the
    /// safe point is the least of `keep`, of the last timestamp that was drawn, and of those at
    /// which the clients still read. First it resolves the locks of transactions that started below
    /// it. `BelowSafePoint` where the safe point lies above already, `LocksRemain` where a lock
    /// could not be resolved, and `OutOfMemory`; it may be asked again.
    ///
    /// ```
    /// let collected = client.collect(Ts::new(u64::MAX)).ok()?;
    /// let refused = matches!(byte_at(client, one), Err(Stop::BelowSafePoint));
    /// ```
    pub fn collect(&mut self, keep: Ts) -> Result<Collected, Fault>
        ensures kept { IfOk result (λ collected. collected.safe ≤ keep) }
        ensures far { IfOk result (λ collected. GoesAsFar keep self.old.seats.resolves.events
            self.new.seats.resolves.events collected.oldest collected.safe) }
        ensures done { IfOk result
            (λ done. HasCollected J.bounds self.new.seats.resolves.events done.safe done.dropped) }
        ensures err { IfErr result (IsCollectFault self.new.seats.resolves.events) }
        ensures begins { self.new.seats.begins ≡ self.old.seats.begins }
        ensures resolves { OnlySees self.old.seats.resolves self.new.seats.resolves }
        ensures terms { KeepsTerms self.old self.new }
    {
        let Some(
            Seats {
                begins,
                mut resolves,
            },
        ) = self.seats.take()
        else {
            unreachable!()
        };
        let mut wire = Wire::new(self.rt, self.store);
        let collected = collect_by(self.live, keep, &mut resolves, &mut wire);
        if let Ok(done) = &collected {
            self.tally.collected(done.dropped.records);
        }
        self.seats = Some(Seats { begins, resolves });
        collected
    }
}
