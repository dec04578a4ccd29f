//! A client of a store.
ghost use Rattle.std.specs.Prelude.{◌≡◌, ◌<◌, ◌≤◌};
ghost use Rattle.tx_kv.specs.Clients.{Updates};

use crate::live::Live;
use crate::maps::StoreCells;
use crate::shared::Shared;
use crate::stats::Tally;
use crate::updated::{NotUpdated, Updated, told_of};
use std::alloc::Global;
use std::marker::Model;
use std::sync::Wait;
use tx_client::Terms;
use tx_journal::JournalId;
use tx_store::{Store, Wire};
use tx_types::{Mode, Ts};
use tx_update::{Seats, Work, update_watched};

/// How long the locks of a client live, in ticks, where it does not say.
const TTL: u32 = 1_000;

/// How often a client tries a transaction again, where it does not say.
const AGAIN: u32 = 1_000_000;

/// Who runs transactions over a store, one after another. Contracts see what its seats know, under
/// which terms it writes, and how often it tries again.
#[derive(Drop)]
pub struct Client<'a, J: JournalId, R: Wait> {
    pub(crate) rt: &'a R,
    pub(crate) alloc: Global,
    pub(crate) store: &'a Store<J, StoreCells>,
    pub(crate) live: &'a Live,
    pub(crate) tally: &'a Tally,
    pub(crate) number: usize,
    /// How many there are beside the one that begins and ends.
    clients: usize,
    /// They are there between two calls.
    pub(crate) seats: Option<Seats<J>>,
    terms: Terms,
    again: u32,
    /// After so many updates the next one collects first; never where it is 0.
    pub(crate) every: u32,
    /// How many updates there were since.
    pub(crate) since: u32,
}

impl<'a, J: JournalId, R: Wait> Model for Client<'a, J, R> {
    ghost use Rattle.std.specs.Prelude.{is_some, true, ◌≡◌, ◌<◌, ◌≤◌};
    ghost use Rattle.tx_kv.specs.Clients.{ClientState, seats_of};

    ghost Value = { ClientState J };

    ghost view = { λ c. record {
      seats = seats_of c.seats;
      terms = c.terms;
      again = c.again;
      place = record { number = c.number; clients = c.clients };
    } };

    ghost invariant = { λ c. (is_some c.seats ≡ true) × (c.number ≤ c.clients) × (c.clients < 1024) };
}

impl<'a, J: JournalId, R: Wait> Client<'a, J, R> {
    /// A client over these seats: it commits asynchronously, and tries again a million times.
    pub(crate) fn new(
        rt: &'a R,
        alloc: Global,
        store: &'a Store<J, StoreCells>,
        shared: Shared<'a>,
        number: usize,
        seats: Seats<J>,
    ) -> Client<'a, J, R>
        requires number { (number ≤ shared.clients) × (shared.clients < 1024) }
        ensures seats { result.seats ≡ seats }
        ensures place { (result.place.number ≡ number) × (result.place.clients ≡ shared.entry.clients) }
    {
        let Shared {
            live,
            tally,
            clients,
        } = shared;
        Client {
            rt,
            alloc,
            store,
            live,
            tally,
            number,
            clients,
            seats: Some(seats),
            terms: Terms {
                mode: Mode::Async,
                ttl: TTL,
                max_commit: None,
            },
            again: AGAIN,
            every: 0,
            since: 0,
        }
    }

    /// Which of the clients it is. Those that run have the numbers from 0 on, in order, and the one
    /// that begins and ends has the next, which is how many run: `clients`. That is below 1,024.
    pub fn number(&self) -> usize
        ensures is { result ≡ self.now.place.number }
        ensures upto { result ≤ self.now.place.clients }
        ensures few { result < 1024 }
    {
        self.number
    }

    /// How many clients run, each on a thread of its own: below 1,024.
    pub fn clients(&self) -> usize
        ensures is { result ≡ self.now.place.clients }
        ensures few { result < 1024 }
    {
        self.clients
    }

    /// Where it takes memory.
    pub fn alloc(&self) -> Global {
        self.alloc
    }

    /// What the program runs by: for a clock, or to print, where the program asks that of it.
    pub fn rt(&self) -> &'a R {
        self.rt
    }

    /// It reads at this timestamp or above until it leaves.
    pub(crate) fn enter(&self, at: Ts) {
        self.live.enter(self.number, at);
    }

    /// It reads nowhere.
    pub(crate) fn leave(&self) {
        self.live.leave(self.number);
    }

    /// It is to write under these terms, and to try a transaction again so often.
    ///
    /// ```
    /// let terms = Terms {
    ///     mode: Mode::TwoPhase,
    ///     ttl: 1_000,
    ///     max_commit: None,
    /// };
    /// client.set_terms(terms, 0);
    /// ```
    pub fn set_terms(&mut self, terms: Terms, again: u32)
        ensures terms { (self.new.terms ≡ terms) × (self.new.again ≡ again) }
        ensures same { (self.new.seats ≡ self.old.seats) × (self.new.place ≡ self.old.place) }
    {
        self.terms = terms;
        self.again = again;
    }

    /// Does a work in a transaction, and commits that. A lock in the way is resolved. After a
    /// conflict the work is done anew, in a transaction that begins later; in at most one of its
    /// tries it has an effect.
    ///
    /// ```
    /// let updated = client.update(&mut Put(byte)).ok()?;
    /// updated.commit.map(|_| updated.value)
    /// ```
    pub fn update<W: Work>(&mut self, work: &mut W) -> Result<Updated<W::Out>, NotUpdated<W::Err>>
        ensures { Updates W.does W.stops_at J.bounds self.old work.old result self.new work.new }
    {
        self.collect_if_due();
        let told = self.update_now(work);
        self.count(&told);
        told
    }

    // Counts an update.
    fn count<O, E>(&self, told: &Result<Updated<O>, NotUpdated<E>>) {
        match told {
            Ok(updated) => self.tally.updated(updated.commit.is_some()),
            // No transaction began.
            Err(NotUpdated::Spent) => (),
            Err(_) => self.tally.refused(),
        }
    }

    // Does a work in a transaction, and commits that.
    fn update_now<W: Work>(&mut self, work: &mut W) -> Result<Updated<W::Out>, NotUpdated<W::Err>>
        ensures { Updates W.does W.stops_at J.bounds self.old work.old result self.new work.new }
    {
        let Some(mut seats) = self.seats.take() else {
            unreachable!()
        };
        self.live.enter(self.number, seats.resolves.last());
        let mut wire = Wire::new(self.rt, self.store);
        let came = update_watched(
            self.alloc, seats, self.terms, self.again, work, self.tally, &mut wire,
        );
        let (told, seats) = told_of(came);
        self.seats = Some(seats);
        self.leave();
        told
    }
}
