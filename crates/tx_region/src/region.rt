//! A region: a seat and records, which are what the seat's own events left.
ghost use Rattle.std.specs.Prelude.{◌≡◌, ◌≤◌, ◌↔◌, [], length, IsTrue, IfOk, IfErr, IfSome, IfNone, IsSome};
ghost use Rattle.tx_cells.specs.Contents.{nothing_held};
ghost use Rattle.tx_cells.specs.Copies.{Copies};
ghost use Rattle.tx_core.specs.Histories.{left, Begins};
ghost use Rattle.tx_core.specs.Recording.{part};
ghost use Rattle.tx_core.specs.Worlds.{Holds};
ghost use Rattle.tx_journal.specs.Known.{HasSeen};
ghost use Rattle.tx_region.specs.Calls.{TakesNoMemory};
ghost use Rattle.tx_region.specs.TakenRequests.{Loads, Answered};

mod attempts;
mod events;
mod marks;
mod plans;

use crate::copy::Loaded;
use crate::records::Records;
use crate::routes::holds;
use events::note_done;
use marks::load_mark;
use std::alloc::Global;
use std::marker::Model;
use tx_cells::{Families, ShownKey};
use tx_core::{Body, SeatNo};
use tx_journal::{Journal, JournalId, Reply, Request, Seat, Told};
use tx_types::{Fault, Key};

/// A region of the journal `J`. Contracts see its seat: its number, its ticks and the events that
/// it knows.
pub struct Region<J: JournalId, F: Families> {
    /// The keys between the regions, by which it tells what it holds.
    journal: Journal<J>,
    /// Records each answer as an event. Its number is the region's.
    seat: Seat<J>,
    /// What the events of its seat left on its keys, and its numbers.
    records: Records<F>,
}

impl<J: JournalId, F: Families> Model for Region<J, F> {
    ghost use Rattle.tx_journal.specs.Known.{Known};
    ghost use Rattle.tx_region.specs.Regions.{region_of};
    ghost use Rattle.tx_region.specs.TakenRequests.{HoldsWhatIsLeft};

    ghost Value = { Known };

    ghost view = { λ r. r.seat };

    ghost invariant = { λ r. HoldsWhatIsLeft J.bounds r.seat (region_of F.content r.records) r.records.taken
        (F.numbers r.records.families) };
}

impl<J: JournalId, F: Families> Region<J, F> {
    /// A region in which nothing happened, with the next seat of its journal.
    pub fn new(alloc: Global, journal: Journal<J>, seat: Seat<J>, families: F) -> Region<J, F>
        requires seat { (seat.events ≡ []) × (seat.seat ≤ length J.bounds) }
        requires empty { F.content families ≡ (λ k. nothing_held) }
        ensures { result ≡ seat }
    {
        Region {
            journal,
            seat,
            records: Records::new(alloc, families),
        }
    }

    /// Its number.
    pub fn number(&self) -> SeatNo
        ensures { result ≡ self.now.seat }
    {
        self.seat.number()
    }

    /// Whether it holds what a request speaks of: its key, or the whole range of a scan, or the
    /// request names it.
    pub fn holds(&self, body: &Body) -> bool
        ensures { IsTrue result ↔ Holds J.bounds self.now.seat body.now }
    {
        holds(self.journal.bounds(), self.seat.number().get(), body)
    }

    /// What is shown of a key.
    pub fn cells_of(&self, key: &Key) -> Result<ShownKey, Fault>
        ensures copies { IfOk result (λ copy. Copies ((left self.now.events self.now.seat).cells key.now) copy) }
        ensures err { IfErr result (λ e. e ≡ Fault.OutOfMemory) }
    {
        self.records.cells_of(key)
    }

    /// What it knows.
    pub fn tell(&mut self) -> Told<J>
        ensures same { self.new ≡ self.old }
        ensures told { result ≡ self.old.events }
    {
        self.seat.tell()
    }

    /// A copy of what was told.
    pub fn copy(&self, told: &mut Told<J>) -> Told<J>
        ensures same { told.new ≡ told.old }
        ensures copy { result ≡ told.old }
    {
        self.seat.copy(told)
    }

    /// A copy of a request.
    pub fn again(&self, request: &mut Request<J>) -> Result<Request<J>, Fault>
        ensures same { request.new ≡ request.old }
        ensures ok { IfOk result (λ copy. copy ≡ request.old) }
        ensures err { IfErr result (λ e. e ≡ Fault.OutOfMemory) }
    {
        request.clone(&self.seat)
    }

    /// Knows the longer of what it knows and what was told.
    pub fn learn(&mut self, told: Told<J>)
        ensures same { (self.new.seat ≡ self.old.seat) × (self.new.ticks ≡ self.old.ticks) }
        ensures seen { HasSeen J.bounds self.old.seat self.old.events self.new.events }
        ensures told { Begins told self.new.events }
        ensures own { part self.old.seat self.new.events ≡ part self.old.seat self.old.events }
    {
        self.seat.learn(told);
    }

    // Knows what was heard, then the last number that was drawn, and then the greatest timestamp
    // that was read, where the answer to a request looks at that.
    #[inline(always)]
    fn load_after(&mut self, heard: Told<J>, body: &Body) -> Loaded
        ensures same { (self.new.seat ≡ self.old.seat) × (self.new.ticks ≡ self.old.ticks) }
        ensures seen { HasSeen J.bounds self.old.seat self.old.events self.new.events }
        ensures loads { Loads J.bounds self.old.seat self.old.events heard body.now result.last result.mark
            self.new.events }
    {
        self.seat.learn(heard);
        let last = self.seat.last();
        let mark = load_mark(&mut self.seat, body);
        Loaded { last, mark }
    }

    // The same, after what the sender of a reply's request had seen.
    fn load_in(&mut self, place: &mut Reply<J>) -> Loaded
        ensures place { place.new ≡ place.old }
        ensures same { (self.new.seat ≡ self.old.seat) × (self.new.ticks ≡ self.old.ticks) }
        ensures seen { HasSeen J.bounds self.old.seat self.old.events self.new.events }
        ensures loads { Loads J.bounds self.old.seat self.old.events place.new.request.by place.new.request.body
            result.last result.mark self.new.events }
    {
        let heard = place.tell_asked(&self.seat);
        self.load_after(heard, place.body())
    }

    /// Answers the request of a reply, which it holds, and records that it did, by one event: the
    /// reply then has the answer. Where memory is refused it does neither. RaiseSafe takes none.
    pub fn take_in(&mut self, place: &mut Reply<J>)
        requires holds { Holds J.bounds self.old.seat place.old.request.body }
        ensures request { place.new.request ≡ place.old.request }
        ensures same { (self.new.seat ≡ self.old.seat) × (self.new.ticks ≡ self.old.ticks) }
        ensures told { self.new.events ≡ place.new.events }
        ensures answered { IfSome place.new.answer (Answered J.bounds self.old.seat self.old.events place.new) }
        ensures always { TakesNoMemory place.old.request.body → IsSome place.new.answer }
        ensures refused { IfNone place.new.answer (HasSeen J.bounds self.old.seat self.old.events self.new.events) }
    {
        let loaded = self.load_in(place);
        let request = place.request();
        match self
            .records
            .answer(loaded.last, loaded.mark, request.body())
        {
            Err(_) => {
                let told = self.seat.tell();
                place.fill(None, told);
            }
            Ok(done) => {
                let mut answer = None;
                let told = note_done(&mut self.seat, request, loaded.last, done, &mut answer);
                place.fill(answer, told);
            }
        }
    }

    /// The same of a request that stands in no reply yet: answers it, and records that it did, by
    /// one event; where memory is refused it does neither. RaiseSafe takes none.
    pub fn take(&mut self, request: Request<J>) -> Reply<J>
        requires holds { Holds J.bounds self.old.seat request.body }
        ensures request { result.request ≡ request }
        ensures same { (self.new.seat ≡ self.old.seat) × (self.new.ticks ≡ self.old.ticks) }
        ensures told { self.new.events ≡ result.events }
        ensures answered { IfSome result.answer (Answered J.bounds self.old.seat self.old.events result) }
        ensures always { TakesNoMemory request.body → IsSome result.answer }
        ensures refused { IfNone result.answer (HasSeen J.bounds self.old.seat self.old.events self.new.events) }
    {
        let told = self.tell();
        told.show();
        let mut reply = Reply::new(request, None, told);
        self.take_in(&mut reply);
        reply
    }
}

impl<J: JournalId, F: Families + Drop> Drop for Region<J, F> {
    fn drop(self) {
        let Self {
            journal: _,
            seat: _,
            records: _,
        } = self;
    }
}
