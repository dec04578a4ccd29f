//! Regions, each behind a lock of its own.
ghost use Rattle.std.specs.Prelude.{◌≡◌, ◌↔◌, IsTrue, ℕ, ◌+◌, ◌<◌, ◌≤◌, [], All, None, Some, IfErr, IfOk, IfSome, IsSomeAnd, OnOk, length, slice_get, vec_len};
ghost use Rattle.tx_types.specs.declared.key.Key.{Key};
ghost use Rattle.tx_types.specs.declared.fault.Fault.TheVariants.{OutOfMemory};
ghost use Rattle.tx_cells.specs.Contents.{nothing_held};
ghost use Rattle.tx_core.specs.Worlds.{Holds, route};
ghost use Rattle.tx_journal.specs.Known.{Known};
ghost use Rattle.tx_types.specs.Keys.{AreRising};
ghost use Rattle.tx_region.specs.KeyFronts.{AreFronts};
ghost use Rattle.tx_region.specs.Copies.{IsOfKey};
ghost use Rattle.tx_region.specs.KeyPlans.{IsCopyFor, IsPlanFor};
ghost use Rattle.tx_journal.specs.Replies.{IsGiven};
ghost use Rattle.tx_journal.specs.Senders.{IsHeld};
ghost use Rattle.tx_store.specs.Stores.{AreForSessions, IsAnswered};

use crate::seats::split_seats;
use std::alloc::Global;
use std::hint::spin_loop;
use std::sync::{Mutex, MutexGuard, Wait};
use tx_cells::Families;
use tx_core::{Body, RegionNo, SeatNo, Target};
use tx_journal::{Journal, JournalId, Opened, Reply, Request, Seat, Told};
use tx_region::{Attempt, FrontRanges, Region, fronts, is_of_key, route_by};
use tx_types::{Fault, Key};

/// How often a call looks whether the lock of a region is free before it sleeps. A thread that
/// sleeps wakes far later.
const LOOKS: u32 = 16;

/// How many pauses a call makes before its first look, some two microseconds. Each look takes the
/// lock's line of memory away from the call that has the region, which has it for about half a
/// microsecond at a time, and mostly takes it again at once for the same request.
const FIRST_PAUSES: u32 = 32;

/// How many pauses there are at most between two looks. They double from look to look, so that a
/// region which many want is left to one of them for some requests in a row.
const MOST_PAUSES: u32 = 512;

/// How often a request is planned outside the lock of its region.
const TRIES: u32 = 3;

/// A region behind its lock. Two locks lie in different lines of memory, so that threads in two
/// regions do not write the same line.
#[derive(Drop)]
struct LockedRegion<J: JournalId, F: Families> {
    region: Mutex<Region<J, F>>,
    apart: [u64; 16],
}

/// The regions of a journal. What lies under a lock is known by its type alone, and not by its
/// index.
#[derive(Drop)]
pub struct Store<J: JournalId, F: Families> {
    /// The keys between the regions.
    journal: Journal<J>,
    /// The fronts of the keys between the regions, by which the region of a key is mostly found
    /// with no look at these keys.
    fronts: Vec<u64>,
    /// Where the search among them begins.
    ranges: FrontRanges,
    /// The regions in the order of their keys, each under its lock.
    regions: Vec<LockedRegion<J, F>>,
    ghost few: { length J.bounds < 1024 },
    ghost tell: { AreFronts J.bounds fronts.items },
    ghost each: { vec_len regions ≡ length J.bounds + 1 },
}

// Lets some time go by.
fn pause(pauses: u32) {
    for _ in 0..pauses {
        spin_loop();
    }
}

// Whether a region is the one of this index.
fn is_at<J: JournalId, F: Families>(region: &Region<J, F>, index: usize) -> bool
    ensures { IsTrue result ↔ (region.now.seat ≡ index) }
{
    region.number().get() as usize == index
}

impl<J: JournalId, F: Families + Drop> Store<J, F> {
    /// A store over the regions of a journal, of which nothing has happened: with the seat of each,
    /// in their order, and families that hold nothing. `OutOfMemory` drops what was handed in.
    pub fn new(
        alloc: Global,
        journal: &Journal<J>,
        seats: Vec<Seat<J>>,
        mut families: Vec<F>,
    ) -> Result<Store<J, F>, Fault>
        requires count { (vec_len seats ≡ length J.bounds + 1) × (vec_len families ≡ length J.bounds + 1) }
        requires dealt { (k : ℕ) (s : Known) → slice_get seats.items k ≡ Some s → (s.seat ≡ k) × (s.events ≡ []) }
        requires empty { All (λ f. F.content f ≡ (λ k. nothing_held)) families.items }
        ensures err { IfErr result (λ e. e ≡ OutOfMemory) }
    {
        let fronts = fronts(alloc, journal.bounds())?;
        let ranges = FrontRanges::new(fronts.as_slice());
        let mut regions = Vec::with_capacity(alloc, seats.len())?;
        for seat in seats {
            let Some(empty) = families.pop() else {
                unreachable!()
            };
            let region = Region::new(alloc, journal.clone()?, seat, empty);
            regions.push(LockedRegion {
                region: Mutex::new(region),
                apart: [0; 16],
            })?;
        }
        Ok(Store {
            journal: journal.clone()?,
            fronts,
            ranges,
            regions,
        })
    }

    /// A store over the regions of a journal that was just opened, with families that hold nothing,
    /// and the seats for sessions, in their order: each knows of no event, and may draw 2^32 ticks.
    /// `OutOfMemory` drops what was handed in.
    pub fn open(
        alloc: Global,
        opened: Opened,
        families: Vec<F>,
    ) -> Result<(Store<J, F>, Vec<Seat<J>>), Fault>
        requires name { (opened.table ≡ J.table) × (opened.bounds ≡ J.bounds) × (opened.seats ≡ J.seats) }
        requires count { vec_len families ≡ length J.bounds + 1 }
        requires empty { All (λ f. F.content f ≡ (λ k. nothing_held)) families.items }
        ensures count { IfOk result (λ r. length J.bounds + 1 + vec_len r.1 ≡ J.seats) }
        ensures seats { IfOk result (λ r. AreForSessions (length J.bounds + 1) r.1.items) }
        ensures err { IfErr result (λ e. e ≡ OutOfMemory) }
    {
        let (journal, seats) = opened.named::<J>(alloc)?;
        let (seats, sessions) = split_seats(&journal, seats)?;
        let store = Store::new(alloc, &journal, seats, families)?;
        Ok((store, sessions))
    }

    /// The keys between its regions: fewer than 1,024, rising.
    pub fn bounds(&self) -> &[Key]
        ensures value { result.now ≡ J.bounds }
        ensures rising { AreRising J.bounds }
        ensures few { length J.bounds < 1024 }
    {
        self.journal.bounds()
    }

    /// The region of a key.
    pub fn route(&self, key: &Key) -> RegionNo
        ensures { result ≡ route J.bounds key.now }
    {
        RegionNo::new(self.index(key) as u32)
    }

    // The index of the region of a key.
    fn index(&self, key: &Key) -> usize
        ensures { (result ≡ route J.bounds key.now) × (result ≤ length J.bounds) }
    {
        route_by(
            &self.ranges,
            self.fronts.as_slice(),
            self.journal.bounds(),
            key,
        )
    }

    // The index of the region that holds what a request speaks of.
    fn index_of(&self, body: &Body) -> usize
        requires { IsHeld J.bounds body.now }
        ensures { (result ≤ length J.bounds) × Holds J.bounds result body.now }
    {
        match body.target() {
            Target::Key(key) => self.index(key),
            Target::Range(scan) => self.index(&scan.from),
            Target::Region(region) => region.get() as usize,
        }
    }

    // A region, once no other call has it.
    fn locked<R: Wait>(&self, rt: &R, index: usize) -> MutexGuard<'_, Region<J, F>>
        requires { index ≤ length J.bounds }
    {
        match self.regions[index].region.try_lock() {
            Some(region) => region,
            None => self.locked_late(rt, index),
        }
    }

    // A region that another call has.
    #[inline(never)]
    fn locked_late<R: Wait>(&self, rt: &R, index: usize) -> MutexGuard<'_, Region<J, F>>
        requires { index ≤ length J.bounds }
    {
        let region = &self.regions[index].region;
        let mut pauses = FIRST_PAUSES;
        for _ in 0..LOOKS {
            pause(pauses);
            if let Some(region) = region.try_lock() {
                return region;
            }
            if pauses < MOST_PAUSES {
                pauses *= 2;
            }
        }
        region.lock(rt)
    }

    // Copies what the request of a reply, which is of one key, sees of it in the region that holds
    // it, into a try.
    fn copy_at<R: Wait>(
        &self,
        rt: &R,
        index: usize,
        place: &mut Reply<J>,
        attempt: &mut Attempt<J>,
    ) -> Result<(), Fault>
        requires index { index ≤ length J.bounds }
        requires of_key { IsOfKey place.old.request.body }
        ensures same { place.new ≡ place.old }
        ensures copy { OnOk result (IsSomeAnd attempt.new.copy (λ copy. IsCopyFor place.new.request copy
            × (copy.region ≡ index))) }
    {
        for _ in rt.forever() {
            let mut region = self.locked(rt, index);
            if is_at(&*region, index) {
                return region.copy_into(place, attempt);
            }
        }
        unreachable!()
    }

    // Applies the plan of a try in the region that holds the request: what the region then knows,
    // or none where the plan is no longer right.
    fn apply_at<R: Wait>(
        &self,
        rt: &R,
        index: usize,
        request: &Request<J>,
        attempt: &mut Attempt<J>,
    ) -> Option<Told<J>>
        requires index { index ≤ length J.bounds }
        requires holds { Holds J.bounds index request.now.body }
        requires of { IsSomeAnd attempt.old.plan (λ plan. IsPlanFor request.now plan × (plan.region ≡ index)) }
        ensures { IfSome result (λ told. IsGiven J.bounds (record {
          request = request.now;
          answer = attempt.new.answer;
          events = told;
        })) }
    {
        for _ in rt.forever() {
            let mut region = self.locked(rt, index);
            if is_at(&*region, index) {
                return region.apply_attempt(request, attempt);
            }
        }
        unreachable!()
    }

    // Answers the request of a reply in the region that holds it, which plans it while no other
    // call has the region.
    #[inline(never)]
    fn take_at<R: Wait>(&self, rt: &R, index: usize, place: &mut Reply<J>)
        requires index { index ≤ length J.bounds }
        requires holds { Holds J.bounds index place.old.request.body }
        ensures request { place.new.request ≡ place.old.request }
        ensures given { IsGiven J.bounds place.new }
    {
        for _ in rt.forever() {
            let mut region = self.locked(rt, index);
            if is_at(&*region, index) {
                region.take_in(place);
                // For proofs: what a reply tells.
                let _ = place.answer();
                return;
            }
        }
        unreachable!()
    }

    // Answers the request of a reply, which is of one key, in the region that holds it. It is
    // planned of a copy, while other calls may have the region; where the plan is no longer right,
    // three times, the request is planned while no other call has it.
    fn run_at<R: Wait>(&self, rt: &R, index: usize, place: &mut Reply<J>)
        requires index { index ≤ length J.bounds }
        requires holds { Holds J.bounds index place.old.request.body }
        requires of_key { IsOfKey place.old.request.body }
        ensures request { place.new.request ≡ place.old.request }
        ensures given { IsGiven J.bounds place.new }
    {
        let mut attempt = Attempt::new(SeatNo::new(0));
        for _try in 0..TRIES {
            if self.copy_at(rt, index, place, &mut attempt).is_err() {
                break;
            }
            let request = place.request();
            attempt.plan(request);
            if let Some(told) = self.apply_at(rt, index, request, &mut attempt) {
                place.fill(attempt.take_answer(), told);
                return;
            }
        }
        self.take_at(rt, index, place);
    }

    /// Hands the request of a reply that has no answer yet to the region that holds what it speaks
    /// of, once no other call has that region, and leaves the answer in the reply, which tells who
    /// answered, and after what. An answer is that of this request, by an event that comes after
    /// all that the sender had seen: no old one is handed out again.
    pub fn run_in<R: Wait>(&self, rt: &R, place: &mut Reply<J>)
        requires held { IsHeld J.bounds place.old.request.body }
        requires empty { place.old.answer ≡ None }
        ensures request { place.new.request ≡ place.old.request }
        ensures given { IsGiven J.bounds place.new }
        ensures answered { IfSome place.new.answer (IsAnswered J.bounds place.old.request place.new.events) }
    {
        let body = place.body();
        let index = self.index_of(body);
        if is_of_key(body) {
            self.run_at(rt, index, place);
        } else {
            self.take_at(rt, index, place);
        }
    }

    /// The same of a request that stands in no reply yet. The reply is that to this request.
    pub fn run<R: Wait>(&self, rt: &R, request: Request<J>) -> Reply<J>
        requires { IsHeld J.bounds request.body }
        ensures request { result.request ≡ request }
        ensures given { IsGiven J.bounds result }
        ensures answered { IfSome result.answer (IsAnswered J.bounds request result.events) }
    {
        let index = self.index_of(request.body());
        let mut region = self.locked(rt, index);
        let told = region.tell();
        drop(region);
        told.show();
        let mut reply = Reply::new(request, None, told);
        self.run_in(rt, &mut reply);
        reply
    }
}
