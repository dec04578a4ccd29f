//! A sender to one region, which may plan a request of a copy while others are taken.
ghost use Rattle.std.specs.Prelude.{◌≡◌, ◌≤◌, [], IfSome, length};
ghost use Rattle.tx_cells.specs.Contents.{nothing_held};
ghost use Rattle.tx_journal.specs.Senders.{IsSender};

use crate::table_tests::short::{NOTHING, Short, answered};
use std::alloc::Global;
use std::mem::replace;
use tx_cells::Families;
use tx_core::{Body, Collect, RaiseSafe, RegionNo};
use tx_journal::{Journal, JournalId, Lost, Reply, Request, Seat, Sender};
use tx_region::{Applied, Region, is_of_key};
use tx_types::{Fault, Key, Ts};

/// What becomes of a request.
#[derive(Clone, Copy)]
pub enum Handling {
    /// It is taken.
    Plain,
    /// It is lost.
    Lost,
    /// It is held, and its sender hears nothing.
    Held,
    /// It is planned of a copy; what is held is taken then, and the plan applied. Where it is stale
    /// it is planned again.
    Planned,
}

/// The region, what becomes of the next requests, those that are held, what the last of them was
/// answered, how many plans were stale, and how often a copy was refused memory.
pub struct Planner<J: JournalId, F: Families + Drop> {
    journal: Journal<J>,
    region: Region<J, F>,
    seat: Seat<J>,
    pub handling: Handling,
    held: Vec<Request<J>>,
    pub between: Short,
    pub stales: u32,
    pub refused: u32,
}

impl<J: JournalId, F: Families + Drop> Drop for Planner<J, F> {
    fn drop(self) {
        let Self {
            journal: _,
            region: _,
            seat: _,
            handling: _,
            held: _,
            between: _,
            stales: _,
            refused: _,
        } = self;
    }
}

impl<J: JournalId, F: Families + Drop> Planner<J, F> {
    /// A region in which nothing happened, and a seat for what no session asks.
    pub fn new(
        alloc: Global,
        journal: Journal<J>,
        of: Seat<J>,
        seat: Seat<J>,
        families: F,
    ) -> Option<Planner<J, F>>
        requires seat { (of.events ≡ []) × (of.seat ≤ length J.bounds) }
        requires empty { F.content families ≡ (λ k. nothing_held) }
    {
        let named = journal.clone().ok()?;
        Some(Planner {
            journal,
            region: Region::new(alloc, named, of, families),
            seat,
            handling: Handling::Plain,
            held: Vec::new(alloc),
            between: NOTHING,
            stales: 0,
            refused: 0,
        })
    }

    /// Shows that an answer is to the request that was sent.
    pub fn show(&self)
        ensures { IsSender J.bounds ⟦<Planner<J, F> as Sender<Request<J>, Reply<J>>>⟧.fits
            ⟦<Planner<J, F> as Sender<Request<J>, Reply<J>>>⟧.sends
            ⟦<Planner<J, F> as Sender<Request<J>, Reply<J>>>⟧.keys_between }
    {
        let _ = self.handling;
    }

    // Takes a request that the region holds.
    fn take(&mut self, request: Request<J>) -> Option<Reply<J>>
        ensures reply { IfSome result (λ g. g.request ≡ request) }
        ensures same { self.new.region.seat ≡ self.old.region.seat }
    {
        if self.region.holds(request.body()) {
            return Some(self.region.take(request));
        }
        drop(request);
        None
    }

    // Takes what is held, in order.
    fn take_held(&mut self)
        ensures { self.new.region.seat ≡ self.old.region.seat }
    {
        let alloc = *self.held.allocator();
        let held = replace(&mut self.held, Vec::new(alloc));
        for request in held {
            if let Some(reply) = self.take(request) {
                let (request, answer, told) = reply.into_parts();
                drop(request);
                drop(told);
                self.between = answered(answer.ok_or(Fault::OutOfMemory));
            }
        }
    }

    // Plans a request of a copy, takes what is held, and applies the plan: three times at most.
    fn plan(&mut self, mut request: Request<J>) -> Option<Reply<J>>
        ensures { IfSome result (λ g. g.request ≡ request) }
    {
        if !is_of_key(request.body()) || !self.region.holds(request.body()) {
            drop(request);
            return None;
        }
        for _try in 0..3 {
            let Ok(copy) = self.region.copy_key(&mut request) else {
                self.refused = self.refused.saturating_add(1);
                break;
            };
            let plan = copy.plan(&request);
            self.take_held();
            match self.region.apply(request, plan) {
                Applied::Done(reply) => return Some(reply),
                Applied::Stale(again) => {
                    self.stales = self.stales.saturating_add(1);
                    request = again;
                }
            }
        }
        drop(request);
        None
    }

    /// Holds that the safe point of the region is raised, or that it collects there.
    pub fn hold(&mut self, collects: bool, safe: u64) -> Option<()> {
        let region = RegionNo::new(0);
        let safe = Ts::new(safe);
        let body = if collects {
            Body::Collect(Collect { region, safe })
        } else {
            Body::RaiseSafe(RaiseSafe { region, safe })
        };
        let request = Request::new(self.seat.tell(), body);
        self.held.push(request).ok()
    }
}

impl<J: JournalId, F: Families + Drop> Sender<Request<J>, Reply<J>> for Planner<J, F> {
    ghost use Rattle.std.specs.Prelude.{◌≡◌, IfOk};

    ghost fits = { λ s q. Unit {0} };

    ghost sends = { λ s q r t. IfOk r (λ g. g.request ≡ q) };

    ghost keys_between = { λ s. J.bounds };

    fn send(&mut self, request: Request<J>) -> Result<Reply<J>, Lost> {
        let reply = match self.handling {
            Handling::Plain => self.take(request),
            Handling::Lost => {
                drop(request);
                None
            }
            Handling::Planned => self.plan(request),
            Handling::Held => {
                let _ = self.held.push(request);
                None
            }
        };
        reply.ok_or(Lost)
    }

    fn bounds(&self) -> &[Key] {
        self.journal.bounds()
    }
}
