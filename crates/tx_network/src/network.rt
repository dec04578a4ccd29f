//! The network of scripts in one thread: a request may be lost, taken twice, or held to be
//! delivered later, and its reply may be lost.
ghost use Rattle.std.specs.Prelude.{◌≡◌, ◌≤◌, ◌⊎◌, ◌+◌, ℕ, [], List, length, Contains, Some, None, IfNone, IfSome, IfOk, IfErr, OnOk, ◌&&◌, not, cond, nat_le, is_some, option_map, string_bytes, bytes_eq};
ghost use Rattle.std.specs.Map.{update};
ghost use Rattle.std.specs.BTreeMap.{get_by_text};
ghost use Rattle.tx_types.specs.declared.limits.TheConstants.{MAX_HELD_REQUESTS};
ghost use Rattle.tx_types.specs.Names.{is_name as name_test};
ghost use Rattle.tx_core.specs.Worlds.{Holds, route};
ghost use Rattle.tx_journal.specs.Known.{Known};
ghost use Rattle.tx_journal.specs.Replies.{Asked, Given};
ghost use Rattle.tx_journal.specs.Senders.{IsHeld};
ghost use Rattle.tx_steps.specs.declared.delivery.Delivery.TheVariants as deliveries;
ghost use Rattle.tx_steps.specs.Steps.{delivered, delivery_named};
ghost use Rattle.tx_network.specs.Networks.{AreNumbered, AllFit, region_for, IsSet, request_at, Hands, IsDone, network_state, may_go, is_crowded};

mod inspection;
mod sender;
mod trace;

use crate::delivery::own_delivery;
use crate::network::trace::note_reply;
use std::alloc::Global;
use std::collections::BTreeMap;
use std::marker::Model;
use tx_cells::Families;
use tx_core::{Answer, Body, Target};
use tx_journal::{Journal, JournalId, Reply, Request, Seat, Told};
use tx_region::{Region, route};
use tx_steps::Delivery;
use tx_trace::Trace;
use tx_types::limits::MAX_HELD_REQUESTS;
use tx_types::{Fault, Key, is_name};

/// The network of a script: all regions, and what becomes of the requests on their way to them.
pub struct Network<J: JournalId, F: Families> {
    /// Where copies of requests, their names and the machine's steps take memory.
    alloc: Global,
    /// The keys between the regions.
    journal: Journal<J>,
    /// In the order of their keys: the n-th holds the n-th range.
    regions: Vec<Region<J, F>>,
    /// The newest history that anyone here has seen: who acts learns it first, and tells it after.
    newest: Told<J>,
    /// By its name each request that is held. One that is delivered stays held.
    held: BTreeMap<String, Request<J>>,
    /// What becomes of the next requests. None where there was no memory for the name of a hold:
    /// then each is refused memory.
    delivery: Option<Delivery<String>>,
    /// The machine's steps of what happened. None where they are not kept, or no more, since memory
    /// for one was refused.
    trace: Option<Trace>,
}

impl<J: JournalId, F: Families> Model for Network<J, F> {
    ghost use Rattle.std.specs.Prelude.{◌≡◌, ◌+◌, length, option_map, string_bytes};
    ghost use Rattle.tx_steps.specs.Steps.{delivery_named};
    ghost use Rattle.tx_network.specs.Networks.{NetworkParts, AreNumbered, AllFit, requests};

    ghost Value = { NetworkParts };

    ghost view = { λ p. record {
      regions = p.regions.items;
      newest = p.newest;
      held = requests p.held.entries;
      delivery = option_map (delivery_named string_bytes) p.delivery;
      trace = p.trace;
    } };

    ghost invariant = { λ p. AreNumbered 0 p.regions.items × (length p.regions.items ≡ length J.bounds + 1)
        × AllFit J.bounds (requests p.held.entries) };
}

impl<J: JournalId, F: Families + Drop> Drop for Network<J, F> {
    fn drop(self) {
        let Self {
            alloc: _,
            journal: _,
            regions: _,
            newest: _,
            held: _,
            delivery: _,
            trace: _,
        } = self;
    }
}

// A request is held under a name; it comes back where memory for that is refused.
fn keep<J: JournalId>(
    held: &mut BTreeMap<String, Request<J>>,
    name: String,
    request: Request<J>,
) -> Result<(), Request<J>>
    ensures sets { OnOk result ((q : List ℕ) → get_by_text held.new q
        ≡ update bytes_eq (get_by_text held.old) (string_bytes name) (Some request) q) }
    ensures many { OnOk result (length held.new.entries
        ≡ length held.old.entries + cond (is_some (get_by_text held.old (string_bytes name))) 0 1) }
    ensures same { IfErr result (λ r. (r ≡ request) × (held.new.entries ≡ held.old.entries)) }
{
    match held.insert(name, request) {
        Ok(_) => Ok(()),
        Err(refused) => Err(refused.value.1),
    }
}

// A copy of the request that is held under a name, where one is. Memory for it may be refused.
fn copy_held<J: JournalId, F: Families>(
    region: &Region<J, F>,
    held: &mut BTreeMap<String, Request<J>>,
    name: &str,
) -> Option<Result<Request<J>, Fault>>
    ensures same { held.new.entries ≡ held.old.entries }
    ensures none { IfNone result (get_by_text held.old name.now ≡ None) }
    ensures some { IfSome result (λ copied. (q : Asked) × (get_by_text held.old name.now ≡ Some q)
        × IfOk copied (λ copy. copy ≡ q)) }
{
    match held.get_mut(name) {
        Some(request) => Some(region.again(request)),
        None => None,
    }
}

fn answer_of<J: JournalId>(reply: Reply<J>) -> Option<Answer>
    ensures { result ≡ reply.answer }
{
    let (_, answer, _) = reply.into_parts();
    answer
}

impl<J: JournalId, F: Families> Network<J, F> {
    // The number of the region of a key.
    fn index(&self, key: &Key) -> usize
        ensures { (result ≡ route J.bounds key.now) × (result ≤ length J.bounds) }
    {
        route(self.journal.bounds(), key)
    }

    // The number of the region that holds what a request speaks of.
    fn index_of(&self, body: &Body) -> usize
        requires { IsHeld J.bounds body.now }
        ensures number { result ≡ region_for J.bounds body.now }
        ensures within { result ≤ length J.bounds }
        ensures holds { Holds J.bounds result body.now }
    {
        match body.target() {
            Target::Key(key) => self.index(key),
            Target::Range(scan) => self.index(&scan.from),
            Target::Region(region) => region.get() as usize,
        }
    }

    /// The region that holds the request of a reply takes it, having learnt what is newest, and
    /// leaves the answer in the reply; what it then knows is the newest. What it answered is noted.
    pub fn take_in(&mut self, place: &mut Reply<J>)
        requires { IsHeld J.bounds place.old.request.body }
        ensures { Hands (region_for J.bounds place.old.request.body) self.old self.new place.old.request place.new }
    {
        let index = self.index_of(place.body());
        let region = &mut self.regions[index];
        let told = region.copy(&mut self.newest);
        region.learn(told);
        region.take_in(place);
        self.newest = region.tell();
        note_reply(&mut self.trace, &*place);
    }

    /// The same of a request that stands in no reply yet.
    pub fn take(&mut self, request: Request<J>) -> Reply<J>
        requires { IsHeld J.bounds request.body }
        ensures { Hands (region_for J.bounds request.body) self.old self.new request result }
    {
        let told = self.newest();
        told.show();
        let mut reply = Reply::new(request, None, told);
        self.take_in(&mut reply);
        reply
    }

    // A copy of the request that is held under a name, where one is. Memory for it may be refused.
    fn copy_of(&mut self, name: &str) -> Option<Result<Request<J>, Fault>>
        ensures same { self.new ≡ self.old }
        ensures none { IfNone result (request_at self.old.held name.now ≡ None) }
        ensures some { IfSome result (λ copied. (q : Asked) × (request_at self.old.held name.now ≡ Some q)
            × IsHeld J.bounds q.body × IfOk copied (λ copy. copy ≡ q)) }
    {
        copy_held(&self.regions[0], &mut self.held, name)
    }

    /// A copy of the request that is held under a name is taken by its region, and the request
    /// stays held. None where none is held; no answer where memory was refused.
    pub fn deliver(&mut self, name: &str) -> Option<Option<Answer>>
        ensures none { IfNone result ((request_at self.old.held name.now ≡ None) × (self.new ≡ self.old)) }
        ensures some { IfSome result (λ answer. (q : Asked) × (request_at self.old.held name.now ≡ Some q)
            × (((answer ≡ None) × (self.new ≡ self.old))
            ⊎ ((g : Given) × Hands (region_for J.bounds q.body) self.old self.new q g × (answer ≡ g.answer)))) }
    {
        match self.copy_of(name) {
            None => None,
            Some(Err(_)) => Some(None),
            Some(Ok(copy)) => Some(answer_of(self.take(copy))),
        }
    }

    // Whether a name is of 1 to 64 bytes, and nothing is held under it.
    fn is_free(&self, name: &str) -> bool
        ensures { result ≡ (name_test name.now && not (is_some ((network_state self.now).held name.now))) }
    {
        is_name(name) && !self.held.contains_key(name)
    }

    /// Whether requests may go so: a name to hold under is of 1 to 64 bytes, and not in use.
    pub fn may_go(&self, delivery: Delivery<&str>) -> bool
        ensures { result ≡ may_go (network_state self.now) (delivered delivery.entry) }
    {
        match delivery {
            Delivery::Held(name) => self.is_free(name),
            _ => true,
        }
    }

    // Whether as many requests are held as may be.
    fn is_full(&self) -> bool
        ensures { result ≡ nat_le MAX_HELD_REQUESTS (network_state self.now).kept }
    {
        self.held.len() >= MAX_HELD_REQUESTS
    }

    /// Whether a request that is to be held would be one too many.
    pub fn is_crowded(&self, delivery: Delivery<&str>) -> bool
        ensures { result ≡ is_crowded (network_state self.now) (delivered delivery.entry) }
    {
        match delivery {
            Delivery::Held(_) => self.is_full(),
            _ => false,
        }
    }

    /// How many regions there are.
    pub fn count(&self) -> usize
        ensures { result ≡ length J.bounds + 1 }
    {
        self.regions.len()
    }

    /// What becomes of the next requests. Where there is no memory for the name of a hold, each
    /// is refused memory.
    pub fn set_delivery(&mut self, delivery: Delivery<&str>)
        ensures { IsSet (delivered delivery.entry) self.old self.new }
    {
        self.delivery = own_delivery(self.alloc, delivery);
    }

    /// What is newest.
    pub fn newest(&mut self) -> Told<J>
        ensures same { self.new ≡ self.old }
        ensures told { result ≡ self.old.newest }
    {
        self.regions[0].copy(&mut self.newest)
    }

    /// This is newest.
    pub fn set_newest(&mut self, newest: Told<J>)
        ensures { self.new ≡ record self.old { newest = newest } }
    {
        self.newest = newest;
    }

    /// The network of these regions: what is sent is taken, and its reply comes.
    pub fn new(
        alloc: Global,
        journal: Journal<J>,
        regions: Vec<Region<J, F>>,
        newest: Told<J>,
    ) -> Network<J, F>
        requires { AreNumbered 0 regions.items × (length regions.items ≡ length J.bounds + 1) }
        ensures { result ≡ record {
          regions = regions.items;
          newest = newest;
          held = [];
          delivery = Some deliveries.Taken;
          trace = None;
        } }
    {
        Network {
            alloc,
            journal,
            regions,
            newest,
            held: BTreeMap::new(alloc),
            delivery: Some(Delivery::Taken),
            trace: None,
        }
    }

    /// For proofs: its regions are all there are, in their order.
    pub fn show(&self)
        ensures { AreNumbered 0 self.now.regions × (length self.now.regions ≡ length J.bounds + 1) }
    {
        self.journal.bounds();
    }
}

impl<J: JournalId, F: Families + Drop> Network<J, F> {
    /// Each region learns what is newest: no event of a region stands there that the
    /// region has not made.
    pub fn settle(self, newest: &mut Told<J>, by: &Seat<J>)
        ensures same { newest.new ≡ newest.old }
        ensures settled { (k : Known) → Contains self.regions k → IsDone newest.old k }
    {
        let Self {
            alloc: _,
            journal: _,
            mut regions,
            newest: _,
            held: _,
            delivery: _,
            trace: _,
        } = self;
        'regions: while let Some(mut region) = regions.pop() {
            region.learn(by.copy(newest));
        }
    }
}
