//! An engine in one thread: slots with seats and sessions, names that point to slots, a seat for
//! what no session does, and the network.
ghost use Rattle.std.specs.Prelude.{◌≡◌, ◌+◌, length, [], Some, None, option_map};
ghost use Rattle.tx_engine.specs.Slots.{Held, engine_state, AllSeated, Settled, Peeks};
ghost use Rattle.tx_engine.specs.Stages.{stage_at};
ghost use Rattle.tx_trace.specs.Traces.{Noted, Traces};
ghost use Rattle.tx_core.specs.Worlds.{route};
ghost use Rattle.tx_network.specs.Networks.{takings_in};

mod turns;

use crate::resolver::Direct;
use crate::slots::SessionSlot;
use std::alloc::Global;
use std::collections::BTreeMap;
use std::marker::Model;
use tx_cells::{Families, ShownKey};
use tx_client::Session;
use tx_core::Body;
use tx_journal::{JournalId, Seat, Told};
use tx_network::Network;
use tx_ops::SessionStage;
use tx_trace::{Taking, Trace};
use tx_types::{Fault, Key};

/// The engine of scripts in one thread: each step is its turn by `Semantics.antt`.
pub struct Engine<J: JournalId, F: Families> {
    /// Where its names and keys take memory.
    alloc: Global,
    /// The network, and requests by it of which none is lost; sessions send by the `Network` in it.
    direct: Direct<J, F>,
    /// The seat for what no session does: reads at a timestamp, ticks, resolving and collecting.
    system_seat: Seat<J>,
    /// The slot of each live session, by its name.
    names: BTreeMap<String, usize>,
    /// As many as sessions may live at once: each has a free seat or a live session.
    slots: Vec<SessionSlot<Seat<J>, Session<J>>>,
}

impl<J: JournalId, F: Families> Model for Engine<J, F> {
    ghost use Rattle.tx_engine.specs.Slots.{Held, texts};

    ghost Value = { Held };

    ghost view = { λ e. record {
      network = e.direct.network;
      system_seat = e.system_seat;
      names = texts e.names.entries;
      slots = e.slots.items;
    } };
}

impl<J: JournalId, F: Families + Drop> Drop for Engine<J, F> {
    fn drop(self) {
        let Self {
            alloc: _,
            direct: _,
            system_seat: _,
            names: _,
            slots: _,
        } = self;
    }
}

impl<J: JournalId, F: Families> Engine<J, F> {
    /// An engine over these slots, in which nothing has a name.
    pub(crate) fn new(
        alloc: Global,
        network: Network<J, F>,
        system_seat: Seat<J>,
        slots: Vec<SessionSlot<Seat<J>, Session<J>>>,
    ) -> Engine<J, F>
        ensures network { result.network ≡ network }
        ensures system_seat { result.system_seat ≡ system_seat }
        ensures names { result.names ≡ [] }
        ensures slots { result.slots ≡ slots.items }
    {
        Engine {
            alloc,
            direct: Direct { network },
            system_seat,
            names: BTreeMap::new(alloc),
            slots,
        }
    }

    /// How many regions there are.
    pub fn regions(&self) -> usize
        ensures { result ≡ length J.bounds + 1 }
    {
        self.direct.network.count()
    }

    /// How far the live session of a name is.
    pub fn stage(&self, name: &str) -> Option<SessionStage>
        requires ready { AllSeated J.bounds 0 self.now }
        ensures { result ≡ stage_at (engine_state self.now) name.now }
    {
        let &k = self.names.get(name)?;
        match self.slots.get(k)? {
            SessionSlot::Live(session) => Some(SessionStage::of(session.transaction())),
            SessionSlot::Free(_) => None,
            SessionSlot::Lent => None,
        }
    }

    /// Keeps the steps of the machine from now on: nothing has happened yet.
    pub fn keep_trace(&mut self)
        ensures { (t : Noted) × Traces [] t × (self.new
            ≡ record self.old { network = record self.old.network { trace = Some t } }) }
    {
        self.direct.network.keep_trace(self.alloc);
    }

    /// Keeps, from now on, what regions take as well: nothing has happened yet.
    pub fn keep_takings(&mut self)
        ensures { (t : Noted) × Traces [] t × (self.new
            ≡ record self.old { network = record self.old.network { trace = Some t } }) }
    {
        self.direct.network.keep_takings(self.alloc);
    }

    /// What regions took so far, oldest first: none where that is not kept, or no more.
    pub fn takings(&self) -> Option<&[Taking]>
        ensures { option_map (λ ts. ts.now) result ≡ takings_in self.now.network.trace }
    {
        self.direct.network.takings()
    }

    /// What the request asks that is held under a name, where one is.
    pub fn held_body(&self, name: &str) -> Option<&Body>
        ensures { option_map (λ body. body.now) result ≡ (engine_state self.now).network.held name.now }
    {
        self.direct.network.held_body(name)
    }

    /// What the region of a key keeps of it. No event is made. Memory for that may be refused.
    pub fn show_key(&mut self, key: &Key) -> Result<ShownKey, Fault>
        ensures { Peeks (route J.bounds key.now) self.old self.new key.now result }
    {
        self.direct.network.show_key(key)
    }

    /// How many steps of the machine are kept so far: none where memory for one was refused.
    pub fn count_steps(&self) -> Option<usize>
        ensures { result ≡ option_map (λ (t : Noted). length t.steps) self.now.network.trace }
    {
        self.direct.network.count_steps()
    }

    /// The steps of the machine that were kept: none where memory for one was refused.
    pub fn take_trace(&mut self) -> Option<Trace>
        ensures value { result ≡ self.old.network.trace }
        ensures after { self.new ≡ record self.old { network = record self.old.network { trace = None } } }
    {
        self.direct.network.take_trace()
    }
}

impl<J: JournalId, F: Families + Drop> Engine<J, F> {
    /// Each seat learns what is newest: no event of a seat stands there that the seat has not made.
    pub fn settle(self) -> Told<J>
        ensures told { result ≡ self.network.newest }
        ensures settled { Settled J.bounds self }
    {
        let Self {
            alloc: _,
            direct,
            mut system_seat,
            names: _,
            mut slots,
        } = self;
        let mut network = direct.into_network();
        let mut newest = network.newest();
        network.show();
        network.settle(&mut newest, &system_seat);
        let told = system_seat.copy(&mut newest);
        system_seat.learn(told);
        'slots: while let Some(slot) = slots.pop() {
            match slot {
                SessionSlot::Free(mut seat) => seat.learn(system_seat.copy(&mut newest)),
                SessionSlot::Live(mut session) => {
                    session.learn_told(system_seat.copy(&mut newest));
                    drop(session);
                }
                SessionSlot::Lent => {}
            }
        }
        newest
    }
}
