//! A way to the regions of a store that loses, delays and repeats requests.
ghost use Rattle.std.specs.Prelude.{◌≡◌, IfSome};
ghost use Rattle.tx_journal.specs.Senders.{IsHeld, IsSender};

use crate::refusals::Refusing;
use std::marker::Model;
use std::mem::replace;
use std::sync::Wait;
use tx_cells::Families;
use tx_journal::{JournalId, Lost, Reply, Request, Seat, Sender};
use tx_resolve::Counts;
use tx_store::Wire;
use tx_types::{Fault, Key, Ts};

/// What becomes of a request.
#[derive(Clone, Copy, PartialEq, Eq)]
pub enum Delivery {
    /// It is taken, and its reply comes.
    Plain,
    /// It is lost.
    Lose,
    /// It is taken, and its reply is lost.
    LoseReply,
    /// It is taken twice, and the second reply comes.
    Repeat,
    /// Its sender hears nothing; it is taken right after the next one that is taken.
    Late,
    /// Its region is refused memory.
    Refuse,
}

/// A way to the regions of a store by which one request fares so, after so many that are delivered
/// plainly.
pub struct Faulty<'a, J: JournalId, F: Families + Drop, R: Wait> {
    wire: Refusing<'a, J, F, R>,
    late: Option<Request<J>>,
    skipped: u32,
    delivery: Delivery,
    /// How many requests came since the delivery was last set, and whether the last of them was
    /// answered.
    asked: u32,
    answered: bool,
}

impl<'a, J: JournalId, F: Families + Drop, R: Wait> Model for Faulty<'a, J, F, R> {
    ghost use Rattle.std.specs.Prelude.{IfSome, ℕ};
    ghost use Rattle.tx_journal.specs.Senders.{IsHeld};

    ghost Value = { ℕ };

    ghost view = { λ s. s.asked };

    ghost invariant = { λ s. IfSome s.late (λ q. IsHeld J.bounds q.body) };
}

impl<'a, J: JournalId, F: Families + Drop, R: Wait> Drop for Faulty<'a, J, F, R> {
    fn drop(self) {
        let Self {
            wire: _,
            late: _,
            skipped: _,
            delivery: _,
            asked: _,
            answered: _,
        } = self;
    }
}

impl<'a, J: JournalId, F: Families + Drop, R: Wait> Faulty<'a, J, F, R> {
    /// Each request is delivered plainly. By the seat a region is refused memory.
    pub fn new(wire: Wire<'a, J, F, R>, seat: Seat<J>) -> Faulty<'a, J, F, R> {
        Faulty {
            wire: Refusing::new(wire, seat),
            late: None,
            skipped: 0,
            delivery: Delivery::Plain,
            asked: 0,
            answered: false,
        }
    }

    /// For proofs: it takes what some region holds, and a reply is to the request that was sent. It
    /// does nothing when it runs.
    pub fn show(&self)
        ensures { IsSender J.bounds
            ⟦<Faulty<'a, J, F, R> as Sender<Request<J>, Reply<J>>>⟧.fits
            ⟦<Faulty<'a, J, F, R> as Sender<Request<J>, Reply<J>>>⟧.sends
            ⟦<Faulty<'a, J, F, R> as Sender<Request<J>, Reply<J>>>⟧.keys_between }
    {
        let _ = self.skipped;
    }

    /// Sets how the next request is delivered that is not skipped.
    pub fn set_delivery(&mut self, delivery: Delivery) {
        self.delivery = delivery;
        self.asked = 0;
        self.answered = false;
    }

    /// So many of the next requests are delivered plainly.
    pub fn skip(&mut self, count: u32) {
        self.skipped = count;
    }

    /// Whether so many requests came since the delivery was last set, and the last of them was
    /// answered.
    pub fn is_answered(&self, count: u32) -> bool {
        self.answered && self.asked >= count
    }

    /// A collector collects at this safe point. Nothing that it sends is lost, but a region may
    /// be refused memory.
    pub fn collect(&mut self, collector: &mut Seat<J>, safe: Ts) -> Result<Counts, Fault> {
        let skipped = replace(&mut self.skipped, 0);
        let refused = match self.delivery {
            Delivery::Refuse => skipped.saturating_add(1),
            _ => 0,
        };
        self.wire.collect(collector, safe, refused)
    }

    // How the next request is delivered.
    fn next_delivery(&mut self) -> Delivery {
        if self.skipped > 0 {
            self.skipped -= 1;
            return Delivery::Plain;
        }
        replace(&mut self.delivery, Delivery::Plain)
    }

    // A request is taken, and then the one that is late.
    fn take(&mut self, request: Request<J>) -> Option<Reply<J>>
        requires { IsHeld J.bounds request.body }
        ensures { IfSome result (λ g. g.request ≡ request) }
    {
        let reply = self.wire.send(request).ok();
        if let Some(late) = self.late.take() {
            drop(self.wire.send(late));
        }
        reply
    }

    // A request is taken twice, where there is memory for a copy of it.
    fn take_twice(&mut self, mut request: Request<J>) -> Option<Reply<J>>
        requires { IsHeld J.bounds request.body }
        ensures { IfSome result (λ g. g.request ≡ request) }
    {
        if let Ok(copy) = self.wire.copy(&mut request) {
            drop(self.take(copy));
        }
        self.take(request)
    }

    // What comes of a request that is delivered so.
    fn deliver(&mut self, delivery: Delivery, request: Request<J>) -> Option<Reply<J>>
        requires { IsHeld J.bounds request.body }
        ensures { IfSome result (λ g. g.request ≡ request) }
    {
        match delivery {
            Delivery::Plain => self.take(request),
            Delivery::Lose => {
                drop(request);
                None
            }
            Delivery::LoseReply => {
                drop(self.take(request));
                None
            }
            Delivery::Repeat => self.take_twice(request),
            Delivery::Late => {
                drop(replace(&mut self.late, Some(request)));
                None
            }
            Delivery::Refuse => Some(self.wire.refuse(request)),
        }
    }
}

// Whether a reply came, with an answer.
fn is_answer<J: JournalId>(reply: &Option<Reply<J>>) -> bool {
    match reply {
        Some(reply) => reply.answer().is_some(),
        None => false,
    }
}

impl<'a, J: JournalId, F: Families + Drop, R: Wait> Sender<Request<J>, Reply<J>>
    for Faulty<'a, J, F, R> {
    ghost use Rattle.std.specs.Prelude.{◌≡◌, IfOk};
    ghost use Rattle.tx_journal.specs.Senders.{IsHeld};

    ghost fits = { λ s q. IsHeld J.bounds q.body };

    ghost sends = { λ s q came t. IfOk came (λ g. g.request ≡ q) };

    ghost keys_between = { λ s. J.bounds };

    fn send(&mut self, request: Request<J>) -> Result<Reply<J>, Lost> {
        let delivery = self.next_delivery();
        let reply = self.deliver(delivery, request);
        self.asked = self.asked.saturating_add(1);
        self.answered = is_answer(&reply);
        reply.ok_or(Lost)
    }

    fn bounds(&self) -> &[Key] {
        self.wire.bounds()
    }
}
