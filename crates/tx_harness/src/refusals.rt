//! A way to the regions of a store which may be refused memory.
ghost use Rattle.std.specs.Prelude.{◌≡◌, IfOk};

use std::sync::Wait;
use tx_cells::Families;
use tx_journal::{JournalId, Lost, Reply, Request, Seat, Sender};
use tx_resolve::{Counts, gc};
use tx_store::Wire;
use tx_types::{Fault, Key, Ts};

/// A way to the regions of a store, which loses nothing. A region may be refused memory for an
/// answer.
pub struct Refusing<'a, J: JournalId, F: Families + Drop, R: Wait> {
    wire: Wire<'a, J, F, R>,
    /// By which a region is refused memory.
    seat: Seat<J>,
    /// Of the next requests the one that is refused memory, counted from 1; 0 is none.
    refused: u32,
}

impl<'a, J: JournalId, F: Families + Drop, R: Wait> Drop for Refusing<'a, J, F, R> {
    fn drop(self) {
        let Self {
            wire: _,
            seat: _,
            refused: _,
        } = self;
    }
}

impl<'a, J: JournalId, F: Families + Drop, R: Wait> Refusing<'a, J, F, R> {
    /// No region is refused memory.
    pub fn new(wire: Wire<'a, J, F, R>, seat: Seat<J>) -> Refusing<'a, J, F, R> {
        Refusing {
            wire,
            seat,
            refused: 0,
        }
    }

    /// A region is refused memory for its answer.
    pub fn refuse(&mut self, request: Request<J>) -> Reply<J>
        ensures { result.request ≡ request }
    {
        let told = self.seat.tell();
        Reply::new(request, None, told)
    }

    /// A copy of a request.
    pub fn copy(&self, request: &mut Request<J>) -> Result<Request<J>, Fault>
        ensures same { request.new ≡ request.old }
        ensures copy { IfOk result (λ copy. copy ≡ request.old) }
    {
        request.clone(&self.seat)
    }

    /// A collector collects at this safe point. Of its requests this one is refused memory, counted
    /// from 1; 0 is none.
    pub fn collect(
        &mut self,
        collector: &mut Seat<J>,
        safe: Ts,
        refused: u32,
    ) -> Result<Counts, Fault> {
        self.refused = refused;
        gc(collector, safe, self)
    }
}

// Counts down: whether it comes to 0 now.
fn comes_to_zero(count: &mut u32) -> bool {
    if *count == 0 {
        return false;
    }
    *count -= 1;
    *count == 0
}

impl<'a, J: JournalId, F: Families + Drop, R: Wait> Sender<Request<J>, Reply<J>>
    for Refusing<'a, J, F, R> {
    ghost use Rattle.std.specs.Prelude.{◌≡◌, IfOk, IfErr};
    ghost use Rattle.tx_journal.specs.Senders.{IsHeld};

    ghost fits = { λ r q. IsHeld J.bounds q.body };

    ghost sends = { λ r q came t. IfOk came (λ g. g.request ≡ q) × IfErr came (λ e. ⊥) };

    ghost keys_between = { λ r. J.bounds };

    fn send(&mut self, request: Request<J>) -> Result<Reply<J>, Lost> {
        if comes_to_zero(&mut self.refused) {
            return Ok(self.refuse(request));
        }
        self.wire.send(request)
    }

    fn bounds(&self) -> &[Key] {
        self.wire.bounds()
    }
}
