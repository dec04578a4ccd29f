//! A way to the regions of a store, for sessions and resolvers.
ghost use Rattle.tx_journal.specs.Senders.{IsSender, LosesNothing};

use crate::store::Store;
use std::sync::Wait;
use tx_cells::Families;
use tx_journal::{JournalId, Lost, Reply, Request, Sender};
use tx_types::Key;

/// A way to the regions of a store. Each request waits until no other call has its region, and is
/// taken there once: none is lost, and none comes late.
#[derive(Drop)]
pub struct Wire<'a, J: JournalId, F: Families + Drop, R: Wait> {
    rt: &'a R,
    store: &'a Store<J, F>,
}

impl<'a, J: JournalId, F: Families + Drop, R: Wait> Wire<'a, J, F, R> {
    /// The way to the regions of this store: it takes what some region holds, a reply is to the
    /// request that was sent, and none is lost.
    pub fn new(rt: &'a R, store: &'a Store<J, F>) -> Wire<'a, J, F, R>
        ensures way { IsSender J.bounds
            ⟦<Wire<'a, J, F, R> as Sender<Request<J>, Reply<J>>>⟧.fits
            ⟦<Wire<'a, J, F, R> as Sender<Request<J>, Reply<J>>>⟧.sends
            ⟦<Wire<'a, J, F, R> as Sender<Request<J>, Reply<J>>>⟧.keys_between }
        ensures loses { LosesNothing ⟦<Wire<'a, J, F, R> as Sender<Request<J>, Reply<J>>>⟧.sends }
    {
        Wire { rt, store }
    }

    /// For proofs: what `new` says, of a wire that another function made. It does nothing when it
    /// runs.
    pub fn show(&self)
        ensures way { IsSender J.bounds
            ⟦<Wire<'a, J, F, R> as Sender<Request<J>, Reply<J>>>⟧.fits
            ⟦<Wire<'a, J, F, R> as Sender<Request<J>, Reply<J>>>⟧.sends
            ⟦<Wire<'a, J, F, R> as Sender<Request<J>, Reply<J>>>⟧.keys_between }
        ensures loses { LosesNothing ⟦<Wire<'a, J, F, R> as Sender<Request<J>, Reply<J>>>⟧.sends }
    {
        let _ = self.rt;
    }
}

impl<'a, J: JournalId, F: Families + Drop, R: Wait> Sender<Request<J>, Reply<J>>
    for Wire<'a, J, F, R> {
    ghost use Rattle.tx_store.specs.Stores.{Replies, TakesHeld};

    ghost fits = { TakesHeld J.bounds };

    ghost sends = { Replies };

    ghost keys_between = { λ a. J.bounds };

    fn send(&mut self, request: Request<J>) -> Result<Reply<J>, Lost> {
        Ok(self.store.run(self.rt, request))
    }

    fn send_in(&mut self, place: &mut Option<Reply<J>>) {
        if let Some(reply) = place {
            self.store.run_in(self.rt, reply);
        }
    }

    fn bounds(&self) -> &[Key] {
        self.store.bounds()
    }
}
