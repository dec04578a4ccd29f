//! The one region of a store that one call at a time has, with no lock.
ghost use Rattle.std.specs.Prelude.{◌≡◌, [], IfErr};
ghost use Rattle.tx_types.specs.declared.fault.Fault.TheVariants.{OutOfMemory};
ghost use Rattle.tx_cells.specs.Contents.{nothing_held};
ghost use Rattle.tx_flat.specs.Flats.{flat_content};
ghost use Rattle.tx_journal.specs.Senders.{IsHeld, IsSender, LosesNothing};

use std::alloc::Global;
use tx_flat::FlatCells;
use tx_journal::{Journal, JournalId, Lost, Reply, Request, Seat, Sender};
use tx_region::Region;
use tx_types::{Fault, Key};

/// The one region of a journal that has no keys between its regions. Each request is taken once, as
/// it is sent: none is lost, and none comes late.
#[derive(Drop)]
pub struct SoleRegion<J: JournalId> {
    journal: Journal<J>,
    region: Region<J, FlatCells>,
    ghost sole: { J.bounds ≡ [] },
    ghost first: { region.seat ≡ 0 },
}

impl<J: JournalId> SoleRegion<J> {
    /// The region of this seat, which is the journal's first, over a family that holds nothing.
    /// `OutOfMemory` drops what was handed in.
    pub fn new(
        alloc: Global,
        journal: Journal<J>,
        seat: Seat<J>,
        family: FlatCells,
    ) -> Result<SoleRegion<J>, Fault>
        requires sole { J.bounds ≡ [] }
        requires seat { (seat.events ≡ []) × (seat.seat ≡ 0) }
        requires empty { flat_content family ≡ (λ k. nothing_held) }
        ensures err { IfErr result (λ e. e ≡ OutOfMemory) }
    {
        let region = Region::new(alloc, journal.clone()?, seat, family);
        Ok(SoleRegion { journal, region })
    }

    // The region takes a request.
    fn take(&mut self, request: Request<J>) -> Reply<J>
        requires { IsHeld J.bounds request.body }
        ensures { result.request ≡ request }
    {
        self.region.take(request)
    }

    /// For proofs: it takes what a region holds, a reply is to the request that was sent, and none
    /// is lost. It does nothing when it runs.
    pub fn show(&self)
        ensures way { IsSender J.bounds
            ⟦<SoleRegion<J> as Sender<Request<J>, Reply<J>>>⟧.fits
            ⟦<SoleRegion<J> as Sender<Request<J>, Reply<J>>>⟧.sends
            ⟦<SoleRegion<J> as Sender<Request<J>, Reply<J>>>⟧.keys_between }
        ensures loses { LosesNothing ⟦<SoleRegion<J> as Sender<Request<J>, Reply<J>>>⟧.sends }
    {
        let _ = &self.journal;
    }
}

impl<J: JournalId> Sender<Request<J>, Reply<J>> for SoleRegion<J> {
    ghost use Rattle.tx_embed.specs.Stores.{Replies, TakesHeld};

    ghost fits = { TakesHeld J.bounds };

    ghost sends = { Replies };

    ghost keys_between = { λ a. J.bounds };

    fn send(&mut self, request: Request<J>) -> Result<Reply<J>, Lost> {
        Ok(self.take(request))
    }

    fn bounds(&self) -> &[Key] {
        self.journal.bounds()
    }
}
