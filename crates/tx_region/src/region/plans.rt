//! The same with copies and plans that are values of their own, over the calls by a try.
ghost use Rattle.std.specs.Prelude.{◌≡◌, IfOk, IfErr};
ghost use Rattle.tx_core.specs.Worlds.{Holds};
ghost use Rattle.tx_journal.specs.Known.{HasSeen};
ghost use Rattle.tx_region.specs.Copies.{IsOfKey};
ghost use Rattle.tx_region.specs.KeyPlans.{IsCopyFor, IsPlanFor, ComesOf};

use super::Region;
use crate::applied::Applied;
use crate::attempt::Attempt;
use crate::key_copy::{KeyCopy, Planned};
use tx_cells::Families;
use tx_journal::{JournalId, Reply, Request};
use tx_types::Fault;

impl<J: JournalId, F: Families> Region<J, F> {
    /// Copies what a request of one key sees of it, and records nothing.
    pub fn copy_key(&mut self, request: &mut Request<J>) -> Result<KeyCopy<J>, Fault>
        requires { IsOfKey request.old.body }
        ensures request { request.new ≡ request.old }
        ensures same { (self.new.seat ≡ self.old.seat) × (self.new.ticks ≡ self.old.ticks) }
        ensures seen { HasSeen J.bounds self.old.seat self.old.events self.new.events }
        ensures copy { IfOk result (λ copy. IsCopyFor request.old copy × (copy.region ≡ self.new.seat)
            × (copy.events ≡ self.new.events)) }
        ensures err { IfErr result (λ e. e ≡ Fault.OutOfMemory) }
    {
        let mut attempt = Attempt::new(self.seat.number());
        let heard = request.tell(&self.seat);
        self.copy_after(heard, request.body(), &mut attempt)?;
        Ok(KeyCopy { attempt })
    }

    /// Answers a request with what was planned for it, and records that it did, where its key is as
    /// it was copied and no read has passed the minimum that the plan promises. Else it records
    /// nothing, and gives the request back. Whether the plan is still right is seen first, without
    /// memory: only where it is may memory be refused.
    pub fn apply(&mut self, request: Request<J>, plan: Planned<J>) -> Applied<J>
        requires holds { Holds J.bounds self.old.seat request.body }
        requires of { IsPlanFor request plan × (plan.region ≡ self.old.seat) }
        ensures same { (self.new.seat ≡ self.old.seat) × (self.new.ticks ≡ self.old.ticks) }
        ensures comes { ComesOf J.bounds self.old.seat self.old.events self.new.events request plan result }
    {
        let Planned { attempt } = plan;
        let mut attempt = attempt;
        match self.apply_attempt(&request, &mut attempt) {
            None => Applied::Stale(request),
            Some(told) => Applied::Done(Reply::new(request, attempt.take_answer(), told)),
        }
    }
}
