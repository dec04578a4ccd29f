//! LocksBelow: the locks of the region that started below a timestamp.
ghost use Rattle.std.specs.Prelude.{◌≡◌, ℕ, IfOk, IfErr};
ghost use Rattle.tx_plan.specs.declared.body.Body.TheVariants as request;
ghost use Rattle.tx_region.specs.Regions.{region_of};
ghost use Rattle.tx_region.specs.Calls.{Executes, Counts};

use crate::records::{Executed, Records};
use tx_cells::Families;
use tx_plan::{Answer, LocksBelow};
use tx_types::Fault;

impl<F: Families> Records<F> {
    /// Answers a LocksBelow. Nothing changes.
    #[inline(never)]
    pub fn locks_below(&self, body: &LocksBelow) -> Result<Executed, Fault>
        ensures ok { (mark loaded : ℕ) → IfOk result (λ r. Executes mark (region_of F.content self.now) loaded
            (request.LocksBelow body.now) r.answer r.read (region_of F.content self.now)) }
        ensures counts { IfOk result (λ r. Counts (request.LocksBelow body.now) self.now.taken
            (region_of F.content self.now 0).cells (F.numbers self.now.families) self.now.taken
            (region_of F.content self.now 0).cells (F.numbers self.now.families)) }
        ensures err { IfErr result (λ e. e ≡ Fault.OutOfMemory) }
    {
        let infos = self.families.locks_below(self.alloc, body.safe)?;
        Ok(Executed::unread(Answer::Locks(infos)))
    }
}
