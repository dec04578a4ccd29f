//! RaiseSafe: the region's safe point rises.
ghost use Rattle.std.specs.Prelude.{◌≡◌, ℕ, None};
ghost use Rattle.tx_plan.specs.declared.body.Body.TheVariants as request;
ghost use Rattle.tx_journal.specs.Replies.{lock_in};
ghost use Rattle.tx_region.specs.Regions.{region_of};
ghost use Rattle.tx_region.specs.Calls.{Executes, Counts};

use crate::records::Records;
use tx_cells::Families;
use tx_plan::{Answer, RaiseSafe, SafePlan, plan_raise_safe};
use tx_types::Ts;

impl<F: Families> Records<F> {
    /// Answers a RaiseSafe, by a seat that loaded `loaded`. It takes no memory.
    #[inline(never)]
    pub fn raise_safe(&mut self, loaded: Ts, body: &RaiseSafe) -> Answer
        ensures executes { (mark : ℕ) → Executes mark (region_of F.content self.old) loaded
            (request.RaiseSafe body.now) result None (region_of F.content self.new) }
        ensures unlocked { lock_in result ≡ None }
        ensures counts { Counts (request.RaiseSafe body.now) self.old.taken (region_of F.content self.old 0).cells
            (F.numbers self.old.families) self.new.taken (region_of F.content self.new 0).cells
            (F.numbers self.new.families) }
    {
        let SafePlan { answer, safe } = plan_raise_safe(self.safe, loaded, body);
        self.safe = safe;
        answer
    }
}
