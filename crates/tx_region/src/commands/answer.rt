//! Any command.
ghost use Rattle.std.specs.Prelude.{◌≡◌, ◌<◌, IfOk, IfErr, OnErr, IsOk};
ghost use Rattle.tx_region.specs.Copies.{IsOfKey};
ghost use Rattle.tx_region.specs.Regions.{region_of, HasSameNumbers};
ghost use Rattle.tx_region.specs.Calls.{Executes, Counts, TakesNoMemory};

use crate::copy::{Loaded, no_view};
use crate::copy_plan::plan;
use crate::records::{Executed, Records};
use tx_cells::Families;
use tx_plan::Body;
use tx_types::{Fault, Ts};

impl<F: Families> Records<F> {
    // Answers a request of one key: what the region sees of the key, the plan, and the plan carried
    // out.
    #[inline(always)]
    fn answer_on_key(&mut self, loaded: &Loaded, body: &Body) -> Result<Executed, Fault>
        requires of_key { IsOfKey body.now }
        requires room { (loaded.now.last < u64.MAX) × (loaded.now.mark < u64.MAX) }
        ensures ok { IfOk result (λ r. Executes loaded.now.mark (region_of F.content self.old) loaded.now.last body.now
            r.answer r.read (region_of F.content self.new)) }
        ensures counts { IfOk result (λ r. Counts body.now self.old.taken (region_of F.content self.old 0).cells
            (F.numbers self.old.families) self.new.taken (region_of F.content self.new 0).cells
            (F.numbers self.new.families)) }
        ensures same { OnErr result (region_of F.content self.new ≡ region_of F.content self.old) }
        ensures same_numbers { OnErr result (HasSameNumbers F.numbers self.old self.new) }
        ensures err { IfErr result (λ e. e ≡ Fault.OutOfMemory) }
    {
        let key = self.spell(body)?;
        let mut view = no_view();
        self.view_into(&key, body, &mut view)?;
        let copied = self.numbers();
        let mut planned = plan(&mut view, &copied, loaded, body);
        self.make(&key, body, &mut planned)
    }

    /// Answers a request of any command, by a seat that loaded `loaded`, with minimums above
    /// `mark`. `OutOfMemory` leaves the region as it was; a RaiseSafe takes no memory.
    #[inline(always)]
    pub fn answer(&mut self, loaded: Ts, mark: Ts, body: &Body) -> Result<Executed, Fault>
        requires room { (loaded < u64.MAX) × (mark < u64.MAX) }
        ensures ok { IfOk result (λ r. Executes mark (region_of F.content self.old) loaded body.now r.answer r.read
            (region_of F.content self.new)) }
        ensures counts { IfOk result (λ r. Counts body.now self.old.taken (region_of F.content self.old 0).cells
            (F.numbers self.old.families) self.new.taken (region_of F.content self.new 0).cells
            (F.numbers self.new.families)) }
        ensures always { TakesNoMemory body.now → IsOk result }
        ensures same { OnErr result (region_of F.content self.new ≡ region_of F.content self.old) }
        ensures same_numbers { OnErr result (HasSameNumbers F.numbers self.old self.new) }
        ensures err { IfErr result (λ e. e ≡ Fault.OutOfMemory) }
    {
        match body {
            Body::Scan(body) => self.scan(loaded, body.asked()),
            Body::RaiseSafe(body) => Ok(Executed::unread(self.raise_safe(loaded, body))),
            Body::LocksBelow(body) => self.locks_below(body),
            Body::Collect(body) => self.collect(body),
            Body::Get(_)
            | Body::Prewrite(_)
            | Body::Commit(_)
            | Body::BatchRollback(_)
            | Body::TxnHeartBeat(_)
            | Body::CheckTxnStatus(_)
            | Body::CheckSecondaryLocks(_)
            | Body::ResolveLock(_) => {
                let loaded = Loaded { last: loaded, mark };
                self.answer_on_key(&loaded, body)
            }
        }
    }
}
