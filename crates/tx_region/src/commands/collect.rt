//! Collect: the region drops the records below its safe point that no read needs any more.
ghost use Rattle.std.specs.Prelude.{◌≡◌, ◌⊎◌, ℕ, List, length, IfOk, IfErr, OnErr};
ghost use Rattle.tx_types.specs.declared.key.Key.{Key};
ghost use Rattle.tx_plan.specs.declared.body.Body.TheVariants as request;
ghost use Rattle.tx_plan.specs.cases.Collect.{AllDropped, kept};
ghost use Rattle.tx_core.specs.LastChanges.{Drops};
ghost use Rattle.tx_region.specs.Regions.{region_of, HasSameNumbers};
ghost use Rattle.tx_region.specs.Calls.{Executes, Counts};

use crate::records::{Executed, Records};
use tx_cells::Families;
use tx_plan::{Answer, Collect, Dropped};
use tx_types::{Fault, Ts};

impl<F: Families> Records<F> {
    // Drops what collection at this point drops, which is so many records. Where that is nothing,
    // as at the point of the last collection, no number is forgotten.
    fn drop_below(&mut self, safe: Ts, records: u64)
        requires { (indexes : List (Key × ℕ)) × AllDropped (region_of F.content self.old 0).cells safe indexes
            × (records ≡ length indexes) }
        ensures cells { (k : Key) → (region_of F.content self.new 0).cells k
            ≡ kept ((region_of F.content self.old 0).cells k) safe }
        ensures notes { ((k : Key) → ((region_of F.content self.old 0).cells k
            ≡ (region_of F.content self.new 0).cells k)
            × (F.numbers self.old.families k ≡ F.numbers self.new.families k))
            ⊎ Drops (region_of F.content self.old 0).cells (F.numbers self.old.families)
            (region_of F.content self.new 0).cells (F.numbers self.new.families) }
        ensures same { (self.new.alloc ≡ self.old.alloc) × (self.new.safe ≡ self.old.safe)
            × (self.new.collected ≡ self.old.collected) × (self.new.taken ≡ self.old.taken) }
    {
        if records == 0 {
            return;
        }
        self.families.drop_below(safe);
    }

    /// Answers a Collect. `OutOfMemory` leaves the region as it was: what is dropped is counted
    /// before the first drop.
    #[inline(never)]
    pub fn collect(&mut self, body: &Collect) -> Result<Executed, Fault>
        ensures ok { (mark loaded : ℕ) → IfOk result (λ r. Executes mark (region_of F.content self.old) loaded
            (request.Collect body.now) r.answer r.read (region_of F.content self.new)) }
        ensures counts { IfOk result (λ r. Counts (request.Collect body.now) self.old.taken
            (region_of F.content self.old 0).cells (F.numbers self.old.families) self.new.taken
            (region_of F.content self.new 0).cells (F.numbers self.new.families)) }
        ensures same { OnErr result (region_of F.content self.new ≡ region_of F.content self.old) }
        ensures same_numbers { OnErr result (HasSameNumbers F.numbers self.old self.new) }
        ensures err { IfErr result (λ e. e ≡ Fault.OutOfMemory) }
    {
        if body.safe != self.safe {
            return Ok(Executed::unread(Answer::BelowSafePoint { safe: self.safe }));
        }
        if let Some(info) = self.families.first_below(self.alloc, body.safe)? {
            return Ok(Executed::unread(Answer::LocksRemain(info)));
        }
        let Dropped { records, values } = self.families.count_below(self.alloc, body.safe)?;
        self.drop_below(body.safe, records);
        self.collected = body.safe;
        Ok(Executed::unread(Answer::Collected { records, values }))
    }
}
