//! Scan: the first keys of a range that have a value at a timestamp.
ghost use Rattle.std.specs.Prelude.{◌≡◌, ℕ, IfOk, IfErr, OnErr};
ghost use Rattle.tx_plan.specs.declared.body.Body.TheVariants as request;
ghost use Rattle.tx_region.specs.Regions.{region_of, HasSameNumbers};
ghost use Rattle.tx_region.specs.Calls.{Executes, Counts};

use crate::records::{Executed, Records};
use tx_cells::Families;
use tx_journal::AnswerWithLock;
use tx_plan::{Answer, Scan};
use tx_types::{Fault, Ts};

impl<F: Families> Records<F> {
    /// Answers a Scan, by a seat that loaded `loaded`. `OutOfMemory` leaves the region as it was.
    #[inline(never)]
    pub fn scan(&mut self, loaded: Ts, body: &Scan) -> Result<Executed, Fault>
        ensures ok { (mark : ℕ) → IfOk result (λ r. Executes mark (region_of F.content self.old) loaded
            (request.Scan body.now) r.answer r.read (region_of F.content self.new)) }
        ensures counts { IfOk result (λ r. Counts (request.Scan body.now) self.old.taken
            (region_of F.content self.old 0).cells (F.numbers self.old.families) self.new.taken
            (region_of F.content self.new 0).cells (F.numbers self.new.families)) }
        ensures same_numbers { OnErr result (HasSameNumbers F.numbers self.old self.new) }
        ensures same { OnErr result (region_of F.content self.new ≡ region_of F.content self.old) }
        ensures err { IfErr result (λ e. e ≡ Fault.OutOfMemory) }
    {
        if body.at < self.safe {
            return Ok(Executed::unread(Answer::BelowSafePoint { safe: self.safe }));
        }
        if body.at > loaded {
            return Ok(Executed::unread(Answer::FutureTimestamp { last: loaded }));
        }
        let answer = self.families.scan(self.alloc, body)?;
        Ok(Executed {
            answer: AnswerWithLock::new(answer)?,
            read: Some(body.at),
        })
    }
}
