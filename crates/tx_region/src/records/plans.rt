//! A plan for a request of one key, carried out on the records.
ghost use Rattle.std.specs.Prelude.{◌≡◌, ◌<◌, ◌≤◌, ◌+◌, ◌↔◌, ℕ, IfOk, IfErr, IfSome, IsSome, IsTrue, OnOk, OnErr};
ghost use Rattle.tx_plan.specs.Cells.{with_cells};
ghost use Rattle.tx_plan.specs.Changes.{changed, new_lock, after_put, CanPut};
ghost use Rattle.tx_plan.specs.Plans.{answer_with};
ghost use Rattle.tx_plan.specs.Views.{info_on};
ghost use Rattle.tx_core.specs.LastChanges.{NotesAll};
ghost use Rattle.tx_region.specs.Regions.{region_of, HasSameNumbers};
ghost use Rattle.tx_region.specs.Calls.{CarriesOut, Counts};
ghost use Rattle.tx_region.specs.Copies.{IsOfKey, key_in, made, MayMake};
ghost use Rattle.tx_region.specs.KeyPlans.{StayedKey};

use super::{Executed, Records};
use crate::copy::RegionNumbers;
use crate::copy_plan::key_of;
use std::mem::replace;
use tx_cells::Families;
use tx_journal::AnswerWithLock;
use tx_plan::{Body, KeyChange, Plan, PlannedAnswer, Prewrite};
use tx_spelling::{EncodedKey, KeyBytes};
use tx_types::Fault;

impl<F: Families> Records<F> {
    // Whether a key, the safe point and the last collection stayed since these numbers were
    // copied, when so many requests were counted.
    fn has_stayed(&self, key: &EncodedKey<'_>, copied: &RegionNumbers, taken: u64) -> bool
        requires { F.numbers self.now.families key.now ≤ self.now.taken }
        ensures { IsTrue result ↔ StayedKey (region_of F.content self.now 0)
            (F.numbers self.now.families key.now) copied.now taken }
    {
        if copied.safe != self.safe || copied.collected != self.collected {
            return false;
        }
        if self.taken <= taken {
            return true;
        }
        self.families.number(key) <= taken
    }

    /// The bytes of a request's key, back where the key, the safe point and the last collection
    /// stayed since these numbers were copied, when so many requests were counted. It takes no
    /// memory.
    #[inline(always)]
    pub(crate) fn bytes_if_stayed(
        &self,
        bytes: KeyBytes,
        body: &Body,
        copied: &RegionNumbers,
        taken: u64,
    ) -> Option<KeyBytes>
        requires of_key { IsOfKey body.now }
        requires of { bytes ≡ key_in body.now }
        requires counted { F.numbers self.now.families (key_in body.now) ≤ self.now.taken }
        ensures stayed { IsSome result ↔ StayedKey (region_of F.content self.now 0)
            (F.numbers self.now.families (key_in body.now)) copied.now taken }
        ensures bytes { IfSome result (λ bytes. bytes ≡ key_in body.now) }
    {
        let key = EncodedKey::with_bytes(key_of(body), bytes);
        if self.has_stayed(&key, copied, taken) {
            return Some(key.into_bytes());
        }
        None
    }

    // The answer of a plan for this key that names the lock on it, with what is told of that.
    #[inline(never)]
    fn fill_in_lock(
        &self,
        key: &EncodedKey<'_>,
        answer: PlannedAnswer,
    ) -> Result<AnswerWithLock, Fault>
        ensures answer { IfOk result (λ a. a ≡ answer_with
            (info_on ((region_of F.content self.now 0).cells key.now) key.now) answer) }
        ensures err { IfErr result (λ e. e ≡ Fault.OutOfMemory) }
    {
        let info = self.families.lock_info(self.alloc, key)?;
        AnswerWithLock::new(answer.with_lock(info))
    }

    // The answer of a plan for this key, with what is told of the lock on it where the answer
    // names that. Mostly it names none.
    #[inline(always)]
    fn fill_in(&self, key: &EncodedKey<'_>, answer: PlannedAnswer) -> Result<AnswerWithLock, Fault>
        ensures answer { IfOk result (λ a. a ≡ answer_with
            (info_on ((region_of F.content self.now 0).cells key.now) key.now) answer) }
        ensures err { IfErr result (λ e. e ≡ Fault.OutOfMemory) }
    {
        match answer {
            PlannedAnswer::Given(answer) => AnswerWithLock::new(answer),
            _ => self.fill_in_lock(key, answer),
        }
    }

    // The number of the next request that is counted. `OutOfMemory` after the greatest number,
    // which is never reached.
    fn next_number(&self) -> Result<u64, Fault>
        ensures ok { IfOk result (λ number. number ≡ self.now.taken + 1) }
        ensures err { IfErr result (λ e. e ≡ Fault.OutOfMemory) }
    {
        match self.taken.checked_add(1) {
            Some(number) => Ok(number),
            None => Err(Fault::OutOfMemory),
        }
    }

    // Carries out the plan of a read.
    fn make_read(&self, key: &EncodedKey<'_>, planned: &mut Plan) -> Result<Executed, Fault>
        requires { planned.old.change ≡ KeyChange.Nothing }
        ensures ok { IfOk result (λ r. (n : ℕ) → CarriesOut (region_of F.content self.now n) key.now
            (changed ((region_of F.content self.now n).cells key.now) planned.old.change) planned.old r.answer r.read
            (region_of F.content self.now n)) }
        ensures err { IfErr result (λ e. e ≡ Fault.OutOfMemory) }
    {
        let answer = replace(&mut planned.answer, PlannedAnswer::KeyIsLocked);
        Ok(Executed {
            answer: self.fill_in(key, answer)?,
            read: planned.read,
        })
    }

    // Puts the lock that the plan of a prewrite puts, if it puts one.
    fn put(
        &mut self,
        key: &EncodedKey<'_>,
        body: &Prewrite,
        change: KeyChange,
        number: u64,
    ) -> Result<(), Fault>
        requires of { key.now ≡ body.now.key }
        requires can { IfSome (new_lock change) (λ new.
            CanPut ((region_of F.content self.old 0).cells body.now.key) body.now new) }
        ensures ok { OnOk result ((n : ℕ) → region_of F.content self.new n
            ≡ with_cells (region_of F.content self.old n) body.now.key
            (after_put ((region_of F.content self.old n).cells body.now.key) body.now (new_lock change))) }
        ensures notes { OnOk result (self.old.taken < number
            → NotesAll self.old.taken number (region_of F.content self.old 0).cells (F.numbers self.old.families)
            (region_of F.content self.new 0).cells (F.numbers self.new.families)) }
        ensures taken { self.new.taken ≡ self.old.taken }
        ensures same { OnErr result (region_of F.content self.new ≡ region_of F.content self.old) }
        ensures same_numbers { OnErr result (HasSameNumbers F.numbers self.old self.new) }
        ensures err { IfErr result (λ e. e ≡ Fault.OutOfMemory) }
    {
        match change {
            KeyChange::Lock(new) => self.families.put_lock(self.alloc, key, body, new, number),
            _ => Ok(()),
        }
    }

    // Makes the change that a request plans on its key: a prewrite puts its lock, and the change of
    // another is applied. `OutOfMemory` leaves all as it was.
    fn change(
        &mut self,
        key: &EncodedKey<'_>,
        body: &Body,
        change: KeyChange,
        number: u64,
    ) -> Result<(), Fault>
        requires of { key.now ≡ key_in body.now }
        requires may { MayMake body.now ((region_of F.content self.old 0).cells key.now) change }
        ensures ok { OnOk result ((n : ℕ) → region_of F.content self.new n
            ≡ with_cells (region_of F.content self.old n) key.now
            (made body.now ((region_of F.content self.old n).cells key.now) change)) }
        ensures notes { OnOk result (self.old.taken < number
            → NotesAll self.old.taken number (region_of F.content self.old 0).cells (F.numbers self.old.families)
            (region_of F.content self.new 0).cells (F.numbers self.new.families)) }
        ensures taken { self.new.taken ≡ self.old.taken }
        ensures same { OnErr result (region_of F.content self.new ≡ region_of F.content self.old) }
        ensures same_numbers { OnErr result (HasSameNumbers F.numbers self.old self.new) }
        ensures err { IfErr result (λ e. e ≡ Fault.OutOfMemory) }
    {
        match body {
            Body::Prewrite(body) => self.put(key, body.asked(), change, number),
            _ => self.families.apply(self.alloc, key, change, number),
        }
    }

    // Carries out the plan of a request that may change its key. `OutOfMemory` leaves all as it
    // was.
    fn carry_out(
        &mut self,
        key: &EncodedKey<'_>,
        body: &Body,
        planned: &mut Plan,
    ) -> Result<Executed, Fault>
        requires of { key.now ≡ key_in body.now }
        requires may { MayMake body.now ((region_of F.content self.old 0).cells key.now) planned.old.change }
        ensures ok { IfOk result (λ r. (n : ℕ) → CarriesOut (region_of F.content self.old n) key.now
            (made body.now ((region_of F.content self.old n).cells key.now) planned.old.change) planned.old
            r.answer r.read (region_of F.content self.new n)) }
        ensures taken { OnOk result (self.new.taken ≡ self.old.taken + 1) }
        ensures notes { OnOk result (NotesAll self.old.taken self.new.taken (region_of F.content self.old 0).cells
            (F.numbers self.old.families) (region_of F.content self.new 0).cells (F.numbers self.new.families)) }
        ensures same { OnErr result (region_of F.content self.new ≡ region_of F.content self.old) }
        ensures same_numbers { OnErr result (HasSameNumbers F.numbers self.old self.new) }
        ensures err { IfErr result (λ e. e ≡ Fault.OutOfMemory) }
    {
        let number = self.next_number()?;
        let answer = replace(&mut planned.answer, PlannedAnswer::KeyIsLocked);
        let answer = self.fill_in(key, answer)?;
        self.change(key, body, planned.change, number)?;
        self.taken = number;
        Ok(Executed {
            answer,
            read: planned.read,
        })
    }

    /// Carries out a plan for a request of a region that is as the plan takes for granted.
    /// `OutOfMemory` leaves all as it was.
    #[inline(always)]
    pub(crate) fn make(
        &mut self,
        key: &EncodedKey<'_>,
        body: &Body,
        planned: &mut Plan,
    ) -> Result<Executed, Fault>
        requires of_key { IsOfKey body.now }
        requires of { key.now ≡ key_in body.now }
        requires may { MayMake body.now ((region_of F.content self.old 0).cells key.now) planned.old.change }
        ensures ok { IfOk result (λ r. (n : ℕ) → CarriesOut (region_of F.content self.old n) key.now
            (made body.now ((region_of F.content self.old n).cells key.now) planned.old.change) planned.old
            r.answer r.read (region_of F.content self.new n)) }
        ensures counts { IfOk result (λ r. Counts body.now self.old.taken (region_of F.content self.old 0).cells
            (F.numbers self.old.families) self.new.taken (region_of F.content self.new 0).cells
            (F.numbers self.new.families)) }
        ensures same { OnErr result (region_of F.content self.new ≡ region_of F.content self.old) }
        ensures same_numbers { OnErr result (HasSameNumbers F.numbers self.old self.new) }
        ensures err { IfErr result (λ e. e ≡ Fault.OutOfMemory) }
    {
        match body {
            Body::Get(_) => self.make_read(key, planned),
            Body::Scan(_) | Body::RaiseSafe(_) | Body::LocksBelow(_) | Body::Collect(_) => {
                unreachable!()
            }
            _ => self.carry_out(key, body, planned),
        }
    }

    /// The same, where the key of the request was spelt with these bytes.
    #[inline(always)]
    pub(crate) fn make_by_bytes(
        &mut self,
        bytes: KeyBytes,
        body: &Body,
        planned: &mut Plan,
    ) -> Result<Executed, Fault>
        requires of_key { IsOfKey body.now }
        requires of { bytes ≡ key_in body.now }
        requires may { MayMake body.now ((region_of F.content self.old 0).cells (key_in body.now)) planned.old.change }
        ensures ok { IfOk result (λ r. (n : ℕ) → CarriesOut (region_of F.content self.old n) (key_in body.now)
            (made body.now ((region_of F.content self.old n).cells (key_in body.now)) planned.old.change) planned.old
            r.answer r.read (region_of F.content self.new n)) }
        ensures counts { IfOk result (λ r. Counts body.now self.old.taken (region_of F.content self.old 0).cells
            (F.numbers self.old.families) self.new.taken (region_of F.content self.new 0).cells
            (F.numbers self.new.families)) }
        ensures same { OnErr result (region_of F.content self.new ≡ region_of F.content self.old) }
        ensures same_numbers { OnErr result (HasSameNumbers F.numbers self.old self.new) }
        ensures err { IfErr result (λ e. e ≡ Fault.OutOfMemory) }
    {
        let key = EncodedKey::with_bytes(key_of(body), bytes);
        self.make(&key, body, planned)
    }
}
