//! A request of one key that is planned outside the region: what it sees is copied into a try, and
//! what was planned there is applied where its key is as it was. Each request uses the room of the
//! try again.
ghost use Rattle.std.specs.Prelude.{◌≡◌, ◌≤◌, ◌↔◌, None, IfErr, IfSome, IsSomeAnd, IsTrue, OnOk, OnErr};
ghost use Rattle.tx_core.specs.Histories.{left};
ghost use Rattle.tx_core.specs.ReadMarks.{max_ts};
ghost use Rattle.tx_core.specs.Worlds.{Holds};
ghost use Rattle.tx_journal.specs.Known.{HasSeen};
ghost use Rattle.tx_journal.specs.Replies.{IsGiven};
ghost use Rattle.tx_region.specs.Attempts.{CarriesIn, ComesIn};
ghost use Rattle.tx_region.specs.Copies.{IsOfKey, key_in, IsPlan, IsAbove};
ghost use Rattle.tx_region.specs.KeyPlans.{IsCopyFor, IsPlanFor};
ghost use Rattle.tx_region.specs.TakenRequests.{NeedsMark, Knows};

use super::Region;
use super::events::note_done;
use super::marks::lies_above;
use crate::attempt::{Attempt, Seen};
use crate::copy::Loaded;
use tx_cells::Families;
use tx_core::Body;
use tx_journal::{AnswerWithLock, JournalId, Reply, Request, Told};
use tx_plan::KeyChange;
use tx_spelling::KeyBytes;
use tx_types::Fault;

// Drops what is at a place, if something is. Mostly nothing is, and then nothing is written.
fn forget<T: Drop>(place: &mut Option<T>)
    ensures { place.new ≡ None }
{
    if place.is_some() {
        *place = None;
    }
}

impl<J: JournalId, F: Families> Region<J, F> {
    // Knows what was heard, and leaves a copy of what a request of one key sees of it in a try,
    // which has no plan and no answer then, nor a copy where memory was refused.
    #[inline(always)]
    pub(super) fn copy_after(
        &mut self,
        heard: Told<J>,
        body: &Body,
        attempt: &mut Attempt<J>,
    ) -> Result<(), Fault>
        requires { IsOfKey body.now }
        ensures same { (self.new.seat ≡ self.old.seat) × (self.new.ticks ≡ self.old.ticks) }
        ensures seen { HasSeen J.bounds self.old.seat self.old.events self.new.events }
        ensures copy { OnOk result (IsSomeAnd attempt.new.copy
            (λ copy. IsCopyFor (record { by = heard; body = body.now }) copy × (copy.region ≡ self.new.seat)
            × (copy.events ≡ self.new.events))) }
        ensures empty { (attempt.new.plan ≡ None) × (attempt.new.answer ≡ None) }
        ensures none { OnErr result (attempt.new.copy ≡ None) }
        ensures err { IfErr result (λ e. e ≡ Fault.OutOfMemory) }
    {
        forget(&mut attempt.seen);
        forget(&mut attempt.planned);
        forget(&mut attempt.answer);
        attempt.loaded = self.load_after(heard, body);
        let key = self.records.spell(body)?;
        self.records.view_into(&key, body, &mut attempt.view)?;
        let bytes = key.into_bytes();
        let told = self.seat.tell();
        attempt.region = self.seat.number();
        attempt.numbers = self.records.numbers();
        attempt.taken = self.records.taken;
        attempt.seen = Some(Seen { told, bytes });
        Ok(())
    }

    /// Copies what the request of a reply, which is of one key, sees of it into a try, and records
    /// nothing. The try has no plan and no answer then, nor a copy where memory was refused.
    pub fn copy_into(&mut self, place: &mut Reply<J>, attempt: &mut Attempt<J>) -> Result<(), Fault>
        requires { IsOfKey place.old.request.body }
        ensures place { place.new ≡ place.old }
        ensures same { (self.new.seat ≡ self.old.seat) × (self.new.ticks ≡ self.old.ticks) }
        ensures seen { HasSeen J.bounds self.old.seat self.old.events self.new.events }
        ensures copy { OnOk result (IsSomeAnd attempt.new.copy (λ copy. IsCopyFor place.new.request copy
            × (copy.region ≡ self.new.seat) × (copy.events ≡ self.new.events))) }
        ensures empty { (attempt.new.plan ≡ None) × (attempt.new.answer ≡ None) }
        ensures none { OnErr result (attempt.new.copy ≡ None) }
        ensures err { IfErr result (λ e. e ≡ Fault.OutOfMemory) }
    {
        let heard = place.tell_asked(&self.seat);
        self.copy_after(heard, place.body(), attempt)
    }

    // Whether the minimum that a change promises lies above each read, as the whole history then
    // has it.
    fn is_above(&mut self, change: &KeyChange) -> bool
        ensures same { (self.new.seat ≡ self.old.seat) × (self.new.ticks ≡ self.old.ticks) }
        ensures seen { HasSeen J.bounds self.old.seat self.old.events self.new.events }
        ensures above { IsTrue result ↔ IsAbove change.now self.new.events }
    {
        lies_above(&mut self.seat, change)
    }

    // Answers a request with a plan that is right for the records, where no read has passed the
    // minimum that it promises, and leaves the answer at a place.
    fn carry_into(
        &mut self,
        request: &Request<J>,
        bytes: KeyBytes,
        planned: &mut tx_plan::Plan,
        loaded: &Loaded,
        place: &mut Option<AnswerWithLock>,
    ) -> Option<Told<J>>
        requires holds { Holds J.bounds self.old.seat request.now.body }
        requires of_key { IsOfKey request.now.body }
        requires bytes { bytes ≡ key_in request.now.body }
        requires knows { Knows request.now.by self.old.events loaded.now.last }
        requires mark { NeedsMark request.now.body → loaded.now.mark ≤ max_ts self.old.events }
        requires plan { IsPlan loaded.now.mark (left self.old.events self.old.seat) loaded.now.last request.now.body
            planned.old }
        ensures same { (self.new.seat ≡ self.old.seat) × (self.new.ticks ≡ self.old.ticks) }
        ensures comes { CarriesIn J.bounds self.old.seat self.old.events self.new.events request.now loaded.now.last
            planned.old place.new result }
        ensures given { IfSome result (λ told. IsGiven J.bounds (record {
          request = request.now;
          answer = place.new;
          events = told;
        })) }
    {
        if !self.is_above(&planned.change) {
            return None;
        }
        match self.records.make_by_bytes(bytes, request.body(), planned) {
            Err(_) => {
                let told = self.seat.tell();
                *place = None;
                Some(told)
            }
            Ok(done) => Some(note_done(&mut self.seat, request, loaded.last, done, place)),
        }
    }

    /// Answers a request with what was planned for it in a try, which then has the answer, and
    /// records that it did, where its key is as it was copied and no read has passed the minimum
    /// that the plan promises: what the region then knows. Else it records nothing, and tells none.
    /// Whether the plan is still right is seen first, without memory: only where it is may memory
    /// be refused, and then the try has no answer.
    pub fn apply_attempt(
        &mut self,
        request: &Request<J>,
        attempt: &mut Attempt<J>,
    ) -> Option<Told<J>>
        requires holds { Holds J.bounds self.old.seat request.now.body }
        requires of { IsSomeAnd attempt.old.plan
            (λ plan. IsPlanFor request.now plan × (plan.region ≡ self.old.seat)) }
        ensures same { (self.new.seat ≡ self.old.seat) × (self.new.ticks ≡ self.old.ticks) }
        ensures comes { IfSome attempt.old.plan (λ plan. ComesIn J.bounds self.old.seat self.old.events
            self.new.events request.now plan attempt.new.answer result) }
        ensures given { IfSome result (λ told. IsGiven J.bounds (record {
          request = request.now;
          answer = attempt.new.answer;
          events = told;
        })) }
    {
        let Some(seen) = attempt.seen.take() else {
            unreachable!()
        };
        let Some(planned) = &mut attempt.planned else {
            unreachable!()
        };
        let Seen { told, bytes } = seen;
        let loaded = attempt.loaded;
        self.learn(told);
        match self
            .records
            .bytes_if_stayed(bytes, request.body(), &attempt.numbers, attempt.taken)
        {
            None => None,
            Some(bytes) => self.carry_into(request, bytes, planned, &loaded, &mut attempt.answer),
        }
    }
}
