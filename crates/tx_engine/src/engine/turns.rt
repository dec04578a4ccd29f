//! What an engine does by each step of a script: the step's turn.
ghost use Rattle.tx_engine.specs.Slots.{Goes, AllSeated, Turned, TurnedBy};
ghost use Rattle.tx_engine.specs.Semantics.{edits, in_session, live_at};
ghost use Rattle.tx_steps.specs.Steps.{acted, asked, called, delivered};
ghost use Rattle.tx_steps.specs.declared.op.Op.TheVariants as ops;
ghost use Rattle.tx_steps.specs.declared.step.Step.TheVariants as steps;

use super::Engine;
use crate::acts::{begin_at, finish_in, read_at, stop_at, tick_at};
use crate::operations::{deliver, edit_in, is_key, send_in, versions};
use crate::resolver::{collected_as, gc_at, resolve_at};
use crate::slots::{SessionSlot, enter, first_free, lend, live_slot, slot_at, swap_slot};
use tx_cells::Families;
use tx_journal::JournalId;
use tx_ops::reply_to;
use tx_reply::ScriptReply;
use tx_steps::{Call, Delivery, Op, Step};
use tx_types::{Cause, Key, Ts, is_name};

impl<J: JournalId, F: Families> Engine<J, F> {
    // Begins a session in a free slot.
    #[inline(never)]
    fn begin(&mut self, name: &str) -> Result<ScriptReply, Cause>
        requires ready { AllSeated J.bounds 1 self.old }
        ensures goes { Goes J.bounds self.old self.new
            (Turned J.bounds (steps.Begin name.now) result self.old self.new) }
    {
        if !is_name(name) {
            return Err(Cause::Name);
        }
        if self.names.contains_key(name) {
            return Err(Cause::Name);
        }
        let Some(k) = first_free(&self.slots) else {
            return Err(Cause::Sessions);
        };
        if enter(self.alloc, &mut self.names, name, k).is_err() {
            return Ok(ScriptReply::OutOfMemory);
        }
        let SessionSlot::Free(seat) = swap_slot(&mut self.slots, k, SessionSlot::Lent) else {
            unreachable!()
        };
        let (session, start) = begin_at(self.alloc, seat, &mut self.direct.network);
        swap_slot(&mut self.slots, k, SessionSlot::Live(session));
        Ok(ScriptReply::Start(start))
    }

    // The live session of a name does something by itself in its slot.
    #[inline(never)]
    fn edit(&mut self, name: &str, op: &Op<&str>) -> Result<ScriptReply, Cause>
        requires ready { AllSeated J.bounds 1 self.old }
        ensures goes { Goes J.bounds self.old self.new
            (TurnedBy J.bounds (λ refused engine. in_session (live_at engine name.now)
            (λ k s. edits refused engine k s J.bounds (acted op.now))) result self.old self.new) }
    {
        let Some(k) = slot_at(&self.names, &self.slots, name) else {
            return Err(Cause::Name);
        };
        edit_in(self.alloc, &mut self.slots[k], &mut self.direct.network, op)
    }

    // The live session of a name sends something.
    #[inline(never)]
    fn send(
        &mut self,
        name: &str,
        call: &Call<&str>,
        delivery: &Delivery<&str>,
    ) -> Result<ScriptReply, Cause>
        requires ready { AllSeated J.bounds 1 self.old }
        ensures goes { Goes J.bounds self.old self.new
            (Turned J.bounds (steps.Send name.now (called call.now) (delivered delivery.now)) result self.old
            self.new) }
    {
        let Some(k) = slot_at(&self.names, &self.slots, name) else {
            return Err(Cause::Name);
        };
        send_in(
            self.alloc,
            &mut self.slots[k],
            &mut self.direct.network,
            call,
            delivery,
        )
    }

    // The live session of a name answers its outcome, and is gone.
    #[inline(never)]
    fn finish(&mut self, name: &str) -> Result<ScriptReply, Cause>
        requires ready { AllSeated J.bounds 1 self.old }
        ensures goes { Goes J.bounds self.old self.new
            (Turned J.bounds (steps.Act name.now ops.Finish) result self.old self.new) }
    {
        let Some(k) = live_slot(&self.names, &self.slots, name) else {
            return Err(Cause::Name);
        };
        let Some(outcome) = finish_in(&mut self.slots[k], &mut self.direct.network) else {
            return Err(Cause::Order);
        };
        self.names.remove(name);
        Ok(ScriptReply::Ended(outcome))
    }

    // The live session of a name stops, and is gone.
    #[inline(never)]
    fn stop(&mut self, name: &str) -> Result<ScriptReply, Cause>
        requires ready { AllSeated J.bounds 1 self.old }
        ensures goes { Goes J.bounds self.old self.new
            (Turned J.bounds (steps.Act name.now ops.Stop) result self.old self.new) }
    {
        let Some((k, session)) = lend(&self.names, &mut self.slots, name) else {
            return Err(Cause::Name);
        };
        let seat = stop_at(session, &mut self.direct.network);
        swap_slot(&mut self.slots, k, SessionSlot::Free(seat));
        self.names.remove(name);
        Ok(ScriptReply::Fine)
    }

    // The lock that stood last in the way of the live session of a name is resolved.
    #[inline(never)]
    fn resolve(&mut self, name: &str, now: Ts) -> Result<ScriptReply, Cause>
        requires ready { AllSeated J.bounds 1 self.old }
        ensures goes { Goes J.bounds self.old self.new
            (Turned J.bounds (steps.Act name.now (ops.Resolve now)) result self.old self.new) }
    {
        let Some((k, mut session)) = lend(&self.names, &mut self.slots, name) else {
            return Err(Cause::Name);
        };
        let reply = resolve_at(&mut self.system_seat, &mut session, &mut self.direct, now);
        swap_slot(&mut self.slots, k, SessionSlot::Live(session));
        reply
    }

    // What the live session of a name does by itself.
    fn act(&mut self, name: &str, op: &Op<&str>) -> Result<ScriptReply, Cause>
        requires ready { AllSeated J.bounds 1 self.old }
        ensures goes { Goes J.bounds self.old self.new
            (Turned J.bounds (steps.Act name.now (acted op.now)) result self.old self.new) }
    {
        match op {
            Op::Finish => self.finish(name),
            Op::Stop => self.stop(name),
            Op::Resolve(now) => self.resolve(name, Ts::new(*now)),
            Op::Put(..)
            | Op::Insert(..)
            | Op::Delete(_)
            | Op::Lock(_)
            | Op::Declare(..)
            | Op::Draw => self.edit(name, op),
        }
    }

    // A held request is delivered.
    #[inline(never)]
    fn deliver(&mut self, name: &str) -> Result<ScriptReply, Cause>
        ensures goes { Goes J.bounds self.old self.new
            (Turned J.bounds (steps.Deliver name.now) result self.old self.new) }
    {
        deliver(&mut self.direct.network, name)
    }

    // A key is read at a timestamp.
    #[inline(never)]
    fn read(&mut self, key: &str, at: Ts) -> Result<ScriptReply, Cause>
        ensures goes { Goes J.bounds self.old self.new
            (Turned J.bounds (steps.Read key.now at) result self.old self.new) }
    {
        if !is_key(key) {
            return Ok(ScriptReply::KeyLength);
        }
        let Ok(key) = Key::new(self.alloc, key.as_bytes()) else {
            return Ok(ScriptReply::OutOfMemory);
        };
        let response = read_at(
            self.alloc,
            &mut self.system_seat,
            &mut self.direct.network,
            key,
            at,
        );
        Ok(reply_to(response))
    }

    // What is kept of a key is shown.
    #[inline(never)]
    fn versions(&mut self, key: &str) -> Result<ScriptReply, Cause>
        ensures goes { Goes J.bounds self.old self.new
            (Turned J.bounds (steps.Versions key.now) result self.old self.new) }
    {
        Ok(versions(self.alloc, &mut self.direct.network, key))
    }

    // So many ticks are drawn.
    #[inline(never)]
    fn tick(&mut self, ticks: u32) -> Result<ScriptReply, Cause>
        requires ready { AllSeated J.bounds 1 self.old }
        ensures goes { Goes J.bounds self.old self.new (Turned J.bounds (steps.Tick ticks) result self.old self.new) }
    {
        if ticks == 0 {
            return Err(Cause::Form);
        }
        let Some(last) = tick_at(&mut self.system_seat, &mut self.direct.network, ticks) else {
            return Ok(ScriptReply::OracleSpent);
        };
        Ok(ScriptReply::Last(last))
    }

    // Old versions are collected at a safe point.
    #[inline(never)]
    fn gc(&mut self, safe: Ts) -> Result<ScriptReply, Cause>
        requires ready { AllSeated J.bounds 1 self.old }
        ensures goes { Goes J.bounds self.old self.new (Turned J.bounds (steps.Gc safe) result self.old self.new) }
    {
        let collected = gc_at(&mut self.system_seat, &mut self.direct, safe);
        Ok(collected_as(collected))
    }

    /// Plays one step. `Form` for a step that only runs have.
    pub fn play(&mut self, step: &Step<&str>) -> Result<ScriptReply, Cause>
        requires ready { AllSeated J.bounds 1 self.old }
        ensures goes { Goes J.bounds self.old self.new (Turned J.bounds (asked step.now) result self.old self.new) }
    {
        match step {
            Step::Begin(name) => self.begin(name),
            Step::Act(name, op) => self.act(name, op),
            Step::Send(name, call, delivery) => self.send(name, call, delivery),
            Step::Deliver(name) => self.deliver(name),
            Step::Read(key, at) => self.read(key, Ts::new(*at)),
            Step::Versions(key) => self.versions(key),
            Step::Tick(ticks) => self.tick(*ticks),
            Step::Gc(safe) => self.gc(Ts::new(*safe)),
            Step::Seed(..) | Step::Transfer(..) => Err(Cause::Form),
        }
    }
}
