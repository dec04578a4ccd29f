//! How a step asks for its latches: shard by shard, in rising order.
ghost use Rattle.std.specs.Prelude.{◌≡◌, IfErr};
ghost use Rattle.tx_types.specs.declared.fault.Fault.TheVariants.{OutOfMemory};

use super::{Pool, SHARDS};
use crate::job::Job;
use crate::task::{Opening, Task};
use std::sync::Wait;
use tx_latch::Slot;
use tx_types::Fault;

/// The shard of a slot.
pub(super) fn shard_of(slot: Slot) -> u8 {
    slot.get() % SHARDS
}

impl<J: Job, N: Opening<J>> Pool<J, N>
where
    J::Out: Drop,
{
    /// A job whose next step has its latches, those of `slots` then, unless it is parked or
    /// memory was refused.
    pub(super) fn latched<R: Wait>(
        &self,
        rt: &R,
        task: Task<J, N>,
        slots: &mut Vec<Slot>,
    ) -> Option<Task<J, N>> {
        slots.clear();
        if self.alone {
            return Some(task);
        }
        if task.slots(slots).is_err() {
            self.refuse(rt);
            return None;
        }
        let asked = match slots.as_slice() {
            [] => Ok(Some(task)),
            [only] => self.ask_part(rt, shard_of(*only), slots.as_slice(), task),
            [one, other] => self.ask_two(rt, *one, *other, task),
            all => self.ask_each(rt, all, task),
        };
        match asked {
            Ok(task) => task,
            Err(_) => {
                self.refuse(rt);
                None
            }
        }
    }

    /// Asks for the slots that a step has on a shard, unless they were asked for already. None
    /// where the job is parked.
    fn ask_part<R: Wait>(
        &self,
        rt: &R,
        shard: u8,
        slots: &[Slot],
        task: Task<J, N>,
    ) -> Result<Option<Task<J, N>>, Fault>
        ensures err { IfErr result (λ e. e ≡ OutOfMemory) }
    {
        if task.asked() > shard {
            return Ok(Some(task));
        }
        self.ask(rt, shard, slots, task)
    }

    /// Asks for the two slots of a step, that of the lower shard first. None where
    /// the job is parked.
    fn ask_two<R: Wait>(
        &self,
        rt: &R,
        one: Slot,
        other: Slot,
        task: Task<J, N>,
    ) -> Result<Option<Task<J, N>>, Fault>
        ensures err { IfErr result (λ e. e ≡ OutOfMemory) }
    {
        if shard_of(one) == shard_of(other) {
            return self.ask_part(rt, shard_of(one), &[one, other], task);
        }
        let (low, high) = if shard_of(one) < shard_of(other) {
            (one, other)
        } else {
            (other, one)
        };
        match self.ask_part(rt, shard_of(low), &[low], task)? {
            Some(task) => self.ask_part(rt, shard_of(high), &[high], task),
            None => Ok(None),
        }
    }

    /// Asks for the slots of a step, shard by shard, from the first that was not asked yet. None
    /// where the job is parked.
    fn ask_each<R: Wait>(
        &self,
        rt: &R,
        slots: &[Slot],
        task: Task<J, N>,
    ) -> Result<Option<Task<J, N>>, Fault>
        ensures err { IfErr result (λ e. e ≡ OutOfMemory) }
    {
        let mut task = task;
        for shard in task.asked()..SHARDS {
            let part = self.part(slots, shard)?;
            if part.is_empty() {
                continue;
            }
            match self.ask(rt, shard, part.as_slice(), task)? {
                Some(granted) => task = granted,
                None => return Ok(None),
            }
        }
        Ok(Some(task))
    }

    /// Those of the slots that belong to a shard.
    fn part(&self, slots: &[Slot], shard: u8) -> Result<Vec<Slot>, Fault>
        ensures err { IfErr result (λ e. e ≡ OutOfMemory) }
    {
        let mut part = Vec::new(self.alloc);
        for slot in slots {
            if shard_of(*slot) == shard {
                part.push(*slot)?;
            }
        }
        Ok(part)
    }

    /// Asks for slots of one shard. None where the job is parked there.
    fn ask<R: Wait>(
        &self,
        rt: &R,
        shard: u8,
        slots: &[Slot],
        mut task: Task<J, N>,
    ) -> Result<Option<Task<J, N>>, Fault>
        ensures err { IfErr result (λ e. e ≡ OutOfMemory) }
    {
        task.ask_from(shard.saturating_add(1));
        match self.shards.get(usize::from(shard)) {
            Some(shard) => shard.shard.lock(rt).ask(task.cid(), slots, task),
            None => Ok(Some(task)),
        }
    }
}
