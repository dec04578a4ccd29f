//! The latches, and the jobs that wait for theirs.
ghost use Rattle.std.specs.Prelude.{◌≡◌, IfErr, vec_len, length};
ghost use Rattle.tx_types.specs.declared.fault.Fault.TheVariants.{OutOfMemory};

use crate::job::Job;
use crate::task::{Opening, Task};
use std::alloc::Global;
use std::marker::Model;
use tx_latch::{Cid, Latches, Slot};
use tx_types::Fault;

/// The latches, and for each index the job that is parked there until its command is named. A job
/// is parked in the same hold of the lock in which it asks, so it is there when it is named.
#[derive(Drop)]
pub struct Shard<J: Job, N: Opening<J>> {
    alloc: Global,
    latches: Latches,
    parked: Vec<Option<Task<J, N>>>,
    ghost indexes: { vec_len parked ≡ length N.jobs },
}

impl<J: Job, N: Opening<J>> Shard<J, N> {
    /// No command, and no job. There is room for each.
    pub fn new(alloc: Global, jobs: usize) -> Result<Shard<J, N>, Fault>
        requires { jobs ≡ length N.jobs }
        ensures err { IfErr result (λ e. e ≡ OutOfMemory) }
    {
        let mut parked = Vec::with_capacity(alloc, jobs)?;
        for _ in 0..jobs {
            parked.push_reserved(None);
        }
        Ok(Shard {
            alloc,
            latches: Latches::new(alloc),
            parked,
        })
    }

    /// Asks for the slots of a job's next step. Gives the job back where they are granted,
    /// and else parks it.
    pub fn ask(
        &mut self,
        cid: Cid,
        slots: &[Slot],
        task: Task<J, N>,
    ) -> Result<Option<Task<J, N>>, Fault>
        ensures err { IfErr result (λ e. e ≡ OutOfMemory) }
    {
        if !self.latches.is_asked(cid) && self.latches.acquire(cid, slots)? {
            return Ok(Some(task));
        }
        let index = task.index();
        self.parked[index] = Some(task);
        Ok(None)
    }

    /// Takes a command that is granted out of the latches, and gives those that
    /// become granted by it.
    pub fn release(&mut self, cid: Cid) -> Vec<Cid> {
        if !self.latches.is_granted(cid) {
            return Vec::new(self.alloc);
        }
        match self.latches.release(cid) {
            Ok(freed) => freed,
            Err(_) => unreachable!(),
        }
    }

    /// The job that is parked at an index.
    pub fn take(&mut self, index: usize) -> Option<Task<J, N>> {
        if index < self.parked.len() {
            self.parked[index].take()
        } else {
            None
        }
    }
}
