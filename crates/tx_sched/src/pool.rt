//! The workers of a run.
ghost use Rattle.std.specs.Prelude.{◌≡◌, ◌≤◌, [], Some, map, IfErr, IfOk, vec_len, vec_capacity, length};
ghost use Rattle.tx_types.specs.declared.fault.Fault.TheVariants.{OutOfMemory};
ghost use Rattle.tx_sched.specs.Promises.{AreDistinct, KeepsPromise, AreKept, IsOf, AreOf, count_missing};

mod requests;

use crate::gate::Gate;
use crate::job::Job;
use crate::results::Results;
use crate::shard::Shard;
use crate::task::{Opening, Task};
use crossbeam_channel::{Receiver, Sender, bounded};
use requests::shard_of;
use std::alloc::Global;
use std::collections::HashMap;
use std::marker::Brand;
use std::sync::{Condvar, Mutex, Wait};
use std::thread;
use std::thread::Threads;
use tx_latch::{Cid, Slot};
use tx_types::Fault;

/// How many steps of a job a worker makes in a row while other jobs are ready. A queue that each
/// step went through would cost more than the step.
const SHARE: u32 = 16;

/// How many shards the latches lie on. One lock for all latches would make four workers
/// slower than one.
const SHARDS: u8 = 16;

/// What workers tell one another.
#[derive(Drop)]
enum Message<J: Job, N: Opening<J>> {
    /// This job may go on.
    Ready(Task<J, N>),
    /// The run is over. A worker that gets this passes it on, and ends.
    Stop,
}

/// A shard behind its lock. Two locks lie in different lines of memory, so that workers at two
/// shards do not write the same line.
#[derive(Drop)]
struct LockedShard<J: Job, N: Opening<J>> {
    shard: Mutex<Shard<J, N>>,
    apart: [u64; 16],
}

/// What the workers of a run share.
#[derive(Drop)]
struct Pool<J: Job, N: Opening<J>>
where
    J::Out: Drop,
{
    /// The ready queue, with room for each job and for one `Stop`.
    queue: Sender<Message<J, N>>,
    ready: Receiver<Message<J, N>>,
    /// The latches, those of a slot on the shard of its number modulo their count. A step asks them
    /// in rising order.
    shards: Vec<LockedShard<J, N>>,
    alloc: Global,
    results: Mutex<Results<J, N>>,
    /// Rung when the results are over.
    ended: Condvar,
    /// The index of each job, by its number.
    indexes: HashMap<u32, usize>,
    /// Whether one worker makes all steps. Then no two are ever made at once, and none asks
    /// for its latches.
    alone: bool,
}

// The shards of a run of so many jobs, none of which has a latch yet.
fn shards_of<J: Job, N: Opening<J>>(
    alloc: Global,
    count: usize,
) -> Result<Vec<LockedShard<J, N>>, Fault>
    requires { count ≡ length N.jobs }
    ensures err { IfErr result (λ e. e ≡ OutOfMemory) }
{
    let mut shards = Vec::with_capacity(alloc, usize::from(SHARDS))?;
    for _ in 0..SHARDS {
        shards.push(LockedShard {
            shard: Mutex::new(Shard::new(alloc, count)?),
            apart: [0; 16],
        })?;
    }
    Ok(shards)
}

// Puts each job on the ready queue: the index of each, by its number.
fn enqueue<J: Job, N: Opening<J>, R: Wait>(
    rt: &R,
    alloc: Global,
    queue: &Sender<Message<J, N>>,
    jobs: Vec<J>,
) -> Result<HashMap<u32, usize>, Fault>
    requires { jobs.items ≡ N.jobs }
    ensures err { IfErr result (λ e. e ≡ OutOfMemory) }
{
    let mut indexes = HashMap::new(alloc);
    let mut index = 0;
    for job in jobs {
        indexes.insert(job.number(), index)?;
        let task: Task<J, N> = Task::new(alloc, job, index)?;
        if queue.send(rt, Message::Ready(task)).is_err() {
            return Err(Fault::OutOfMemory);
        }
        index += 1;
    }
    Ok(indexes)
}

impl<J: Job, N: Opening<J>> Pool<J, N>
where
    J::Out: Drop,
{
    /// Takes the room of a run, and puts each job on the ready queue.
    fn new<R: Wait>(rt: &R, alloc: Global, jobs: Vec<J>, alone: bool) -> Result<Pool<J, N>, Fault>
        requires { jobs.items ≡ N.jobs }
        ensures err { IfErr result (λ e. e ≡ OutOfMemory) }
    {
        let count = jobs.len();
        let (queue, ready) = bounded(alloc, count.saturating_add(1))?;
        let shards = shards_of(alloc, count)?;
        let results = Results::new(alloc, count)?;
        let indexes = enqueue(rt, alloc, &queue, jobs)?;
        Ok(Pool {
            queue,
            ready,
            shards,
            alloc,
            results: Mutex::new(results),
            ended: Condvar::new(),
            indexes,
            alone,
        })
    }

    /// Takes jobs until the run is over.
    fn work<R: Wait, G: Gate>(&self, rt: &R, gate: &G) {
        let mut slots = Vec::new(self.alloc);
        for _ in rt.forever() {
            match self.ready.recv(rt) {
                Ok(Message::Ready(task)) => self.advance(rt, gate, task, &mut slots),
                Ok(Message::Stop) | Err(_) => break,
            }
        }
        let _ = self.queue.send(rt, Message::Stop);
    }

    /// Makes steps of a job, until it waits for its latches, gives its result, or was given its
    /// share while others wait. `slots` is the room for those of a step, which one worker uses
    /// again and again.
    fn advance<R: Wait, G: Gate>(&self, rt: &R, gate: &G, task: Task<J, N>, slots: &mut Vec<Slot>) {
        let mut task = task;
        for _ in rt.forever() {
            for _ in 0..SHARE {
                match self.turn(rt, gate, task, slots) {
                    Some(next) => task = next,
                    None => return,
                }
            }
            if !self.ready.is_empty() {
                break;
            }
        }
        self.put(rt, task);
    }

    /// Makes the next step of a job, if its latches are granted. Gives the job back where
    /// it has more steps.
    fn turn<R: Wait, G: Gate>(
        &self,
        rt: &R,
        gate: &G,
        task: Task<J, N>,
        slots: &mut Vec<Slot>,
    ) -> Option<Task<J, N>> {
        let task = self.latched(rt, task, slots)?;
        let cid = task.cid();
        let index = task.index();
        gate.before(cid);
        let stepped = task.step();
        gate.after(cid);
        self.release(rt, cid, slots.as_slice());
        match stepped {
            Ok(task) => Some(task),
            Err(out) => {
                self.finish(rt, index, out);
                None
            }
        }
    }

    /// Gives the latches of a command back, and puts the jobs that waited for them on
    /// the ready queue.
    fn release<R: Wait>(&self, rt: &R, cid: Cid, slots: &[Slot]) {
        for slot in slots {
            let Some(shard) = self.shards.get(usize::from(shard_of(*slot))) else {
                continue;
            };
            let freed = shard.shard.lock(rt).release(cid);
            for cid in freed {
                self.wake(rt, &shard.shard, cid);
            }
        }
    }

    /// Puts a job on the ready queue.
    fn put<R: Wait>(&self, rt: &R, task: Task<J, N>) {
        if self.queue.send(rt, Message::Ready(task)).is_err() {
            self.refuse(rt);
        }
    }

    /// Puts the job of a command, which was parked, on the ready queue as granted.
    fn wake<R: Wait>(&self, rt: &R, shard: &Mutex<Shard<J, N>>, cid: Cid) {
        let Some(index) = self.indexes.get(&((cid.get() >> 32) as u32)).copied() else {
            return;
        };
        let parked = shard.lock(rt).take(index);
        if let Some(task) = parked {
            self.put(rt, task);
        }
    }

    /// Keeps the result of an index, and ends the run with the last one.
    fn finish<R: Wait>(&self, rt: &R, index: usize, out: J::Out)
        requires { IsOf (KeepsPromise J.promised J.numbered J.tells) N.jobs index out }
    {
        let mut results = self.results.lock(rt);
        results.put(index, out);
        let over = results.is_over();
        drop(results);
        if over {
            self.end(rt);
        }
    }

    /// Ends the run for want of memory.
    fn refuse<R: Wait>(&self, rt: &R) {
        self.results.lock(rt).refuse();
        self.end(rt);
    }

    /// Tells all that the results are over.
    fn end<R: Wait>(&self, rt: &R) {
        self.ended.notify_all();
        let _ = self.queue.send(rt, Message::Stop);
    }

    /// Waits for the results.
    fn outs<R: Wait>(&self, rt: &R) -> Result<Vec<Option<J::Out>>, Fault>
        ensures err { IfErr result (λ e. e ≡ OutOfMemory) }
        ensures count { IfOk result (λ outs. vec_len outs ≡ length N.jobs) }
        ensures all { IfOk result (λ outs. count_missing outs.items ≡ 0) }
        ensures each { IfOk result (λ outs. AreOf (KeepsPromise J.promised J.numbered J.tells) N.jobs outs.items) }
    {
        let mut results = self.results.lock(rt);
        for _ in rt.forever() {
            if results.is_over() {
                return results.take();
            }
            results = self.ended.wait(rt, results);
        }
        unreachable!()
    }
}

/// The results, of which none is missing.
fn gather<T: Drop>(there: Vec<Option<T>>, mut outs: Vec<T>) -> Vec<T>
    requires none { count_missing there.items ≡ 0 }
    requires empty { outs.items ≡ [] }
    requires room { vec_len there ≤ vec_capacity outs }
    ensures { map (λ out. Some out) result.items ≡ there.items }
{
    for out in there {
        match out {
            Some(out) => outs.push_reserved(out),
            None => unreachable!(),
        }
    }
    outs
}

/// Works on this thread and on as many further ones as can be started, and waits for the results.
fn serve<'x, J: Job + Send, N: Opening<J> + Send + Sync, G: Gate + Sync, R: Threads + Wait + Sync>(
    rt: &'x R,
    workers: usize,
    pool: &'x Pool<J, N>,
    gate: &'x G,
) -> Result<Vec<Option<J::Out>>, Fault>
where
    J::Out: Drop + Send,
    ensures err { IfErr result (λ e. e ≡ OutOfMemory) }
    ensures count { IfOk result (λ outs. vec_len outs ≡ length N.jobs) }
    ensures all { IfOk result (λ outs. count_missing outs.items ≡ 0) }
    ensures each { IfOk result (λ outs. AreOf (KeepsPromise J.promised J.numbered J.tells) N.jobs outs.items) }
{
    thread::scope(
        thread::scope_env(),
        rt,
        move |scope| -> Result<Vec<Option<J::Out>>, Fault>
            ensures err { IfErr result (λ e. e ≡ OutOfMemory) }
            ensures count { IfOk result (λ outs. vec_len outs ≡ length N.jobs) }
            ensures all { IfOk result (λ outs. count_missing outs.items ≡ 0) }
            ensures each { IfOk result (λ outs. AreOf (KeepsPromise J.promised J.numbered J.tells) N.jobs outs.items) }
        {
            for _ in 1..workers {
                let _ = scope.spawn(move || pool.work(rt, gate));
            }
            pool.work(rt, gate);
            pool.outs(rt)
        },
    )
}

/// As `run_sessions`, where `N` has the jobs.
fn run<J: Job + Send, N: Opening<J> + Send + Sync, G: Gate + Sync, R: Threads + Wait + Sync>(
    rt: &R,
    alloc: Global,
    workers: usize,
    jobs: Vec<J>,
    gate: &G,
) -> Result<Vec<J::Out>, Fault>
where
    J::Out: Drop + Send,
    requires { jobs.items ≡ N.jobs }
    ensures err { IfErr result (λ e. e ≡ OutOfMemory) }
    ensures count { IfOk result (λ outs. vec_len outs ≡ length N.jobs) }
    ensures each { IfOk result (λ outs. AreKept (KeepsPromise J.promised J.numbered J.tells) N.jobs outs.items) }
{
    let outs = Vec::with_capacity(alloc, jobs.len())?;
    if jobs.is_empty() {
        return Ok(outs);
    }
    let pool: Pool<J, N> = Pool::new(rt, alloc, jobs, workers <= 1)?;
    let there = serve(rt, workers, &pool, gate)?;
    Ok(gather(there, outs))
}

/// Makes the steps of these jobs, each job's in its order and the jobs side by side: on this thread
/// and on up to `workers - 1` further ones. A thread that cannot be started is left out; all are
/// joined before it answers.
///
/// A worker makes a step once its slots are its own, between `gate.before` and `gate.after`, and
/// then lets the slots go; where it is the only one, they are its own with no look at the latches.
/// It makes up to 16 steps of a job in a row while others are ready. The command of a step has the
/// number of its job times 2^32, plus the number of the step from 0, modulo 2^32.
///
/// It waits until each job has its result, and gives the results in the order of the jobs: each is
/// what its job promised, and tells its number. No two jobs may have one number, since the latches
/// could not tell their commands apart. `OutOfMemory`, also where a job is refused memory for its
/// slots, is the only refusal: then the jobs and the results so far are dropped.
pub fn run_sessions<J: Job + Send, G: Gate + Sync, R: Threads + Wait + Sync>(
    rt: &R,
    alloc: Global,
    workers: usize,
    jobs: Vec<J>,
    gate: &G,
) -> Result<Vec<J::Out>, Fault>
where
    J::Out: Drop + Send,
    requires distinct { AreDistinct J.numbered jobs.items }
    ensures err { IfErr result (λ e. e ≡ OutOfMemory) }
    ensures count { IfOk result (λ outs. vec_len outs ≡ vec_len jobs) }
    ensures each { IfOk result (λ outs. AreKept (KeepsPromise J.promised J.numbered J.tells) jobs.items outs.items) }
{
    run::<J, Brand, G, R>(rt, alloc, workers, jobs, gate)
}
