ghost use Rattle.std.specs.Prelude.{◌≡◌, ◌<◌, ℕ, Some, IfOk, length, slice_get};

use std::alloc::Global;
use std::sync::atomic::{AtomicU64, Ordering};
use std::test::Fail;
use std::thread;
use std::time::{Clock, Duration};
use tx_latch::{Cid, Slot};
use tx_sched::*;
use tx_types::Fault;

// Counts down, and then gives its number and what it began with.
#[derive(Drop)]
struct Count {
    number: u32,
    slot: u8,
    from: u32,
    made: u32,
}

#[derive(Drop)]
struct Counted {
    number: u32,
    made: u32,
}

impl Job for Count {
    ghost use Rattle.std.specs.Prelude.{◌≡◌};

    type Out = Counted;

    ghost numbered = { λ j. j.number };

    ghost tells = { λ o. o.number };

    ghost promised = { λ j o. o.made ≡ j.from };

    fn number(&self) -> u32 {
        self.number
    }

    fn slots(&self, slots: &mut Vec<Slot>) -> Result<(), Fault> {
        slots.push(Slot::new(self.slot))?;
        slots.push(Slot::new(self.slot.wrapping_mul(7)))?;
        Ok(())
    }

    fn step(&mut self) -> Turn<Counted> {
        if self.made >= self.from {
            return Turn::Done(Counted {
                number: self.number,
                made: self.from,
            });
        }
        self.made += 1;
        Turn::More
    }
}

// A job for each row, numbered from 0: its slot, and how many steps it makes before its last.
fn jobs_of(alloc: Global, rows: &[(u8, u32)]) -> Result<Vec<Count>, Fail>
    requires { length rows.now < 100 }
    ensures { IfOk result (λ jobs. (k : ℕ) (job : Count) → slice_get jobs.items k ≡ Some job → job.number ≡ k) }
{
    let mut jobs = Vec::new(alloc);
    let mut number = 0u32;
    for (slot, from) in rows {
        jobs.push(Count {
            number,
            slot: *slot,
            from: *from,
            made: 0,
        })?;
        number += 1;
    }
    Ok(jobs)
}

// Whether there is a result for each row, in their order.
fn are_results(outs: &[Counted], rows: &[(u8, u32)]) -> bool {
    let mut are_all = outs.len() == rows.len();
    let mut number = 0u32;
    for out in outs {
        let is_next = out.number == number;
        let is_made = rows
            .get(number as usize)
            .is_some_and(|row| row.1 == out.made);
        are_all = are_all && is_next && is_made;
        number = number.wrapping_add(1);
    }
    are_all
}

#[test]
fn each_job_gives_its_result(rt: HostRuntime) -> Result<(), Fail> {
    let alloc: Global = rt.alloc();
    let rows = [(0, 10), (1, 11), (2, 40), (0, 13), (1, 0), (2, 15), (0, 1)];
    let outs = run_sessions(&rt, alloc, 3, jobs_of(alloc, &rows)?, &Open)?;
    let are_all = are_results(outs.as_slice(), &rows);
    drop(outs);
    assert!(rt; are_all);
    Ok(())
}

// Which gate calls of two commands came, and in which order.
#[derive(Drop)]
struct Watch<R: Clock> {
    rt: R,
    // How often a call of `before` waits for what it waits for.
    turns: u32,
    // Whether a call waits for the other's call, or only lets time pass.
    meets: bool,
    first: AtomicU64,
    second: AtomicU64,
    // How many commands are between their two calls, and whether two once were.
    inside: AtomicU64,
    met: AtomicU64,
}

impl<R: Clock> Watch<R> {
    // How many calls of `before` came.
    fn came(&self) -> u64 {
        self.first
            .load(Ordering::SeqCst)
            .wrapping_add(self.second.load(Ordering::SeqCst))
    }
}

impl<R: Clock> Gate for Watch<R> {
    fn before(&self, cid: Cid) {
        let is_first = self.came() == 0;
        if cid.get() >> 32 == 0 {
            self.first.store(1, Ordering::SeqCst);
        } else {
            self.second.store(1, Ordering::SeqCst);
        }
        if self.inside.fetch_add(1, Ordering::SeqCst) != 0 {
            self.met.store(1, Ordering::SeqCst);
        }
        for _ in 0..self.turns {
            if self.meets && self.came() == 2 || !self.meets && !is_first {
                break;
            }
            thread::sleep(&self.rt, Duration::from_millis(1));
        }
    }

    fn after(&self, _cid: Cid) {
        self.inside.fetch_sub(1, Ordering::SeqCst);
    }
}

#[test]
fn two_workers_make_two_steps_at_once(rt: HostRuntime) -> Result<(), Fail> {
    let alloc: Global = rt.alloc();
    let watch = Watch {
        rt,
        turns: 10_000,
        meets: true,
        first: AtomicU64::new(0),
        second: AtomicU64::new(0),
        inside: AtomicU64::new(0),
        met: AtomicU64::new(0),
    };
    let outs = run_sessions(
        &watch.rt,
        alloc,
        2,
        jobs_of(alloc, &[(97, 0), (98, 0)])?,
        &watch,
    )?;
    assert_eq!(&watch.rt; outs.len(), 2);
    assert_eq!(&watch.rt; watch.met.load(Ordering::SeqCst), 1);
    Ok(())
}

#[test]
fn one_slot_keeps_two_steps_apart(rt: HostRuntime) -> Result<(), Fail> {
    let alloc: Global = rt.alloc();
    let watch = Watch {
        rt,
        turns: 200,
        meets: false,
        first: AtomicU64::new(0),
        second: AtomicU64::new(0),
        inside: AtomicU64::new(0),
        met: AtomicU64::new(0),
    };
    let outs = run_sessions(
        &watch.rt,
        alloc,
        2,
        jobs_of(alloc, &[(97, 0), (97, 0)])?,
        &watch,
    )?;
    assert_eq!(&watch.rt; outs.len(), 2);
    assert_eq!(&watch.rt; watch.came(), 2);
    assert_eq!(&watch.rt; watch.met.load(Ordering::SeqCst), 0);
    Ok(())
}
