//! Two workers are between the two calls of the gate at once in steps of two slots, and never in
//! steps of one.
use super::transfers::answers_of;
use std::alloc::Global;
use std::sync::Wait;
use std::sync::atomic::{AtomicU64, Ordering};
use std::test::Fail;
use std::thread;
use std::thread::Threads;
use std::time::{Clock, Duration};
use tx_flat::FlatCells;
use tx_latch::Cid;
use tx_run::{Plain, Settings, run_script};
use tx_sched::Gate;
use tx_text::Broken;

/// Each session makes four steps, of which the last locks its key.
static TWO_KEYS: &str = "[\"regions\",[\"b\"]]
[\"begin\",\"A\"]\n[\"put\",\"A\",\"a\",\"1\"]\n[\"declare\",\"A\",\"two-phase\",9]\n[\"prewrite\",\"A\"]
[\"begin\",\"B\"]\n[\"put\",\"B\",\"b\",\"2\"]\n[\"declare\",\"B\",\"two-phase\",9]\n[\"prewrite\",\"B\"]\n";

static ONE_KEY: &str = "[\"regions\",[\"b\"]]
[\"begin\",\"A\"]\n[\"put\",\"A\",\"a\",\"1\"]\n[\"declare\",\"A\",\"two-phase\",9]\n[\"prewrite\",\"A\"]
[\"begin\",\"B\"]\n[\"put\",\"B\",\"a\",\"2\"]\n[\"declare\",\"B\",\"two-phase\",9]\n[\"prewrite\",\"B\"]\n";

/// The last step of each session locks a key of its own, while one has the other's key in its
/// buffer too.
static TWO_IN_ONE_BUFFER: &str = "[\"regions\",[\"b\"]]
[\"begin\",\"A\"]\n[\"put\",\"A\",\"a\",\"1\"]\n[\"put\",\"A\",\"b\",\"1\"]\n[\"declare\",\"A\",\"two-phase\",9]\n[\"prewrite\",\"A\"]
[\"begin\",\"B\"]\n[\"put\",\"B\",\"b\",\"2\"]\n[\"put\",\"B\",\"b\",\"3\"]\n[\"declare\",\"B\",\"two-phase\",9]\n[\"prewrite\",\"B\"]\n";

// Which gate calls of the two last steps came, and in which order.
#[derive(Drop)]
struct Watch<R: Clock> {
    rt: R,
    // The number of the last step of each session.
    last: u64,
    // How often a call of `before` waits for what it waits for.
    turns: u32,
    // Whether a call waits for the other's call, or only lets time pass.
    meets: bool,
    first: AtomicU64,
    second: AtomicU64,
    // How many of the two are between their two calls, and whether both once were.
    inside: AtomicU64,
    met: AtomicU64,
}

impl<R: Clock> Watch<R> {
    fn new(rt: R, last: u64, turns: u32, meets: bool) -> Watch<R> {
        Watch {
            rt,
            last,
            turns,
            meets,
            first: AtomicU64::new(0),
            second: AtomicU64::new(0),
            inside: AtomicU64::new(0),
            met: AtomicU64::new(0),
        }
    }

    // How many calls of `before` came.
    fn came(&self) -> u64 {
        self.first
            .load(Ordering::SeqCst)
            .wrapping_add(self.second.load(Ordering::SeqCst))
    }

    fn has_met(&self) -> bool {
        self.met.load(Ordering::SeqCst) == 1
    }

    // Whether this is a session's last step.
    fn is_last(&self, cid: Cid) -> bool {
        cid.get() & 0xFFFF_FFFF == self.last
    }
}

impl<R: Clock> Gate for Watch<R> {
    fn before(&self, cid: Cid) {
        if !self.is_last(cid) {
            return;
        }
        let is_first = self.came() == 0;
        if cid.get() >> 32 == 0 {
            self.first.store(1, Ordering::SeqCst);
        } else {
            self.second.store(1, Ordering::SeqCst);
        }
        if self.inside.fetch_add(1, Ordering::SeqCst) != 0 {
            self.met.store(1, Ordering::SeqCst);
        }
        for _ in 0..self.turns {
            if self.meets && self.came() == 2 || !self.meets && !is_first {
                break;
            }
            thread::sleep(&self.rt, Duration::from_millis(1));
        }
    }

    fn after(&self, cid: Cid) {
        if self.is_last(cid) {
            self.inside.fetch_sub(1, Ordering::SeqCst);
        }
    }
}

// Plays a script by two workers past the gate: how many lines were answered.
fn answers<R: Threads + Wait + Clock + Sync + Send + Clone + Drop>(
    watch: &Watch<R>,
    alloc: Global,
    script: &str,
) -> Result<Option<usize>, Broken> {
    let mut reader = script.as_bytes();
    let mut text = Vec::new(alloc);
    let played = run_script::<FlatCells, _, _, _, _, _>(
        &watch.rt,
        alloc,
        Settings::new(2),
        &Plain,
        watch,
        &mut reader,
        &mut text,
    );
    drop(text);
    let (_, played) = played?;
    let count = played.as_ref().map(|played| answers_of(played));
    drop(played);
    Ok(count)
}

#[test]
fn two_sessions_make_two_steps_at_once(rt: HostRuntime) -> Result<(), Fail> {
    let alloc: Global = rt.alloc();
    let watch = Watch::new(rt, 3, 10_000, true);
    let count = answers(&watch, alloc, TWO_KEYS)?;
    assert_eq!(&watch.rt; count, Some(9));
    assert_eq!(&watch.rt; watch.came(), 2);
    assert!(&watch.rt; watch.has_met());
    Ok(())
}

#[test]
fn a_step_asks_for_its_own_key_alone(rt: HostRuntime) -> Result<(), Fail> {
    let alloc: Global = rt.alloc();
    let watch = Watch::new(rt, 4, 10_000, true);
    let count = answers(&watch, alloc, TWO_IN_ONE_BUFFER)?;
    assert_eq!(&watch.rt; count, Some(11));
    assert_eq!(&watch.rt; watch.came(), 2);
    assert!(&watch.rt; watch.has_met());
    Ok(())
}

#[test]
fn one_key_keeps_two_steps_apart(rt: HostRuntime) -> Result<(), Fail> {
    let alloc: Global = rt.alloc();
    let watch = Watch::new(rt, 3, 200, false);
    let count = answers(&watch, alloc, ONE_KEY)?;
    assert_eq!(&watch.rt; count, Some(9));
    assert_eq!(&watch.rt; watch.came(), 2);
    assert!(&watch.rt; !watch.has_met());
    Ok(())
}
