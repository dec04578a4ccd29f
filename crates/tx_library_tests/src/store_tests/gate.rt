//! Two threads are inside the look-ups of two regions at once, and never inside those of one.
use crate::calls::Op::{Declare, Prewrite, Put};
use crate::clients::Call;
use crate::store_tests::parts::{Part, Task};
use crate::store_tests::plays;
use std::alloc::Global;
use std::sync::{Arc, Wait};
use std::test::Fail;
use std::thread::Threads;
use tx_harness::{Rendezvous, Watched};
use tx_nested::NestedCells;
use tx_types::Mode::TwoPhase;

const LOCK_A: &[Call<'_>] = &[
    (Put(b"a", b"1"), "ok"),
    (Declare(TwoPhase, None), "ok"),
    (Prewrite, "prewritten"),
];

const LOCK_B: &[Call<'_>] = &[
    (Put(b"b", b"1"), "ok"),
    (Declare(TwoPhase, None), "ok"),
    (Prewrite, "prewritten"),
];

// Whether the look-ups of two threads that lock `a` and `b` met, with this key between the regions
// and within so many turns.
fn meet<R: Threads + Wait + Sync>(
    rt: &R,
    alloc: Global,
    turns: u64,
    between: &[u8],
) -> Option<bool> {
    let rendezvous = Arc::new(alloc, Rendezvous::new(turns)).ok()?;
    let locks: &[Part<'_>] = &[(Task::Play(LOCK_A), 1, 1), (Task::Play(LOCK_B), 1, 1)];
    let both = plays::<Watched<NestedCells, Rendezvous>, _, _>(
        rt,
        alloc,
        between,
        &rendezvous,
        (locks, &[]),
    );
    let came = rendezvous.is_complete();
    let met = rendezvous.has_met();
    drop(rendezvous);
    if both == Some(true) && came {
        Some(met)
    } else {
        None
    }
}

#[test]
fn two_regions_look_up_at_once(rt: HostRuntime) -> Result<(), Fail> {
    assert_eq!(rt; meet(&rt, rt.alloc(), 1_000_000_000, b"b"), Some(true));
    Ok(())
}

#[test]
fn one_region_looks_up_once_at_a_time(rt: HostRuntime) -> Result<(), Fail> {
    assert_eq!(rt; meet(&rt, rt.alloc(), 100_000, b"m"), Some(false));
    Ok(())
}
