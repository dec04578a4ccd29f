//! A plan that is stale three times is made under the lock: another thread reads, at timestamps
//! that rise, whenever a request has looked at its key.
pub mod key_chase;

use crate::store_tests::chase::key_chase::Chase;
use crate::store_tests::parts::Task;
use crate::store_tests::plays;
use std::alloc::Global;
use std::sync::{Arc, Wait};
use std::test::Fail;
use std::thread::Threads;
use tx_cells::Fresh;
use tx_flat::FlatCells;
use tx_harness::Watched;
use tx_nested::NestedCells;

/// How often a look at a key looks for reads.
const TURNS: u64 = 10_000_000;

// Whether three copies were planned of, and then the region.
fn plans_under_the_lock<F: Fresh + Send, R: Threads + Wait + Sync>(
    rt: &R,
    alloc: Global,
) -> Option<bool> {
    let chase = Arc::new(alloc, Chase::new(TURNS)).ok()?;
    let both = &[
        (Task::Prewrite(&chase), 1, 1),
        (Task::ReadOn(&chase), u64::MAX, 0),
    ];
    let goes_well = plays::<Watched<F, Chase>, _, _>(rt, alloc, b"m", &chase, (both, &[]));
    let looks = chase.looks();
    drop(chase);
    Some(goes_well == Some(true) && looks == 4)
}

#[test]
fn the_third_stale_plan_is_the_last(rt: HostRuntime) -> Result<(), Fail> {
    assert_eq!(rt;
        plans_under_the_lock::<NestedCells, _>(&rt, rt.alloc()),
        Some(true)
    );
    assert_eq!(rt;
        plans_under_the_lock::<FlatCells, _>(&rt, rt.alloc()),
        Some(true)
    );
    Ok(())
}
