//! The first looks at two keys, in two regions, meet.

use super::transfers::answers_of;
use std::alloc::Global;
use std::sync::{Arc, Wait};
use std::test::Fail;
use std::thread::Threads;
use tx_harness::{Rendezvous, Watched};
use tx_nested::NestedCells;
use tx_run::{Settings, run_script};
use tx_sched::Open;
use tx_text::Broken;

/// A session locks a key of the first region, and another one of the second.
static TWO_REGIONS: &str = "[\"regions\",[\"b\"]]
[\"begin\",\"A\"]\n[\"put\",\"A\",\"a\",\"1\"]\n[\"declare\",\"A\",\"two-phase\",9]\n[\"prewrite\",\"A\"]
[\"begin\",\"B\"]\n[\"put\",\"B\",\"b\",\"2\"]\n[\"declare\",\"B\",\"two-phase\",9]\n[\"prewrite\",\"B\"]\n";

// Plays it by two workers: how many lines were answered.
fn answers<R: Threads + Wait + Sync + Send + Clone + Drop>(
    rt: &R,
    alloc: Global,
    rendezvous: &Arc<Rendezvous>,
) -> Result<Option<usize>, Broken> {
    let mut reader = TWO_REGIONS.as_bytes();
    let mut text = Vec::new(alloc);
    let played = run_script::<Watched<NestedCells, Rendezvous>, _, _, _, _, _>(
        rt,
        alloc,
        Settings::new(2),
        rendezvous,
        &Open,
        &mut reader,
        &mut text,
    );
    drop(text);
    let (_, played) = played?;
    let count = played.as_ref().map(|played| answers_of(played));
    drop(played);
    Ok(count)
}

#[test]
fn two_regions_are_written_at_once(rt: HostRuntime) -> Result<(), Fail> {
    let alloc: Global = rt.alloc();
    let rendezvous = Arc::new(alloc, Rendezvous::new(1_000_000_000))?;
    let count = answers(&rt, alloc, &rendezvous)?;
    assert_eq!(rt; count, Some(9));
    assert!(rt; rendezvous.is_complete() && rendezvous.has_met());
    Ok(())
}
