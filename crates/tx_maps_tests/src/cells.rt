//! The same scenarios on every representation of the families.
mod asks;
mod finds;
mod scenarios;
mod steps;

use scenarios::{LONG_VALUE, MARKS, PASSED, SCANS, SURVIVORS};
use std::alloc::Global;
use steps::{Step, goes, steps_that_go};
use tx_cells::Families;
use tx_flat::FlatCells;
use tx_nested::NestedCells;

/// A name, and the steps.
type Scenario = (&'static str, &'static [Step]);

const SCENARIOS: [Scenario; 5] = [
    ("long values", &LONG_VALUE),
    ("marks", &MARKS),
    ("scans", &SCANS),
    ("keys passed", &PASSED),
    ("survivors", &SURVIVORS),
];

/// How many versions one key has.
const VERSIONS: u64 = 20_000;

/// Of the nth version: the timestamps of its transaction, and how many bytes its value has.
fn version(n: u64) -> (u64, u64, usize) {
    let start = n.wrapping_mul(2);
    (start, start.wrapping_add(1), (n % 250) as usize)
}

fn commits<F: Families>(alloc: Global, families: &mut F, n: u64) -> bool {
    let (start, commit, bytes) = version(n);
    goes(alloc, families, Step::Put((b'k', start), bytes))
        && goes(alloc, families, Step::Commit((b'k', start), commit))
}

// A read at the commit timestamp sees the version, and so does one right before the next.
fn sees<F: Families>(alloc: Global, families: &mut F, n: u64) -> bool {
    let (_, commit, bytes) = version(n);
    goes(alloc, families, Step::Sees((b'k', commit), bytes))
        && goes(
            alloc,
            families,
            Step::Sees((b'k', commit.wrapping_add(1)), bytes),
        )
}

// Whether each of many versions of one key is found.
fn finds_versions<F: Families>(alloc: Global, families: &mut F) -> bool {
    (1..=VERSIONS).all(|n| commits(alloc, families, n))
        && (1..=VERSIONS / 20).all(|n| sees(alloc, families, n.wrapping_mul(20)))
        && goes(alloc, families, Step::SeesNone((b'k', 2)))
}

// How many steps go as the rules say, on families that hold nothing.
fn go<F: Families + Drop>(alloc: Global, mut families: F, steps: &[Step]) -> usize {
    let went = steps_that_go(alloc, &mut families, steps);
    drop(families);
    went
}

#[test]
fn scenarios_on_nested_maps(rt: HostRuntime) {
    for (name, steps) in SCENARIOS {
        let nested = NestedCells::new(rt.alloc());
        assert_eq!(rt; go(rt.alloc(), nested, steps), steps.len(), "{name}");
    }
}

#[test]
fn scenarios_on_flat_maps(rt: HostRuntime) {
    for (name, steps) in SCENARIOS {
        let flat = FlatCells::new(rt.alloc());
        assert_eq!(rt; go(rt.alloc(), flat, steps), steps.len(), "{name}");
    }
}

// Whether each of many versions of one key is found in families that hold nothing.
fn has_versions<F: Families + Drop>(alloc: Global, mut families: F) -> bool {
    let found = finds_versions(alloc, &mut families);
    drop(families);
    found
}

#[test]
fn versions_in_nested_maps(rt: HostRuntime) {
    assert!(rt; has_versions(rt.alloc(), NestedCells::new(rt.alloc())));
}

#[test]
fn versions_in_flat_maps(rt: HostRuntime) {
    assert!(rt; has_versions(rt.alloc(), FlatCells::new(rt.alloc())));
}
