//! Requests that are planned outside a region, of a copy, while others are taken.
mod planner;
mod refusals;
mod scenarios;
mod sessions;

use crate::planning_tests::refusals::Failing;
use crate::planning_tests::scenarios::{REFUSALS, Refusal, SCENARIOS, Scenario};
use crate::planning_tests::sessions::{Step, played};
use crate::table_tests::short::{Short, is};
use std::alloc::Global;
use std::marker::Brand;
use std::sync::Arc;
use std::test::Fail;
use tx_cells::{Families, Fresh, Makes, Plain};
use tx_flat::FlatCells;
use tx_harness::Watched;
use tx_journal::Opened;
use tx_nested::NestedCells;

// Whether all is heard so, what was held last is answered so, and so many plans were stale and
// copies refused.
fn holds_over<F: Families + Drop, M: Makes<F>>(
    alloc: Global,
    make: &M,
    steps: (&[Step], &[Step]),
    between: Short,
    (stales, refused): (u32, u32),
) -> bool {
    let Ok(opened) = Opened::new(alloc, Vec::new(alloc), 5) else {
        return false;
    };
    match played::<Brand, F, M>(alloc, opened, make, steps) {
        Some((right, heard, stale, none)) => {
            right && is(heard, between) && stale == stales && none == refused
        }
        None => false,
    }
}

fn holds<F: Fresh>(alloc: Global, scenario: &Scenario) -> bool {
    let (first, then, between, stales) = *scenario;
    holds_over::<F, Plain>(alloc, &Plain, (first, then), between, (stales, 0))
}

#[test]
fn plans_are_applied_where_they_are_right(rt: HostRuntime) -> Result<(), Fail> {
    for (place, scenario) in SCENARIOS.iter().enumerate() {
        assert!(rt;
            holds::<NestedCells>(rt.alloc(), scenario),
            "scenario {place}"
        );
        assert!(rt;
            holds::<FlatCells>(rt.alloc(), scenario),
            "scenario {place}"
        );
    }
    Ok(())
}

// Whether the steps are heard so where the Nth call of the families is refused memory.
fn fails_well<F: Fresh>(alloc: Global, refusal: &Refusal) -> bool {
    let (number, first, then, between, refused) = *refusal;
    let Ok(failing) = Arc::new(alloc, Failing::new(number)) else {
        return false;
    };
    let counts = (0, refused);
    holds_over::<Watched<F, Failing>, _>(alloc, &failing, (first, then), between, counts)
}

// Each refusal of memory leaves all as it was.
#[test]
fn refused_plans_leave_all(rt: HostRuntime) -> Result<(), Fail> {
    for (place, refusal) in REFUSALS.iter().enumerate() {
        assert!(rt;
            fails_well::<NestedCells>(rt.alloc(), refusal),
            "refusal {place}"
        );
        assert!(rt;
            fails_well::<FlatCells>(rt.alloc(), refusal),
            "refusal {place}"
        );
    }
    Ok(())
}
