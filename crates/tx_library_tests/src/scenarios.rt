//! Small scenarios. What comes of each step is told by docs/PROTOCOL.md: locks live for 10 ticks,
//! and the keys 4 and 7 lie between the regions.
mod reader;
mod region_memory;
mod resolver;
mod session_memory;
mod short_seats;

use crate::harness::{Step, run};
use std::alloc::Global;
use std::sync::Wait;
use std::test::Fail;

/// A name, and the steps.
pub type Scenario = (&'static str, &'static [Step]);

// The name of the first of these that does not come out as it says.
fn first_wrong<R: Wait>(rt: &R, alloc: Global, scenarios: &[Scenario]) -> Option<&'static str> {
    for (name, steps) in scenarios {
        match run(rt, alloc, steps) {
            Some((right, _)) if right == steps.len() => {}
            _ => return Some(*name),
        }
    }
    None
}

// And of all.
fn first_wrong_of_all<R: Wait>(rt: &R, alloc: Global) -> Option<&'static str> {
    first_wrong(rt, alloc, reader::SCENARIOS)
        .or(first_wrong(rt, alloc, region_memory::SCENARIOS))
        .or(first_wrong(rt, alloc, resolver::SCENARIOS))
        .or(first_wrong(rt, alloc, short_seats::SCENARIOS))
        .or(first_wrong(rt, alloc, session_memory::SCENARIOS))
}

#[test]
fn steps_come_out_as_they_say(rt: HostRuntime) -> Result<(), Fail> {
    assert_eq!(rt; first_wrong_of_all(&rt, rt.alloc()), None);
    Ok(())
}
