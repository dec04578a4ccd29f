//! The names of cycles.
ghost use Rattle.std.specs.Prelude.{◌≡◌, ◌≤◌, ◌↔◌, Option, IsTrue};
ghost use Rattle.tx_verdict.specs.Anomalies.{IsNamed, is_rw, is_wr, skews_of, reads_of};

use crate::steps::are_apart;
use crate::verdict::{CycleStep, EdgeKind};

/// The anomaly of a cycle, by Adya's names.
#[derive(Clone, Copy, Debug, PartialEq, Eq)]
pub enum Anomaly {
    /// Nothing that was read is part of it: a dirty write.
    G0,
    /// No anti-dependency (`Rw`) is part of it, but a read: circular information flow.
    G1c,
    /// Two transactions changed a key, of which one had not seen the other's change.
    LostUpdate,
    /// One anti-dependency: read skew.
    GSingle,
    /// Two readers saw two writes in two orders.
    LongFork,
    /// Two or more anti-dependencies, no two of them one after the other.
    GNonadjacent,
    /// Two anti-dependencies one after the other, as in a write skew.
    G2Item,
}

/// Whether it is an anti-dependency.
pub(crate) fn is_rw(step: &CycleStep) -> bool
    ensures { result ≡ is_rw step.now }
{
    match step.edge {
        EdgeKind::Rw => true,
        EdgeKind::Ww | EdgeKind::Wr | EdgeKind::So | EdgeKind::Rt => false,
    }
}

// Whether the second saw what the first put.
fn is_wr(step: &CycleStep) -> bool
    ensures { result ≡ is_wr step.now }
{
    match step.edge {
        EdgeKind::Wr => true,
        EdgeKind::Ww | EdgeKind::Rw | EdgeKind::So | EdgeKind::Rt => false,
    }
}

// Whether two keys are one.
fn is_same(one: Option<u32>, other: Option<u32>) -> bool
    ensures { IsTrue result ↔ (one ≡ other) }
{
    match (one, other) {
        (Some(first), Some(second)) => first == second,
        (None, None) => true,
        (Some(_), None) | (None, Some(_)) => false,
    }
}

// The name where there are so many anti-dependencies, two or more, and so many reads.
fn name_of_many(steps: &[CycleStep], rw: usize, wr: usize) -> Anomaly
    requires skews { skews_of steps.now ≡ rw }
    requires reads { reads_of steps.now ≡ wr }
    requires many { 2 ≤ rw }
    ensures { IsNamed steps.now result }
{
    if !are_apart(steps) {
        return Anomaly::G2Item;
    }
    if rw == 2 && wr == 2 && steps.len() == 4 {
        return Anomaly::LongFork;
    }
    Anomaly::GNonadjacent
}

/// The name of the anomaly that a cycle of these steps is.
pub(crate) fn anomaly_of(steps: &[CycleStep]) -> Anomaly
    ensures { IsNamed steps.now result }
{
    let rw = steps.iter().filter(|step| is_rw(step)).count();
    let wr = steps.iter().filter(|step| is_wr(step)).count();
    if rw == 0 {
        return if wr == 0 { Anomaly::G0 } else { Anomaly::G1c };
    }
    if rw == 1 {
        if steps.len() == 2 && is_same(steps[0].key, steps[1].key) {
            return Anomaly::LostUpdate;
        }
        return Anomaly::GSingle;
    }
    name_of_many(steps, rw, wr)
}
