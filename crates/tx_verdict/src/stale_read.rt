//! A write behind another one that is told as what it rests on: the first had read, and had not
//! seen what the second wrote.
ghost use Rattle.std.specs.Prelude.{IfOk, IfSome};
ghost use Rattle.tx_history.specs.Records.{IsRecorded};
ghost use Rattle.tx_verdict.specs.Cases.{IsCase};
ghost use Rattle.tx_verdict.specs.Steps.{IsStep, AreSteps};

use crate::anomaly::is_rw;
use crate::case::Case;
use crate::ground::{Behind, Ground, is_step_by};
use crate::steps::{beside_of, push_step};
use crate::verdict::{Beside, CycleStep, EdgeKind};
use crate::versions::{Base, Versions};
use std::alloc::{AllocError, Global};

// Why who saw a key in the view at a place did not see what was written behind that.
fn ground_at(versions: &Versions, place: usize) -> Option<Ground>
    requires { IsRecorded versions.now.recorded }
{
    let view = u32::try_from(place).ok()?;
    let read = *versions.recorded.reads.get(place)?;
    if read.version == 0 {
        return Some(Ground::Nothing(view));
    }
    let writers = versions.recorded.writers_of(read.key as usize);
    let writer = *writers.get(read.version as usize - 1)?;
    Some(Ground::Missed(view, writer, Behind::Row(read.key, read.version)))
}

// The step of two of which the first had read a key, and had not seen what the second wrote there.
fn missed(
    alloc: Global,
    case: &Case<'_>,
    versions: &Versions,
    from: u32,
    to: u32,
) -> Result<Option<CycleStep>, AllocError>
    requires case { IsCase case.now }
    requires history { IsRecorded versions.now.recorded }
    ensures { IfOk result (λ found. IfSome found (IsStep case.now.recording.now case.now.question.orders)) }
{
    for i in 0..case.views.len() {
        if case.views[i].txn != from {
            continue;
        }
        let Some(ground) = ground_at(versions, i) else {
            continue;
        };
        let step = CycleStep {
            from,
            edge: EdgeKind::Rw,
            key: Some(case.views[i].key),
            to,
        };
        if is_step_by(alloc, case, versions, &[], step, ground)? {
            return Ok(Some(step));
        }
    }
    Ok(None)
}

// The place of the second of two writers, where it is next to the first.
fn place_in(writers: &[u32], first: u32, second: u32) -> Option<usize> {
    for i in 1..writers.len() {
        if writers[i - 1] == first && writers[i] == second {
            return Some(i);
        }
    }
    None
}

// Whether nobody saw that the second of two that wrote a key wrote behind the first: it is none of
// those that wrote before.
fn is_inferred(versions: &Versions, step: CycleStep) -> bool
    requires { IsRecorded versions.now.recorded }
{
    for chain in 0..versions.names.len() {
        if step.key != Some(versions.names[chain]) {
            continue;
        }
        let writers = versions.recorded.writers_of(chain);
        if let Some(place) = place_in(writers, step.from, step.to) {
            return versions.base_of(chain, place) == Base::Blind;
        }
    }
    false
}

// Whether a step may be told as a read that missed a write, where one that needs an order beside
// reads and writes may.
fn may_be_told(versions: &Versions, step: CycleStep, beside: Beside) -> bool
    requires { IsRecorded versions.now.recorded }
{
    if step.edge != EdgeKind::Ww {
        return false;
    }
    match beside {
        Beside::Nothing => is_inferred(versions, step),
        Beside::Processes | Beside::Clock => true,
    }
}

// How a step is told: as an anti-dependency, if it may be told so, and is one as well.
fn told_step(
    alloc: Global,
    case: &Case<'_>,
    versions: &Versions,
    step: CycleStep,
    may: bool,
) -> Result<CycleStep, AllocError>
    requires case { IsCase case.now }
    requires history { IsRecorded versions.now.recorded }
    requires step { IsStep case.now.recording.now case.now.question.orders step }
    ensures { IfOk result (IsStep case.now.recording.now case.now.question.orders) }
{
    if !may {
        return Ok(step);
    }
    let CycleStep { from, to, .. } = step;
    match missed(alloc, case, versions, from, to)? {
        Some(found) => Ok(found),
        None => Ok(step),
    }
}

/// The steps of a cycle, of which the first that can be is told as an anti-dependency, where none
/// is one: of two writers of which the first had read a key, and had not seen what the second wrote
/// there. Where somebody saw that the second wrote right behind the first, that stays, unless the
/// cycle needs an order of processes or of the clock.
pub(crate) fn with_stale_read(
    alloc: Global,
    case: &Case<'_>,
    versions: &Versions,
    steps: &[CycleStep],
) -> Result<Vec<CycleStep>, AllocError>
    requires case { IsCase case.now }
    requires history { IsRecorded versions.now.recorded }
    requires steps { AreSteps case.now.recording.now case.now.question.orders steps.now }
    ensures { IfOk result (λ told. AreSteps case.now.recording.now case.now.question.orders told.items) }
{
    let mut told = Vec::new(alloc);
    let beside = beside_of(steps);
    let mut open = steps.len() > 1 && !steps.iter().any(|step| is_rw(step));
    for i in 0..steps.len() {
        let may = open && may_be_told(versions, steps[i], beside);
        let step = told_step(alloc, case, versions, steps[i], may)?;
        open = open && step == steps[i];
        push_step(&mut told, Some(step))?;
    }
    Ok(told)
}
