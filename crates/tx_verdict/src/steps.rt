//! The steps of a cycle.
ghost use Rattle.std.specs.Prelude.{◌≡◌, ◌≢◌, ◌⊎◌, ◌+◌, ◌-◌, ◌<◌, Contains, Some, OnOk, IfOk, IfSome, IsTrue, true, false};
ghost use Rattle.tx_recording.specs.declared.recording.Orders.{Orders};
ghost use Rattle.tx_history.specs.declared.dependency.Dependency.{Dependency};
ghost use Rattle.tx_history.specs.Dependencies.{Depends};
ghost use Rattle.tx_history.specs.Records.{IsRecorded, history_of};
ghost use Rattle.tx_verdict.specs.declared.verdict.CycleStep.{CycleStep};
ghost use Rattle.tx_verdict.specs.declared.verdict.EdgeKind.TheVariants.{Rw, So, Rt};
ghost use Rattle.tx_verdict.specs.Forced.{AreForced, key_of};
ghost use Rattle.tx_verdict.specs.Steps.{IsEdgeFor, IsStep, AreSteps, AreRound, AreApart, AreOfTwo, Forbids, HasStep, Needs};

use crate::anti_dependency::anti_dependency;
use crate::pairs::{is_earlier, is_session};
use crate::question::{Level, Question};
use crate::verdict::{Beside, CycleStep, EdgeKind};
use crate::versions::Versions;
use std::alloc::{AllocError, Global};
use tx_history::{Dependency, DependencyKind};
use tx_recording::{Orders, Recording};

// The edge of a dependency by reads and writes.
fn edge_of(kind: DependencyKind) -> Option<EdgeKind>
    ensures { IfSome result (IsEdgeFor kind) }
{
    match kind {
        DependencyKind::Ww => Some(EdgeKind::Ww),
        DependencyKind::Wr => Some(EdgeKind::Wr),
        DependencyKind::Rw => Some(EdgeKind::Rw),
        DependencyKind::Own | DependencyKind::After => None,
    }
}

// The step of a dependency by reads and writes.
fn step_of(
    recording: &Recording,
    versions: &Versions,
    orders: Orders,
    dependency: Dependency,
) -> Option<CycleStep>
    requires forced { AreForced recording.now (history_of versions.now.recorded) (key_of versions.now) }
    requires holds { Depends (history_of versions.now.recorded) dependency.kind dependency.from
        dependency.to dependency.key dependency.version }
    ensures { IfSome result (IsStep recording.now orders) }
{
    let edge = edge_of(dependency.kind)?;
    if dependency.key >= versions.names.len() {
        return None;
    }
    Some(CycleStep {
        from: dependency.from,
        edge,
        key: Some(versions.names[dependency.key]),
        to: dependency.to,
    })
}

/// The step of two that a process ran one after the other.
pub(crate) fn step_in_process(
    recording: &Recording,
    orders: Orders,
    from: u32,
    to: u32,
) -> Option<CycleStep>
    ensures { IfSome result (IsStep recording.now orders) }
{
    if !orders.sessions {
        return None;
    }
    if !is_session(recording, from, to) {
        return None;
    }
    Some(CycleStep {
        from,
        edge: EdgeKind::So,
        key: None,
        to,
    })
}

/// The step of two of which the first had ended when the second began.
pub(crate) fn step_in_time(
    recording: &Recording,
    orders: Orders,
    from: u32,
    to: u32,
) -> Option<CycleStep>
    ensures { IfSome result (IsStep recording.now orders) }
{
    if !orders.strict {
        return None;
    }
    if from == to {
        return None;
    }
    if !is_earlier(recording, from, to) {
        return None;
    }
    Some(CycleStep {
        from,
        edge: EdgeKind::Rt,
        key: None,
        to,
    })
}

// The step of two of which the first did not see what the second wrote, where these come one after
// the other.
fn step_missed(
    recording: &Recording,
    versions: &Versions,
    question: Question,
    from: u32,
    to: u32,
) -> Option<CycleStep>
    requires history { IsRecorded versions.now.recorded }
    requires forced { AreForced recording.now (history_of versions.now.recorded) (key_of versions.now) }
    ensures { IfSome result (IsStep recording.now question.orders) }
{
    match question.level {
        Level::Snapshot => None,
        Level::Serializable => {
            let found = anti_dependency(&versions.recorded, from, to)?;
            step_of(recording, versions, question.orders, found)
        }
    }
}

// The step of two that come one after the other, straight or by moments of the clock.
fn step_after(
    recording: &Recording,
    versions: &Versions,
    question: Question,
    dependency: Dependency,
    began: Option<u32>,
) -> Option<CycleStep>
    requires history { IsRecorded versions.now.recorded }
    requires forced { AreForced recording.now (history_of versions.now.recorded) (key_of versions.now) }
    ensures { IfSome result (IsStep recording.now question.orders) }
{
    let (from, to) = (dependency.from, dependency.to);
    if let Some(from) = began {
        return step_in_time(recording, question.orders, from, to);
    }
    match step_missed(recording, versions, question, from, to) {
        Some(step) => Some(step),
        None => step_in_process(recording, question.orders, from, to),
    }
}

/// Adds a step, if it is one.
pub(crate) fn push_step(
    steps: &mut Vec<CycleStep>,
    step: Option<CycleStep>,
) -> Result<(), AllocError>
    ensures kept { OnOk result ((s : CycleStep) → Contains steps.new.items s
        → Contains steps.old.items s ⊎ (step ≡ Some s)) }
{
    if let Some(step) = step {
        steps.push(step)?;
    }
    Ok(())
}

// Adds the step of two that come one after the other, unless the second is a moment of the clock.
// From where a way over moments began.
fn add_after(
    steps: &mut Vec<CycleStep>,
    recording: &Recording,
    versions: &Versions,
    question: Question,
    dependency: Dependency,
    began: Option<u32>,
) -> Result<Option<u32>, AllocError>
    requires history { IsRecorded versions.now.recorded }
    requires forced { AreForced recording.now (history_of versions.now.recorded) (key_of versions.now) }
    requires steps { AreSteps recording.now question.orders steps.old.items }
    ensures { OnOk result (AreSteps recording.now question.orders steps.new.items) }
{
    if dependency.to as usize >= recording.transactions.len() {
        return Ok(Some(began.unwrap_or(dependency.from)));
    }
    let step = step_after(recording, versions, question, dependency, began);
    push_step(steps, step)?;
    Ok(None)
}

// Adds the step of a dependency, unless it is of one transaction alone.
fn add_step(
    steps: &mut Vec<CycleStep>,
    recording: &Recording,
    versions: &Versions,
    question: Question,
    dependency: Dependency,
    began: Option<u32>,
) -> Result<Option<u32>, AllocError>
    requires history { IsRecorded versions.now.recorded }
    requires forced { AreForced recording.now (history_of versions.now.recorded) (key_of versions.now) }
    requires holds { Depends (history_of versions.now.recorded) dependency.kind dependency.from
        dependency.to dependency.key dependency.version }
    requires steps { AreSteps recording.now question.orders steps.old.items }
    ensures { OnOk result (AreSteps recording.now question.orders steps.new.items) }
{
    match dependency.kind {
        DependencyKind::Own => Ok(began),
        DependencyKind::After => add_after(steps, recording, versions, question, dependency, began),
        DependencyKind::Ww | DependencyKind::Wr | DependencyKind::Rw => {
            let step = step_of(recording, versions, question.orders, dependency);
            push_step(steps, step)?;
            Ok(None)
        }
    }
}

// The first that does not come from a moment of the clock, 0 where there is none.
fn first_of(recording: &Recording, found: &[Dependency]) -> usize {
    for i in 0..found.len() {
        if (found[i].from as usize) < recording.transactions.len() {
            return i;
        }
    }
    0
}

// The place at i from the first one on, round.
fn place_from(first: usize, i: usize, count: usize) -> usize
    requires { i < count }
    ensures { result < count }
{
    let left = count - i;
    if first < left {
        return first + i;
    }
    (first - left).min(i)
}

/// The steps of a cycle, each from one transaction of the recording to another.
pub(crate) fn steps_of(
    alloc: Global,
    recording: &Recording,
    versions: &Versions,
    question: Question,
    found: &[Dependency],
) -> Result<Vec<CycleStep>, AllocError>
    requires history { IsRecorded versions.now.recorded }
    requires forced { AreForced recording.now (history_of versions.now.recorded) (key_of versions.now) }
    requires hold { (d : Dependency) → Contains found.now d
        → Depends (history_of versions.now.recorded) d.kind d.from d.to d.key d.version }
    ensures { IfOk result (λ steps. AreSteps recording.now question.orders steps.items) }
{
    let mut steps = Vec::new(alloc);
    let first = first_of(recording, found);
    let mut began = None;
    for i in 0..found.len() {
        let at = place_from(first, i, found.len());
        began = add_step(&mut steps, recording, versions, question, found[at], began)?;
    }
    Ok(steps)
}

/// Whether each step leads to where the next one begins, and the last to the first.
pub(crate) fn is_round(steps: &[CycleStep]) -> bool
    ensures { IsTrue result → AreRound steps.now }
{
    let count = steps.len();
    if count == 0 {
        return false;
    }
    for i in 1..count {
        if steps[i - 1].to != steps[i].from {
            return false;
        }
    }
    steps[count - 1].to == steps[0].from
}

// Whether two steps are anti-dependencies.
fn are_skews(one: CycleStep, other: CycleStep) -> bool
    ensures yes { IsTrue result → (one.edge ≡ Rw) × (other.edge ≡ Rw) }
    ensures no { result ≡ false → one.edge ≡ Rw → other.edge ≡ Rw → ⊥ }
{
    match one.edge {
        EdgeKind::Rw => match other.edge {
            EdgeKind::Rw => true,
            EdgeKind::Ww | EdgeKind::Wr | EdgeKind::So | EdgeKind::Rt => false,
        },
        EdgeKind::Ww | EdgeKind::Wr | EdgeKind::So | EdgeKind::Rt => false,
    }
}

/// Whether no two steps one after the other are anti-dependencies, nor the last and the first.
pub(crate) fn are_apart(steps: &[CycleStep]) -> bool
    ensures yes { IsTrue result → AreApart steps.now }
    ensures no { result ≡ false → AreApart steps.now → ⊥ }
{
    let count = steps.len();
    if count == 0 {
        return true;
    }
    for i in 1..count {
        if are_skews(steps[i - 1], steps[i]) {
            return false;
        }
    }
    if are_skews(steps[count - 1], steps[0]) {
        return false;
    }
    true
}

// Whether each step leads from one transaction to another.
fn are_of_two(steps: &[CycleStep]) -> bool
    ensures { IsTrue result → AreOfTwo steps.now }
{
    for i in 0..steps.len() {
        if steps[i].from == steps[i].to {
            return false;
        }
    }
    true
}

/// Whether a level has no round of these steps.
pub(crate) fn forbids(level: Level, steps: &[CycleStep]) -> bool
    ensures { IsTrue result → Forbids level steps.now }
{
    match level {
        Level::Snapshot => are_apart(steps),
        Level::Serializable => are_of_two(steps),
    }
}

// Whether one of the steps is by the clock.
fn has_clock(steps: &[CycleStep]) -> bool
    ensures yes { IsTrue result → HasStep steps.now Rt }
    ensures no { result ≡ false → HasStep steps.now Rt → ⊥ }
{
    for i in 0..steps.len() {
        match steps[i].edge {
            EdgeKind::Rt => return true,
            EdgeKind::Ww | EdgeKind::Wr | EdgeKind::Rw | EdgeKind::So => {}
        }
    }
    false
}

// Whether one of the steps is by a process.
fn has_process(steps: &[CycleStep]) -> bool
    ensures yes { IsTrue result → HasStep steps.now So }
    ensures no { result ≡ false → HasStep steps.now So → ⊥ }
{
    for i in 0..steps.len() {
        match steps[i].edge {
            EdgeKind::So => return true,
            EdgeKind::Ww | EdgeKind::Wr | EdgeKind::Rw | EdgeKind::Rt => {}
        }
    }
    false
}

/// Which order the steps need beside those of reads and writes.
pub(crate) fn beside_of(steps: &[CycleStep]) -> Beside
    ensures { Needs steps.now result }
{
    if has_clock(steps) {
        return Beside::Clock;
    }
    if has_process(steps) {
        return Beside::Processes;
    }
    Beside::Nothing
}
