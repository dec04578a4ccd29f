//! Why a step of a round is so.
ghost use Rattle.std.specs.Prelude.{◌≡◌, Some, IfOk, IfSome, IsTrue};
ghost use Rattle.tx_history.specs.Records.{IsRecorded};
ghost use Rattle.tx_verdict.specs.Cases.{IsCase};
ghost use Rattle.tx_verdict.specs.Reasons.{SawOf, IsBehind};
ghost use Rattle.tx_verdict.specs.Steps.{IsStep};
ghost use Rattle.tx_verdict.specs.Refutations.{IsOrdered, IsStepBy};

use crate::case::Case;
use crate::owners::{sees_nothing, sees_writer};
use crate::refutation::WriteOrder;
use crate::steps::{step_in_process, step_in_time};
use crate::stretch::{Stretch, has_written, is_behind_in, is_next_in, is_train};
use crate::verdict::{CycleStep, EdgeKind};
use crate::versions::Versions;
use std::alloc::{AllocError, Global};

/// Of two versions of a key, why the second was written behind the first.
#[derive(Clone, Copy, Debug, PartialEq, Eq)]
pub enum Behind {
    /// It is the one at this place of this chain, and the first is the one before it.
    Next(u32, u32),
    /// The first is the last of so many versions of this chain, which are the first of all.
    Row(u32, u32),
    /// By the order at this place: the first was written right behind that order's first, over this
    /// stretch, and that order's second right behind the second, over this other one.
    Known(u32, Stretch, Stretch),
}

/// Why a step is so.
#[derive(Clone, Copy, Debug, PartialEq, Eq)]
pub enum Ground {
    /// It is asked for.
    Asked,
    /// The second saw in this view what the first had put.
    Seen(u32),
    /// The second wrote behind the first.
    Written(Behind),
    /// The first saw nothing, in this view, and the second wrote.
    Nothing(u32),
    /// The first saw in this view what this one had put, and the second wrote behind that.
    Missed(u32, u32, Behind),
}

// Whether a view is of what the writer left.
fn is_seen(case: &Case<'_>, view: u32, txn: u32, key: u32, writer: u32) -> bool
    requires case { IsCase case.now }
    ensures { IsTrue result → SawOf case.now.recording.now txn key writer }
{
    if view as usize >= case.views.len() {
        return false;
    }
    sees_writer(case, case.views[view as usize], txn, key, writer)
}

// The key of a step with this edge.
fn key_with(step: CycleStep, edge: EdgeKind) -> Option<u32>
    ensures { IfSome result (λ key. (step.edge ≡ edge) × (step.key ≡ Some key)) }
{
    if step.edge != edge {
        return None;
    }
    step.key
}

// Whether the order at a place is of these two, over stretches.
fn is_ordered(
    alloc: Global,
    case: &Case<'_>,
    versions: &Versions,
    known: &[WriteOrder],
    place: u32,
    forth: Stretch,
    back: Stretch,
    key: u32,
    first: u32,
    second: u32,
) -> Result<bool, AllocError>
    requires case { IsCase case.now }
    requires history { IsRecorded versions.now.recorded }
    ensures { IfOk result (λ is. IsTrue is → IsOrdered case.now.recording.now known.now key first second) }
{
    if place as usize >= known.len() {
        return Ok(false);
    }
    let order = known[place as usize];
    if order.key != key {
        return Ok(false);
    }
    if !is_train(
        alloc,
        case,
        versions,
        forth,
        key,
        order.first,
        first,
        order.second,
    )? {
        return Ok(false);
    }
    let behind = is_train(
        alloc,
        case,
        versions,
        back,
        key,
        second,
        order.second,
        first,
    )?;
    Ok(behind)
}

// Whether the second of two wrote the key behind the first by the recording.
fn is_behind(
    alloc: Global,
    case: &Case<'_>,
    versions: &Versions,
    behind: Behind,
    key: u32,
    first: u32,
    second: u32,
) -> Result<bool, AllocError>
    requires case { IsCase case.now }
    requires history { IsRecorded versions.now.recorded }
    ensures { IfOk result (λ is. IsTrue is → IsBehind case.now.recording.now key first second) }
{
    match behind {
        Behind::Next(chain, place) => {
            let is = is_next_in(alloc, case, versions, chain, place, key, first, second)?;
            Ok(is)
        }
        Behind::Row(chain, count) => {
            let is = is_behind_in(alloc, case, versions, chain, count, key, first, second)?;
            Ok(is)
        }
        Behind::Known(..) => Ok(false),
    }
}

// Whether the second saw what the first left.
fn is_read(case: &Case<'_>, step: CycleStep, view: u32) -> bool
    requires case { IsCase case.now }
    ensures { IsTrue result → IsStep case.now.recording.now case.now.question.orders step }
{
    let Some(key) = key_with(step, EdgeKind::Wr) else {
        return false;
    };
    is_seen(case, view, step.to, key, step.from)
}

// Whether the second wrote behind the first.
fn is_written(
    alloc: Global,
    case: &Case<'_>,
    versions: &Versions,
    known: &[WriteOrder],
    step: CycleStep,
    behind: Behind,
) -> Result<bool, AllocError>
    requires case { IsCase case.now }
    requires history { IsRecorded versions.now.recorded }
    ensures { IfOk result (λ is. IsTrue is
        → IsStepBy case.now.recording.now case.now.question.orders known.now step) }
{
    let Some(key) = key_with(step, EdgeKind::Ww) else {
        return Ok(false);
    };
    if let Behind::Known(place, forth, back) = behind {
        let is = is_ordered(
            alloc, case, versions, known, place, forth, back, key, step.from, step.to,
        )?;
        return Ok(is);
    }
    if !has_written(case, versions, step.from, key) {
        return Ok(false);
    }
    if !has_written(case, versions, step.to, key) {
        return Ok(false);
    }
    let is = is_behind(alloc, case, versions, behind, key, step.from, step.to)?;
    Ok(is)
}

// Whether the first saw nothing, and the second wrote.
fn is_before_all(case: &Case<'_>, versions: &Versions, step: CycleStep, view: u32) -> bool
    requires case { IsCase case.now }
    ensures { IsTrue result → IsStep case.now.recording.now case.now.question.orders step }
{
    let Some(key) = key_with(step, EdgeKind::Rw) else {
        return false;
    };
    if !has_written(case, versions, step.to, key) {
        return false;
    }
    if view as usize >= case.views.len() {
        return false;
    }
    sees_nothing(case.recording, case.views[view as usize], step.from, key)
}

// Whether the first saw what the writer left, and the second wrote behind that.
fn is_missed(
    alloc: Global,
    case: &Case<'_>,
    versions: &Versions,
    known: &[WriteOrder],
    step: CycleStep,
    view: u32,
    writer: u32,
    behind: Behind,
) -> Result<bool, AllocError>
    requires case { IsCase case.now }
    requires history { IsRecorded versions.now.recorded }
    ensures { IfOk result (λ is. IsTrue is
        → IsStepBy case.now.recording.now case.now.question.orders known.now step) }
{
    let Some(key) = key_with(step, EdgeKind::Rw) else {
        return Ok(false);
    };
    if !is_seen(case, view, step.from, key, writer) {
        return Ok(false);
    }
    if let Behind::Known(place, forth, back) = behind {
        let is = is_ordered(
            alloc, case, versions, known, place, forth, back, key, writer, step.to,
        )?;
        return Ok(is);
    }
    if !has_written(case, versions, step.to, key) {
        return Ok(false);
    }
    let is = is_behind(alloc, case, versions, behind, key, writer, step.to)?;
    Ok(is)
}

// Whether the orders that are asked for have it so.
fn is_asked(case: &Case<'_>, step: CycleStep) -> bool
    ensures { IsTrue result → IsStep case.now.recording.now case.now.question.orders step }
{
    let (recording, orders) = (case.recording, case.question.orders);
    let found = match step.edge {
        EdgeKind::So => step_in_process(recording, orders, step.from, step.to),
        EdgeKind::Rt => step_in_time(recording, orders, step.from, step.to),
        EdgeKind::Ww | EdgeKind::Wr | EdgeKind::Rw => None,
    };
    match found {
        Some(made) => made == step,
        None => false,
    }
}

/// Whether a step is so, on its ground.
pub(crate) fn is_step_by(
    alloc: Global,
    case: &Case<'_>,
    versions: &Versions,
    known: &[WriteOrder],
    step: CycleStep,
    ground: Ground,
) -> Result<bool, AllocError>
    requires case { IsCase case.now }
    requires history { IsRecorded versions.now.recorded }
    ensures { IfOk result (λ is. IsTrue is
        → IsStepBy case.now.recording.now case.now.question.orders known.now step) }
{
    match ground {
        Ground::Asked => Ok(is_asked(case, step)),
        Ground::Seen(view) => Ok(is_read(case, step, view)),
        Ground::Nothing(view) => Ok(is_before_all(case, versions, step, view)),
        Ground::Written(behind) => {
            let is = is_written(alloc, case, versions, known, step, behind)?;
            Ok(is)
        }
        Ground::Missed(view, writer, behind) => {
            let is = is_missed(alloc, case, versions, known, step, view, writer, behind)?;
            Ok(is)
        }
    }
}
