//! Timestamps and cycles of versions, as evidence of a recording.
ghost use Rattle.std.specs.Prelude.{IfOk, IfSome, slice_index};
ghost use Rattle.tx_recording.specs.Recordings.{IsRecording};
ghost use Rattle.tx_views.specs.Views.{AreViews};
ghost use Rattle.tx_history.specs.Records.{IsRecorded, history_of};
ghost use Rattle.tx_history.specs.Histories.{IsAssignment};
ghost use Rattle.tx_history.specs.Graph.{IsCycleOf};
ghost use Rattle.tx_verdict.specs.Cases.{IsCase};
ghost use Rattle.tx_verdict.specs.Cycles.{IsCycleFor};
ghost use Rattle.tx_verdict.specs.Verdicts.{IsRefused, AreTimestampsOf};

use crate::anomaly::anomaly_of;
use crate::case::Case;
use crate::fit::is_fit;
use crate::necessity::is_forced;
use crate::serial::keeps_level;
use crate::stale_read::with_stale_read;
use crate::steps::{beside_of, forbids, is_round, steps_of};
use crate::verdict::{Cycle, Timestamps};
use crate::versions::Versions;
use std::alloc::{AllocError, Global};
use tx_clock::keeps_orders;
use tx_history::dependencies;

/// What the timestamps of versions are for the recording, if they are.
pub fn timestamps(
    alloc: Global,
    case: &Case<'_>,
    versions: Versions,
    starts: Vec<usize>,
    commits: Vec<usize>,
) -> Result<Option<Timestamps>, AllocError>
    requires recording { IsRecording case.now.recording.now }
    requires views { AreViews case.now.recording.now case.now.views.now }
    requires history { IsRecorded versions.recorded }
    requires assigned { IsAssignment (history_of versions.recorded) (slice_index starts.items)
        (slice_index commits.items) }
    ensures { IfOk result (λ found. IfSome found (AreTimestampsOf case.now.recording.now case.now.question)) }
{
    let recording = case.recording;
    if !is_fit(alloc, recording, case.views, &versions)? {
        return Ok(None);
    }
    let live = versions.live.as_slice();
    if !keeps_orders(
        alloc,
        recording,
        case.question.orders,
        live,
        starts.as_slice(),
        commits.as_slice(),
    )? {
        return Ok(None);
    }
    let level = case.question.level;
    if !keeps_level(alloc, level, live, starts.as_slice(), commits.as_slice())? {
        return Ok(None);
    }
    Ok(Some(Timestamps {
        committed: versions.live,
        starts,
        commits,
    }))
}

/// The cycle of these nodes, if the versions are so by the recording.
pub fn cycle_of(
    alloc: Global,
    case: &Case<'_>,
    versions: &Versions,
    nodes: &[u32],
) -> Result<Option<Cycle>, AllocError>
    requires case { IsCase case.now }
    requires history { IsRecorded versions.now.recorded }
    requires cycle { IsCycleOf (history_of versions.now.recorded) nodes.now }
    ensures refused { IfOk result (λ found. IfSome found
        (λ cycle. IsRefused case.now.recording.now case.now.question)) }
    ensures cycle { IfOk result (λ found. IfSome found (IsCycleFor case.now.recording.now case.now.question)) }
{
    if !is_forced(alloc, case, versions)? {
        return Ok(None);
    }
    let found = dependencies(alloc, &versions.recorded, nodes)?;
    let plain = steps_of(
        alloc,
        case.recording,
        versions,
        case.question,
        found.as_slice(),
    )?;
    let steps = with_stale_read(alloc, case, versions, plain.as_slice())?;
    if !is_round(steps.as_slice()) {
        return Ok(None);
    }
    if !forbids(case.question.level, steps.as_slice()) {
        return Ok(None);
    }
    let beside = beside_of(steps.as_slice());
    let anomaly = anomaly_of(steps.as_slice());
    Ok(Some(Cycle {
        anomaly,
        beside,
        steps,
    }))
}
