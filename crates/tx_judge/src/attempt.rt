//! What the versions in one order are for the recording.
ghost use Rattle.std.specs.Prelude.{IfOk, IfSome, slice_index};
ghost use Rattle.tx_history.specs.Records.{IsRecorded, history_of};
ghost use Rattle.tx_history.specs.Histories.{IsAssignment};
ghost use Rattle.tx_history.specs.Graph.{IsCycleOf};
ghost use Rattle.tx_verdict.specs.Cases.{IsWhole};
ghost use Rattle.tx_verdict.specs.Verdicts.{IsVerdict};

use std::alloc::{AllocError, Global};
use tx_chains::{Asked, ChainParts, number, plan_of, versions_of};
use tx_history::{After, HistoryDecision, decide};
use tx_verdict::{
    Case, HistoryVerdict, Level, Lives, Refutation, Versions, cycle_of, is_refutation, timestamps,
};

// What timestamps of versions are for the recording.
fn yes_of(
    alloc: Global,
    case: &Case<'_>,
    versions: Versions,
    starts: Vec<usize>,
    commits: Vec<usize>,
) -> Result<Option<HistoryVerdict>, AllocError>
    requires case { IsWhole case.now }
    requires history { IsRecorded versions.recorded }
    requires assigned { IsAssignment (history_of versions.recorded) (slice_index starts.items)
        (slice_index commits.items) }
    ensures { IfOk result (λ found. IfSome found (IsVerdict case.now.recording.now case.now.question)) }
{
    match timestamps(alloc, case, versions, starts, commits)? {
        Some(found) => Ok(Some(HistoryVerdict::Yes(found))),
        None => Ok(None),
    }
}

// Adds that the transactions come one after the other, in the order of their starts.
fn add_turns(alloc: Global, versions: &mut Versions, starts: &[usize]) -> Result<(), AllocError> {
    let mut by_start = Vec::new(alloc);
    for txn in 0..starts.len() {
        by_start.push((starts[txn], number(txn)))?;
    }
    by_start.sort()?;
    for i in 1..by_start.len() {
        versions.recorded.after.push(After {
            earlier: by_start[i - 1].1,
            later: by_start[i].1,
        })?;
    }
    Ok(())
}

// What timestamps of versions are for the recording in a serial execution: with others, in which
// the transactions come one after the other in the order of their starts.
fn yes_in_turn(
    alloc: Global,
    case: &Case<'_>,
    mut versions: Versions,
    starts: Vec<usize>,
) -> Result<Option<HistoryVerdict>, AllocError>
    requires case { IsWhole case.now }
    ensures { IfOk result (λ found. IfSome found (IsVerdict case.now.recording.now case.now.question)) }
{
    add_turns(alloc, &mut versions, starts.as_slice())?;
    if !versions.recorded.is_history() {
        return Ok(None);
    }
    match decide(alloc, &versions.recorded)? {
        HistoryDecision::Yes(starts, commits) => yes_of(alloc, case, versions, starts, commits),
        HistoryDecision::No(_) => Ok(None),
    }
}

// What timestamps of versions are for the recording, at the level that is asked for.
fn yes_at(
    alloc: Global,
    case: &Case<'_>,
    versions: Versions,
    starts: Vec<usize>,
    commits: Vec<usize>,
) -> Result<Option<HistoryVerdict>, AllocError>
    requires case { IsWhole case.now }
    requires history { IsRecorded versions.recorded }
    requires assigned { IsAssignment (history_of versions.recorded) (slice_index starts.items)
        (slice_index commits.items) }
    ensures { IfOk result (λ found. IfSome found (IsVerdict case.now.recording.now case.now.question)) }
{
    match case.question.level {
        Level::Snapshot => yes_of(alloc, case, versions, starts, commits),
        Level::Serializable => yes_in_turn(alloc, case, versions, starts),
    }
}

// What a cycle of versions is for the recording.
fn no_of(
    alloc: Global,
    case: &Case<'_>,
    versions: &Versions,
    nodes: &[u32],
) -> Result<Option<HistoryVerdict>, AllocError>
    requires case { IsWhole case.now }
    requires history { IsRecorded versions.now.recorded }
    requires cycle { IsCycleOf (history_of versions.now.recorded) nodes.now }
    ensures { IfOk result (λ found. IfSome found (IsVerdict case.now.recording.now case.now.question)) }
{
    match cycle_of(alloc, case, versions, nodes)? {
        Some(cycle) => Ok(Some(HistoryVerdict::No(cycle))),
        None => Ok(None),
    }
}

/// What a refutation is for the recording, if it is one.
pub(crate) fn refuted_by(
    alloc: Global,
    case: &Case<'_>,
    versions: &Versions,
    refutation: Refutation,
) -> Result<Option<HistoryVerdict>, AllocError>
    requires case { IsWhole case.now }
    ensures { IfOk result (λ found. IfSome found (IsVerdict case.now.recording.now case.now.question)) }
{
    if !versions.recorded.is_history() {
        return Ok(None);
    }
    if !is_refutation(alloc, case, versions, &refutation)? {
        return Ok(None);
    }
    Ok(Some(HistoryVerdict::Refuted(refutation)))
}

/// What the versions in one order are for the recording, if that is known.
pub(crate) fn try_versions(
    alloc: Global,
    case: &Case<'_>,
    versions: Versions,
) -> Result<Option<HistoryVerdict>, AllocError>
    requires case { IsWhole case.now }
    ensures { IfOk result (λ found. IfSome found (IsVerdict case.now.recording.now case.now.question)) }
{
    if !versions.recorded.is_history() {
        return Ok(None);
    }
    match decide(alloc, &versions.recorded)? {
        HistoryDecision::Yes(starts, commits) => yes_at(alloc, case, versions, starts, commits),
        HistoryDecision::No(nodes) => {
            let nodes = nodes.as_slice();
            no_of(alloc, case, &versions, nodes)
        }
    }
}

/// What the recording is, with those puts of which nobody knows the place that are asked for in
/// this order.
pub(crate) fn verdict_in(
    alloc: Global,
    case: &Case<'_>,
    lives: &Lives,
    parts: &ChainParts,
    order: &[u32],
    asked: Asked,
) -> Result<Option<HistoryVerdict>, AllocError>
    requires case { IsWhole case.now }
    ensures { IfOk result (λ found. IfSome found (IsVerdict case.now.recording.now case.now.question)) }
{
    let (plan, _) = plan_of(alloc, case, parts, order, asked)?;
    let puts = parts.puts.all.as_slice();
    let versions = versions_of(alloc, case, lives, puts, &plan)?;
    try_versions(alloc, case, versions)
}
