//! Whether timestamps keep the order of the recorder's clock.
ghost use Rattle.std.specs.Prelude.{◌≡◌, ℕ, ◌<◌, Contains, Some, OnOk, IfOk, IsTrue, true, false};
ghost use Rattle.tx_recording.specs.declared.recording.RecordedOutcome.TheVariants.{Ok as Committed};
ghost use Rattle.tx_recording.specs.Recordings.{IsRecording, txns_of, transaction_at};
ghost use Rattle.tx_clock.specs.declared.clock.ClockEvent.{ClockEvent};
ghost use Rattle.tx_recording.specs.Explanations.{IsEarlier};
ghost use Rattle.tx_clock.specs.KeptOrder.{live_in, AreEvents, KeepsEvents, KeepsPairs};

use crate::sessions::{is_early, later_of, live_at, number_at};
use std::alloc::{AllocError, Global};
use tx_recording::Recording;

/// That a transaction began, or ended.
#[derive(Clone, Copy, Debug, PartialEq, Eq)]
pub struct ClockEvent {
    /// By the recorder's clock.
    pub time: u64,
    pub txn: u32,
    pub ends: bool,
}

// Adds that the live transactions began.
fn add_begins(
    events: &mut Vec<ClockEvent>,
    recording: &Recording,
    live: &[bool],
) -> Result<(), AllocError>
    requires { IsRecording recording.now }
    ensures { OnOk result ((u b : ℕ) → u < txns_of recording.now → IsTrue (live_in live.now u)
        → (transaction_at recording.now u).began ≡ Some b
        → Contains events.new.items record { time = b; txn = u; ends = false }) }
{
    for txn in 0..recording.transactions.len() {
        if !live_at(live, txn) {
            continue;
        }
        let Some(time) = recording.transactions[txn].began else {
            continue;
        };
        let txn = txn as u32;
        events.push(ClockEvent {
            time,
            txn,
            ends: false,
        })?;
    }
    Ok(())
}

// Adds that those ended that are known to have committed.
fn add_ends(events: &mut Vec<ClockEvent>, recording: &Recording) -> Result<(), AllocError>
    requires { IsRecording recording.now }
    ensures kept { OnOk result ((e : ClockEvent) → Contains events.old.items e → Contains events.new.items e) }
    ensures has { OnOk result ((t e : ℕ) → t < txns_of recording.now
        → (transaction_at recording.now t).outcome ≡ Committed
        → (transaction_at recording.now t).ended ≡ Some e
        → Contains events.new.items record { time = e; txn = t; ends = true }) }
{
    for txn in 0..recording.transactions.len() {
        if !recording.transactions[txn].outcome.is_ok() {
            continue;
        }
        let Some(time) = recording.transactions[txn].ended else {
            continue;
        };
        let txn = txn as u32;
        events.push(ClockEvent {
            time,
            txn,
            ends: true,
        })?;
    }
    Ok(())
}

/// When the live transactions began, and when those ended that are known to have committed, in the
/// order of the clock: what begins at a time comes before what ends then.
///
/// `AllocError` where there was no room.
pub fn events_of(
    alloc: Global,
    recording: &Recording,
    live: &[bool],
) -> Result<Vec<ClockEvent>, AllocError>
    requires { IsRecording recording.now }
    ensures { IfOk result (λ events. AreEvents recording.now live.now events.items) }
{
    let mut events = Vec::new(alloc);
    add_begins(&mut events, recording, live)?;
    add_ends(&mut events, recording)?;
    events.sort_by_key(|event| event.time)?;
    Ok(events)
}

// Whether each one that begins starts when all that ended before have committed.
fn keeps_events(events: &[ClockEvent], starts: &[usize], commits: &[usize]) -> bool
    ensures { IsTrue result → KeepsEvents events.now starts.now commits.now }
{
    let mut latest = 0;
    for i in 0..events.len() {
        let event = events[i];
        let txn = event.txn as usize;
        if is_early(!event.ends, number_at(starts, txn), latest) {
            return false;
        }
        latest = later_of(latest, event.ends, number_at(commits, txn));
    }
    true
}

/// Whether each transaction starts when those have committed that had ended before it began.
///
/// `AllocError` where there was no room.
pub(crate) fn keeps_clock(
    alloc: Global,
    recording: &Recording,
    live: &[bool],
    starts: &[usize],
    commits: &[usize],
) -> Result<bool, AllocError>
    requires { IsRecording recording.now }
    ensures { IfOk result (λ keeps. IsTrue keeps
        → KeepsPairs (IsEarlier recording.now) live.now starts.now commits.now) }
{
    let events = events_of(alloc, recording, live)?;
    Ok(keeps_events(events.as_slice(), starts, commits))
}
