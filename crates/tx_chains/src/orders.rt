//! What comes after what, in the orders of processes and of the clock, and in a serial execution.
ghost use Rattle.tx_recording.specs.Recordings.{IsRecording};

use crate::puts::{number, put_at};
use std::alloc::{AllocError, Global};
use tx_clock::{ClockEvent, events_of};
use tx_history::{After, Read, Recorded};
use tx_recording::Recording;
use tx_verdict::{Level, Question, Versions};

// The last of a process that is known to have committed.
fn last_in(last: &[Option<u32>], process: usize) -> Option<u32> {
    let found = last.get(process)?;
    *found
}

// The place of a process in a table.
fn place_of(process: Option<u32>) -> Option<usize> {
    let process = process?;
    Some(process as usize)
}

// Adds for each live transaction that it comes after the last of its process.
fn add_sessions(
    alloc: Global,
    versions: &mut Versions,
    recording: &Recording,
) -> Result<(), AllocError> {
    let mut last = vec![in alloc; None; recording.transactions.len()]?;
    for txn in 0..recording.transactions.len() {
        let transaction = recording.transactions[txn];
        let Some(process) = place_of(transaction.process) else {
            continue;
        };
        let later = number(txn);
        if !versions.is_live(later) {
            continue;
        }
        if let Some(earlier) = last_in(last.as_slice(), process) {
            versions.recorded.after.push(After { earlier, later })?;
        }
        if transaction.outcome.is_ok() {
            put_at(last.as_mut_slice(), process, Some(later));
        }
    }
    Ok(())
}

// The moments of the clock so far.
#[derive(Drop)]
struct Moments {
    // the number of the first one among the transactions of the history
    first: usize,
    // whether more that ended may be put before the last one
    open: bool,
}

impl Moments {
    // The number of the last one, if there is one.
    fn last(&self, versions: &Versions) -> Option<u32> {
        let count = versions.times.len();
        if count == 0 || self.first > 0xffff_ffff {
            return None;
        }
        Some(number(self.first.saturating_add(count - 1)))
    }
}

// Adds one more moment behind those so far, or moves the last one.
fn add_moment(versions: &mut Versions, moments: &mut Moments, time: u64) -> Result<(), AllocError> {
    let before = moments.last(versions);
    if moments.open {
        let last = versions.times.len().saturating_sub(1);
        put_at(versions.times.as_mut_slice(), last, time);
        return Ok(());
    }
    versions.times.push(time)?;
    moments.open = true;
    if let (Some(earlier), Some(later)) = (before, moments.last(versions)) {
        versions.recorded.after.push(After { earlier, later })?;
    }
    Ok(())
}

// Adds that one ended before the last moment, or began after it.
fn add_event(
    versions: &mut Versions,
    moments: &mut Moments,
    event: ClockEvent,
) -> Result<(), AllocError> {
    if event.ends {
        add_moment(versions, moments, event.time)?;
        if let Some(later) = moments.last(versions) {
            versions.recorded.after.push(After {
                earlier: event.txn,
                later,
            })?;
        }
        return Ok(());
    }
    moments.open = false;
    if let Some(earlier) = moments.last(versions) {
        versions.recorded.after.push(After {
            earlier,
            later: event.txn,
        })?;
    }
    Ok(())
}

// Adds for each live transaction that it comes after those that had ended before it began: by
// moments of the clock, at most one for each end.
fn add_clock(
    alloc: Global,
    versions: &mut Versions,
    recording: &Recording,
) -> Result<(), AllocError>
    requires { IsRecording recording.now }
{
    let events = events_of(alloc, recording, versions.live.as_slice())?;
    let mut moments = Moments {
        first: recording.transactions.len(),
        open: false,
    };
    for i in 0..events.len() {
        add_event(versions, &mut moments, events[i])?;
    }
    versions.recorded.txns = number(moments.first.saturating_add(versions.times.len()));
    Ok(())
}

// Who wrote the version after the one that was read, if there is one.
fn writer_after(recorded: &Recorded, read: Read) -> Option<u32> {
    let key = read.key as usize;
    let first = recorded.heads.get(key)?;
    let upto = recorded.heads.get(key.saturating_add(1))?;
    let place = (*first as usize).saturating_add(read.version as usize);
    if place >= *upto as usize {
        return None;
    }
    let writer = recorded.writers.get(place)?;
    Some(*writer)
}

// Adds that who wrote the version after one that another read comes after the reader: in a serial
// execution one has committed when the other starts.
fn add_missed(versions: &mut Versions) -> Result<(), AllocError> {
    for i in 0..versions.recorded.reads.len() {
        let Some(read) = versions.recorded.reads.get(i) else {
            continue;
        };
        let read = *read;
        let Some(later) = writer_after(&versions.recorded, read) else {
            continue;
        };
        if later != read.txn {
            versions.recorded.after.push(After {
                earlier: read.txn,
                later,
            })?;
        }
    }
    Ok(())
}

/// Adds what comes after what in the orders that are asked for, and where serializability is.
pub(crate) fn add_orders(
    alloc: Global,
    versions: &mut Versions,
    recording: &Recording,
    question: Question,
) -> Result<(), AllocError>
    requires { IsRecording recording.now }
{
    if question.orders.sessions {
        add_sessions(alloc, versions, recording)?;
    }
    if question.orders.strict {
        add_clock(alloc, versions, recording)?;
    }
    match question.level {
        Level::Snapshot => Ok(()),
        Level::Serializable => add_missed(versions),
    }
}
