//! What comes after what by the orders of processes and of the clock.
ghost use Rattle.std.specs.Prelude.{IfSome, IsTrue};
ghost use Rattle.tx_recording.specs.Explanations.{IsSession, IsEarlier};
ghost use Rattle.tx_verdict.specs.Pairs.{HasEnded, HasBegun};

use tx_recording::Recording;

/// Whether a process is known to have run the one after the other, which is known to have
/// committed.
pub(crate) fn is_session(recording: &Recording, earlier: u32, later: u32) -> bool
    ensures { IsTrue result → IsSession recording.now earlier later }
{
    if earlier >= later {
        return false;
    }
    if later as usize >= recording.transactions.len() {
        return false;
    }
    let first = recording.transactions[earlier as usize];
    if !first.outcome.is_ok() {
        return false;
    }
    let Some(process) = first.process else {
        return false;
    };
    let Some(other) = recording.transactions[later as usize].process else {
        return false;
    };
    process == other
}

// When one that is known to have committed had ended.
fn end_of(recording: &Recording, txn: u32) -> Option<u64>
    ensures { IfSome result (HasEnded recording.now txn) }
{
    if txn as usize >= recording.transactions.len() {
        return None;
    }
    let transaction = recording.transactions[txn as usize];
    if !transaction.outcome.is_ok() {
        return None;
    }
    transaction.ended
}

// When one began.
fn begin_of(recording: &Recording, txn: u32) -> Option<u64>
    ensures { IfSome result (HasBegun recording.now txn) }
{
    if txn as usize >= recording.transactions.len() {
        return None;
    }
    recording.transactions[txn as usize].began
}

/// Whether one that is known to have committed had ended before the other began.
pub(crate) fn is_earlier(recording: &Recording, earlier: u32, later: u32) -> bool
    ensures { IsTrue result → IsEarlier recording.now earlier later }
{
    let Some(end) = end_of(recording, earlier) else {
        return false;
    };
    let Some(begin) = begin_of(recording, later) else {
        return false;
    };
    end < begin
}
