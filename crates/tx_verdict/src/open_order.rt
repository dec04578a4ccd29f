//! Keys of which two puts may have come in two orders.
ghost use Rattle.std.specs.Prelude.{IsTrue};
ghost use Rattle.tx_recording.specs.Recordings.{IsRecording, ops_of};
ghost use Rattle.tx_verdict.specs.Undecided.{PutsFirst, IsBlind, IsUndecided};

use crate::fit::{puts, value_of};
use tx_recording::{RecordedOp, RecordedOutcome, Recording};

// Whether the first of the operations on a key puts into it.
fn puts_first(ops: &[RecordedOp], key: u32) -> bool
    ensures { IsTrue result → PutsFirst ops.now key }
{
    for i in 0..ops.len() {
        if ops[i].key != key {
            continue;
        }
        return value_of(ops[i].act).is_some();
    }
    false
}

// Whether a transaction put into a key that it had not read, or of which nobody knows whether it
// had.
fn is_blind(recording: &Recording, txn: u32, key: u32) -> bool
    requires { IsRecording recording.now }
    ensures { IsTrue result → IsBlind recording.now txn key }
{
    if txn as usize >= recording.transactions.len() {
        return false;
    }
    let ops = recording.ops_of(txn as usize);
    match recording.transactions[txn as usize].outcome {
        RecordedOutcome::Ok => puts_first(ops, key),
        RecordedOutcome::Info => puts(ops, key),
        RecordedOutcome::Fail => false,
    }
}

/// Whether the two transactions put into the key, and neither had read it.
pub fn is_undecided(recording: &Recording, key: u32, first: u32, second: u32) -> bool
    requires { IsRecording recording.now }
    ensures { IsTrue result → IsUndecided recording.now key }
{
    if first == second {
        return false;
    }
    if !is_blind(recording, first, key) {
        return false;
    }
    is_blind(recording, second, key)
}
