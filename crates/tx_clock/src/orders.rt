//! Whether timestamps keep the orders that are asked for.
ghost use Rattle.std.specs.Prelude.{IfOk, IsTrue, false};
ghost use Rattle.tx_recording.specs.Explanations.{IsSession, IsEarlier, Precedes};
ghost use Rattle.tx_recording.specs.Recordings.{IsRecording};
ghost use Rattle.tx_clock.specs.KeptOrder.{KeepsPairs};

use crate::clock::keeps_clock;
use crate::sessions::keeps_sessions;
use std::alloc::{AllocError, Global};
use tx_recording::{Orders, Recording};

// Whether timestamps keep the order of processes, if that is asked for.
fn keeps_sessions_if(
    alloc: Global,
    recording: &Recording,
    asked: bool,
    live: &[bool],
    starts: &[usize],
    commits: &[usize],
) -> Result<bool, AllocError>
    ensures { IfOk result (λ keeps. IsTrue keeps → IsTrue asked
        → KeepsPairs (IsSession recording.now) live.now starts.now commits.now) }
{
    if !asked {
        return Ok(true);
    }
    keeps_sessions(alloc, recording, live, starts, commits)
}

// Whether timestamps keep the order of the clock, if that is asked for.
fn keeps_clock_if(
    alloc: Global,
    recording: &Recording,
    asked: bool,
    live: &[bool],
    starts: &[usize],
    commits: &[usize],
) -> Result<bool, AllocError>
    requires { IsRecording recording.now }
    ensures { IfOk result (λ keeps. IsTrue keeps → IsTrue asked
        → KeepsPairs (IsEarlier recording.now) live.now starts.now commits.now) }
{
    if !asked {
        return Ok(true);
    }
    keeps_clock(alloc, recording, live, starts, commits)
}

/// Whether timestamps keep the orders that are asked for, among the live transactions.
///
/// `AllocError` where there was no room. A process has a number below that of the transactions.
pub fn keeps_orders(
    alloc: Global,
    recording: &Recording,
    orders: Orders,
    live: &[bool],
    starts: &[usize],
    commits: &[usize],
) -> Result<bool, AllocError>
    requires { IsRecording recording.now }
    ensures { IfOk result (λ keeps. IsTrue keeps
        → KeepsPairs (Precedes recording.now orders) live.now starts.now commits.now) }
{
    if !keeps_sessions_if(alloc, recording, orders.sessions, live, starts, commits)? {
        return Ok(false);
    }
    keeps_clock_if(alloc, recording, orders.strict, live, starts, commits)
}
