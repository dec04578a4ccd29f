//! Keys of which two puts may come in two orders.
ghost use Rattle.std.specs.Prelude.{OnOk, IfOk, IsTrue};
ghost use Rattle.tx_recording.specs.Recordings.{IsRecording};
ghost use Rattle.tx_verdict.specs.Undecided.{AreUndecided, IsUndecided};

use std::alloc::{AllocError, Global};
use tx_chains::{Extras, Put};
use tx_recording::Recording;
use tx_verdict::is_undecided;

// Whether two puts into a key may come in two orders.
fn is_open(recording: &Recording, puts: &[Put], extras: &Extras, key: u32) -> bool
    requires { IsRecording recording.now }
    ensures { IsTrue result → IsUndecided recording.now key }
{
    match extras.pair_of(puts, key) {
        Some((first, second)) => is_undecided(recording, key, first, second),
        None => false,
    }
}

// Adds such a key.
fn push_key(keys: &mut Vec<u32>, recording: &Recording, key: u32) -> Result<(), AllocError>
    requires keys { AreUndecided recording.now keys.old.items }
    requires key { IsUndecided recording.now key }
    ensures { OnOk result (AreUndecided recording.now keys.new.items) }
{
    keys.push(key)?;
    Ok(())
}

/// The keys of which two puts may come in two orders.
pub(crate) fn open_keys(
    alloc: Global,
    recording: &Recording,
    puts: &[Put],
    extras: &Extras,
) -> Result<Vec<u32>, AllocError>
    requires { IsRecording recording.now }
    ensures { IfOk result (λ keys. AreUndecided recording.now keys.items) }
{
    let mut keys = Vec::new(alloc);
    for key in 0..recording.keys {
        if !is_open(recording, puts, extras, key) {
            continue;
        }
        push_key(&mut keys, recording, key)?;
    }
    Ok(keys)
}
