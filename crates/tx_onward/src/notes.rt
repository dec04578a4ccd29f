//! Noting of which transactions a verdict tells.
ghost use Rattle.std.specs.Prelude.{◌≡◌, ℕ, ◌^◌, ◌<◌, ◌||◌, length, true, false, slice_index_or, slice_set};
ghost use Rattle.tx_recording.specs.Recordings.{IsRecording, txns_of};
ghost use Rattle.tx_onward.specs.Tells.{tells as tells_of};
ghost use Rattle.tx_onward.specs.Untold.{untold};

use crate::tells::tells;
use tx_recording::Recording;
use tx_verdict::HistoryVerdict;

// Notes whether a verdict tells of a transaction that was not told of.
fn note_one(told: &mut [bool], recording: &Recording, verdict: &HistoryVerdict, t: usize) -> bool
    requires recording { IsRecording recording.now }
    requires within { t < length told.old }
    requires few { t < 2 ^ 32 }
    ensures yes { result ≡ true → (slice_index_or told.old t false ≡ false)
        × (tells_of recording.now verdict.now t ≡ true) × (told.new ≡ slice_set told.old t true) }
    ensures no { result ≡ false → (told.new ≡ told.old)
        × ((slice_index_or told.old t false || tells_of recording.now verdict.now t)
        ≡ slice_index_or told.old t false) }
{
    if told[t] || !tells(recording, verdict, t as u32) {
        return false;
    }
    told[t] = true;
    true
}

// Whether one of two holds.
fn either(one: bool, other: bool) -> bool
    ensures { result ≡ (one || other) }
{
    one || other
}

/// Notes of which transactions a verdict tells. Whether one of them was not told of before.
pub fn note(told: &mut [bool], recording: &Recording, verdict: &HistoryVerdict) -> bool
    requires recording { IsRecording recording.now }
    requires count { length told.old ≡ txns_of recording.now }
    ensures count { length told.new ≡ length told.old }
    ensures told { (t : ℕ) → slice_index_or told.new t false
        ≡ (slice_index_or told.old t false || tells_of recording.now verdict.now t) }
    ensures more { result ≡ true → untold told.new < untold told.old }
    ensures one { result ≡ true → (t : ℕ) × (tells_of recording.now verdict.now t ≡ true)
        × (slice_index_or told.old t false ≡ false) }
    ensures none { result ≡ false → told.new ≡ told.old }
{
    let mut is_more = false;
    for t in 0..told.len() {
        let is_new = note_one(told, recording, verdict, t);
        let is_any = either(is_new, is_more);
        is_more = is_any;
    }
    is_more
}
