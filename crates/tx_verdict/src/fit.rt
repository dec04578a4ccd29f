//! Whether versions are what their writers make of them, and what was read.
ghost use Rattle.std.specs.Prelude.{◌≡◌, ◌⊎◌, ℕ, ◌+◌, ◌-◌, ◌^◌, ◌<◌, ◌≤◌, length, Contains, IfOk, IfSome, IfNone, IsTrue, true, false};
ghost use Rattle.tx_recording.specs.declared.recording.RecordedOutcome.TheVariants.{Ok as Committed, Fail as Failed};
ghost use Rattle.tx_recording.specs.Recordings.{IsRecording, txns_of, transaction_at, ops_of};
ghost use Rattle.tx_recording.specs.Explanations.{PutsIn, IsPut, Puts};
ghost use Rattle.tx_views.specs.declared.view.RecordedView.{RecordedView};
ghost use Rattle.tx_views.specs.Views.{left_by, IsViewOf};
ghost use Rattle.tx_history.specs.Records.{IsRecorded, history_of, writers_of};
ghost use Rattle.tx_verdict.specs.Versions.{text_in, text_of, live_of, IsVersionFit, IsKeyFit, IsPlaced, IsViewFit};
ghost use Rattle.tx_verdict.specs.Fits.{IsFit};

use crate::versions::{Versions, text_at};
use std::alloc::{AllocError, Global};
use tx_history::Read;
use tx_recording::{Act, RecordedOp, RecordedOutcome, Recording, Span};
use tx_views::{Effect, RecordedView, effect_of, is_end};

/// Whether one of the operations puts a value into the key.
pub(crate) fn puts(ops: &[RecordedOp], key: u32) -> bool
    ensures { IsTrue result → (v : ℕ) × PutsIn ops.now key v }
{
    for i in 0..ops.len() {
        if ops[i].key != key {
            continue;
        }
        if let Some(_) = value_of(ops[i].act) {
            return true;
        }
    }
    false
}

// Whether what is left is but what is put: nothing was there, or it goes.
fn starts_anew(effect: &Effect, before: Span) -> bool
    ensures yes { IsTrue result → (effect.now.clears ≡ true) ⊎ (before.count ≡ 0) }
    ensures no { result ≡ false → effect.now.clears ≡ false }
{
    if effect.clears {
        return true;
    }
    before.count == 0
}

// Whether the values of a span are what an effect leaves of those of another.
fn is_left(texts: &[u32], before: Span, span: Span, effect: &Effect) -> bool
    ensures { IsTrue result → text_in texts.now span ≡ left_by effect.now (text_in texts.now before) }
{
    let Some(text) = text_at(texts, span) else {
        return false;
    };
    let own = effect.values.as_slice();
    if starts_anew(effect, before) {
        return is_end(text, own, 0);
    }
    if before.first != span.first {
        return false;
    }
    if before.count > span.count {
        return false;
    }
    let cut = before.count as usize;
    if cut > text.len() {
        return false;
    }
    is_end(text, own, cut)
}

// Whether a version is what its writer makes of the one before it.
fn fits_version(
    alloc: Global,
    recording: &Recording,
    versions: &Versions,
    key: u32,
    writer: u32,
    version: usize,
) -> Result<bool, AllocError>
    requires recording { IsRecording recording.now }
    requires first { 1 ≤ version }
    requires small { version < 2 ^ 63 }
    ensures { IfOk result (λ fits. IsTrue fits → IsVersionFit recording.now versions.now key writer version) }
{
    if writer as usize >= recording.transactions.len() {
        return Ok(false);
    }
    if !versions.is_live(writer) {
        return Ok(false);
    }
    let ops = recording.ops_of(writer as usize);
    if !puts(ops, key) {
        return Ok(false);
    }
    let effect = effect_of(alloc, ops, key)?;
    let before = versions.span_of(key as usize, version - 1);
    let span = versions.span_of(key as usize, version);
    Ok(is_left(versions.texts.as_slice(), before, span, &effect))
}

// Whether the versions of a key are what their writers make of those before them.
fn fits_key(
    alloc: Global,
    recording: &Recording,
    versions: &Versions,
    key: u32,
) -> Result<bool, AllocError>
    requires recording { IsRecording recording.now }
    requires history { IsRecorded versions.now.recorded }
    ensures { IfOk result (λ fits. IsTrue fits → IsKeyFit recording.now versions.now key) }
{
    let writers = versions.recorded.writers_of(key as usize);
    for i in 0..writers.len() {
        if !fits_version(alloc, recording, versions, key, writers[i], i + 1)? {
            return Ok(false);
        }
    }
    Ok(true)
}

// Whether the versions of all keys are what their writers make of those before them.
fn fits_keys(alloc: Global, recording: &Recording, versions: &Versions) -> Result<bool, AllocError>
    requires recording { IsRecording recording.now }
    requires history { IsRecorded versions.now.recorded }
    ensures { IfOk result (λ fits. IsTrue fits → (k : ℕ) → IsKeyFit recording.now versions.now k) }
{
    if versions.recorded.heads.len() > 0xffff_ffff {
        return Ok(false);
    }
    for key in 0..versions.recorded.heads.len() {
        if !fits_key(alloc, recording, versions, key as u32)? {
            return Ok(false);
        }
    }
    Ok(true)
}

// Whether a transaction wrote the version that a value is part of.
fn is_placed(versions: &Versions, txn: u32, key: u32, value: u32) -> bool
    requires { IsRecorded versions.now.recorded }
    ensures { IsTrue result → IsPlaced versions.now txn key }
{
    let Some(home) = versions.homes.get(value as usize) else {
        return false;
    };
    let version = home.version as usize;
    let writers = versions.recorded.writers_of(key as usize);
    if version == 0 || version > writers.len() {
        return false;
    }
    writers[version - 1] == txn
}

/// The value that an act puts.
pub fn value_of(act: Act) -> Option<u32>
    ensures some { IfSome result (Puts act) }
    ensures none { IfNone result ((v : ℕ) → Puts act v → ⊥) }
{
    match act {
        Act::Append(value) => Some(value),
        Act::Write(value) => Some(value),
        Act::Read(_) => None,
    }
}

// Whether an operation of a transaction puts nothing, or the transaction wrote a version of its
// key.
fn is_op_placed(versions: &Versions, txn: u32, op: RecordedOp) -> bool
    requires { IsRecorded versions.now.recorded }
    ensures { IsTrue result → (v : ℕ) → Puts op.act v → IsPlaced versions.now txn op.key }
{
    let Some(value) = value_of(op.act) else {
        return true;
    };
    is_placed(versions, txn, op.key, value)
}

// Whether a transaction wrote a version of each key that it puts into.
fn are_ops_placed(versions: &Versions, txn: u32, ops: &[RecordedOp]) -> bool
    requires { IsRecorded versions.now.recorded }
    ensures { IsTrue result → (k v : ℕ) → PutsIn ops.now k v → IsPlaced versions.now txn k }
{
    for i in 0..ops.len() {
        if !is_op_placed(versions, txn, ops[i]) {
            return false;
        }
    }
    true
}

// Whether those that committed wrote a version of each key that they put into.
fn are_placed(recording: &Recording, versions: &Versions) -> bool
    requires recording { IsRecording recording.now }
    requires history { IsRecorded versions.now.recorded }
    ensures { IsTrue result → (t k v : ℕ) → t < txns_of recording.now → IsTrue (live_of versions.now t)
        → IsPut recording.now t k v → IsPlaced versions.now t k }
{
    for txn in 0..recording.transactions.len() {
        if !versions.is_live(txn as u32) {
            continue;
        }
        if !are_ops_placed(versions, txn as u32, recording.ops_of(txn)) {
            return false;
        }
    }
    true
}

// Whether what is known to have committed did, and what failed did not.
fn are_live(recording: &Recording, versions: &Versions) -> bool
    requires { IsRecording recording.now }
    ensures ok { IsTrue result → (t : ℕ) → t < txns_of recording.now
        → (transaction_at recording.now t).outcome ≡ Committed → IsTrue (live_of versions.now t) }
    ensures fail { IsTrue result → (t : ℕ) → (transaction_at recording.now t).outcome ≡ Failed
        → live_of versions.now t ≡ false }
{
    if versions.live.len() != recording.transactions.len() {
        return false;
    }
    for txn in 0..recording.transactions.len() {
        let live = versions.live[txn];
        match recording.transactions[txn].outcome {
            RecordedOutcome::Ok if !live => return false,
            RecordedOutcome::Fail if live => return false,
            _ => {}
        }
    }
    true
}

// Whether what was seen is the version that was read.
fn fits_view(recording: &Recording, versions: &Versions, view: RecordedView, read: Read) -> bool
    requires recording { IsRecording recording.now }
    requires history { IsRecorded versions.now.recorded }
    requires read { Contains versions.now.recorded.reads.items read }
    requires there { view.span.first + view.span.count ≤ length recording.now.elements.items }
    ensures { IsTrue result → IsViewFit recording.now versions.now view }
{
    if read.txn != view.txn {
        return false;
    }
    if read.key != view.key {
        return false;
    }
    let version = read.version as usize;
    if version > versions.recorded.writers_of(view.key as usize).len() {
        return false;
    }
    match text_at(
        versions.texts.as_slice(),
        versions.span_of(view.key as usize, version),
    ) {
        Some(text) => is_end(recording.list_of(view.span), text, 0),
        None => false,
    }
}

// Whether all that was seen is what was read.
fn are_views_fit(recording: &Recording, views: &[RecordedView], versions: &Versions) -> bool
    requires recording { IsRecording recording.now }
    requires history { IsRecorded versions.now.recorded }
    requires views { (v : RecordedView) → Contains views.now v → IsViewOf recording.now v }
    ensures { IsTrue result → (v : RecordedView) → Contains views.now v → IsViewFit recording.now versions.now v }
{
    if versions.recorded.reads.len() != views.len() {
        return false;
    }
    for i in 0..views.len() {
        if !fits_view(recording, versions, views[i], versions.recorded.reads[i]) {
            return false;
        }
    }
    true
}

/// Whether the versions are those of the recording where the live transactions committed.
pub(crate) fn is_fit(
    alloc: Global,
    recording: &Recording,
    views: &[RecordedView],
    versions: &Versions,
) -> Result<bool, AllocError>
    requires recording { IsRecording recording.now }
    requires history { IsRecorded versions.now.recorded }
    requires views { (v : RecordedView) → Contains views.now v → IsViewOf recording.now v }
    ensures { IfOk result (λ fits. IsTrue fits → IsFit recording.now views.now (history_of versions.now.recorded)
        (live_of versions.now) (text_of versions.now)) }
{
    if (versions.recorded.txns as usize) < recording.transactions.len() {
        return Ok(false);
    }
    if !are_live(recording, versions) {
        return Ok(false);
    }
    if !are_placed(recording, versions) {
        return Ok(false);
    }
    if !are_views_fit(recording, views, versions) {
        return Ok(false);
    }
    fits_keys(alloc, recording, versions)
}
