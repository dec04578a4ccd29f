//! Whether what versions stand on holds under each explanation.
ghost use Rattle.std.specs.Prelude.{ℕ, ◌+◌, ◌-◌, ◌<◌, Contains, Some, IfOk, IsTrue};
ghost use Rattle.tx_recording.specs.Recordings.{IsRecording, ops_of};
ghost use Rattle.tx_views.specs.declared.view.RecordedView.{RecordedView};
ghost use Rattle.tx_views.specs.Views.{IsViewOf};
ghost use Rattle.tx_history.specs.declared.recorded.Read.{Read};
ghost use Rattle.tx_history.specs.Records.{IsRecorded, history_of, writers_of};
ghost use Rattle.tx_verdict.specs.Cases.{IsCase};
ghost use Rattle.tx_verdict.specs.Reasons.{HasCommitted};
ghost use Rattle.tx_verdict.specs.Forced.{AreForced, AreKnown, AreWriters, IsChain, IsReadForced, key_of};

use crate::case::Case;
use crate::chain::is_chain;
use crate::fit::puts;
use crate::owners::{is_by, sees_nothing, sees_writer};
use crate::versions::{Shown, Versions};
use std::alloc::{AllocError, Global};
use tx_history::Read;
use tx_recording::Recording;
use tx_views::RecordedView;

// Whether the writers of a chain put into its key and are known to have committed.
fn are_writers(recording: &Recording, versions: &Versions, chain: u32, key: u32) -> bool
    requires recording { IsRecording recording.now }
    requires history { IsRecorded versions.now.recorded }
    requires known { AreKnown recording.now versions.now }
    ensures { IsTrue result → AreWriters recording.now key (writers_of versions.now.recorded chain) }
{
    let writers = versions.recorded.writers_of(chain as usize);
    for i in 0..writers.len() {
        let writer = writers[i];
        if writer as usize >= recording.transactions.len() {
            return false;
        }
        if !versions.is_live(writer) {
            return false;
        }
        if !puts(recording.ops_of(writer as usize), key) {
            return false;
        }
    }
    true
}

// Whether the versions of each chain are of its key, and known to be committed one after the other.
fn are_chains(alloc: Global, case: &Case<'_>, versions: &Versions) -> Result<bool, AllocError>
    requires case { IsCase case.now }
    requires history { IsRecorded versions.now.recorded }
    requires known { AreKnown case.now.recording.now versions.now }
    ensures { IfOk result (λ are. IsTrue are → (q : ℕ) → IsChain case.now.recording.now versions.now q) }
{
    let chains = versions.names.len();
    if chains > 0xffff_ffff {
        return Ok(false);
    }
    if chains + 1 < versions.recorded.heads.len() {
        return Ok(false);
    }
    for chain in 0..chains {
        let key = versions.names[chain];
        if !are_writers(case.recording, versions, chain as u32, key) {
            return Ok(false);
        }
        if !is_chain(alloc, case, versions, chain as u32, key)? {
            return Ok(false);
        }
    }
    Ok(true)
}

// Whether a value that the transaction put was seen.
fn is_shown(case: &Case<'_>, shown: Shown, txn: u32) -> bool
    requires case { IsCase case.now }
    ensures { IsTrue result → HasCommitted case.now.recording.now txn }
{
    if shown.view as usize >= case.views.len() {
        return false;
    }
    let list = case.recording.list_of(case.views[shown.view as usize].span);
    if shown.place as usize >= list.len() {
        return false;
    }
    is_by(case.owners, list[shown.place as usize], txn)
}

/// Whether a transaction is known to have committed.
pub(crate) fn is_known(case: &Case<'_>, versions: &Versions, txn: u32) -> bool
    requires case { IsCase case.now }
    ensures { IsTrue result → HasCommitted case.now.recording.now txn }
{
    if txn as usize >= case.recording.transactions.len() {
        return false;
    }
    if case.recording.transactions[txn as usize].outcome.is_ok() {
        return true;
    }
    match versions.shown.get(txn as usize) {
        Some(shown) => is_shown(case, *shown, txn),
        None => false,
    }
}

// Whether all that is live is known to have committed.
fn are_known(case: &Case<'_>, versions: &Versions) -> bool
    requires case { IsCase case.now }
    ensures { IsTrue result → AreKnown case.now.recording.now versions.now }
{
    if versions.live.len() > 0xffff_ffff {
        return false;
    }
    for txn in 0..versions.live.len() {
        if !versions.live[txn] {
            continue;
        }
        if !is_known(case, versions, txn as u32) {
            return false;
        }
    }
    true
}

// Whether what was read is what a view says.
fn is_read(case: &Case<'_>, view: RecordedView, versions: &Versions, read: Read) -> bool
    requires case { IsCase case.now }
    requires view { IsViewOf case.now.recording.now view }
    requires history { IsRecorded versions.now.recorded }
    ensures { IsTrue result → IsReadForced case.now.recording.now versions.now read }
{
    if read.txn as usize >= case.recording.transactions.len() {
        return false;
    }
    if read.key as usize >= versions.names.len() {
        return false;
    }
    let key = versions.names[read.key as usize];
    let version = read.version as usize;
    if version == 0 {
        return sees_nothing(case.recording, view, read.txn, key);
    }
    let writers = versions.recorded.writers_of(read.key as usize);
    if version > writers.len() {
        return false;
    }
    sees_writer(case, view, read.txn, key, writers[version - 1])
}

// Whether all that was read is what the views say.
fn are_reads(case: &Case<'_>, versions: &Versions) -> bool
    requires case { IsCase case.now }
    requires history { IsRecorded versions.now.recorded }
    ensures { IsTrue result → (p : Read) → Contains versions.now.recorded.reads.items p
        → IsReadForced case.now.recording.now versions.now p }
{
    if versions.recorded.reads.len() != case.views.len() {
        return false;
    }
    for i in 0..case.views.len() {
        if !is_read(case, case.views[i], versions, versions.recorded.reads[i]) {
            return false;
        }
    }
    true
}

/// Whether the versions and what was read of them are so by the recording.
pub(crate) fn is_forced(
    alloc: Global,
    case: &Case<'_>,
    versions: &Versions,
) -> Result<bool, AllocError>
    requires case { IsCase case.now }
    requires history { IsRecorded versions.now.recorded }
    ensures { IfOk result (λ are. IsTrue are
        → AreForced case.now.recording.now (history_of versions.now.recorded) (key_of versions.now)) }
{
    if !are_known(case, versions) {
        return Ok(false);
    }
    if !are_chains(alloc, case, versions)? {
        return Ok(false);
    }
    Ok(are_reads(case, versions))
}
