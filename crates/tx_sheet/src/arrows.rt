//! Arrows: where requests went.
ghost use Rattle.std.specs.Prelude.{◌≡◌, ◌↔◌, false, List, [], All, Any, IsTrue, IfOk, OnOk};
ghost use Rattle.tx_types.specs.Keys.{is_scanned, reaches};
ghost use Rattle.tx_plan.specs.Targets.{target};
ghost use Rattle.tx_sheet.specs.Arrows.{is_locked, scan_reached, went, is_of_keys, is_collect, IsBeyond, GoesTo, IsCollected, AreArrows, Gains};

use crate::row::{Change, Target};
use std::alloc::{AllocError, Global};
use tx_core::{Answer, Body, Scan, Target as To};
use tx_trace::Taking;
use tx_types::{Key, KeyValue};

// Whether there is a row at this key or above.
fn reaches(rows: &[KeyValue], key: &Key) -> bool
    ensures { result ≡ reaches rows.now key.now }
{
    'rows: for row in rows {
        if *key <= row.key {
            return true;
        }
    }
    false
}

/// Whether a scan that was answered by these rows covered a key.
pub(crate) fn is_scanned(scan: &Scan, rows: &[KeyValue], key: &Key) -> bool
    ensures { result ≡ is_scanned scan.now.from scan.now.to scan.now.limit rows.now key.now }
{
    if scan.from <= *key && *key < scan.to {
        (rows.len() as u64) < u64::from(scan.limit) || reaches(rows, key)
    } else {
        false
    }
}

// Whether a scan reached a key.
fn is_reached(scan: &Scan, answer: &Answer, key: &Key) -> bool
    ensures { result ≡ scan_reached scan.now answer.now key.now }
{
    match answer {
        Answer::Rows(rows) => is_scanned(scan, rows.as_slice(), key),
        Answer::KeyIsLocked(info) => info.facts().key == *key,
        _ => false,
    }
}

// Whether a request went to a key.
fn has_gone(taking: &Taking, key: &Key) -> bool
    ensures { result ≡ went taking.now key.now }
{
    match taking.body.target() {
        To::Key(own) => *own == *key,
        To::Range(scan) => is_reached(scan, &taking.answer, key),
        To::Region(_) => false,
    }
}

// Whether a request met a lock.
fn is_locked(answer: &Answer) -> bool
    ensures { result ≡ is_locked answer.now }
{
    matches!(answer, Answer::KeyIsLocked(_))
}

// Puts an arrow among arrows, unless it is there.
fn put_arrow(arrows: &mut Vec<Target>, arrow: Target) -> Result<(), AllocError>
    ensures { OnOk result (Gains arrows.old.items arrows.new.items (λ x. x ≡ arrow)) }
{
    if arrows.iter().any(|known| *known == arrow) {
        return Ok(());
    }
    Ok(arrows.push(arrow)?)
}

// Puts the arrows of a request among arrows.
fn put_arrows(arrows: &mut Vec<Target>, keys: &[Key], taking: &Taking) -> Result<(), AllocError>
    ensures { OnOk result (Gains arrows.old.items arrows.new.items (GoesTo keys.now taking.now)) }
{
    let meets_lock = is_locked(&taking.answer);
    'keys: for (place, key) in keys.iter().enumerate() {
        if has_gone(taking, key) {
            put_arrow(
                arrows,
                Target {
                    key: place,
                    meets_lock,
                },
            )?;
        }
    }
    Ok(())
}

// Puts an arrow to each key that changed among arrows.
fn put_changed(arrows: &mut Vec<Target>, changes: &[Change]) -> Result<(), AllocError>
    ensures { OnOk result (Gains arrows.old.items arrows.new.items
        (λ x. Any (λ c. c.key ≡ x.key) changes.now × (x.meets_lock ≡ false))) }
{
    'changes: for change in changes {
        put_arrow(
            arrows,
            Target {
                key: change.key,
                meets_lock: false,
            },
        )?;
    }
    Ok(())
}

// Whether a request collects.
fn is_collect(body: &Body) -> bool
    ensures { result ≡ is_collect body.now }
{
    matches!(body, Body::Collect(_))
}

// Whether one of these requests collects.
fn collects(takings: &[Taking]) -> bool
    ensures { IsTrue result ↔ Any (λ taking. IsTrue (is_collect taking.body)) takings.now }
{
    takings.iter().any(|taking| is_collect(&taking.body))
}

// Puts the arrows of a collection among arrows, where one of these requests collects.
fn put_collected(
    arrows: &mut Vec<Target>,
    takings: &[Taking],
    changes: &[Change],
) -> Result<(), AllocError>
    ensures { OnOk result (Gains arrows.old.items arrows.new.items (IsCollected takings.now changes.now)) }
{
    if collects(takings) {
        put_changed(arrows, changes)
    } else {
        Ok(())
    }
}

/// The arrows of the requests that regions took by a line, by which this changed: to what a
/// collection went is what changed.
pub(crate) fn arrows_of(
    alloc: Global,
    keys: &[Key],
    takings: &[Taking],
    changes: &[Change],
) -> Result<Vec<Target>, AllocError>
    ensures { IfOk result (λ arrows. AreArrows keys.now takings.now changes.now arrows.items) }
{
    let mut arrows = Vec::new(alloc);
    'takings: for taking in takings {
        put_arrows(&mut arrows, keys, taking)?;
    }
    put_collected(&mut arrows, takings, changes)?;
    Ok(arrows)
}

// Whether a request is of keys.
fn is_of_keys(body: &Body) -> bool
    ensures { result ≡ is_of_keys (target body.now) }
{
    match body.target() {
        To::Key(_) | To::Range(_) => true,
        To::Region(_) => false,
    }
}

// Whether a request went to none of these keys.
fn reaches_none(keys: &[Key], taking: &Taking) -> bool
    ensures { IsTrue result ↔ All (λ key. went taking.now key ≡ false) keys.now }
{
    keys.iter().all(|key| !has_gone(taking, key))
}

// Whether a request is of keys, and went to none of these.
fn is_beyond(keys: &[Key], taking: &Taking) -> bool
    ensures { IsTrue result ↔ IsBeyond keys.now taking.now }
{
    is_of_keys(&taking.body) && reaches_none(keys, taking)
}

/// Whether one of these requests is of keys, and went to none of these.
pub(crate) fn goes_beyond(keys: &[Key], takings: &[Taking]) -> bool
    ensures { IsTrue result ↔ Any (IsBeyond keys.now) takings.now }
{
    takings.iter().any(|taking| is_beyond(keys, taking))
}
