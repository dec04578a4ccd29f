//! What changed of keys.
ghost use Rattle.std.specs.Prelude.{◌≡◌, ◌≤◌, ◌++◌, ◌∷◌, ◌↔◌, [], List, All, Any, Contains, IsTrue, IfOk, OnOk, drop, length, option_map};
ghost use Rattle.tx_sheet.specs.declared.key_state.SeenRecord.{SeenRecord as Seen};
ghost use Rattle.tx_sheet.specs.Seen.{AreAlike};
ghost use Rattle.tx_sheet.specs.Changes.{AreOthers, IsChange, IsQuiet};

use crate::key_state::{SeenLock, SeenRecord, lock_in, records_in};
use crate::row::Change;
use std::alloc::{AllocError, Global};
use tx_cells::KeyVersions;

// Whether a record is one of these.
fn has(records: &[SeenRecord], seen: &SeenRecord) -> bool
    ensures { IsTrue result ↔ Any (λ r. r ≡ seen.now) records.now }
{
    records.iter().any(|known| *known == *seen)
}

// Whether two records are one.
fn is_same(a: &SeenRecord, b: &SeenRecord) -> bool
    ensures { IsTrue result ↔ (a.now ≡ b.now) }
{
    *a == *b
}

// From where on all records of some are among others: what both end with alike.
fn end_of(some: &[SeenRecord], others: &[SeenRecord]) -> usize
    ensures within { result ≤ length some.now }
    ensures known { All (Contains others.now) (drop result some.now) }
{
    let mut end = some.len();
    let mut left = others.len();
    'ends: while end > 0 && left > 0 && is_same(&some[end - 1], &others[left - 1]) {
        end -= 1;
        left -= 1;
    }
    end
}

// Puts a record behind what others do not have, where they do not have it.
fn put_other(
    found: &mut Vec<SeenRecord>,
    others: &[SeenRecord],
    seen: SeenRecord,
) -> Result<(), AllocError>
    ensures { OnOk result ((some : List Seen) → AreOthers others.now some found.old.items
        → AreOthers others.now (some ++ seen ∷ []) found.new.items) }
{
    if has(others, &seen) {
        return Ok(());
    }
    Ok(found.push(seen)?)
}

// The records of some that others do not have, in their order.
fn others_of(
    alloc: Global,
    some: &[SeenRecord],
    others: &[SeenRecord],
) -> Result<Vec<SeenRecord>, AllocError>
    ensures { IfOk result (λ found. AreOthers others.now some.now found.items) }
{
    let end = end_of(some, others);
    let first = &some[..end];
    let mut found = Vec::new(alloc);
    'records: for seen in first {
        put_other(&mut found, others, *seen)?;
    }
    Ok(found)
}

/// What changed of the key at this place, by what was shown of it last, and what is shown now.
pub(crate) fn change_of(
    alloc: Global,
    key: usize,
    before: Option<&KeyVersions>,
    after: &KeyVersions,
) -> Result<Change, AllocError>
    ensures key { IfOk result (λ change. change.key ≡ key) }
    ensures is { IfOk result (λ change. IsChange (option_map (λ s. s.now) before.entry) after.now change) }
{
    let old = records_in(alloc, before)?;
    let new = records_in(alloc, Some(after))?;
    let came = others_of(alloc, new.as_slice(), old.as_slice())?;
    let went = others_of(alloc, old.as_slice(), new.as_slice())?;
    Ok(Change {
        key,
        old_lock: lock_in(before),
        lock: lock_in(Some(after)),
        value: String::new(alloc),
        came,
        went,
    })
}

/// Whether a lock is shown as another.
pub fn is_same_lock(old: Option<SeenLock>, new: Option<SeenLock>) -> bool
    ensures { IsTrue result ↔ AreAlike old new }
{
    match (old, new) {
        (None, None) => true,
        (Some(old), Some(new)) => {
            old.kind == new.kind && old.start == new.start && old.minimum == new.minimum
        }
        _ => false,
    }
}

impl Change {
    /// Whether nothing changed.
    pub fn is_none(&self) -> bool
        ensures { IsTrue result ↔ IsQuiet self.now }
    {
        is_same_lock(self.old_lock, self.lock) && self.came.is_empty() && self.went.is_empty()
    }
}
