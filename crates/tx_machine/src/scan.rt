//! Whether the rows that a scan was answered with are those that a read at its timestamp sees.
//!
//! The rows are walked in order. Between one row and the next no key may show a value, and each
//! row's key has to show the row's value. So only keys of the range are looked at, and where the
//! limit ended the scan none beyond the last row.
ghost use Rattle.std.specs.Prelude.{◌≡◌, ◌↔◌, ◌≤◌, length, option_map, Some, None, IsTrue, IfSome, IfNone};
ghost use Rattle.std.specs.declared.ops.Bound.TheVariants.{Included};
ghost use Rattle.std.specs.Cmp.Lexicographic.{slice_cmp};
ghost use Rattle.std.specs.Ordering.{nat_cmp};
ghost use Rattle.std.specs.Range.Bound.{bound_map};
ghost use Rattle.std.specs.BTreeMap.Range.{IsFromStart};
ghost use Rattle.tx_machine.specs.Shown.{Shows, ShowsRows};
ghost use Rattle.tx_machine.specs.Scans.{IsKeyWithin, IsBare, IsNextRow, DiffersBefore, Differs};
ghost use Rattle.tx_machine.specs.Why.{AreInPlace, IsMisplaced};
ghost use Rattle.tx_types.specs.Keys.{value_in};

use crate::step::ScanRead;
use crate::versions::{Fates, KeyHistory, seen};
use std::collections::BTreeMap;
use std::ops::{Bound, RangeBounds};
use tx_types::{Key, KeyValue, Ts, Value};

/// What the commits of each key have left.
pub(crate) type Index = BTreeMap<Key, KeyHistory>;

/// The value that a read of the key at this timestamp sees.
pub(crate) fn shown<'a>(index: &'a Index, fates: &Fates, key: &Key, at: Ts) -> Option<&'a Value>
    ensures { Shows index.now fates.now key.now at (option_map (λ v. v.now) result) }
{
    let history = index.get(key)?;
    seen(&history.versions, fates, at)
}

// The first key from the bound up to but not including `to` that shows a value.
fn first_shown<'a>(
    index: &'a Index,
    fates: &Fates,
    from: Bound<&Key>,
    to: &Key,
    at: Ts,
) -> Option<&'a Key>
    requires { IsFromStart (slice_cmp nat_cmp) (bound_map (λ x. x.now) from) to.now }
    ensures some { IfSome result (λ key. IsKeyWithin (bound_map (λ x. x.now) from.entry) to.now key.now
        × (Shows index.now fates.now key.now at None → ⊥)) }
    ensures none { IfNone result (IsBare index.now fates.now (bound_map (λ x. x.now) from.entry) to.now at) }
{
    for (key, history) in index.range((from, Bound::Excluded(to))) {
        if seen(&history.versions, fates, at).is_some() {
            return Some(key);
        }
    }
    None
}

// Whether none of them shows a value.
fn is_bare(index: &Index, fates: &Fates, from: Bound<&Key>, to: &Key, at: Ts) -> bool
    requires { IsFromStart (slice_cmp nat_cmp) (bound_map (λ x. x.now) from) to.now }
    ensures { IsTrue result ↔ IsBare index.now fates.now (bound_map (λ x. x.now) from.entry) to.now at }
{
    first_shown(index, fates, from, to, at).is_none()
}

// Whether a key lies inside a lower bound and below another key.
fn is_within(from: Bound<&Key>, to: &Key, key: &Key) -> bool
    ensures { IsTrue result ↔ IsKeyWithin (bound_map (λ x. x.now) from.entry) to.now key.now }
{
    (from, Bound::Excluded(to)).contains(key)
}

// Whether the row is the first of the scan from the bound on.
fn is_next(index: &Index, fates: &Fates, scan: &ScanRead, from: Bound<&Key>, row: &KeyValue) -> bool
    ensures { IsTrue result ↔ IsNextRow index.now fates.now scan.now (bound_map (λ x. x.now) from.entry) row.now }
{
    is_within(from, &scan.to, &row.key)
        && is_bare(index, fates, from, &row.key, scan.at)
        && shown(index, fates, &row.key, scan.at).is_some_and(|value| *value == row.value)
}

/// Whether a scan at its timestamp sees its rows: the first keys of its range that show a value, in
/// order and with what they show, at most as many as its limit. It costs O(log n) for each row
/// among n keys, and O(log m) for each key from the start of the range up to the last row, or up to
/// the end where the rows are fewer than the limit, among the m versions of that key.
pub(crate) fn sees_rows(index: &Index, fates: &Fates, scan: &ScanRead) -> bool
    ensures { IsTrue result ↔ ShowsRows index.now fates.now scan.now }
{
    let rows = scan.rows.as_slice();
    let limit = scan.limit as usize;
    if scan.from >= scan.to {
        return rows.is_empty();
    }
    if rows.len() > limit {
        return false;
    }
    let mut from = Bound::Included(&scan.from);
    for row in rows {
        if !is_next(index, fates, scan, from, row) {
            return false;
        }
        from = Bound::Excluded(&row.key);
    }
    rows.len() == limit || is_bare(index, fates, from, &scan.to, scan.at)
}

/// The key of the first row that is not in the range, or not above the row before it.
pub(crate) fn misplaced(scan: &ScanRead) -> Option<&Key>
    ensures some { IfSome result (λ key. IsMisplaced (Included scan.now.from) scan.now.to scan.now.rows key.now) }
    ensures none { IfNone result (AreInPlace (Included scan.now.from) scan.now.to scan.now.rows) }
{
    let rows = scan.rows.as_slice();
    let mut from = Bound::Included(&scan.from);
    for row in rows {
        if !is_within(from, &scan.to, &row.key) {
            return Some(&row.key);
        }
        from = Bound::Excluded(&row.key);
    }
    None
}

// The first key from the bound up to a row's that a read sees otherwise than the row says.
fn row_differing<'a>(
    index: &'a Index,
    fates: &Fates,
    at: Ts,
    from: Bound<&Key>,
    row: &'a KeyValue,
) -> Option<&'a Key>
    requires { IsFromStart (slice_cmp nat_cmp) (bound_map (λ x. x.now) from) row.now.key }
    ensures some { IfSome result (λ key. DiffersBefore index.now fates.now at (bound_map (λ x. x.now) from.entry)
        row.now key.now) }
    ensures none { IfNone result (IsBare index.now fates.now (bound_map (λ x. x.now) from.entry) row.now.key at
        × Shows index.now fates.now row.now.key at (Some row.now.value)) }
{
    if let Some(key) = first_shown(index, fates, from, &row.key, at) {
        return Some(key);
    }
    if shown(index, fates, &row.key, at).is_some_and(|value| *value == row.value) {
        None
    } else {
        Some(&row.key)
    }
}

/// The first key that a scan covers and that a read sees otherwise than its rows, which are in
/// place, say.
pub(crate) fn differing<'a>(index: &'a Index, fates: &Fates, scan: &'a ScanRead) -> Option<&'a Key>
    requires placed { AreInPlace (Included scan.now.from) scan.now.to scan.now.rows }
    requires upto { length scan.now.rows ≤ scan.now.limit }
    ensures some { IfSome result (λ key. Differs index.now fates.now scan.now key.now) }
    ensures none { IfNone result (ShowsRows index.now fates.now scan.now) }
{
    let rows = scan.rows.as_slice();
    if scan.from >= scan.to {
        return None;
    }
    let mut from = Bound::Included(&scan.from);
    for row in rows {
        if let Some(key) = row_differing(index, fates, scan.at, from, row) {
            return Some(key);
        }
        from = Bound::Excluded(&row.key);
    }
    if rows.len() == scan.limit as usize {
        return None;
    }
    first_shown(index, fates, from, &scan.to, scan.at)
}

/// The value that the rows give a key.
pub(crate) fn value_in<'a>(rows: &'a [KeyValue], key: &Key) -> Option<&'a Value>
    ensures { option_map (λ v. v.now) result ≡ value_in rows.now key.now }
{
    for row in rows {
        if row.key == *key {
            return Some(&row.value);
        }
    }
    None
}
