//! Bars and diamonds: what changed of keys by a line.
ghost use Rattle.std.specs.Prelude.{◌≡◌, ◌↔◌, ◌++◌, ◌∷◌, [], List, Some, Any, Contains, IsTrue, IfOk, OnOk, map, option_map, slice_set};
ghost use Rattle.tx_film.specs.declared.frame.KeyShown.{KeyShown as Shown};
ghost use Rattle.tx_sheet.specs.Changes.{noted, last_of, ChangesOf};

use crate::change::change_of;
use crate::row::Change;
use crate::values::Values;
use std::alloc::{AllocError, Global};
use tx_cells::KeyVersions;
use tx_film::KeyShown;
use tx_trace::Taking;
use tx_types::Key;

// Notes what is shown of a key in place of what was shown last.
fn note<'k>(last: &mut Vec<Option<&'k KeyVersions>>, key: usize, shown: &'k KeyVersions)
    ensures { map (option_map (λ s. s.now)) last.new.items
        ≡ slice_set (map (option_map (λ s. s.now)) last.old.items) key (Some shown.now) }
{
    if key < last.len() {
        last[key] = Some(shown);
    }
}

/// Notes what is shown of keys in place of what was shown last.
pub(crate) fn note_shown<'k>(last: &mut Vec<Option<&'k KeyVersions>>, shown: &'k [KeyShown])
    ensures { map (option_map (λ s. s.now)) last.new.items
        ≡ noted (map (option_map (λ s. s.now)) last.old.items) shown.now }
{
    'shown: for said in shown {
        note(last, said.key, said.shown.copy());
    }
}

// What was shown of a key last.
fn last_of<'k>(last: &[Option<&'k KeyVersions>], key: usize) -> Option<&'k KeyVersions>
    ensures { option_map (λ s. s.now) result ≡ last_of (map (option_map (λ s. s.now)) last.now) key }
{
    if key < last.len() { last[key] } else { None }
}

// Whether a change is of this key.
fn is_of(change: &Change, key: usize) -> bool
    ensures { IsTrue result ↔ (change.now.key ≡ key) }
{
    change.key == key
}

// Whether a change of this key is told.
fn is_told(changes: &[Change], key: usize) -> bool
    ensures { IsTrue result ↔ Any (λ c. c.key ≡ key) changes.now }
{
    'changes: for change in changes {
        if is_of(change, key) {
            return true;
        }
    }
    false
}

// Puts what changed of a key among changes, unless nothing did, or it is told there.
fn put_change(
    alloc: Global,
    changes: &mut Vec<Change>,
    last: &[Option<&KeyVersions>],
    values: &mut Values,
    keys: &[Key],
    takings: &[Taking],
    said: &KeyShown,
) -> Result<(), AllocError>
    ensures { OnOk result ((all these : List Shown) → Contains all said.now
        → ChangesOf (map (option_map (λ s. s.now)) last.now) all these changes.old.items
        → ChangesOf (map (option_map (λ s. s.now)) last.now) all (these ++ said.now ∷ []) changes.new.items) }
{
    if said.key >= last.len() {
        return Ok(());
    }
    if is_told(changes.as_slice(), said.key) {
        return Ok(());
    }
    let mut change = change_of(alloc, said.key, last_of(last, said.key), said.shown.copy())?;
    if change.is_none() {
        drop(change);
        return Ok(());
    }
    let value = values.after(alloc, keys, takings, &change)?;
    change.value = value;
    Ok(changes.push(change)?)
}

/// What changed of keys by a line, of which this is shown and these requests are, where this was
/// shown last.
pub(crate) fn changes_of(
    alloc: Global,
    last: &[Option<&KeyVersions>],
    values: &mut Values,
    keys: &[Key],
    takings: &[Taking],
    shown: &[KeyShown],
) -> Result<Vec<Change>, AllocError>
    ensures { IfOk result (λ changes. ChangesOf (map (option_map (λ s. s.now)) last.now)
        shown.now shown.now changes.items) }
{
    let mut changes = Vec::new(alloc);
    'shown: for said in shown {
        put_change(alloc, &mut changes, last, values, keys, takings, said)?;
    }
    Ok(changes)
}
