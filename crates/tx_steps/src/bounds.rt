//! The step `regions`, which only line 1 may be: the keys between the regions.
ghost use Rattle.std.specs.Prelude.{◌≡◌, Some, None, option_map, IfOk, IfErr};
ghost use Rattle.serde_json.specs.View.{view, items_view};
ghost use Rattle.tx_types.specs.declared.fault.Fault.TheVariants as fault;
ghost use Rattle.tx_text.specs.Parts.{count, parts_items};
ghost use Rattle.tx_steps.specs.Bounds.{key_in, all_keys, are_rising, is_count, after_regions, list_said, bounds_said};

use crate::members::{none_left, text};
use serde_json::Value;
use std::alloc::Global;
use tx_text::Part;
use tx_types::limits::MAX_REGIONS;
use tx_types::{Fault, Key, is_key};

// The key that a value is, where it is one.
fn key(alloc: Global, value: &Value) -> Result<Option<Key>, Fault>
    ensures ok { IfOk result (λ found. found ≡ key_in (view value.now)) }
    ensures err { IfErr result (λ e. e ≡ fault.OutOfMemory) }
{
    let Some(text) = value.as_str() else {
        return Ok(None);
    };
    if !is_key(text.as_bytes()) {
        return Ok(None);
    }
    match Key::new(alloc, text.as_bytes()) {
        Ok(key) => Ok(Some(key)),
        Err(_) => Err(Fault::OutOfMemory),
    }
}

// The keys that values are, where each is one.
fn keys(alloc: Global, values: &[Value]) -> Result<Option<Vec<Key>>, Fault>
    ensures ok { IfOk result (λ found. option_map (λ keys. keys.items) found ≡ all_keys (items_view values.now)) }
    ensures err { IfErr result (λ e. e ≡ fault.OutOfMemory) }
{
    let mut keys = Vec::with_capacity(alloc, values.len())?;
    for value in values {
        match key(alloc, value)? {
            Some(key) => keys.push(key)?,
            None => return Ok(None),
        }
    }
    Ok(Some(keys))
}

// Whether each key is below the one after it.
fn are_rising(keys: &[Key]) -> bool
    ensures { result ≡ are_rising keys.now }
{
    match keys {
        [] | [_] => true,
        [first, rest @ ..] => *first < rest[0] && are_rising(rest),
    }
}

// Whether there may be so many keys between regions.
#[tactic(auto, using(crate::proofs::FirstMembers::count_view))]
fn is_count(values: &[Value]) -> bool
    ensures { result ≡ is_count (count (items_view values.now)) }
{
    let count = values.len();
    0 < count && count < MAX_REGIONS
}

// The list after the word, where nothing comes after it.
fn after_regions<'a>(members: &[Part<'a>]) -> Option<&'a [Value]>
    ensures { option_map (λ values. items_view values.now) result ≡ after_regions (parts_items members.now) }
{
    let (first, rest) = members.split_first()?;
    let values = first.as_array()?;
    if none_left(rest) && is_count(values) {
        Some(values)
    } else {
        None
    }
}

// The list that the members say, where they say `regions`.
fn list<'a>(members: &[Part<'a>]) -> Option<&'a [Value]>
    ensures { option_map (λ values. items_view values.now) result ≡ list_said (parts_items members.now) }
{
    let (word, rest) = text(members)?;
    if word == "regions" {
        after_regions(rest)
    } else {
        None
    }
}

/// The keys between the regions that the members of line 1 say, where they say some: 1 to 63 keys,
/// each above the one before. `OutOfMemory` where a growth was refused.
pub fn bounds_of(alloc: Global, members: &[Part<'_>]) -> Result<Option<Vec<Key>>, Fault>
    ensures ok { IfOk result (λ found. option_map (λ keys. keys.items) found ≡ bounds_said (parts_items members.now)) }
    ensures err { IfErr result (λ e. e ≡ fault.OutOfMemory) }
{
    let Some(values) = list(members) else {
        return Ok(None);
    };
    let Some(keys) = keys(alloc, values)? else {
        return Ok(None);
    };
    if are_rising(keys.as_slice()) {
        Ok(Some(keys))
    } else {
        Ok(None)
    }
}
