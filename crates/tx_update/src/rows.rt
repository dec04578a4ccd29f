//! Rows in the order of their keys, and what is entered over them.
ghost use Rattle.std.specs.Prelude.{◌≡◌, ◌⊎◌, ◌≤◌, length, reverse, take, Some, option_map, OnOk, IfOk, IfErr, IfSome, bytes_eq, IsTrue, false};
ghost use Rattle.std.specs.List.{prefix_len, list_any};
ghost use Rattle.tx_types.specs.declared.key.Key.{Key as Name};
ghost use Rattle.tx_types.specs.declared.value.Value.{Value as Given};
ghost use Rattle.tx_types.specs.declared.mutation.KeyValue.{KeyValue as Row};
ghost use Rattle.tx_types.specs.declared.mutation.Change.{Change as Entry};
ghost use Rattle.tx_types.specs.Fronts.{AreBytes};
ghost use Rattle.tx_types.specs.Keys.{key_lt, IsRising, value_in};
ghost use Rattle.tx_types.specs.Lengths.{is_key};
ghost use Rattle.tx_update.specs.Ranges.{after_prefix, greatest, begin_of, is_in_range, is_first_of, with_value, value_of, AreEntered};

use std::alloc::Global;
use tx_types::limits::MAX_KEY_BYTES;
use tx_types::{Change, Fault, Key, KeyValue, Mutation, Value};

// How many of the rows lie below a key.
fn place_of(rows: &[KeyValue], key: &Key) -> usize
    ensures place { result ≡ prefix_len (λ (row : Row). key_lt row.key key.now) rows.now }
    ensures within { result ≤ length rows.now }
{
    rows.iter().take_while(|row| row.key < *key).count()
}

// Whether the first of these rows is of this key.
fn is_first_of(rows: &[KeyValue], key: &Key) -> bool
    ensures { result ≡ is_first_of rows.now key.now }
{
    match rows {
        [first, ..] => first.key == *key,
        [] => false,
    }
}

// Gives a key this value, or none.
fn set_value(rows: &mut Vec<KeyValue>, key: Key, value: Option<Value>) -> Result<(), Fault>
    ensures ok { OnOk result (rows.new.items ≡ with_value rows.old.items key value) }
    ensures err { IfErr result (λ e. e ≡ Fault.OutOfMemory) }
{
    let at = place_of(rows.as_slice(), &key);
    if is_first_of(&rows.as_slice()[at..], &key) {
        drop(rows.remove(at));
    }
    if let Some(value) = value {
        rows.insert(at, KeyValue { key, value })?;
    }
    Ok(())
}

// Whether a change of a key is among these.
fn is_entered(changes: &[Change], key: &Key) -> bool
    ensures { result ≡ list_any (λ (c : Entry). bytes_eq c.key key.now) changes.now }
{
    changes.iter().any(|change| change.key == *key)
}

// The value that a change leaves, if it leaves one.
fn value_of(change: &Change) -> Result<Option<Value>, Fault>
    ensures ok { IfOk result (λ value. value ≡ value_of change.now.mutation) }
    ensures err { IfErr result (λ e. e ≡ Fault.OutOfMemory) }
{
    match &change.mutation {
        Mutation::Put(value) | Mutation::Insert(value) => Ok(Some(value.clone()?)),
        Mutation::Delete | Mutation::Lock => Ok(None),
    }
}

/// The keys from one on, up to but not including another, or all from there on.
#[derive(Drop)]
pub struct KeyRange {
    pub from: Key,
    pub to: Option<Key>,
}

/// Rows of a range, from its front on, and what is left of the range behind them; none where they
/// are all.
#[derive(Drop)]
pub struct Page {
    pub rows: Vec<KeyValue>,
    pub rest: Option<KeyRange>,
}

// The least bytes above all that begin with these; none where all of them are 255.
fn after_prefix(alloc: Global, bytes: &[u8]) -> Result<Option<Vec<u8>>, Fault>
    ensures ok { IfOk result (λ after. option_map (λ v. v.items) after ≡ after_prefix bytes.now) }
    ensures short { IfOk result
        (λ after. IfSome after (λ v. (1 ≤ length v.items) × (length v.items ≤ length bytes.now))) }
    ensures err { IfErr result (λ e. e ≡ Fault.OutOfMemory) }
{
    let [first, rest @ ..] = bytes else {
        return Ok(None);
    };
    if let Some(mut more) = after_prefix(alloc, rest)? {
        more.insert(0, *first)?;
        return Ok(Some(more));
    }
    if *first == u8::MAX {
        return Ok(None);
    }
    let mut more = Vec::new(alloc);
    more.push(*first + 1)?;
    Ok(Some(more))
}

/// The last of these rows, so many at most, the last first.
pub fn last_of(mut rows: Vec<KeyValue>, limit: u32) -> Vec<KeyValue>
    ensures { result.items ≡ take limit (reverse rows.items) }
{
    rows.reverse();
    rows.truncate(limit as usize);
    rows
}

/// The greatest key.
pub fn greatest(alloc: Global) -> Result<Key, Fault>
    ensures ok { IfOk result (λ key. key ≡ greatest) }
    ensures err { IfErr result (λ e. e ≡ Fault.OutOfMemory) }
{
    Key::new(alloc, &[u8::MAX; MAX_KEY_BYTES])
}

// For proofs: bytes are bytes, so that no key lies above the greatest. It does nothing when it
// runs.
fn know_bytes(bytes: &[u8])
    ensures { AreBytes bytes.now }
{
    let _ = bytes;
}

impl KeyRange {
    /// The range from a key, or from the least, and up to a key, or to the greatest.
    pub fn new(alloc: Global, from: Option<Key>, to: Option<Key>) -> Result<KeyRange, Fault>
        ensures ok { IfOk result (λ range. (range.from ≡ begin_of from) × (range.to ≡ to)) }
        ensures err { IfErr result (λ e. e ≡ Fault.OutOfMemory) }
    {
        let from = match from {
            Some(from) => from,
            None => Key::new(alloc, &[0])?,
        };
        Ok(KeyRange { from, to })
    }

    /// The keys that begin with these bytes: from them on, up to the least key above all such keys,
    /// or to the greatest. `KeyLength` for no or more than 512 bytes.
    ///
    /// ```
    /// let mut rest = Some(KeyRange::prefix(tx.alloc(), b"item/")?);
    /// ```
    pub fn prefix(alloc: Global, bytes: &[u8]) -> Result<KeyRange, Fault>
        ensures ok { IfOk result (λ range. (range.from ≡ bytes.now) × (range.to ≡ after_prefix bytes.now)) }
        ensures err { IfErr result
            (λ e. ((e ≡ Fault.KeyLength) × (is_key bytes.now ≡ false)) ⊎ (e ≡ Fault.OutOfMemory)) }
    {
        let from = Key::new(alloc, bytes)?;
        let to = match after_prefix(alloc, bytes)? {
            Some(after) => Some(Key::new(alloc, after.as_slice())?),
            None => None,
        };
        Ok(KeyRange { from, to })
    }

    /// Whether a key lies in it.
    fn contains(&self, key: &Key) -> bool
        ensures { result ≡ is_in_range (Some self.now.from) self.now.to key.now }
    {
        match &self.to {
            Some(to) => self.from <= *key && *key < *to,
            None => {
                know_bytes(key.as_bytes());
                self.from <= *key
            }
        }
    }
}

/// Enters what changes leave of the keys of a range over its rows. The first change of a key
/// counts.
pub(crate) fn enter_over(
    rows: &mut Vec<KeyValue>,
    changes: &[Change],
    range: &KeyRange,
) -> Result<(), Fault>
    requires rising { IsRising rows.old.items }
    requires within { (k : Name) (v : Given) → value_in rows.old.items k ≡ Some v
        → IsTrue (is_in_range (Some range.now.from) range.now.to k) }
    ensures entered { OnOk result (AreEntered (is_in_range (Some range.now.from) range.now.to) changes.now
        rows.old.items rows.new.items) }
    ensures err { IfErr result (λ e. e ≡ Fault.OutOfMemory) }
{
    for (i, change) in changes.iter().enumerate() {
        if change.mutation.is_visible()
            && range.contains(&change.key)
            && !is_entered(&changes[..i], &change.key)
        {
            set_value(rows, change.key.clone()?, value_of(change)?)?;
        }
    }
    Ok(())
}
