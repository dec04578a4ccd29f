//! The number that is noted of each key.
ghost use Rattle.std.specs.Prelude.{◌≡◌, ◌≤◌, length, IsSome, IfSome, IfNone, IfOk, IfErr, OnOk, OnErr, Some};
ghost use Rattle.std.specs.BTreeMap as tree;
ghost use Rattle.std.specs.Ordering.{nat_cmp};
ghost use Rattle.std.specs.Cmp.Lexicographic.{slice_cmp};
ghost use Rattle.tx_types.specs.declared.key.Key.{Key};
ghost use Rattle.tx_cells.specs.Numbers.{noted};
ghost use Rattle.tx_flat.specs.Numbered.{numbers_in, numbers_among, IsNoted};
ghost use Rattle.tx_flat.specs.declared.ceilings.TheConstants.{SLOTS};

use crate::ceilings::{SLOTS, slot};
use std::alloc::Global;
use std::collections::BTreeMap;
use tx_spelling::{EncodedKey, KeyBytes};
use tx_types::Fault;

/// The numbers of keys. Keys share a map by the slots of their ceilings, so that each map is
/// small.
pub(crate) type KeyNumbers = Vec<BTreeMap<KeyBytes, u64>>;

// Makes the maps, where they are not made yet.
fn open(numbers: &mut KeyNumbers, alloc: Global) -> Result<(), Fault>
    ensures same { (k : Key) → numbers_among numbers.new.items k ≡ numbers_among numbers.old.items k }
    ensures open { OnOk result (SLOTS ≤ length numbers.new.items) }
    ensures err { IfErr result (λ e. e ≡ Fault.OutOfMemory) }
{
    'slots: while numbers.len() < SLOTS {
        numbers.push(BTreeMap::new(alloc))?;
    }
    Ok(())
}

/// The slot of a key of which a number was noted, and the number before it.
#[derive(Drop)]
pub(crate) struct Earlier {
    slot: usize,
    before: u64,
}

// Notes a number of a key in place of the one that is noted of it, which is told: `None` where none
// is.
fn note_over(numbers: &mut BTreeMap<KeyBytes, u64>, key: &KeyBytes, number: u64) -> Option<u64>
    ensures noted { IfSome result (λ before. (k : Key)
        → numbers_in numbers.new k ≡ noted (numbers_in numbers.old) key.now number k) }
    ensures before { IfSome result (λ before. before ≡ numbers_in numbers.old key.now) }
    ensures there { IfSome result (λ before. IsSome (tree.get (slice_cmp nat_cmp) numbers.new key.now)) }
    ensures same { IfNone result (numbers.new.entries ≡ numbers.old.entries) }
{
    match numbers.get_mut(key) {
        Some(noted) => {
            let before = *noted;
            *noted = number;
            Some(before)
        }
        None => None,
    }
}

// Notes the first number of a key in the map of this slot.
#[inline(never)]
fn note_first(
    numbers: &mut BTreeMap<KeyBytes, u64>,
    alloc: Global,
    slot: usize,
    key: &EncodedKey<'_>,
    number: u64,
) -> Result<Earlier, Fault>
    ensures noted { OnOk result ((k : Key) → numbers_in numbers.new k
        ≡ noted (numbers_in numbers.old) key.now number k) }
    ensures before { IfOk result (λ x. x.before ≡ numbers_in numbers.old key.now) }
    ensures there { OnOk result (IsSome (tree.get (slice_cmp nat_cmp) numbers.new key.now)) }
    ensures slot { IfOk result (λ x. x.slot ≡ slot) }
    ensures same { OnErr result ((k : Key) → numbers_in numbers.new k ≡ numbers_in numbers.old k) }
    ensures err { IfErr result (λ e. e ≡ Fault.OutOfMemory) }
{
    let spelt = key.bytes().copy(alloc)?;
    let before = numbers.insert(spelt, number)?;
    Ok(Earlier {
        slot,
        before: before.unwrap_or(0),
    })
}

// Notes a number of a key in the map of this slot. Mostly one is noted of it already.
fn note_in(
    numbers: &mut BTreeMap<KeyBytes, u64>,
    alloc: Global,
    slot: usize,
    key: &EncodedKey<'_>,
    number: u64,
) -> Result<Earlier, Fault>
    ensures noted { OnOk result ((k : Key) → numbers_in numbers.new k
        ≡ noted (numbers_in numbers.old) key.now number k) }
    ensures before { IfOk result (λ x. x.before ≡ numbers_in numbers.old key.now) }
    ensures there { OnOk result (IsSome (tree.get (slice_cmp nat_cmp) numbers.new key.now)) }
    ensures slot { IfOk result (λ x. x.slot ≡ slot) }
    ensures same { OnErr result ((k : Key) → numbers_in numbers.new k ≡ numbers_in numbers.old k) }
    ensures err { IfErr result (λ e. e ≡ Fault.OutOfMemory) }
{
    match note_over(numbers, key.bytes(), number) {
        Some(before) => Ok(Earlier { slot, before }),
        None => note_first(numbers, alloc, slot, key, number),
    }
}

/// Notes a number of a key.
pub(crate) fn note(
    numbers: &mut KeyNumbers,
    alloc: Global,
    key: &EncodedKey<'_>,
    number: u64,
) -> Result<Earlier, Fault>
    ensures noted { OnOk result ((k : Key) → numbers_among numbers.new.items k
        ≡ noted (numbers_among numbers.old.items) key.now number k) }
    ensures before { IfOk result (λ x. x.before ≡ numbers_among numbers.old.items key.now) }
    ensures there { IfOk result (λ x. IsNoted numbers.new.items x.slot key.now) }
    ensures same { OnErr result ((k : Key) → numbers_among numbers.new.items k ≡ numbers_among numbers.old.items k) }
    ensures err { IfErr result (λ e. e ≡ Fault.OutOfMemory) }
{
    open(numbers, alloc)?;
    let at = slot(key);
    note_in(&mut numbers[at], alloc, at, key, number)
}

// Notes the number before it of a key of which one was noted.
fn note_back_in(numbers: &mut BTreeMap<KeyBytes, u64>, key: &KeyBytes, before: u64)
    requires { IsSome (tree.get (slice_cmp nat_cmp) numbers.old key.now) }
    ensures { (k : Key) → numbers_in numbers.new k ≡ noted (numbers_in numbers.old) key.now before k }
{
    if let Some(number) = numbers.get_mut(key) {
        *number = before;
    }
}

/// Notes the number before it, where a number was noted.
pub(crate) fn note_back(numbers: &mut KeyNumbers, key: &EncodedKey<'_>, earlier: Earlier)
    requires { IsNoted numbers.old.items earlier.slot key.now }
    ensures { (k : Key) → numbers_among numbers.new.items k
        ≡ noted (numbers_among numbers.old.items) key.now earlier.before k }
{
    note_back_in(&mut numbers[earlier.slot], key.bytes(), earlier.before);
}
