//! A map by timestamp that mostly grows at its end, which contracts see as a `BTreeMap`.
ghost use Rattle.std.specs.Prelude.{◌≡◌, ◌↔◌, ◌⊎◌, ℕ, ◌-◌, ◌<◌, ◌≤◌, not, cond, [], length, Some, None, IsSome, IfSome, IfNone, IsTrue, OnOk, OnErr, IfErr, slice_get, option_copied};
ghost use Rattle.std.specs.BTreeMap as tree;
ghost use Rattle.std.specs.Ordering.{nat_cmp, is_eq};
ghost use Rattle.tx_nested.specs.Indexes.{IsIndex, value_of, goes_below};

use std::alloc::Global;
use std::marker::Model;
use tx_types::{Fault, Ts};

/// A map by timestamp. It is kept as a list in which the timestamps rise, so that a new last entry
/// is pushed at the end, and the last is found at once. Contracts see a `BTreeMap`.
#[derive(Drop)]
pub struct Timeline<X> {
    entries: Vec<(Ts, X)>,
}

impl<X> Model for Timeline<X> {
    ghost use Rattle.std.specs.Prelude.{ℕ};
    ghost use Rattle.std.specs.Coded.{coded_ℕ};
    ghost use Rattle.std.specs.BTreeMap.{BTreeMap};
    ghost use Rattle.std.specs.List.Sorted.{IsStrictlySortedBy};
    ghost use Rattle.std.specs.Map.{keys_of};
    ghost use Rattle.std.specs.Ordering.{nat_cmp};
    ghost use Rattle.std_collections.specs.Layout.BTreeMap.{btree_map_code};
    ghost use Rattle.tx_nested.specs.Seen.{map_of};

    ghost Value = { BTreeMap ℕ X };

    ghost coded = { btree_map_code coded_ℕ X.code };

    ghost view = { λ t. map_of t.entries.items };

    ghost invariant = { λ t. IsStrictlySortedBy nat_cmp (keys_of t.entries.items) };
}

// Whether an entry stays where all below a timestamp go but the one at `stay`.
fn is_kept(at: Ts, safe: Ts, stay: Option<Ts>) -> bool
    ensures { result ≡ not (goes_below safe stay at) }
{
    safe <= at || stay == Some(at)
}

impl<X> Timeline<X> {
    /// The empty map, which takes no memory.
    pub fn new(alloc: Global) -> Timeline<X>
        ensures { result.entries ≡ [] }
    {
        Timeline {
            entries: Vec::new(alloc),
        }
    }

    /// Whether nothing is in the map. Takes constant time.
    pub fn is_empty(&self) -> bool
        ensures { IsTrue result ↔ (self.now.entries ≡ []) }
    {
        self.entries.is_empty()
    }

    // How many entries are below a timestamp. Takes constant time if the last one is, or is at it,
    // and else logarithmic.
    fn index(&self, at: Ts) -> usize
        ensures index { IsIndex self.now.entries at result }
        ensures ordered { tree.IsOrdered nat_cmp self.now }
    {
        let Some((last, _)) = self.entries.last() else {
            return 0;
        };
        if *last < at {
            return self.entries.len();
        }
        if *last == at {
            return self.entries.len() - 1;
        }
        self.entries.partition_point(|entry| entry.0 < at)
    }

    // What the entry at an index holds, if it is at this timestamp.
    fn value_in(&self, index: usize, at: Ts) -> Option<&X>
        ensures { option_copied result ≡ value_of at (slice_get self.now.entries index) }
    {
        match self.entries.get(index) {
            Some((found, x)) if *found == at => Some(x),
            _ => None,
        }
    }

    // The entry in front of an index.
    fn before(&self, index: usize) -> Option<(Ts, &X)>
        ensures entry { IfSome result (λ x. (index - 1 < index)
            × (slice_get self.now.entries (index - 1) ≡ Some (x.0, x.1.now))) }
        ensures none { IfNone result ((index ≡ 0) ⊎ (length self.now.entries < index)) }
    {
        if index == 0 {
            return None;
        }
        let (at, x) = self.entries.get(index - 1)?;
        Some((*at, x))
    }

    /// What the map holds at a timestamp. Takes constant time at the last one or above, and
    /// else logarithmic.
    pub fn get(&self, at: Ts) -> Option<&X>
        ensures { option_copied result ≡ tree.get nat_cmp self.now at }
    {
        self.value_in(self.index(at), at)
    }

    /// The last entry, in constant time.
    pub fn last(&self) -> Option<(Ts, &X)>
        ensures found { IfSome result (λ x. tree.get nat_cmp self.now x.0 ≡ Some x.1.now) }
        ensures newest { IfSome result (λ x. (q : ℕ) → IsSome (tree.get nat_cmp self.now q) → q ≤ x.0) }
        ensures none { IfNone result ((q : ℕ) → tree.get nat_cmp self.now q ≡ None) }
    {
        let (at, x) = self.entries.last()?;
        Some((*at, x))
    }

    /// The last entry at a timestamp or below. Takes constant time if that is the last of all, and
    /// else logarithmic.
    pub fn upto(&self, bound: Ts) -> Option<(Ts, &X)>
        ensures found { IfSome result (λ x. (x.0 ≤ bound) × (tree.get nat_cmp self.now x.0 ≡ Some x.1.now)) }
        ensures nearest { IfSome result (λ x. (q : ℕ) → q ≤ bound → IsSome (tree.get nat_cmp self.now q) → q ≤ x.0) }
        ensures none { IfNone result ((q : ℕ) → q ≤ bound → tree.get nat_cmp self.now q ≡ None) }
    {
        let index = self.index(bound);
        match self.value_in(index, bound) {
            Some(x) => Some((bound, x)),
            None => self.before(index),
        }
    }

    /// The timestamp of the last entry below another. Takes constant time if the last of all is at
    /// that or below, and else logarithmic.
    pub fn below(&self, bound: Ts) -> Option<Ts>
        ensures found { IfSome result (λ at. (at < bound) × IsSome (tree.get nat_cmp self.now at)) }
        ensures newest { IfSome result (λ at. (q : ℕ) → at < q → q < bound → tree.get nat_cmp self.now q ≡ None) }
        ensures none { IfNone result ((q : ℕ) → q < bound → tree.get nat_cmp self.now q ≡ None) }
    {
        let index = self.index(bound);
        match self.before(index) {
            Some(last) => Some(last.0),
            None => None,
        }
    }
}

impl<X: Drop> Timeline<X> {
    /// Puts a value at a timestamp, in the place of the one that may be there. Takes constant time
    /// at the last timestamp or above, apart from a growth, and else moves the later entries up.
    /// `OutOfMemory` leaves the map as it was, and comes only where nothing was at the timestamp.
    pub fn insert(&mut self, at: Ts, x: X) -> Result<(), Fault>
        ensures updates { OnOk result ((q : ℕ) → tree.get nat_cmp self.new q
            ≡ cond (is_eq (nat_cmp at q)) (Some x) (tree.get nat_cmp self.old q)) }
        ensures same { OnErr result (self.new.entries ≡ self.old.entries) }
        ensures absent { OnErr result (tree.get nat_cmp self.old at ≡ None) }
        ensures err { IfErr result (λ e. e ≡ Fault.OutOfMemory) }
    {
        let index = self.index(at);
        if self.value_in(index, at).is_some() {
            self.entries[index] = (at, x);
            return Ok(());
        }
        if index == self.entries.len() {
            self.entries.push((at, x))?;
            return Ok(());
        }
        self.entries.insert(index, (at, x))?;
        Ok(())
    }

    /// Drops all entries below a timestamp but the one at `stay`, in one pass over them.
    pub fn keep_above(&mut self, safe: Ts, stay: Option<Ts>)
        ensures { (q : ℕ) → tree.get nat_cmp self.new q
            ≡ cond (goes_below safe stay q) None (tree.get nat_cmp self.old q) }
    {
        self.entries.retain(|entry| is_kept(entry.0, safe, stay));
    }
}
