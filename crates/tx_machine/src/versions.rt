//! The versions of one key, by commit timestamp: what a read sees of them, and which of them a
//! commit would overlap.
//!
//! A version counts only where its transaction is committed at the version's timestamp. One that
//! was listed before memory was refused in the middle of a commit says nothing.
ghost use Rattle.std.specs.Prelude.{◌≡◌, ℕ, ◌<◌, ◌≤◌, ◌↔◌, option_map, true, false, IsTrue, IfSome, IfNone, IsSome};
ghost use Rattle.std.specs.Ordering.{nat_cmp};
ghost use Rattle.std.specs.BTreeMap as tree;
ghost use Rattle.tx_machine.specs.Machine.{Overlap};
ghost use Rattle.tx_types.specs.declared.mutation.Mutation.{Mutation};
ghost use Rattle.tx_machine.specs.Versions.{Listed, SeenIn, IsOrderly};
ghost use Rattle.tx_machine.specs.Why.{LeftBy, IsSeen};
ghost use Rattle.tx_machine.specs.declared.reason.SeenValue.TheVariants as SeenValue;
ghost use Rattle.tx_types.specs.Keys.{IsInsert, put_by};
ghost use Rattle.tx_types.specs.declared.value.Value.{Value};

use std::collections::BTreeMap;
use std::ops::Bound;
use tx_types::{Fate, Mutation, Ts, Value};

/// What a transaction did to a key.
#[derive(Drop)]
pub(crate) struct Version {
    pub start: Ts,
    pub mutation: Mutation,
}

/// A transaction that committed: where it started, and where it committed.
#[derive(Clone, Copy, Debug, PartialEq, Eq)]
pub struct Writer {
    pub start: Ts,
    pub commit: Ts,
}

/// The versions of a key, by commit timestamp.
pub(crate) type Versions = BTreeMap<Ts, Version>;

/// What the commits of a key have left.
#[derive(Drop)]
pub(crate) struct KeyHistory {
    pub versions: Versions,
    /// Where the key was read by a transaction that inserted it and committed: at its start. The
    /// greatest such timestamp.
    pub insert_read: Option<Ts>,
}

/// How transactions ended, by start timestamp.
pub(crate) type Fates = BTreeMap<Ts, Fate>;

// The last entry, where it lies at the bound or below.
fn last_of<V>(map: &BTreeMap<Ts, V>, bound: Ts) -> Option<(Ts, &V)>
    ensures found { IfSome result (λ x. (x.0 ≤ bound) × (tree.get nat_cmp map.now x.0 ≡ Some x.1.now)) }
    ensures last { IfSome result (λ x. (q : ℕ) → IsSome (tree.get nat_cmp map.now q) → q ≤ x.0) }
{
    match map.last_key_value() {
        Some((at, value)) if *at <= bound => Some((*at, value)),
        _ => None,
    }
}

// Whether an entry lies above the bound.
fn goes_above<V>(map: &BTreeMap<Ts, V>, bound: Ts) -> bool
    ensures { result ≡ false → (q : ℕ) → bound < q → tree.get nat_cmp map.now q ≡ None }
{
    match map.last_key_value() {
        Some((last, _)) => bound < *last,
        None => false,
    }
}

/// The entry nearest to the bound, at it or below.
pub(crate) fn last_upto<V>(map: &BTreeMap<Ts, V>, bound: Ts) -> Option<(Ts, &V)>
    ensures found { IfSome result (λ x. (x.0 ≤ bound) × (tree.get nat_cmp map.now x.0 ≡ Some x.1.now)) }
    ensures nearest { IfSome result (λ x. (q : ℕ) → q ≤ bound → IsSome (tree.get nat_cmp map.now q) → q ≤ x.0) }
    ensures none { IfNone result ((q : ℕ) → q ≤ bound → tree.get nat_cmp map.now q ≡ None) }
{
    if let Some(last) = last_of(map, bound) {
        return Some(last);
    }
    let (at, value) = map.range(..=bound).next_back()?;
    Some((*at, value))
}

/// The entry nearest to the bound, above it.
pub(crate) fn first_above<V>(map: &BTreeMap<Ts, V>, bound: Ts) -> Option<(Ts, &V)>
    ensures found { IfSome result (λ x. (bound < x.0) × (tree.get nat_cmp map.now x.0 ≡ Some x.1.now)) }
    ensures nearest { IfSome result (λ x. (q : ℕ) → bound < q → IsSome (tree.get nat_cmp map.now q) → x.0 ≤ q) }
    ensures none { IfNone result ((q : ℕ) → bound < q → tree.get nat_cmp map.now q ≡ None) }
{
    if !goes_above(map, bound) {
        return None;
    }
    let (at, value) = map
        .range((Bound::Excluded(bound), Bound::Unbounded))
        .next()?;
    Some((*at, value))
}

/// Whether the transaction is committed at this timestamp.
pub(crate) fn is_committed(fates: &Fates, start: Ts, commit: Ts) -> bool
    ensures { IsTrue result ↔ (tree.get nat_cmp fates.now start ≡ Some (Fate.Committed commit)) }
{
    match fates.get(&start) {
        Some(Fate::Committed(at)) => *at == commit,
        _ => false,
    }
}

/// The newest commit at this timestamp or below that puts, inserts or deletes.
pub(crate) fn newest<'a>(versions: &'a Versions, fates: &Fates, at: Ts) -> Option<(Ts, &'a Version)>
    ensures some { IfSome result (λ x. LeftBy (Listed versions.now fates.now) at record {
      start = x.1.now.start;
      commit = x.0;
    } x.1.now.mutation) }
    ensures none { IfNone result (IsSeen (Listed versions.now fates.now) at SeenValue.Nothing) }
{
    let mut bound = at.get();
    'versions: loop {
        let Some((commit, version)) = last_upto(versions, Ts::new(bound)) else {
            return None;
        };
        if is_committed(fates, version.start, commit) && version.mutation.is_visible() {
            return Some((commit, version));
        }
        if commit.get() == 0 {
            return None;
        }
        bound = commit.get() - 1;
    }
}

/// Whether a mutation asks that its key have no value.
pub(crate) fn is_insert(mutation: &Mutation) -> bool
    ensures { IsTrue result ↔ IsInsert mutation.now }
{
    match mutation {
        Mutation::Insert(_) => true,
        _ => false,
    }
}

/// The value that a mutation leaves.
fn put_by(mutation: &Mutation) -> Option<&Value>
    ensures { option_map (λ v. v.now) result ≡ put_by mutation.now }
{
    match mutation {
        Mutation::Put(value) => Some(value),
        Mutation::Insert(inserted) => Some(inserted),
        Mutation::Delete | Mutation::Lock => None,
    }
}

/// The value that a read at this timestamp sees.
pub(crate) fn seen<'a>(versions: &'a Versions, fates: &Fates, at: Ts) -> Option<&'a Value>
    ensures { SeenIn versions.now fates.now at (option_map (λ v. v.now) result) }
{
    match newest(versions, fates, at) {
        None => None,
        Some((_, version)) => put_by(&version.mutation),
    }
}

/// A committed version that overlaps a transaction from `start` to `commit`. The first above
/// `start` tells: those above it started later still.
pub(crate) fn overlapping(
    versions: &Versions,
    fates: &Fates,
    start: Ts,
    commit: Ts,
) -> Option<Writer>
    ensures some { IfSome result (λ by. (m : Mutation) × Listed versions.now fates.now by.start by.commit m
        × Overlap start commit by.start by.commit) }
    ensures none { IfNone result (IsOrderly versions.now fates.now
        → (u d : ℕ) (m : Mutation) → Listed versions.now fates.now u d m → Overlap start commit u d → ⊥) }
{
    let mut bound = start.get();
    'versions: loop {
        let Some((above, version)) = first_above(versions, Ts::new(bound)) else {
            return None;
        };
        if is_committed(fates, version.start, above) {
            if version.start >= commit {
                return None;
            }
            return Some(Writer {
                start: version.start,
                commit: above,
            });
        }
        bound = above.get();
    }
}
