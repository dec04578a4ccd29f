//! What forbids a commit, the versions that it lists, and the reads that its inserts leave.
ghost use Rattle.std.specs.Prelude.{◌≡◌, ◌≢◌, ◌⊎◌, [], ◌∷◌, ℕ, ◌==◌, cond, Some, None, take, OnOk, OnErr, IfErr, IfSome, IfNone, Contains, ◌≤◌, ◌<◌};
ghost use Rattle.std.specs.Prelude.{bytes_eq};
ghost use Rattle.tx_types.specs.declared.key.Key.{Key};
ghost use Rattle.tx_types.specs.declared.mutation.Change.{Change};
ghost use Rattle.tx_types.specs.declared.mutation.Mutation.{Mutation};
ghost use Rattle.tx_types.specs.Keys.{IsVisible, IsInsert};
ghost use Rattle.tx_machine.specs.Keys.{mutation_at, IsDistinct};
ghost use Rattle.tx_machine.specs.Machine.{Overlap};
ghost use Rattle.tx_machine.specs.Shown.{history_of, versions_of, insert_read_in, IsInsertRead, Shows};
ghost use Rattle.tx_machine.specs.declared.reads.Reads.{Reads};
ghost use Rattle.tx_machine.specs.Representation.{InOrder, IsFree, Blocks, ListedOn, HasVersions, AddsInserts, version_of, puts};

use crate::machine::Refused;
use crate::reads::Reads;
use crate::scan::Index;
use crate::versions::{Fates, KeyHistory, Version, Writer, is_insert, overlapping, seen};
use std::alloc::Global;
use std::collections::BTreeMap;
use tx_types::{Change, Key, Mutation, Ts};

/// What forbids that a change is committed.
#[derive(Clone, Copy, Debug, PartialEq, Eq)]
pub(crate) enum Block {
    /// A listed commit would overlap.
    Conflict(Writer),
    /// A read at this timestamp, at the commit or above, covers the key. The commit of an insert
    /// is one, at its start.
    Read(Ts),
    /// A read at the start sees a value of what is inserted.
    Exists,
}

// What the commits of its key forbid of a change.
fn block_on(index: &Index, fates: &Fates, t: Ts, c: Ts, change: &Change) -> Option<Block>
    ensures apart { IfNone result (InOrder index.now fates.now → (u d : ℕ) (m : Mutation)
        → ListedOn (versions_of index.now change.now.key) fates.now u d m → Overlap t c u d → ⊥) }
    ensures unread { IfNone result (IsVisible change.now.mutation → (r : ℕ)
        → IsInsertRead index.now change.now.key r → r < c) }
    ensures fresh { IfNone result (IsInsert change.now.mutation → Shows index.now fates.now change.now.key t None) }
    ensures blocked { IfSome result (λ block. (reads : Reads)
        → Blocks index.now fates.now reads t c change.now block) }
{
    let history = index.get(&change.key)?;
    if let Some(other) = overlapping(&history.versions, fates, t, c) {
        return Some(Block::Conflict(other));
    }
    if is_insert(&change.mutation) && seen(&history.versions, fates, t).is_some() {
        return Some(Block::Exists);
    }
    match history.insert_read {
        Some(at) if at >= c && change.mutation.is_visible() => Some(Block::Read(at)),
        _ => None,
    }
}

// What forbids that the change is committed.
fn block_of(
    index: &Index,
    fates: &Fates,
    reads: &Reads,
    t: Ts,
    c: Ts,
    change: &Change,
) -> Option<Block>
    ensures free { IfNone result (InOrder index.now fates.now → IsFree index.now fates.now reads.now t c change.now) }
    ensures blocked { IfSome result (Blocks index.now fates.now reads.now t c change.now) }
{
    if let Some(block) = block_on(index, fates, t, c, change) {
        return Some(block);
    }
    if !change.mutation.is_visible() {
        return None;
    }
    match reads.read_from(&change.key, c) {
        None => None,
        Some(at) => Some(Block::Read(at)),
    }
}

/// The first of the changes that something forbids to commit, and what.
pub(crate) fn first_block<'a>(
    index: &Index,
    fates: &Fates,
    reads: &Reads,
    t: Ts,
    c: Ts,
    set: &'a [Change],
) -> Option<(&'a Change, Block)>
    ensures free { IfNone result (InOrder index.now fates.now
        → (k : Key) (m : Mutation) → mutation_at set.now k ≡ Some m
        → IsFree index.now fates.now reads.now t c record { key = k; mutation = m }) }
    ensures blocked { IfSome result (λ x. Contains set.now x.0.now
        × Blocks index.now fates.now reads.now t c x.0.now x.1) }
{
    for change in set {
        if let Some(block) = block_of(index, fates, reads, t, c, change) {
            return Some((change, block));
        }
    }
    None
}

// Lists a version of a key at a timestamp.
fn list(alloc: Global, index: &mut Index, key: &Key, c: Ts, version: Version) -> Result<(), Refused>
    ensures ok { OnOk result ((k : Key) (q : ℕ) → version_of index.new k q
        ≡ cond (bytes_eq key.now k) (cond (c == q) (Some version) (version_of index.old k q))
        (version_of index.old k q)) }
    ensures same { OnErr result ((k : Key) (q : ℕ) → version_of index.new k q ≡ version_of index.old k q) }
    ensures reads { (k : Key) → insert_read_in (history_of index.new k) ≡ insert_read_in (history_of index.old k) }
    ensures err { IfErr result (λ e. e ≡ Refused.Memory) }
{
    if let Some(history) = index.get_mut(key) {
        history.versions.insert(c, version)?;
        return Ok(());
    }
    let mut versions = BTreeMap::new(alloc);
    versions.insert(c, version)?;
    let history = KeyHistory {
        versions,
        insert_read: None,
    };
    index.insert(key.clone()?, history)?;
    Ok(())
}

// Lists the versions of a write set. Where memory is refused, those of its beginning are listed.
pub(crate) fn list_all(
    alloc: Global,
    index: &mut Index,
    t: Ts,
    c: Ts,
    set: &[Change],
) -> Result<(), Refused>
    ensures all { OnOk result ((k : Key) (q : ℕ) → version_of index.new k q
        ≡ puts t c set.now (version_of index.old) k q) }
    ensures some { OnErr result ((n : ℕ) × ((k : Key) (q : ℕ)
        → version_of index.new k q ≡ puts t c (take n set.now) (version_of index.old) k q)) }
    ensures reads { (k : Key) → insert_read_in (history_of index.new k) ≡ insert_read_in (history_of index.old k) }
    ensures err { IfErr result (λ e. e ≡ Refused.Memory) }
{
    for change in set {
        let mutation = change.mutation.clone()?;
        list(alloc, index, &change.key, c, Version { start: t, mutation })?;
    }
    Ok(())
}

// The later of two reads.
fn later(read: Option<Ts>, at: Ts) -> Ts
    ensures last { (at ≤ result) × IfSome read (λ r. r ≤ result) }
    ensures one { (result ≡ at) ⊎ (read ≡ Some result) }
{
    match read {
        Some(read) if read > at => read,
        _ => at,
    }
}

// Notes the read of its key that a change, where it is an insert, made at its start.
fn note_insert(index: &mut Index, t: Ts, change: &Change)
    ensures same { (k : Key) → versions_of index.new k ≡ versions_of index.old k }
    ensures noted { versions_of index.old change.now.key ≢ None
        → AddsInserts index.old index.new (change.now ∷ []) t }
{
    if !is_insert(&change.mutation) {
        return;
    }
    if let Some(history) = index.get_mut(&change.key) {
        history.insert_read = Some(later(history.insert_read, t));
    }
}

/// Notes the reads of their keys that the inserts of a write set, whose versions are listed, made
/// at its start. It takes no memory.
pub(crate) fn note_inserts(index: &mut Index, t: Ts, set: &[Change])
    ensures same { (k : Key) → versions_of index.new k ≡ versions_of index.old k }
    ensures noted { IsDistinct set.now → HasVersions index.old set.now
        → AddsInserts index.old index.new set.now t }
{
    for change in set {
        note_insert(index, t, change);
    }
}
