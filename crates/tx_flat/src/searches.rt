//! Look-ups in what is held under keys and versions. The versions of a key are from the
//! newest to the oldest.
ghost use Rattle.std.specs.Prelude.{◌≡◌, ◌≤◌, ℕ, None, Some, IfSome, IfNone, IsSome, IsTrue, option_map};
ghost use Rattle.std.specs.BTreeMap as tree;
ghost use Rattle.std.specs.Ordering.{nat_cmp};
ghost use Rattle.std.specs.Cmp.Lexicographic.{slice_cmp};
ghost use Rattle.tx_spelling.specs.Spelt.{version_cmp};
ghost use Rattle.tx_cells.specs.Heads.{write_head, lock_head};
ghost use Rattle.tx_cells.specs.Histories.{IsSeen, AreFitting};

use std::collections::BTreeMap;
use tx_cells::{History, SeenRecord};
use tx_plan::{LockHead, RecordHead};
use tx_records::{LockBytes, WriteBytes, head_of, lock_head_of, seen_in};
use tx_spelling::{KeyBytes, VersionBytes};
use tx_types::Ts;

/// What is asked of the lock on this key.
pub(crate) fn head_on(locks: &BTreeMap<KeyBytes, LockBytes>, key: &KeyBytes) -> Option<LockHead>
    ensures { result ≡ option_map lock_head (tree.get (slice_cmp nat_cmp) locks.now key.now) }
{
    match locks.get(key) {
        Some(bytes) => Some(lock_head_of(bytes)),
        None => None,
    }
}

/// What is asked of the record of this version.
pub(crate) fn head_at(
    writes: &BTreeMap<VersionBytes, WriteBytes>,
    version: &VersionBytes,
) -> Option<RecordHead>
    ensures { result ≡ option_map write_head (tree.get version_cmp writes.now version.now) }
{
    match writes.get(version) {
        Some(bytes) => Some(head_of(bytes)),
        None => None,
    }
}

/// The record nearest to a version of its key, at its timestamp or below.
pub(crate) fn record_upto<'a>(
    writes: &'a BTreeMap<VersionBytes, WriteBytes>,
    bound: &VersionBytes,
) -> Option<(Ts, &'a WriteBytes)>
    ensures found { IfSome result (λ x. (x.0 ≤ bound.now.1)
        × (tree.get version_cmp writes.now (bound.now.0, x.0) ≡ Some x.1.now)) }
    ensures nearest { IfSome result (λ x. (q : ℕ) → q ≤ bound.now.1
        → IsSome (tree.get version_cmp writes.now (bound.now.0, q)) → q ≤ x.0) }
    ensures none { IfNone result ((q : ℕ) → q ≤ bound.now.1 → tree.get version_cmp writes.now (bound.now.0, q) ≡ None) }
{
    let (version, bytes) = writes.range(bound..).next()?;
    if !version.is_beside(bound) {
        return None;
    }
    Some((version.at(), bytes))
}

/// Whether each record of a key is older than a start and a commit, by the greatest version that
/// the key may have. None of the records is read.
pub(crate) fn are_past(
    writes: &BTreeMap<VersionBytes, WriteBytes>,
    greatest: &VersionBytes,
    start: Ts,
    commit: Ts,
) -> bool
    requires greatest { greatest.now.1 ≡ u64.MAX }
    requires fitting { AreFitting (λ q. tree.get version_cmp writes.now (greatest.now.0, q)) }
    ensures start { IsTrue result → (q : ℕ) → start ≤ q → tree.get version_cmp writes.now (greatest.now.0, q) ≡ None }
    ensures commit { IsTrue result → (q : ℕ) → commit ≤ q → tree.get version_cmp writes.now (greatest.now.0, q) ≡ None }
{
    match record_upto(writes, greatest) {
        Some((at, _)) => at < start && at < commit,
        None => true,
    }
}

/// What is asked of the record nearest to a version of its key, at its timestamp or below.
fn head_upto(
    writes: &BTreeMap<VersionBytes, WriteBytes>,
    bound: &VersionBytes,
) -> Option<(Ts, RecordHead)>
    ensures found { IfSome result (λ x. (x.0 ≤ bound.now.1)
        × (option_map write_head (tree.get version_cmp writes.now (bound.now.0, x.0)) ≡ Some x.1)) }
    ensures nearest { IfSome result (λ x. (q : ℕ) → q ≤ bound.now.1
        → IsSome (tree.get version_cmp writes.now (bound.now.0, q)) → q ≤ x.0) }
    ensures none { IfNone result ((q : ℕ) → q ≤ bound.now.1 → tree.get version_cmp writes.now (bound.now.0, q) ≡ None) }
{
    let Some((at, bytes)) = record_upto(writes, bound) else {
        return None;
    };
    Some((at, head_of(bytes)))
}

/// The record nearest to a version of its key, at its timestamp or below, where it is a
/// put or a delete.
pub(crate) fn newest_seen<'a>(
    writes: &'a BTreeMap<VersionBytes, WriteBytes>,
    bound: &VersionBytes,
) -> Option<(SeenRecord, &'a WriteBytes)>
    ensures seen { IfSome result (λ x. IsSeen (λ q. tree.get version_cmp writes.now (
      bound.now.0,
      q,
    )) bound.now.1 x.0.commit x.0.start x.0.kind) }
    ensures stands { IfSome result (λ x. tree.get version_cmp writes.now (bound.now.0, x.0.commit) ≡ Some x.1.now) }
{
    let Some((commit, bytes)) = record_upto(writes, bound) else {
        return None;
    };
    let Some(seen) = seen_in(commit, bytes) else {
        return None;
    };
    Some((seen, bytes))
}

/// The write records of one key.
#[derive(Drop)]
pub(crate) struct FlatHistory<'a> {
    pub writes: &'a BTreeMap<VersionBytes, WriteBytes>,
    pub version: VersionBytes,
}

impl<'a> History for FlatHistory<'a> {
    ghost writes = { λ h c. tree.get version_cmp h.writes.now (h.version.0, c) };

    ghost key = { λ h. h.version.0 };

    fn upto(&mut self, bound: Ts) -> Option<(Ts, RecordHead)> {
        self.version.set_at(bound);
        head_upto(self.writes, &self.version)
    }
}
