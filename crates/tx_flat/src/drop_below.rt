//! Records that go.
ghost use Rattle.std.specs.Prelude.{◌≡◌, ◌≢◌, ◌↔◌, ℕ, ◌==◌, ◌<◌, ◌&&◌, ◌||◌, not, cond, nat_lt, IsTrue, Option, None, Some, IfSome, IfNone};
ghost use Rattle.std.specs.BTreeMap as tree;
ghost use Rattle.tx_types.specs.declared.key.Key.{Key};
ghost use Rattle.tx_plan.specs.cases.Collect.{keeps};
ghost use Rattle.tx_types.specs.declared.value.Value.{Value};
ghost use Rattle.tx_codec.specs.Keys.{encoded_key};
ghost use Rattle.tx_cells.specs.Heads.{record_kind, is_rollback, start_in};
ghost use Rattle.tx_flat.specs.Sieves.{is_followed, is_kept, writes_of, Outdated};
ghost use Rattle.tx_spelling.specs.Spelt.{version_cmp};

use crate::sieve::Sieve;
use std::collections::BTreeMap;
use tx_records::{WriteBytes, kind_of};
use tx_spelling::VersionBytes;
use tx_types::{Ts, Value};

/// The record nearest to a version of its key, above it.
fn next_above<'a>(
    writes: &'a BTreeMap<VersionBytes, WriteBytes>,
    version: &VersionBytes,
) -> Option<(&'a VersionBytes, &'a WriteBytes)>
    ensures found { IfSome result (λ x. (x.0.now.0 ≡ version.now.0) × (version.now.1 < x.0.now.1)
        × (tree.get version_cmp writes.now x.0.now ≡ Some x.1.now)) }
    ensures nearest { IfSome result (λ x. (q : ℕ) → version.now.1 < q → q < x.0.now.1
        → tree.get version_cmp writes.now (version.now.0, q) ≡ None) }
    ensures none { IfNone result ((q : ℕ) → version.now.1 < q
        → tree.get version_cmp writes.now (version.now.0, q) ≡ None) }
{
    let (above, rec) = writes.range(..version).next_back()?;
    if !above.is_beside(version) {
        return None;
    }
    Some((above, rec))
}

/// Whether a version is above the safe point.
fn is_past(version: &VersionBytes, safe: Ts) -> bool
    ensures { IsTrue result ↔ (safe < version.now.1) }
{
    safe < version.at()
}

/// Whether it is the commit record of the transaction that started then.
fn commits(rec: &WriteBytes, start: Ts) -> bool
    ensures { result ≡ (not (is_rollback rec.now) && (start_in rec.now == start)) }
{
    !rec.is_rollback() && rec.start() == start
}

/// Whether the transaction that put this value committed it, and a put or delete follows at the
/// safe point or below.
fn is_outdated(
    writes: &BTreeMap<VersionBytes, WriteBytes>,
    version: &VersionBytes,
    safe: Ts,
) -> bool
    ensures { IsTrue result ↔ Outdated (λ c. tree.get version_cmp writes.now (version.now.0, c)) safe version.now.1 }
{
    let start = version.at();
    let mut last = version;
    let mut committed = false;
    'records: loop {
        let Some((above, rec)) = next_above(writes, last) else {
            return false;
        };
        if is_past(above, safe) {
            return false;
        }
        let kind = kind_of(rec);
        if committed && kind.is_seen {
            return true;
        }
        if commits(rec, start) {
            committed = true;
        }
        last = above;
    }
}

/// Drops the values whose records go.
pub(crate) fn drop_values(
    values: &mut BTreeMap<VersionBytes, Value>,
    writes: &BTreeMap<VersionBytes, WriteBytes>,
    safe: Ts,
)
    ensures gone { (k : Key) (t : ℕ) → Outdated (λ c. tree.get version_cmp writes.now (k, c)) safe t
        → tree.get version_cmp values.new (k, t) ≡ None }
    ensures stayed { (k : Key) (t : ℕ) → (Outdated (λ c. tree.get version_cmp writes.now (k, c)) safe t → ⊥)
        → tree.get version_cmp values.new (k, t) ≡ tree.get version_cmp values.old (k, t) }
    ensures fewer { (k : Key) (t : ℕ) → tree.get version_cmp values.new (k, t) ≢ None
        → tree.get version_cmp values.new (k, t) ≡ tree.get version_cmp values.old (k, t) }
{
    values.retain(
        |version, _value| -> bool
            ensures tells { IsTrue (not result) ↔ Outdated (λ c. tree.get version_cmp writes.entry.now (
              version.now.0,
              c,
            )) safe version.now.1 }
            ensures same { _value.new ≡ _value.old }
        { !is_outdated(writes, version, safe) },
    );
}

/// Drops the records that collection does not keep.
pub(crate) fn drop_records(writes: &mut BTreeMap<VersionBytes, WriteBytes>, safe: Ts)
    ensures { (value : ℕ → Option Value) (k : Key) (q : ℕ)
        → tree.get version_cmp writes.new (k, q) ≡ cond (keeps (writes_of (λ c. tree.get version_cmp writes.old (
          k,
          c,
        )) value) safe q) (tree.get version_cmp writes.old (k, q)) None }
{
    let mut sieve = Sieve::new(safe);
    writes.retain(
        |version, rec| -> bool
            ensures says { result ≡ is_kept sieve.entry version.now rec.old }
            ensures followed { sieve.exit.followed
                ≡ (is_followed sieve.entry version.now || (record_kind rec.old).is_seen
                && not (nat_lt sieve.entry.safe version.now.1)) }
            ensures key { sieve.exit.key ≡ encoded_key version.now.0 }
            ensures safe { sieve.exit.safe ≡ sieve.entry.safe }
            ensures same { rec.new ≡ rec.old }
        { sieve.keeps(version, rec) },
    );
}
