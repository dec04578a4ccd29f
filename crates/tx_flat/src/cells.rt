//! What is shown of a key.
ghost use Rattle.std.specs.Prelude.{◌≡◌, ◌↔◌, ◌^◌, ◌<◌, ◌≤◌, ℕ, Some, None, Contains, IsSome, IfSome, IfNone, IfOk, IfErr};
ghost use Rattle.std.specs.BTreeMap as tree;
ghost use Rattle.tx_spelling.specs.Spelt.{version_cmp};
ghost use Rattle.tx_cells.specs.Copies.{AreFalling};
ghost use Rattle.tx_plan.specs.declared.view.LockHead.{LockHead};

use std::alloc::Global;
use std::collections::BTreeMap;
use tx_plan::LockHead;
use tx_spelling::VersionBytes;
use tx_types::{Fault, Items, Ts, Value};

/// The start of the value nearest to a version of its key, at its timestamp or below.
fn start_upto(values: &BTreeMap<VersionBytes, Value>, bound: &VersionBytes) -> Option<Ts>
    ensures found { IfSome result (λ t. (t ≤ bound.now.1) × IsSome (tree.get version_cmp values.now (bound.now.0, t))) }
    ensures nearest { IfSome result (λ t. (q : ℕ) → q ≤ bound.now.1
        → IsSome (tree.get version_cmp values.now (bound.now.0, q)) → q ≤ t) }
    ensures none { IfNone result ((q : ℕ) → q ≤ bound.now.1 → tree.get version_cmp values.now (bound.now.0, q) ≡ None) }
{
    let (version, value) = values.range(bound..).next()?;
    let _ = value;
    if !version.is_beside(bound) {
        return None;
    }
    Some(version.at())
}

/// The starts of the values of a version's key, from the newest on.
pub(crate) fn starts_down(
    alloc: Global,
    values: &BTreeMap<VersionBytes, Value>,
    mut version: VersionBytes,
) -> Result<Items<Ts>, Fault>
    ensures fall { IfOk result (λ starts. AreFalling starts) }
    ensures all { IfOk result (λ starts. (t : ℕ) → Contains starts t
        ↔ ((t < 2 ^ 64) × IsSome (tree.get version_cmp values.now (version.0, t)))) }
    ensures err { IfErr result (λ e. e ≡ Fault.OutOfMemory) }
{
    let mut starts = Items::new(alloc);
    let mut bound = u64::MAX;
    'values: loop {
        version.set_at(Ts::new(bound));
        let Some(start) = start_upto(values, &version) else {
            return Ok(starts);
        };
        starts.push(start)?;
        if start.get() == 0 {
            return Ok(starts);
        }
        bound = start.get() - 1;
    }
}

/// For proofs: the start of a lock is a timestamp.
pub(crate) fn start_fits(lock: &Option<LockHead>)
    ensures { IfSome lock.now (λ (head : LockHead). head.start < 2 ^ 64) }
{
    if let Some(head) = lock {
        let _ticks = head.start.get();
    }
}
