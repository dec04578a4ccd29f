//! Write sets.
ghost use Rattle.std.specs.Prelude.{◌≡◌, IfOk, IfErr, IfSome, IfNone, bytes_eq};
ghost use Rattle.std.specs.List.{list_any};
ghost use Rattle.tx_machine.specs.Keys.{IsDistinct};
ghost use Rattle.tx_machine.specs.Why.{StandsTwice};

use std::alloc::Global;
use std::collections::BTreeSet;
use tx_types::{Change, Fault, Key};

// Up to so many changes are compared with each other.
const FEW: usize = 8;

// Whether one of the changes is of the key.
fn has_key(set: &[Change], key: &Key) -> bool
    ensures { result ≡ list_any (λ change. bytes_eq change.key key.now) set.now }
{
    set.iter().any(|change| change.key == *key)
}

// A key that stands twice, where each change is compared with those before it.
fn compared(set: &[Change]) -> Option<&Key>
    ensures twice { IfSome result (λ key. StandsTwice set.now key.now) }
    ensures once { IfNone result (IsDistinct set.now) }
{
    for (at, change) in set.iter().enumerate() {
        if has_key(&set[..at], &change.key) {
            return Some(&change.key);
        }
    }
    None
}

// The same, where each is looked up among those before it.
fn looked_up(alloc: Global, set: &[Change]) -> Result<Option<&Key>, Fault>
    ensures twice { IfOk result (λ found. IfSome found (λ key. StandsTwice set.now key.now)) }
    ensures once { IfOk result (λ found. IfNone found (IsDistinct set.now)) }
    ensures err { IfErr result (λ e. e ≡ Fault.OutOfMemory) }
{
    let mut earlier = BTreeSet::new(alloc);
    for change in set {
        if !earlier.insert(change.key.clone()?)? {
            return Ok(Some(&change.key));
        }
    }
    Ok(None)
}

/// A key that stands twice.
pub(crate) fn repeated(alloc: Global, set: &[Change]) -> Result<Option<&Key>, Fault>
    ensures twice { IfOk result (λ found. IfSome found (λ key. StandsTwice set.now key.now)) }
    ensures once { IfOk result (λ found. IfNone found (IsDistinct set.now)) }
    ensures err { IfErr result (λ e. e ≡ Fault.OutOfMemory) }
{
    if set.len() <= FEW {
        Ok(compared(set))
    } else {
        looked_up(alloc, set)
    }
}
