//! LocksBelow: the locks of a region that started below a timestamp, which Collect asks for too.
ghost use Rattle.std.specs.Prelude.{◌≡◌, IfOk, IfErr, MatchOption};
ghost use Rattle.tx_plan.specs.Walks.{IsLockWalk};
ghost use Rattle.tx_plan.specs.cases.LocksBelow.{AllBelow};
ghost use Rattle.tx_plan.specs.cases.Collect.{SomeLockBelow, IsFirstBelow};

use crate::lists::Infos;
use crate::walk::LockWalk;
use std::alloc::Global;
use tx_types::{Fault, LockInfo, Ts};

/// What is told of the locks of a region that started below a timestamp, keys rising. `OutOfMemory`
/// where there is no room to tell of them.
pub fn infos_below<L: LockWalk + Drop>(alloc: Global, mut walk: L, safe: Ts) -> Result<Infos, Fault>
    requires { IsLockWalk (L.cells walk) (L.rest walk) }
    ensures all { IfOk result (λ infos. AllBelow (L.cells walk) safe infos) }
    ensures err { IfErr result (λ e. e ≡ Fault.OutOfMemory) }
{
    let mut infos = Infos::new(alloc);
    'locks: while let Some((key, lock)) = walk.next(alloc)? {
        if lock.start < safe {
            if let Some(info) = walk.lock_info(alloc, &key)? {
                infos.push(info)?;
            }
        }
    }
    Ok(infos)
}

/// What is told of the first of them.
pub fn first_below<L: LockWalk + Drop>(
    alloc: Global,
    mut walk: L,
    safe: Ts,
) -> Result<Option<LockInfo>, Fault>
    requires { IsLockWalk (L.cells walk) (L.rest walk) }
    ensures first { IfOk result (λ found. MatchOption found (SomeLockBelow (L.cells walk) safe
        → ⊥) (λ info. IsFirstBelow (L.cells walk) safe info)) }
    ensures err { IfErr result (λ e. e ≡ Fault.OutOfMemory) }
{
    'locks: while let Some((key, lock)) = walk.next(alloc)? {
        if lock.start < safe {
            return walk.lock_info(alloc, &key);
        }
    }
    Ok(None)
}
