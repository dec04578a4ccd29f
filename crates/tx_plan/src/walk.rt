//! Walks over a region, keys rising, which each store makes over its own maps: a walk takes as many
//! steps as it passes keys, after one search for its start.
ghost use Rattle.std.specs.Prelude.{◌≡◌, [], List, IfOk, IfErr, MatchOption};
ghost use Rattle.tx_types.specs.declared.key.Key.{Key};
ghost use Rattle.tx_plan.specs.Cells.{Cells};
ghost use Rattle.tx_plan.specs.Walks.{KeyRow, LockRow};
ghost use Rattle.tx_plan.specs.Views.{ComesNext, LockComesNext, info_on};

use crate::view::{LockHead, ReadView};
use std::alloc::Global;
use tx_types::{Fault, Key, LockInfo, Ts};

/// A walk over keys of a region on which there is something.
pub trait ReadWalk {
    /// What is on each key of the region.
    ghost cells: { Self → Key → Cells };

    /// The keys that are still to come, and what is on them.
    ghost rest: { Self → List KeyRow };

    /// The next key, and what a read at this timestamp sees of it; none where the walk has ended.
    /// After `OutOfMemory` the walk is of no more use.
    fn next(&mut self, alloc: Global, at: Ts) -> Result<Option<(Key, ReadView)>, Fault>
        ensures next { IfOk result (λ found. MatchOption found (rest self.old
            ≡ []) (λ x. ComesNext (rest self.old) (rest self.new) at x.0 x.1)) }
        ensures same { cells self.new ≡ cells self.old }
        ensures err { IfErr result (λ e. e ≡ Fault.OutOfMemory) };

    /// What is told of the lock on this key, where there is one.
    fn lock_info(&self, alloc: Global, key: &Key) -> Result<Option<LockInfo>, Fault>
        ensures info { IfOk result (λ info. info ≡ info_on (cells self.now key.now) key.now) }
        ensures err { IfErr result (λ e. e ≡ Fault.OutOfMemory) };
}

/// A walk over the locks of a region.
pub trait LockWalk {
    /// What is on each key of the region.
    ghost cells: { Self → Key → Cells };

    /// The locks that are still to come, and their keys.
    ghost rest: { Self → List LockRow };

    /// The key of the next lock, and what is asked of that lock; none where the walk has ended.
    /// After `OutOfMemory` the walk is of no more use.
    fn next(&mut self, alloc: Global) -> Result<Option<(Key, LockHead)>, Fault>
        ensures next { IfOk result (λ found. MatchOption found (rest self.old
            ≡ []) (λ x. LockComesNext (rest self.old) (rest self.new) x.0 x.1)) }
        ensures same { cells self.new ≡ cells self.old }
        ensures err { IfErr result (λ e. e ≡ Fault.OutOfMemory) };

    /// What is told of the lock on this key, where there is one.
    fn lock_info(&self, alloc: Global, key: &Key) -> Result<Option<LockInfo>, Fault>
        ensures info { IfOk result (λ info. info ≡ info_on (cells self.now key.now) key.now) }
        ensures err { IfErr result (λ e. e ≡ Fault.OutOfMemory) };
}
