//! What is told of a lock.
ghost use Rattle.std.specs.Prelude.{◌≡◌, IfOk, IfErr};
ghost use Rattle.tx_plan.specs.Views.{info_on};
ghost use Rattle.tx_cells.specs.Contents.{cells_of};

use crate::key::KeyFamilies;
use std::alloc::Global;
use tx_types::{Fault, Key, LockInfo};

impl KeyFamilies {
    ghost use Rattle.tx_nested.specs.Nested.{held};

    /// What is told of the lock, where there is one.
    pub(crate) fn lock_info(&self, alloc: Global, key: &Key) -> Result<Option<LockInfo>, Fault>
        ensures info { IfOk result (λ info. info ≡ info_on (cells_of (held self.now)) key.now) }
        ensures err { IfErr result (λ e. e ≡ Fault.OutOfMemory) }
    {
        match &self.lock {
            Some(lock) => Ok(Some(lock.info(alloc, key)?)),
            None => Ok(None),
        }
    }
}
