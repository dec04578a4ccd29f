//! Walks over the keys, and over the locks.
ghost use Rattle.std.specs.Prelude.{◌≡◌, IfOk, IfErr};
ghost use Rattle.tx_types.specs.declared.key.Key.{Key};
ghost use Rattle.tx_types.specs.Keys.{key_le};
ghost use Rattle.tx_plan.specs.Walks.{IsWalk, IsLockWalk};

use crate::NestedCells;
use crate::key::KeyFamilies;
use std::alloc::Global;
use std::collections::btree_map::{Iter, Range};
use tx_cells::Sees;
use tx_plan::{LockHead, LockWalk, ReadView, ReadWalk};
use tx_spelling::{EncodedKey, KeyBytes};
use tx_types::{Fault, Key, LockInfo, Ts};

/// A walk over keys, rising.
#[derive(Drop)]
pub(crate) struct NestedReads<'a> {
    cells: &'a NestedCells,
    keys: Range<'a, KeyBytes, KeyFamilies>,
}

impl<'a> ReadWalk for NestedReads<'a> {
    ghost use Rattle.tx_cells.specs.Contents.{cells_in};
    ghost use Rattle.tx_nested.specs.Nested.{nested_content, key_rows};

    ghost cells = { λ w. cells_in (nested_content w.cells.now) };

    ghost rest = { λ w. key_rows w.keys };

    fn next(&mut self, alloc: Global, at: Ts) -> Result<Option<(Key, ReadView)>, Fault> {
        let Some((key, on_key)) = self.keys.next() else {
            return Ok(None);
        };
        let view = on_key.read(at)?;
        Ok(Some((key.read(alloc)?, view)))
    }

    fn lock_info(&self, alloc: Global, key: &Key) -> Result<Option<LockInfo>, Fault> {
        let spelt = EncodedKey::new(alloc, key)?;
        self.cells.lock_info(alloc, &spelt)
    }
}

/// A walk over the locks, keys rising.
#[derive(Drop)]
pub(crate) struct NestedLocks<'a> {
    cells: &'a NestedCells,
    keys: Iter<'a, KeyBytes, KeyFamilies>,
}

impl<'a> LockWalk for NestedLocks<'a> {
    ghost use Rattle.tx_cells.specs.Contents.{cells_in};
    ghost use Rattle.tx_nested.specs.Nested.{nested_content, lock_rows};

    ghost cells = { λ w. cells_in (nested_content w.cells.now) };

    ghost rest = { λ w. lock_rows w.keys };

    fn next(&mut self, alloc: Global) -> Result<Option<(Key, LockHead)>, Fault> {
        'keys: while let Some((key, on_key)) = self.keys.next() {
            if let Some(head) = on_key.lock_head() {
                return Ok(Some((key.read(alloc)?, head)));
            }
        }
        Ok(None)
    }

    fn lock_info(&self, alloc: Global, key: &Key) -> Result<Option<LockInfo>, Fault> {
        let spelt = EncodedKey::new(alloc, key)?;
        self.cells.lock_info(alloc, &spelt)
    }
}

impl NestedCells {
    ghost use Rattle.tx_cells.specs.Contents.{cells_in};
    ghost use Rattle.tx_nested.specs.Nested.{nested_content, key_rows, lock_rows};

    /// A walk over the keys from this one on.
    pub(crate) fn reads_from(&self, alloc: Global, from: &Key) -> Result<NestedReads<'_>, Fault>
        ensures same { IfOk result (λ walk. walk.cells.now ≡ self.now) }
        ensures walk { IfOk result (λ walk. IsWalk (cells_in (nested_content self.now)) (key_le from.now)
            (key_rows walk.keys)) }
        ensures err { IfErr result (λ e. e ≡ Fault.OutOfMemory) }
    {
        let from = KeyBytes::new(alloc, from)?;
        Ok(NestedReads {
            cells: self,
            keys: self.keys.range(&from..),
        })
    }

    /// A walk over all locks.
    pub(crate) fn locks(&self) -> NestedLocks<'_>
        ensures same { result.cells.now ≡ self.now }
        ensures walk { IsLockWalk (cells_in (nested_content self.now)) (lock_rows result.keys) }
    {
        NestedLocks {
            cells: self,
            keys: self.keys.iter(),
        }
    }
}
