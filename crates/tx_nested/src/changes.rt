//! What changes nested maps: the key is looked up, and changed where it stands.
ghost use Rattle.std.specs.Prelude.{◌≡◌, false};
ghost use Rattle.tx_plan.specs.cases.Collect.{kept};
ghost use Rattle.tx_cells.specs.Contents.{cells_of, nothing_held};
ghost use Rattle.tx_cells.specs.Afterwards.{Collected};

use crate::NestedCells;
use crate::key::KeyFamilies;
use std::alloc::Global;
use std::collections::BTreeMap;
use tx_cells::Changes;
use tx_plan::{KeyChange, NewLock, Prewrite};
use tx_spelling::EncodedKey;
use tx_types::{Fault, Ts};

impl Changes for NestedCells {
    ghost use Rattle.tx_nested.specs.Nested.{held};

    fn forget_numbers(&mut self, alloc: Global) {
        self.keys = BTreeMap::new(alloc);
    }

    fn put_lock(
        &mut self,
        alloc: Global,
        key: &EncodedKey<'_>,
        body: &Prewrite,
        new: NewLock,
        number: u64,
    ) -> Result<(), Fault> {
        let spelt = key.bytes();
        if let Some(on_key) = self.keys.get_mut(spelt) {
            return on_key.put_lock(alloc, body, new, number);
        }
        let mut on_key = KeyFamilies::new(alloc);
        on_key.put_lock(alloc, body, new, number)?;
        let key = spelt.copy(alloc)?;
        self.keys.insert(key, on_key)?;
        Ok(())
    }

    // Only a rollback can be left on a key of which nothing is held.
    fn apply(
        &mut self,
        alloc: Global,
        key: &EncodedKey<'_>,
        change: KeyChange,
        number: u64,
    ) -> Result<(), Fault> {
        if let KeyChange::Nothing = change {
            return Ok(());
        }
        let spelt = key.bytes();
        if let Some(on_key) = self.keys.get_mut(spelt) {
            return on_key.apply(change, number);
        }
        let mut on_key = KeyFamilies::new(alloc);
        on_key.apply(change, number)?;
        let key = spelt.copy(alloc)?;
        self.keys.insert(key, on_key)?;
        Ok(())
    }

    // The keys of which nothing is held then go too.
    fn drop_below(&mut self, safe: Ts) {
        self.keys.retain(
            |_, on_key: &mut KeyFamilies| -> bool
                ensures content { Collected safe (held on_key.old) (held on_key.new) }
                ensures cells { cells_of (held on_key.new) ≡ kept (cells_of (held on_key.old)) safe }
                ensures empty { result ≡ false → held on_key.new ≡ nothing_held }
                ensures number { on_key.new.number ≡ on_key.old.number }
            { on_key.collect(safe) },
        );
    }
}
