//! What changes flat maps. The number is noted before the change, so that only its growth may be
//! refused, and noted back where the change is refused.
use crate::FlatCells;
use crate::drop_below::{drop_records, drop_values};
use crate::numbers::{note, note_back};
use std::alloc::Global;
use tx_cells::Changes;
use tx_plan::{KeyChange, NewLock, Prewrite};
use tx_spelling::EncodedKey;
use tx_types::{Fault, Ts};

impl Changes for FlatCells {
    fn forget_numbers(&mut self, alloc: Global) {
        let _ = alloc;
        self.numbers.clear();
    }

    fn put_lock(
        &mut self,
        alloc: Global,
        key: &EncodedKey<'_>,
        body: &Prewrite,
        new: NewLock,
        number: u64,
    ) -> Result<(), Fault> {
        let earlier = note(&mut self.numbers, alloc, key, number)?;
        match self.put_unnoted(alloc, key, body, new) {
            Ok(()) => Ok(()),
            Err(fault) => {
                note_back(&mut self.numbers, key, earlier);
                Err(fault)
            }
        }
    }

    fn apply(
        &mut self,
        alloc: Global,
        key: &EncodedKey<'_>,
        change: KeyChange,
        number: u64,
    ) -> Result<(), Fault> {
        if let KeyChange::Nothing = change {
            return Ok(());
        }
        let earlier = note(&mut self.numbers, alloc, key, number)?;
        match self.apply_unnoted(alloc, key, change) {
            Ok(()) => Ok(()),
            Err(fault) => {
                note_back(&mut self.numbers, key, earlier);
                Err(fault)
            }
        }
    }

    // The numbers are forgotten.
    fn drop_below(&mut self, safe: Ts) {
        drop_values(&mut self.values, &self.writes, safe);
        drop_records(&mut self.writes, safe);
        self.numbers.clear();
    }
}
