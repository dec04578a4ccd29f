//! What a read sees of its key.
ghost use Rattle.std.specs.Prelude.{◌≡◌, Some, IfOk, IfErr};
ghost use Rattle.tx_plan.specs.Reads.{Reads};
ghost use Rattle.tx_plan.specs.Views.{ShowsRead};
ghost use Rattle.tx_cells.specs.Contents.{cells_of};
ghost use Rattle.tx_cells.specs.Histories.{IsSeen};

use crate::key::KeyFamilies;
use crate::records::HeldWrite;
use crate::searches::NestedHistory;
use tx_cells::{SeenRecord, seen_at};
use tx_plan::ReadView;
use tx_types::{Fault, Ts, Value};

impl KeyFamilies {
    ghost use Rattle.tx_nested.specs.Nested.{held};

    // The value that a read at this timestamp sees by this record, the newest put or delete.
    fn value_in(&self, rec: &HeldWrite, at: Ts, seen: SeenRecord) -> Result<Option<Value>, Fault>
        requires seen { IsSeen (held self.now).write at seen.commit seen.start seen.kind }
        requires stands { (held self.now).write seen.commit ≡ Some rec.now }
        ensures value { IfOk result (λ value. Reads (cells_of (held self.now)).write at value) }
        ensures err { IfErr result (λ e. e ≡ Fault.OutOfMemory) }
    {
        let _ = at;
        if !rec.keeps_value_apart() {
            return rec.inline_value();
        }
        match self.values.get(&seen.start) {
            Some(value) => Ok(Some(value.clone()?)),
            None => Ok(None),
        }
    }

    // What a read at `at` sees of the key, by a search for the record.
    fn value_searched(&self, at: Ts) -> Result<Option<Value>, Fault>
        ensures value { IfOk result (λ value. Reads (cells_of (held self.now)).write at value) }
        ensures err { IfErr result (λ e. e ≡ Fault.OutOfMemory) }
    {
        let mut history = NestedHistory {
            writes: &self.writes,
        };
        let Some(seen) = seen_at(&mut history, at) else {
            return Ok(None);
        };
        match self.writes.get(seen.commit) {
            Some(rec) => self.value_in(rec, at, seen),
            None => Ok(None),
        }
    }

    // What a read at `at` sees of the key: mostly what its newest record leaves, without a search.
    fn value_at(&self, at: Ts) -> Result<Option<Value>, Fault>
        ensures value { IfOk result (λ value. Reads (cells_of (held self.now)).write at value) }
        ensures err { IfErr result (λ e. e ≡ Fault.OutOfMemory) }
    {
        let Some((commit, rec)) = self.writes.last() else {
            return Ok(None);
        };
        if commit > at {
            return self.value_searched(at);
        }
        match rec.seen_at(commit) {
            Some(seen) => self.value_in(rec, at, seen),
            None => self.value_searched(at),
        }
    }

    /// What a read at this timestamp sees of the key.
    pub(crate) fn read(&self, at: Ts) -> Result<ReadView, Fault>
        ensures shows { IfOk result (λ view. ShowsRead (cells_of (held self.now)) at view) }
        ensures err { IfErr result (λ e. e ≡ Fault.OutOfMemory) }
    {
        let lock = self.lock_head();
        let value = self.value_at(at)?;
        Ok(ReadView { lock, value })
    }
}
