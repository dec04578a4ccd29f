//! What is shown of a key.
ghost use Rattle.std.specs.Prelude.{◌≡◌, IfOk, IfErr};
ghost use Rattle.std.specs.BTreeMap.{IsOrdered};
ghost use Rattle.std.specs.Ordering.{nat_cmp};
ghost use Rattle.tx_cells.specs.Contents.{cells_of};
ghost use Rattle.tx_cells.specs.Copies.{Copies, starts_down};

use crate::key::KeyFamilies;
use crate::searches::NestedHistory;
use std::alloc::Global;
use std::collections::BTreeMap;
use tx_cells::{KeyVersions, records_down};
use tx_types::{Fault, Items, Ts, Value};

/// The starts of the values, from the newest on.
fn starts(alloc: Global, values: &BTreeMap<Ts, Value>) -> Result<Items<Ts>, Fault>
    ensures ordered { IsOrdered nat_cmp values.now }
    ensures ok { IfOk result (λ starts. starts ≡ starts_down values.now.entries) }
    ensures err { IfErr result (λ e. e ≡ Fault.OutOfMemory) }
{
    let mut starts = Items::new(alloc);
    let mut entries = values.iter();
    'values: while let Some((start, _)) = entries.next_back() {
        starts.push(*start)?;
    }
    Ok(starts)
}

impl KeyFamilies {
    ghost use Rattle.tx_nested.specs.Nested.{held};

    /// What is shown of the key.
    pub(crate) fn copy(&self, alloc: Global) -> Result<KeyVersions, Fault>
        ensures copies { IfOk result (λ copy. Copies (cells_of (held self.now)) copy) }
        ensures err { IfErr result (λ e. e ≡ Fault.OutOfMemory) }
    {
        let lock = self.lock_head();
        let mut history = NestedHistory {
            writes: &self.writes,
        };
        let records = records_down(alloc, &mut history)?;
        let values = starts(alloc, &self.values)?;
        Ok(KeyVersions {
            lock,
            records,
            values,
        })
    }
}
