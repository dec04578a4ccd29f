//! Records that go.
ghost use Rattle.std.specs.Prelude.{◌≡◌, ℕ, true, false, cond, None};
ghost use Rattle.std.specs.BTreeMap as tree;
ghost use Rattle.std.specs.Ordering.{nat_cmp};
ghost use Rattle.tx_plan.specs.cases.Collect.{kept};
ghost use Rattle.tx_nested.specs.Indexes.{goes_below};
ghost use Rattle.tx_cells.specs.Contents.{cells_of, nothing_held};
ghost use Rattle.tx_cells.specs.Afterwards.{Collected};
ghost use Rattle.tx_cells.specs.Drops.{ValuesGo, DropsValue};

use crate::key::KeyFamilies;
use crate::records::HeldWrite;
use crate::timeline::Timeline;
use std::collections::BTreeMap;
use tx_plan::KeyCollection;
use tx_types::{Ts, Value};

/// Drops the value that the record at a timestamp keeps apart.
fn drop_value(writes: &Timeline<HeldWrite>, values: &mut BTreeMap<Ts, Value>, at: Ts)
    ensures { DropsValue (tree.get nat_cmp writes.now at) (tree.get nat_cmp values.old) (tree.get nat_cmp values.new) }
{
    if let Some(rec) = writes.get(at) {
        if rec.keeps_value_apart() {
            values.remove(&rec.start());
        }
    }
}

/// Drops the values that the records below the safe point keep apart, but for the one that stays,
/// if one does.
fn drop_values(
    writes: &Timeline<HeldWrite>,
    values: &mut BTreeMap<Ts, Value>,
    safe: Ts,
    stay: Option<Ts>,
)
    ensures { ValuesGo (tree.get nat_cmp writes.now) (goes_below safe stay) (tree.get nat_cmp values.old)
        (tree.get nat_cmp values.new) }
{
    let mut below = safe;
    'records: while let Some(at) = writes.below(below) {
        if stay != Some(at) {
            drop_value(writes, values, at);
        }
        below = at;
    }
}

/// Drops all records below the safe point but the one that stays, if one does, with the values that
/// they keep apart.
fn drop_records(
    writes: &mut Timeline<HeldWrite>,
    values: &mut BTreeMap<Ts, Value>,
    safe: Ts,
    stay: Option<Ts>,
)
    ensures writes { (q : ℕ) → tree.get nat_cmp writes.new q
        ≡ cond (goes_below safe stay q) None (tree.get nat_cmp writes.old q) }
    ensures values { ValuesGo (tree.get nat_cmp writes.old) (goes_below safe stay) (tree.get nat_cmp values.old)
        (tree.get nat_cmp values.new) }
{
    let kept = stay;
    drop_values(writes, values, safe, kept);
    writes.keep_above(safe, stay);
}

impl KeyFamilies {
    ghost use Rattle.tx_nested.specs.Nested.{held};

    // Drops what no read at this safe point or above needs any more.
    fn drop_below(&mut self, safe: Ts)
        ensures content { Collected safe (held self.old) (held self.new) }
        ensures cells { cells_of (held self.new) ≡ kept (cells_of (held self.old)) safe }
        ensures number { self.new.number ≡ self.old.number }
    {
        let KeyCollection { kept, .. } = self.collection(safe);
        drop_records(&mut self.writes, &mut self.values, safe, kept);
    }

    // Whether nothing is held of the key.
    fn is_empty(&self) -> bool
        ensures { result ≡ true → held self.now ≡ nothing_held }
    {
        self.lock.is_none() && self.writes.is_empty() && self.values.is_empty()
    }

    /// Collects on the key, and tells whether something is still held of it.
    pub(crate) fn collect(&mut self, safe: Ts) -> bool
        ensures content { Collected safe (held self.old) (held self.new) }
        ensures cells { cells_of (held self.new) ≡ kept (cells_of (held self.old)) safe }
        ensures number { self.new.number ≡ self.old.number }
        ensures empty { result ≡ false → held self.new ≡ nothing_held }
    {
        self.drop_below(safe);
        !self.is_empty()
    }
}
