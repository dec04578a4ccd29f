//! Which write records of a key collection drops.
ghost use Rattle.std.specs.Prelude.{◌≡◌, ◌≢◌, ◌↔◌, ℕ, ◌<◌, ◌≤◌, List, length, None, Some, IsSome, IfSome, IfNone, option_map, true};
ghost use Rattle.std.specs.BTreeMap as tree;
ghost use Rattle.std.specs.Ordering.{nat_cmp};
ghost use Rattle.tx_plan.specs.cases.Collect.{keeps};
ghost use Rattle.tx_plan.specs.Collection.{DroppedOn, long_among};
ghost use Rattle.tx_cells.specs.Contents.{cells_of};
ghost use Rattle.tx_cells.specs.Heads.{record_kind};

use crate::key::KeyFamilies;
use crate::records::HeldWrite;
use crate::timeline::Timeline;
use tx_plan::{KeyCollection, KeyRecords, RecordKind, collect_key};
use tx_types::Ts;

/// What collection asks of the record nearest to the bound, at it or below.
fn kind_upto(writes: &Timeline<HeldWrite>, bound: Ts) -> Option<(Ts, RecordKind)>
    ensures found { IfSome result (λ x. (x.0 ≤ bound)
        × (option_map record_kind (tree.get nat_cmp writes.now x.0) ≡ Some x.1)) }
    ensures nearest { IfSome result (λ x. (q : ℕ) → q ≤ bound → IsSome (tree.get nat_cmp writes.now q) → q ≤ x.0) }
    ensures none { IfNone result ((q : ℕ) → q ≤ bound → tree.get nat_cmp writes.now q ≡ None) }
{
    let Some((at, rec)) = writes.upto(bound) else {
        return None;
    };
    Some((at, rec.kind()))
}

/// The write records of one key.
#[derive(Drop)]
struct NestedRecords<'a> {
    key: &'a KeyFamilies,
}

impl<'a> KeyRecords for NestedRecords<'a> {
    ghost use Rattle.tx_cells.specs.Contents.{cells_of};
    ghost use Rattle.tx_nested.specs.Nested.{held};

    ghost write = { λ r. (cells_of (held r.key.now)).write };

    fn newest_upto(&mut self, bound: Ts) -> Option<(Ts, RecordKind)> {
        kind_upto(&self.key.writes, bound)
    }
}

impl KeyFamilies {
    ghost use Rattle.tx_nested.specs.Nested.{held};

    /// What collection at this safe point makes of the key.
    pub(crate) fn collection(&self, safe: Ts) -> KeyCollection
        ensures kept { (q : ℕ) → q < safe → (cells_of (held self.now)).write q ≢ None
            → (keeps (cells_of (held self.now)).write safe q ≡ true) ↔ (result.kept ≡ Some q) }
        ensures counts { (times : List ℕ) × DroppedOn (cells_of (held self.now)).write safe times
            × (result.records ≡ length times) × (result.values ≡ long_among (cells_of (held self.now)).write times) }
    {
        let mut records = NestedRecords { key: self };
        collect_key(&mut records, safe)
    }
}
