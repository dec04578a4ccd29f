//! Look-ups among the write records of a key.
ghost use Rattle.std.specs.Prelude.{◌≡◌, ◌≤◌, ℕ, [], None, Some, IsSome, IfSome, IfNone, option_map};
ghost use Rattle.std.specs.BTreeMap as tree;
ghost use Rattle.std.specs.Ordering.{nat_cmp};
ghost use Rattle.tx_cells.specs.Heads.{write_head};

use crate::records::HeldWrite;
use crate::timeline::Timeline;
use tx_cells::History;
use tx_plan::RecordHead;
use tx_types::Ts;

/// What is asked of the record at this timestamp.
pub(crate) fn head_at(writes: &Timeline<HeldWrite>, at: Ts) -> Option<RecordHead>
    ensures { result ≡ option_map write_head (tree.get nat_cmp writes.now at) }
{
    match writes.get(at) {
        Some(rec) => Some(rec.head()),
        None => None,
    }
}

/// What is asked of the record nearest to the bound, at it or below.
fn head_upto(writes: &Timeline<HeldWrite>, bound: Ts) -> Option<(Ts, RecordHead)>
    ensures found { IfSome result (λ x. (x.0 ≤ bound)
        × (option_map write_head (tree.get nat_cmp writes.now x.0) ≡ Some x.1)) }
    ensures nearest { IfSome result (λ x. (q : ℕ) → q ≤ bound → IsSome (tree.get nat_cmp writes.now q) → q ≤ x.0) }
    ensures none { IfNone result ((q : ℕ) → q ≤ bound → tree.get nat_cmp writes.now q ≡ None) }
{
    let Some((at, rec)) = writes.upto(bound) else {
        return None;
    };
    Some((at, rec.head()))
}

/// The write records of one key.
#[derive(Drop)]
pub(crate) struct NestedHistory<'a> {
    pub writes: &'a Timeline<HeldWrite>,
}

impl<'a> History for NestedHistory<'a> {
    ghost writes = { λ h. tree.get nat_cmp h.writes.now };

    ghost key = { λ h. [] };

    fn upto(&mut self, bound: Ts) -> Option<(Ts, RecordHead)> {
        head_upto(self.writes, bound)
    }
}
