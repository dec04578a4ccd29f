//! What is held of one key.
ghost use Rattle.std.specs.BTreeMap as tree;
ghost use Rattle.std.specs.Ordering.{nat_cmp};
ghost use Rattle.tx_cells.specs.Contents.{IsWhole};

use crate::records::{HeldLock, HeldWrite};
use crate::timeline::Timeline;
use std::alloc::Global;
use std::collections::BTreeMap;
use tx_types::{Ts, Value};

/// The lock record of a key, its write records by timestamp, which mostly come in that order, and
/// its long values by the start of the transaction that put them.
#[derive(Drop)]
pub(crate) struct KeyFamilies {
    pub lock: Option<HeldLock>,
    pub writes: Timeline<HeldWrite>,
    pub values: BTreeMap<Ts, Value>,
    /// The number of the request that changed the key last.
    pub number: u64,
    ghost whole: { ∥ IsWhole (record {
      lock = lock;
      write = tree.get nat_cmp writes;
      value = tree.get nat_cmp values;
    }) ∥₁ },
}

impl KeyFamilies {
    ghost use Rattle.std.specs.Prelude.{◌≡◌};
    ghost use Rattle.tx_cells.specs.Contents.{nothing_held};
    ghost use Rattle.tx_nested.specs.Nested.{held};

    /// A key of which nothing is held.
    pub fn new(alloc: Global) -> KeyFamilies
        ensures { held result ≡ nothing_held }
    {
        KeyFamilies {
            lock: None,
            writes: Timeline::new(alloc),
            values: BTreeMap::new(alloc),
            number: 0,
        }
    }
}
