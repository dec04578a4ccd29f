//! Families as three flat maps, from the bytes of keys and versions to the bytes of records.
#![tactic(auto)]

ghost use Rattle.std.specs.Prelude.{◌≡◌, ◌<◌, List, ℕ, None};
ghost use Rattle.std.specs.BTreeMap as tree;
ghost use Rattle.std.specs.Ordering.{nat_cmp};
ghost use Rattle.std.specs.Cmp.Lexicographic.{slice_cmp};
ghost use Rattle.tx_spelling.specs.Spelt.{version_cmp};
ghost use Rattle.tx_flat.specs.Ceilings.{ceiling_of};
ghost use Rattle.tx_cells.specs.Contents.{IsWhole};

use ceilings::Ceilings;
use numbers::KeyNumbers;
use std::alloc::Global;
use std::collections::BTreeMap;
use tx_records::{LockBytes, WriteBytes};
use tx_spelling::{KeyBytes, VersionBytes};
use tx_types::Value;

mod apply;
mod ceilings;
mod cells;
mod changes;
mod drop_below;
mod families;
mod front;
mod next_key;
mod numbers;
mod put_lock;
mod read;
mod searches;
mod sees;
mod sieve;
mod view;
mod walks;

/// The families of a region, flat, and the numbers of the keys that were changed since the last
/// collection. No write record of a key is above its ceiling, so a request that is later searches
/// for none.
#[derive(Drop)]
pub struct FlatCells {
    locks: BTreeMap<KeyBytes, LockBytes>,
    writes: BTreeMap<VersionBytes, WriteBytes>,
    values: BTreeMap<VersionBytes, Value>,
    ceilings: Ceilings,
    numbers: KeyNumbers,
    ghost whole: { ∥ ((key : List ℕ) → IsWhole (record {
      lock = tree.get (slice_cmp nat_cmp) locks key;
      write = λ c. tree.get version_cmp writes (key, c);
      value = λ t. tree.get version_cmp values (key, t);
    })) ∥₁ },
    ghost bounded: { ∥ ((key : List ℕ) (q : ℕ) → ceiling_of ceilings key < q
        → tree.get version_cmp writes (key, q) ≡ None) ∥₁ },
}

impl FlatCells {
    ghost use Rattle.tx_cells.specs.Contents.{nothing_held};
    ghost use Rattle.tx_flat.specs.Flats.{flat_content};

    /// Families that hold nothing.
    pub fn new(alloc: Global) -> FlatCells
        ensures { flat_content result ≡ (λ k. nothing_held) }
    {
        FlatCells {
            locks: BTreeMap::new(alloc),
            writes: BTreeMap::new(alloc),
            values: BTreeMap::new(alloc),
            ceilings: Ceilings::new(),
            numbers: Vec::new(alloc),
        }
    }
}
