//! Families as a map from keys to what is held of them.
#![tactic(auto)]

use crate::key::KeyFamilies;
use std::alloc::Global;
use std::collections::BTreeMap;
use tx_spelling::KeyBytes;

mod apply;
mod cells;
mod changes;
mod collection;
mod drop_below;
mod families;
mod key;
mod lock_info;
mod put_lock;
mod read;
mod records;
mod searches;
mod sees;
mod timeline;
mod view;
mod walks;

pub use timeline::Timeline;

/// The families of a region, nested.
#[derive(Drop)]
pub struct NestedCells {
    keys: BTreeMap<KeyBytes, KeyFamilies>,
}

impl NestedCells {
    ghost use Rattle.std.specs.Prelude.{◌≡◌};
    ghost use Rattle.tx_cells.specs.Contents.{nothing_held};
    ghost use Rattle.tx_nested.specs.Nested.{nested_content};

    /// Families that hold nothing.
    pub fn new(alloc: Global) -> NestedCells
        ensures { nested_content result ≡ (λ k. nothing_held) }
    {
        NestedCells {
            keys: BTreeMap::new(alloc),
        }
    }
}
