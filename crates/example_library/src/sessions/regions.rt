//! A store of two regions, and seats for two sessions.
ghost use Rattle.std.specs.Prelude.{◌≡◌, ◌<◌, All, IfOk, length, vec_len};
ghost use Rattle.tx_cells.specs.Contents.{nothing_held};
ghost use Rattle.tx_nested.specs.Nested.{nested_content};
ghost use Rattle.tx_types.specs.Keys.{AreRising};

use anyhow::Result;
use std::alloc::Global;
use tx_journal::{JournalId, Opened, Seat};
use tx_nested::NestedCells;
use tx_store::Store;
use tx_types::Key;

// The key between the regions: keys below `m` lie in the first, the others in the second.
fn bound(alloc: Global) -> Result<Vec<Key>>
    ensures { IfOk result (λ keys. (vec_len keys ≡ 1) × AreRising keys.items) }
{
    let key = Key::new(alloc, b"m")?;
    let mut keys = Vec::new(alloc);
    keys.push(key)?;
    Ok(keys)
}

/// A journal over the two regions.
pub fn journal(alloc: Global) -> Result<Opened>
    ensures { IfOk result (λ o. (length o.bounds ≡ 1) × (o.seats ≡ 4)) }
{
    let keys = bound(alloc)?;
    Ok(Opened::new(alloc, keys, 2)?)
}

// The maps of the regions, which hold nothing.
fn families(alloc: Global) -> Result<Vec<NestedCells>>
    ensures { IfOk result (λ both. (vec_len both ≡ 2) × All (λ f. nested_content f ≡ (λ k. nothing_held)) both.items) }
{
    let mut both = Vec::new(alloc);
    both.push(NestedCells::new(alloc))?;
    both.push(NestedCells::new(alloc))?;
    Ok(both)
}

/// The store under the journal's name, and the seats.
pub fn store<J: JournalId>(
    alloc: Global,
    opened: Opened,
) -> Result<(Store<J, NestedCells>, Vec<Seat<J>>)>
    requires name { (opened.table ≡ J.table) × (opened.bounds ≡ J.bounds) × (opened.seats ≡ J.seats) }
    requires counts { (length J.bounds ≡ 1) × (J.seats ≡ 4) }
{
    let families = families(alloc)?;
    Ok(Store::<J, NestedCells>::open(alloc, opened, families)?)
}
