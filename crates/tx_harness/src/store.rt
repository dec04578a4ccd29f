//! A store over regions in which nothing happened.
ghost use Rattle.std.specs.Prelude.{◌≡◌, ◌+◌, IfSome, length, vec_len};
ghost use Rattle.tx_types.specs.Keys.{AreRising};

use std::alloc::Global;
use tx_cells::{Families, Makes, make_families};
use tx_journal::{JournalId, Opened, Seat};
use tx_store::Store;
use tx_types::Key;

/// This key, between two regions.
pub fn one_bound(alloc: Global, key: &[u8]) -> Option<Vec<Key>>
    ensures { IfSome result (λ keys. (vec_len keys ≡ 1) × AreRising keys.items) }
{
    let key = Key::new(alloc, key).ok()?;
    let mut keys = Vec::new(alloc);
    keys.push(key).ok()?;
    Some(keys)
}

/// A store of so many regions over families that are made so, and the seats for sessions.
pub fn open<J: JournalId, F: Families + Drop, M: Makes<F>>(
    alloc: Global,
    opened: Opened,
    make: &M,
    regions: usize,
) -> Option<(Store<J, F>, Vec<Seat<J>>)>
    requires name { (opened.table ≡ J.table) × (opened.bounds ≡ J.bounds) × (opened.seats ≡ J.seats) }
    requires count { regions ≡ length J.bounds + 1 }
{
    let families = make_families(alloc, make, regions).ok()?;
    Store::<J, F>::open(alloc, opened, families).ok()
}
