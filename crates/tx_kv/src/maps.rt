//! In which maps the regions of a store keep their keys: of the kind that its program says.
ghost use Rattle.tx_kv.specs.Maps.{held_in, noted_in};

use std::alloc::Global;
use tx_cells::{Changes, Families, Holds, KeyVersions, Makes, Sees};
use tx_flat::FlatCells;
use tx_nested::NestedCells;
use tx_plan::{Answer, Dropped, Infos, KeyChange, NewLock, Prewrite, ReadView, Scan, TxnView};
use tx_spelling::EncodedKey;
use tx_types::{Fault, LockInfo, Ts};

/// In which maps the regions of a store keep their keys.
#[derive(Clone, Copy, Debug, PartialEq, Eq)]
pub enum Maps {
    /// A map of the keys, and in it a map of each key's versions: a sixth fewer instructions a
    /// transaction.
    Nested,
    /// Maps of all versions: half of the memory at many keys.
    Flat,
}

/// The families of a region, in maps of either kind.
#[derive(Drop)]
pub(crate) enum StoreCells {
    Nested(NestedCells),
    Flat(FlatCells),
}

impl Makes<StoreCells> for Maps {
    fn make(&self, alloc: Global) -> Result<StoreCells, Fault> {
        Ok(match self {
            Maps::Nested => StoreCells::Nested(NestedCells::new(alloc)),
            Maps::Flat => StoreCells::Flat(FlatCells::new(alloc)),
        })
    }
}

impl Holds for StoreCells {
    ghost content = { held_in };

    ghost numbers = { noted_in };
}

impl Sees for StoreCells {
    fn view(
        &self,
        alloc: Global,
        key: &EncodedKey<'_>,
        start: Ts,
        commit: Ts,
    ) -> Result<TxnView, Fault> {
        match self {
            StoreCells::Nested(cells) => cells.view(alloc, key, start, commit),
            StoreCells::Flat(cells) => cells.view(alloc, key, start, commit),
        }
    }

    fn read(&self, alloc: Global, key: &EncodedKey<'_>, at: Ts) -> Result<ReadView, Fault> {
        match self {
            StoreCells::Nested(cells) => cells.read(alloc, key, at),
            StoreCells::Flat(cells) => cells.read(alloc, key, at),
        }
    }

    fn lock_info(&self, alloc: Global, key: &EncodedKey<'_>) -> Result<Option<LockInfo>, Fault> {
        match self {
            StoreCells::Nested(cells) => cells.lock_info(alloc, key),
            StoreCells::Flat(cells) => cells.lock_info(alloc, key),
        }
    }

    fn scan(&self, alloc: Global, body: &Scan) -> Result<Answer, Fault> {
        match self {
            StoreCells::Nested(cells) => cells.scan(alloc, body),
            StoreCells::Flat(cells) => cells.scan(alloc, body),
        }
    }

    fn locks_below(&self, alloc: Global, safe: Ts) -> Result<Infos, Fault> {
        match self {
            StoreCells::Nested(cells) => cells.locks_below(alloc, safe),
            StoreCells::Flat(cells) => cells.locks_below(alloc, safe),
        }
    }

    fn first_below(&self, alloc: Global, safe: Ts) -> Result<Option<LockInfo>, Fault> {
        match self {
            StoreCells::Nested(cells) => cells.first_below(alloc, safe),
            StoreCells::Flat(cells) => cells.first_below(alloc, safe),
        }
    }

    fn count_below(&self, alloc: Global, safe: Ts) -> Result<Dropped, Fault> {
        match self {
            StoreCells::Nested(cells) => cells.count_below(alloc, safe),
            StoreCells::Flat(cells) => cells.count_below(alloc, safe),
        }
    }

    fn cells(&self, alloc: Global, key: &EncodedKey<'_>) -> Result<KeyVersions, Fault> {
        match self {
            StoreCells::Nested(cells) => cells.cells(alloc, key),
            StoreCells::Flat(cells) => cells.cells(alloc, key),
        }
    }

    fn number(&self, key: &EncodedKey<'_>) -> u64 {
        match self {
            StoreCells::Nested(cells) => cells.number(key),
            StoreCells::Flat(cells) => cells.number(key),
        }
    }
}

impl Changes for StoreCells {
    fn forget_numbers(&mut self, alloc: Global) {
        match self {
            StoreCells::Nested(cells) => cells.forget_numbers(alloc),
            StoreCells::Flat(cells) => cells.forget_numbers(alloc),
        }
    }

    fn put_lock(
        &mut self,
        alloc: Global,
        key: &EncodedKey<'_>,
        body: &Prewrite,
        new: NewLock,
        number: u64,
    ) -> Result<(), Fault> {
        match self {
            StoreCells::Nested(cells) => cells.put_lock(alloc, key, body, new, number),
            StoreCells::Flat(cells) => cells.put_lock(alloc, key, body, new, number),
        }
    }

    fn apply(
        &mut self,
        alloc: Global,
        key: &EncodedKey<'_>,
        change: KeyChange,
        number: u64,
    ) -> Result<(), Fault> {
        match self {
            StoreCells::Nested(cells) => cells.apply(alloc, key, change, number),
            StoreCells::Flat(cells) => cells.apply(alloc, key, change, number),
        }
    }

    fn drop_below(&mut self, safe: Ts) {
        match self {
            StoreCells::Nested(cells) => cells.drop_below(safe),
            StoreCells::Flat(cells) => cells.drop_below(safe),
        }
    }
}

impl Families for StoreCells {}
