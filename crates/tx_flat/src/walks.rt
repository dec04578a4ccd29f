//! Walks over the keys, and over the locks.
ghost use Rattle.std.specs.Prelude.{◌≡◌, ◌∷◌, ℕ, true, None, Some, option_map, IfOk, IfErr};
ghost use Rattle.std.proofs.Props.{props};
ghost use Rattle.std.specs.Map.Iter.{deref_pair};
ghost use Rattle.tx_types.specs.declared.key.Key.{Key};
ghost use Rattle.tx_types.specs.Keys.{key_le};
ghost use Rattle.tx_plan.specs.Walks.{IsWalk, IsLockWalk};
ghost use Rattle.tx_cells.specs.Heads.{lock_head};
ghost use Rattle.tx_flat.specs.Flats.{fronts_of};
ghost use Rattle.tx_flat.specs.Positions.{coming, first_of, next_key, comes_before, lock_on, locks_behind, IsPosition, Passes};

use crate::FlatCells;
use crate::next_key::{Record, next_front};
use std::alloc::Global;
use std::collections::btree_map::{Iter, Range};
use tx_cells::Sees;
use tx_plan::{LockHead, LockWalk, ReadView, ReadWalk};
use tx_records::{LockBytes, WriteBytes, lock_head_of};
use tx_spelling::{EncodedKey, KeyBytes, VersionBytes};
use tx_types::{Fault, Key, LockInfo, Ts};

/// A key and its lock, in the maps.
type Held<'a> = (&'a KeyBytes, &'a LockBytes);

/// A walk over keys, rising. It keeps its place in the locks and in the write records: of both the
/// first that is to come is at hand, and the others are behind it.
#[derive(Drop)]
pub(crate) struct FlatReads<'a> {
    cells: &'a FlatCells,
    lock: Option<Held<'a>>,
    locks: Range<'a, KeyBytes, LockBytes>,
    write: Option<Record<'a>>,
    writes: Range<'a, VersionBytes, WriteBytes>,
    ghost slot: { IsPosition cells.now (coming lock locks) (coming write writes) } by { Prim.hlevel props },
}

/// Whether the next lock's key lies below the next record's.
fn comes_first(held: Held<'_>, write: &Option<Record<'_>>) -> bool
    ensures { result ≡ comes_before held.entry.0.now (option_map (λ x. x.0.now.0) write.now) }
{
    match write {
        Some(newest) => held.0.order_to(newest.0).is_lt(),
        None => true,
    }
}

/// Of the lock that comes next its head, where it is on this version's key, and the first lock
/// behind that key.
fn lock_behind<'a>(
    lock: Option<Held<'a>>,
    locks: &mut Range<'a, KeyBytes, LockBytes>,
    version: &VersionBytes,
) -> (Option<LockHead>, Option<Held<'a>>)
    ensures head { result.0 ≡ option_map lock_head (lock_on version.now.0 (coming lock.entry locks.old)) }
    ensures behind { coming result.1 locks.new ≡ locks_behind version.now.0 (coming lock.entry locks.old) }
{
    let Some(held) = lock else {
        return (None, None);
    };
    if held.0.order_to(version).is_eq() {
        return (Some(lock_head_of(held.1)), locks.next());
    }
    (None, Some(held))
}

impl<'a> FlatReads<'a> {
    // Passes a key that has a lock and no write record.
    fn pass_locked(
        &mut self,
        alloc: Global,
        held: Held<'a>,
        write: Option<Record<'a>>,
    ) -> Result<(Key, ReadView), Fault>
        requires slot { IsPosition self.old.cells.now (deref_pair held
            ∷ self.old.locks) (coming write self.old.writes) }
        requires first { comes_before held.0.now (first_of (fronts_of (coming write self.old.writes))) ≡ true }
        ensures key { IfOk result (λ x. x.0 ≡ held.entry.0.now) }
        ensures passes { IfOk result (λ x. (at : ℕ)
            → Passes self.old.cells.now at held.entry.0.now x.1 (coming self.new.lock self.new.locks)
            (coming self.new.write self.new.writes)) }
        ensures same { self.new.cells.now ≡ self.old.cells.now }
        ensures err { IfErr result (λ e. e ≡ Fault.OutOfMemory) }
    {
        let key = held.0.read(alloc)?;
        let view = ReadView {
            lock: Some(lock_head_of(held.1)),
            value: None,
        };
        self.lock = self.locks.next();
        self.write = write;
        Ok((key, view))
    }

    // Passes a key that has write records, of which this is the newest.
    fn pass_written(
        &mut self,
        alloc: Global,
        at: Ts,
        lock: Option<Held<'a>>,
        newest: Record<'a>,
    ) -> Result<(Key, ReadView), Fault>
        requires ended { (self.old.lock ≡ None) × (self.old.write ≡ None) }
        requires slot { IsPosition self.old.cells.now (coming lock self.old.locks) (deref_pair newest
            ∷ self.old.writes) }
        requires first { next_key (coming lock self.old.locks) (deref_pair newest ∷ self.old.writes)
            ≡ Some newest.0.now.0 }
        ensures key { IfOk result (λ x. x.0 ≡ newest.entry.0.now.0) }
        ensures passes { IfOk result (λ x. Passes self.old.cells.now at newest.entry.0.now.0 x.1
            (coming self.new.lock self.new.locks) (coming self.new.write self.new.writes)) }
        ensures same { self.new.cells.now ≡ self.old.cells.now }
        ensures err { IfErr result (λ e. e ≡ Fault.OutOfMemory) }
    {
        let cells = self.cells;
        let (version, bytes) = newest;
        let key = version.key(alloc)?;
        let value = cells.value_by(alloc, version.spelt(), version, bytes, at)?;
        let write = next_front(&cells.writes, &mut self.writes, alloc, &key, newest)?;
        let (head, lock) = lock_behind(lock, &mut self.locks, version);
        self.lock = lock;
        self.write = write;
        Ok((key, ReadView { lock: head, value }))
    }
}

impl<'a> ReadWalk for FlatReads<'a> {
    ghost use Rattle.tx_cells.specs.Contents.{cells_in};
    ghost use Rattle.tx_flat.specs.Flats.{flat_content, rows_from};

    ghost cells = { λ w. cells_in (flat_content w.cells.now) };

    ghost rest = { λ w. rows_from w.cells.now (next_key (coming w.lock w.locks) (coming w.write w.writes)) };

    fn next(&mut self, alloc: Global, at: Ts) -> Result<Option<(Key, ReadView)>, Fault> {
        // where memory is refused the walk has ended
        let (lock, write) = (self.lock.take(), self.write.take());
        if let Some(held) = lock {
            if comes_first(held, &write) {
                return Ok(Some(self.pass_locked(alloc, held, write)?));
            }
        }
        let Some(newest) = write else {
            return Ok(None);
        };
        Ok(Some(self.pass_written(alloc, at, lock, newest)?))
    }

    fn lock_info(&self, alloc: Global, key: &Key) -> Result<Option<LockInfo>, Fault> {
        let spelt = EncodedKey::new(alloc, key)?;
        self.cells.lock_info(alloc, &spelt)
    }
}

/// A walk over the locks, keys rising.
#[derive(Drop)]
pub(crate) struct FlatLocks<'a> {
    cells: &'a FlatCells,
    locks: Iter<'a, KeyBytes, LockBytes>,
}

impl<'a> LockWalk for FlatLocks<'a> {
    ghost use Rattle.tx_cells.specs.Contents.{cells_in};
    ghost use Rattle.tx_flat.specs.Flats.{flat_content, lock_rows_in};

    ghost cells = { λ w. cells_in (flat_content w.cells.now) };

    ghost rest = { λ w. lock_rows_in (flat_content w.cells.now) w.locks };

    fn next(&mut self, alloc: Global) -> Result<Option<(Key, LockHead)>, Fault> {
        let Some((key, bytes)) = self.locks.next() else {
            return Ok(None);
        };
        Ok(Some((key.read(alloc)?, lock_head_of(bytes))))
    }

    fn lock_info(&self, alloc: Global, key: &Key) -> Result<Option<LockInfo>, Fault> {
        let spelt = EncodedKey::new(alloc, key)?;
        self.cells.lock_info(alloc, &spelt)
    }
}

impl FlatCells {
    ghost use Rattle.tx_cells.specs.Contents.{cells_in};
    ghost use Rattle.tx_flat.specs.Flats.{flat_content, rows_from, lock_rows_in};

    /// A walk over the keys from this one on. One search of the locks and one of the write
    /// records find its start.
    pub(crate) fn reads_from(&self, alloc: Global, from: &Key) -> Result<FlatReads<'_>, Fault>
        ensures same { IfOk result (λ walk. walk.cells.now ≡ self.now) }
        ensures walk { IfOk result (λ walk. IsWalk (cells_in (flat_content self.now)) (key_le from.now)
            (rows_from self.now (next_key (coming walk.lock walk.locks) (coming walk.write walk.writes)))) }
        ensures err { IfErr result (λ e. e ≡ Fault.OutOfMemory) }
    {
        let key = KeyBytes::new(alloc, from)?;
        let newest = VersionBytes::new(alloc, from, Ts::new(u64::MAX))?;
        let mut locks = self.locks.range(&key..);
        let mut writes = self.writes.range(&newest..);
        let lock = locks.next();
        let write = writes.next();
        Ok(FlatReads {
            cells: self,
            lock,
            locks,
            write,
            writes,
        })
    }

    /// A walk over all locks.
    pub(crate) fn walk_locks(&self) -> FlatLocks<'_>
        ensures same { result.cells.now ≡ self.now }
        ensures walk { IsLockWalk (cells_in (flat_content self.now))
            (lock_rows_in (flat_content self.now) result.locks) }
    {
        FlatLocks {
            cells: self,
            locks: self.locks.iter(),
        }
    }
}
