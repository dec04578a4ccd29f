//! A change on a key. What memory it needs is taken before anything is changed.
ghost use Rattle.std.specs.Prelude.{◌≡◌, ◌≢◌, ℕ, OnOk, OnErr, IfErr};
ghost use Rattle.std.specs.BTreeMap as tree;
ghost use Rattle.tx_types.specs.declared.key.Key.{Key};
ghost use Rattle.tx_plan.specs.Changes.{Applies, changed};
ghost use Rattle.tx_plan.specs.declared.key_change.KeyChange.TheVariants as change;
ghost use Rattle.tx_cells.specs.Contents.{cells_of};
ghost use Rattle.tx_cells.specs.Afterwards.{OnlyOn, after, after_left};
ghost use Rattle.tx_spelling.specs.Spelt.{version_cmp};

use crate::FlatCells;
use std::alloc::Global;
use std::collections::BTreeMap;
use tx_plan::{KeyChange, Left};
use tx_records::{
    WriteBytes, commit_record, lock_with_min, lock_with_ttl, marked_record, rollback_record,
};
use tx_spelling::{EncodedKey, VersionBytes};
use tx_types::{Fault, Ts};

/// Leaves the rollback of the transaction that started then. `OutOfMemory` leaves the records as
/// they were.
fn leave(
    writes: &mut BTreeMap<VersionBytes, WriteBytes>,
    alloc: Global,
    key: &EncodedKey<'_>,
    start: Ts,
    left: Left,
) -> Result<(), Fault>
    ensures ok { OnOk result ((q : ℕ) → tree.get version_cmp writes.new (
      key.now,
      q,
    ) ≡ after_left (λ c. tree.get version_cmp writes.old (key.now, c)) start left q) }
    ensures others { (k : Key) → k ≢ key.now → (q : ℕ)
        → tree.get version_cmp writes.new (k, q) ≡ tree.get version_cmp writes.old (k, q) }
    ensures same { OnErr result (writes.new.entries ≡ writes.old.entries) }
    ensures err { IfErr result (λ e. e ≡ Fault.OutOfMemory) }
{
    match left {
        Left::Already => Ok(()),
        Left::Record => {
            let version = key.version(alloc, start)?;
            let rec = rollback_record(alloc, start)?;
            writes.insert(version, rec)?;
            Ok(())
        }
        Left::Mark => {
            let version = key.version(alloc, start)?;
            let rec = match writes.get(&version) {
                Some(bytes) => marked_record(alloc, bytes)?,
                None => return Ok(()),
            };
            writes.insert(version, rec)?;
            Ok(())
        }
    }
}

impl FlatCells {
    ghost use Rattle.tx_flat.specs.Flats.{flat_content};

    // Gives the lock another time to live.
    fn set_ttl(&mut self, alloc: Global, key: &EncodedKey<'_>, ttl: u32) -> Result<(), Fault>
        requires { Applies (cells_of (flat_content self.old key.now)) (change.Ttl ttl) }
        ensures content { OnOk result (OnlyOn key.now (after (flat_content self.old key.now) (change.Ttl ttl))
            (flat_content self.old) (flat_content self.new)) }
        ensures same { OnErr result (flat_content self.new ≡ flat_content self.old) }
        ensures numbers { self.new.numbers ≡ self.old.numbers }
        ensures err { IfErr result (λ e. e ≡ Fault.OutOfMemory) }
    {
        let Some(lock) = self.locks.get_mut(key.bytes()) else {
            return Ok(());
        };
        let rec = lock_with_ttl(alloc, lock, ttl)?;
        *lock = rec;
        Ok(())
    }

    // Gives the lock another minimum.
    fn set_minimum(&mut self, alloc: Global, key: &EncodedKey<'_>, min: Ts) -> Result<(), Fault>
        requires { Applies (cells_of (flat_content self.old key.now)) (change.Minimum min) }
        ensures content { OnOk result (OnlyOn key.now (after (flat_content self.old key.now) (change.Minimum min))
            (flat_content self.old) (flat_content self.new)) }
        ensures same { OnErr result (flat_content self.new ≡ flat_content self.old) }
        ensures numbers { self.new.numbers ≡ self.old.numbers }
        ensures err { IfErr result (λ e. e ≡ Fault.OutOfMemory) }
    {
        let Some(lock) = self.locks.get_mut(key.bytes()) else {
            return Ok(());
        };
        let rec = lock_with_min(alloc, lock, min)?;
        *lock = rec;
        Ok(())
    }

    // Makes a commit record of the lock.
    fn commit(
        &mut self,
        alloc: Global,
        key: &EncodedKey<'_>,
        commit: Ts,
        overlapped_rollback: bool,
    ) -> Result<(), Fault>
        requires { Applies (cells_of (flat_content self.old key.now)) (change.Commit commit overlapped_rollback) }
        ensures content { OnOk result (OnlyOn key.now
            (after (flat_content self.old key.now) (change.Commit commit overlapped_rollback)) (flat_content self.old)
            (flat_content self.new)) }
        ensures same { OnErr result (flat_content self.new ≡ flat_content self.old) }
        ensures numbers { self.new.numbers ≡ self.old.numbers }
        ensures err { IfErr result (λ e. e ≡ Fault.OutOfMemory) }
    {
        // For proofs: it is a number of 64 bits.
        let _ticks = commit.get();
        let spelt = key.bytes();
        let rec = match self.locks.get(spelt) {
            Some(bytes) => commit_record(alloc, bytes, overlapped_rollback)?,
            None => return Ok(()),
        };
        let version = key.version(alloc, commit)?;
        self.ceilings.raise(key, commit);
        self.writes.insert(version, rec)?;
        self.locks.remove(spelt);
        Ok(())
    }

    // Rolls a transaction back.
    fn roll_back(
        &mut self,
        alloc: Global,
        key: &EncodedKey<'_>,
        start: Ts,
        removes_lock: bool,
        left: Left,
    ) -> Result<(), Fault>
        requires { Applies (cells_of (flat_content self.old key.now)) (change.RollBack start removes_lock left) }
        ensures content { OnOk result (OnlyOn key.now
            (after (flat_content self.old key.now) (change.RollBack start removes_lock left)) (flat_content self.old)
            (flat_content self.new)) }
        ensures same { OnErr result (flat_content self.new ≡ flat_content self.old) }
        ensures numbers { self.new.numbers ≡ self.old.numbers }
        ensures err { IfErr result (λ e. e ≡ Fault.OutOfMemory) }
    {
        // For proofs: it is a number of 64 bits.
        let _ticks = start.get();
        self.ceilings.raise(key, start);
        if !removes_lock {
            return leave(&mut self.writes, alloc, key, start, left);
        }
        let spelt = key.bytes();
        let version = key.version(alloc, start)?;
        leave(&mut self.writes, alloc, key, start, left)?;
        self.locks.remove(spelt);
        self.values.remove(&version);
        Ok(())
    }

    /// Makes a change on a key, and notes no number.
    pub(crate) fn apply_unnoted(
        &mut self,
        alloc: Global,
        key: &EncodedKey<'_>,
        change: KeyChange,
    ) -> Result<(), Fault>
        requires { Applies (cells_of (flat_content self.old key.now)) change }
        ensures content { OnOk result (OnlyOn key.now (after (flat_content self.old key.now) change)
            (flat_content self.old) (flat_content self.new)) }
        ensures cells { OnOk result (cells_of (flat_content self.new key.now)
            ≡ changed (cells_of (flat_content self.old key.now)) change) }
        ensures same { OnErr result (flat_content self.new ≡ flat_content self.old) }
        ensures numbers { self.new.numbers ≡ self.old.numbers }
        ensures err { IfErr result (λ e. e ≡ Fault.OutOfMemory) }
    {
        match change {
            KeyChange::Nothing => Ok(()),
            KeyChange::Lock(_) => Ok(()),
            KeyChange::Ttl(ttl) => self.set_ttl(alloc, key, ttl),
            KeyChange::Minimum(min) => self.set_minimum(alloc, key, min),
            KeyChange::Commit {
                commit,
                overlapped_rollback,
            } => self.commit(alloc, key, commit, overlapped_rollback),
            KeyChange::RollBack {
                start,
                removes_lock,
                left,
            } => self.roll_back(alloc, key, start, removes_lock, left),
        }
    }
}
