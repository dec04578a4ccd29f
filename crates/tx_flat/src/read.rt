//! What a read sees of its key.
ghost use Rattle.std.specs.Prelude.{◌≡◌, ◌≤◌, ℕ, Some, IsSome, IfOk, IfErr};
ghost use Rattle.tx_plan.specs.Reads.{Reads};
ghost use Rattle.tx_cells.specs.Contents.{cells_of};
ghost use Rattle.tx_cells.specs.Histories.{IsSeen};

use crate::FlatCells;
use crate::searches::{FlatHistory, newest_seen};
use std::alloc::Global;
use tx_cells::{SeenRecord, seen_at};
use tx_records::{WriteBytes, seen_in};
use tx_spelling::{EncodedKey, KeyBytes, VersionBytes};
use tx_types::{Fault, Ts, Value};

impl FlatCells {
    ghost use Rattle.tx_flat.specs.Flats.{flat_content};

    // The value that a read at this timestamp sees by this record of the key, the
    // newest put or delete.
    fn value_in(
        &self,
        alloc: Global,
        key: &KeyBytes,
        bytes: &WriteBytes,
        at: Ts,
        seen: SeenRecord,
    ) -> Result<Option<Value>, Fault>
        requires seen { IsSeen (flat_content self.now key.now).write at seen.commit seen.start seen.kind }
        requires stands { (flat_content self.now key.now).write seen.commit ≡ Some bytes.now }
        ensures value { IfOk result (λ value. Reads (cells_of (flat_content self.now key.now)).write at value) }
        ensures err { IfErr result (λ e. e ≡ Fault.OutOfMemory) }
    {
        let _ = at;
        if !bytes.keeps_value_apart() {
            return bytes.inline_value(alloc);
        }
        let version = VersionBytes::of(alloc, key, seen.start)?;
        match self.values.get(&version) {
            Some(value) => Ok(Some(value.clone()?)),
            None => Ok(None),
        }
    }

    // The value that a read at this timestamp sees of the key, whatever record is the newest.
    fn value_below(
        &self,
        alloc: Global,
        key: &KeyBytes,
        version: VersionBytes,
        at: Ts,
    ) -> Result<Option<Value>, Fault>
        requires { version.0 ≡ key.now }
        ensures value { IfOk result (λ value. Reads (cells_of (flat_content self.now key.now)).write at value) }
        ensures err { IfErr result (λ e. e ≡ Fault.OutOfMemory) }
    {
        let mut history = FlatHistory {
            writes: &self.writes,
            version,
        };
        let Some(seen) = seen_at(&mut history, at) else {
            return Ok(None);
        };
        let mut version = history.version;
        version.set_at(seen.commit);
        match self.writes.get(&version) {
            Some(bytes) => self.value_in(alloc, key, bytes, at, seen),
            None => Ok(None),
        }
    }

    // The value that a read at this version's timestamp sees of its key, by a search. Mostly the
    // newest record is a put or a delete.
    fn value_searched(
        &self,
        alloc: Global,
        key: &KeyBytes,
        version: VersionBytes,
        at: Ts,
    ) -> Result<Option<Value>, Fault>
        requires { version ≡ (key.now, at) }
        ensures value { IfOk result (λ value. Reads (cells_of (flat_content self.now key.now)).write at value) }
        ensures err { IfErr result (λ e. e ≡ Fault.OutOfMemory) }
    {
        match newest_seen(&self.writes, &version) {
            Some((seen, bytes)) => self.value_in(alloc, key, bytes, at, seen),
            None => self.value_below(alloc, key, version, at),
        }
    }

    // The value that a read at this timestamp sees of the key.
    fn value_at(&self, alloc: Global, key: &KeyBytes, at: Ts) -> Result<Option<Value>, Fault>
        ensures value { IfOk result (λ value. Reads (cells_of (flat_content self.now key.now)).write at value) }
        ensures err { IfErr result (λ e. e ≡ Fault.OutOfMemory) }
    {
        let version = VersionBytes::of(alloc, key, at)?;
        self.value_searched(alloc, key, version, at)
    }

    /// What a read at `at` sees of the key, begun with its newest record. Mostly that is a put or a
    /// delete at the timestamp or below, which takes no search.
    pub(crate) fn value_by(
        &self,
        alloc: Global,
        key: &KeyBytes,
        version: &VersionBytes,
        bytes: &WriteBytes,
        at: Ts,
    ) -> Result<Option<Value>, Fault>
        requires stands { (flat_content self.now key.now).write version.now.1 ≡ Some bytes.now }
        requires newest { (q : ℕ) → IsSome ((flat_content self.now key.now).write q) → q ≤ version.now.1 }
        ensures value { IfOk result (λ value. Reads (cells_of (flat_content self.now key.now)).write at value) }
        ensures err { IfErr result (λ e. e ≡ Fault.OutOfMemory) }
    {
        let commit = version.at();
        if commit > at {
            return self.value_at(alloc, key, at);
        }
        match seen_in(commit, bytes) {
            Some(seen) => self.value_in(alloc, key, bytes, at, seen),
            None => self.value_at(alloc, key, at),
        }
    }

    /// The value that a read at this version's timestamp sees of its key. Mostly the key's
    /// ceiling is the timestamp of its newest record, which is then found without a search of the
    /// records around it.
    pub(crate) fn value_seen(
        &self,
        alloc: Global,
        key: &EncodedKey<'_>,
        mut version: VersionBytes,
        at: Ts,
    ) -> Result<Option<Value>, Fault>
        requires { version ≡ (key.now, at) }
        ensures value { IfOk result (λ value. Reads (cells_of (flat_content self.now key.now)).write at value) }
        ensures err { IfErr result (λ e. e ≡ Fault.OutOfMemory) }
    {
        let spelt = key.bytes();
        let ceiling = self.ceilings.of(key);
        if ceiling <= at {
            version.set_at(ceiling);
            if let Some(bytes) = self.writes.get(&version) {
                return self.value_by(alloc, spelt, &version, bytes, at);
            }
            version.set_at(at);
        }
        self.value_searched(alloc, spelt, version, at)
    }
}
