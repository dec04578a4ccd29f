//! What is seen of flat maps.
use crate::FlatCells;
use crate::ceilings::slot;
use crate::cells::{start_fits, starts_down};
use crate::searches::{FlatHistory, head_on};
use crate::sieve::Sieve;
use std::alloc::Global;
use tx_cells::{KeyVersions, Sees, records_down, sum};
use tx_plan::{
    Answer, Dropped, Infos, ReadView, Scan, TxnView, first_below, infos_below, scan_walk,
};
use tx_spelling::EncodedKey;
use tx_types::{Fault, LockInfo, Ts};

impl Sees for FlatCells {
    // Mostly all records are older.
    fn view(
        &self,
        alloc: Global,
        key: &EncodedKey<'_>,
        start: Ts,
        commit: Ts,
    ) -> Result<TxnView, Fault> {
        let lock = head_on(&self.locks, key.bytes());
        let past = self.is_past(alloc, key, start, commit)?;
        if past {
            return Ok(TxnView {
                lock,
                at_start: None,
                at_commit: None,
                own_commit: None,
                newest_above: None,
            });
        }
        let version = key.version(alloc, start)?;
        Ok(self.view_by(version, lock, start, commit))
    }

    fn read(&self, alloc: Global, key: &EncodedKey<'_>, at: Ts) -> Result<ReadView, Fault> {
        let lock = head_on(&self.locks, key.bytes());
        let version = key.version(alloc, at)?;
        let value = self.value_seen(alloc, key, version, at)?;
        Ok(ReadView { lock, value })
    }

    fn lock_info(&self, alloc: Global, key: &EncodedKey<'_>) -> Result<Option<LockInfo>, Fault> {
        match self.locks.get(key.bytes()) {
            Some(bytes) => Ok(Some(bytes.read(alloc)?.info(alloc, key.key())?)),
            None => Ok(None),
        }
    }

    fn scan(&self, alloc: Global, body: &Scan) -> Result<Answer, Fault> {
        let walk = self.reads_from(alloc, &body.from)?;
        scan_walk(alloc, walk, body)
    }

    fn locks_below(&self, alloc: Global, safe: Ts) -> Result<Infos, Fault> {
        infos_below(alloc, self.walk_locks(), safe)
    }

    fn first_below(&self, alloc: Global, safe: Ts) -> Result<Option<LockInfo>, Fault> {
        first_below(alloc, self.walk_locks(), safe)
    }

    fn count_below(&self, alloc: Global, safe: Ts) -> Result<Dropped, Fault> {
        let _ = alloc;
        let mut records = 0;
        let mut values = 0;
        let mut sieve = Sieve::new(safe);
        let mut writes = self.writes.iter();
        'records: while let Some((version, rec)) = writes.next() {
            if sieve.keeps(version, rec) {
                continue;
            }
            records = sum(records, 1)?;
            if rec.keeps_value_apart() {
                values = sum(values, 1)?;
            }
        }
        Ok(Dropped { records, values })
    }

    fn cells(&self, alloc: Global, key: &EncodedKey<'_>) -> Result<KeyVersions, Fault> {
        let version = key.version(alloc, Ts::ZERO)?;
        let lock = head_on(&self.locks, version.spelt());
        start_fits(&lock);
        let mut history = FlatHistory {
            writes: &self.writes,
            version,
        };
        let records = records_down(alloc, &mut history)?;
        let values = starts_down(alloc, &self.values, history.version)?;
        Ok(KeyVersions {
            lock,
            records,
            values,
        })
    }

    fn number(&self, key: &EncodedKey<'_>) -> u64 {
        let slot = slot(key);
        if self.numbers.len() <= slot {
            return 0;
        }
        match self.numbers[slot].get(key.bytes()) {
            Some(number) => *number,
            None => 0,
        }
    }
}
