//! What is seen of nested maps: the key is looked up, and what is held of it tells.
use crate::NestedCells;
use crate::view::empty_view;
use std::alloc::Global;
use tx_cells::{KeyVersions, Sees, sum};
use tx_plan::{
    Answer, Dropped, Infos, ReadView, Scan, TxnView, first_below, infos_below, scan_walk,
};
use tx_spelling::EncodedKey;
use tx_types::{Fault, Items, LockInfo, Ts};

impl Sees for NestedCells {
    fn view(
        &self,
        alloc: Global,
        key: &EncodedKey<'_>,
        start: Ts,
        commit: Ts,
    ) -> Result<TxnView, Fault> {
        let _ = alloc;
        match self.keys.get(key.bytes()) {
            Some(on_key) => Ok(on_key.view(start, commit)),
            None => Ok(empty_view(start, commit)),
        }
    }

    fn read(&self, alloc: Global, key: &EncodedKey<'_>, at: Ts) -> Result<ReadView, Fault> {
        let _ = alloc;
        match self.keys.get(key.bytes()) {
            Some(on_key) => on_key.read(at),
            None => Ok(ReadView {
                lock: None,
                value: None,
            }),
        }
    }

    fn lock_info(&self, alloc: Global, key: &EncodedKey<'_>) -> Result<Option<LockInfo>, Fault> {
        match self.keys.get(key.bytes()) {
            Some(on_key) => on_key.lock_info(alloc, key.key()),
            None => Ok(None),
        }
    }

    fn scan(&self, alloc: Global, body: &Scan) -> Result<Answer, Fault> {
        scan_walk(alloc, self.reads_from(alloc, &body.from)?, body)
    }

    fn locks_below(&self, alloc: Global, safe: Ts) -> Result<Infos, Fault> {
        infos_below(alloc, self.locks(), safe)
    }

    fn first_below(&self, alloc: Global, safe: Ts) -> Result<Option<LockInfo>, Fault> {
        first_below(alloc, self.locks(), safe)
    }

    fn count_below(&self, alloc: Global, safe: Ts) -> Result<Dropped, Fault> {
        let _ = alloc;
        let mut records = 0;
        let mut values = 0;
        let mut keys = self.keys.iter();
        'keys: while let Some((_, on_key)) = keys.next() {
            let gone = on_key.collection(safe);
            records = sum(records, gone.records)?;
            values = sum(values, gone.values)?;
        }
        Ok(Dropped { records, values })
    }

    fn cells(&self, alloc: Global, key: &EncodedKey<'_>) -> Result<KeyVersions, Fault> {
        match self.keys.get(key.bytes()) {
            Some(on_key) => on_key.copy(alloc),
            None => Ok(KeyVersions {
                lock: None,
                records: Items::new(alloc),
                values: Items::new(alloc),
            }),
        }
    }

    fn number(&self, key: &EncodedKey<'_>) -> u64 {
        match self.keys.get(key.bytes()) {
            Some(on_key) => on_key.number,
            None => 0,
        }
    }
}
