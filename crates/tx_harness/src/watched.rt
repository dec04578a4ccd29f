//! Families whose calls are watched.
ghost use Rattle.std.specs.Prelude.{◌≡◌, IfErr};

use std::alloc::Global;
use std::sync::Arc;
use tx_cells::{Changes, Families, Fresh, Holds, KeyVersions, Makes, Sees};
use tx_plan::{Answer, Dropped, Infos, KeyChange, NewLock, Prewrite, ReadView, Scan, TxnView};
use tx_spelling::EncodedKey;
use tx_types::{Fault, Key, LockInfo, Ts};

/// A call of families for which memory may be refused.
#[derive(Clone, Copy)]
pub enum Call<'a> {
    /// A request of a transaction looks at this key.
    View(&'a Key),
    /// Any other.
    Other,
}

/// What watches the calls of families.
pub trait Watch: Drop {
    /// What is done before a call; or the call is refused memory.
    fn before(&self, call: Call<'_>) -> Result<(), Fault>
        ensures { IfErr result (λ e. e ≡ Fault.OutOfMemory) };
}

/// Families whose calls are watched.
#[derive(Drop)]
pub struct Watched<F, W> {
    cells: F,
    watch: Arc<W>,
}

/// Families of their own for each region, all of which it watches.
impl<F: Fresh, W: Watch> Makes<Watched<F, W>> for Arc<W> {
    fn make(&self, alloc: Global) -> Result<Watched<F, W>, Fault> {
        let watch = self.clone()?;
        Ok(Watched {
            cells: F::fresh(alloc),
            watch,
        })
    }
}

impl<F: Families, W: Watch> Holds for Watched<F, W> {
    ghost content = { λ m. F.content m.cells };

    ghost numbers = { λ m. F.numbers m.cells };
}

impl<F: Families, W: Watch> Sees for Watched<F, W> {
    fn view(
        &self,
        alloc: Global,
        key: &EncodedKey<'_>,
        start: Ts,
        commit: Ts,
    ) -> Result<TxnView, Fault> {
        self.watch.before(Call::View(key.key()))?;
        self.cells.view(alloc, key, start, commit)
    }

    fn read(&self, alloc: Global, key: &EncodedKey<'_>, at: Ts) -> Result<ReadView, Fault> {
        self.watch.before(Call::Other)?;
        self.cells.read(alloc, key, at)
    }

    fn lock_info(&self, alloc: Global, key: &EncodedKey<'_>) -> Result<Option<LockInfo>, Fault> {
        self.watch.before(Call::Other)?;
        self.cells.lock_info(alloc, key)
    }

    fn scan(&self, alloc: Global, body: &Scan) -> Result<Answer, Fault> {
        self.watch.before(Call::Other)?;
        self.cells.scan(alloc, body)
    }

    fn locks_below(&self, alloc: Global, safe: Ts) -> Result<Infos, Fault> {
        self.watch.before(Call::Other)?;
        self.cells.locks_below(alloc, safe)
    }

    fn first_below(&self, alloc: Global, safe: Ts) -> Result<Option<LockInfo>, Fault> {
        self.watch.before(Call::Other)?;
        self.cells.first_below(alloc, safe)
    }

    fn count_below(&self, alloc: Global, safe: Ts) -> Result<Dropped, Fault> {
        self.watch.before(Call::Other)?;
        self.cells.count_below(alloc, safe)
    }

    fn cells(&self, alloc: Global, key: &EncodedKey<'_>) -> Result<KeyVersions, Fault> {
        self.watch.before(Call::Other)?;
        self.cells.cells(alloc, key)
    }

    fn number(&self, key: &EncodedKey<'_>) -> u64 {
        self.cells.number(key)
    }
}

impl<F: Families, W: Watch> Changes for Watched<F, W> {
    fn forget_numbers(&mut self, alloc: Global) {
        self.cells.forget_numbers(alloc);
    }

    fn put_lock(
        &mut self,
        alloc: Global,
        key: &EncodedKey<'_>,
        body: &Prewrite,
        new: NewLock,
        number: u64,
    ) -> Result<(), Fault> {
        self.watch.before(Call::Other)?;
        self.cells.put_lock(alloc, key, body, new, number)
    }

    fn apply(
        &mut self,
        alloc: Global,
        key: &EncodedKey<'_>,
        change: KeyChange,
        number: u64,
    ) -> Result<(), Fault> {
        self.watch.before(Call::Other)?;
        self.cells.apply(alloc, key, change, number)
    }

    fn drop_below(&mut self, safe: Ts) {
        self.cells.drop_below(safe);
    }
}

impl<F: Families, W: Watch> Families for Watched<F, W> {}
