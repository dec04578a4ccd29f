//! Reads of a client alone, at one timestamp.
ghost use Rattle.std.specs.Prelude.{◌≡◌, ◌⊎◌, IfOk, IfErr, Some, false};
ghost use Rattle.tx_machine.specs.Machine.{Sees, table_of};
ghost use Rattle.tx_core.specs.Histories.{last};
ghost use Rattle.tx_core.specs.Shadow.{shadow};
ghost use Rattle.tx_journal.specs.Known.{HasDrawn};
ghost use Rattle.tx_reader.specs.Readers.{OnlySees};
ghost use Rattle.tx_types.specs.declared.fault.Fault.TheVariants as fault;
ghost use Rattle.tx_types.specs.Lengths.{is_key};
ghost use Rattle.tx_update.specs.declared.stops.Stop.TheVariants as stop;
ghost use Rattle.tx_update.specs.Ranges.{IsRestOf, after_prefix, end_of_page};
ghost use Rattle.tx_update.specs.Stops.{NamesKey};
ghost use Rattle.tx_kv.specs.Sizes.{HasSize};
ghost use Rattle.tx_kv.specs.Views.{IsViewStop, SeesEach, SeesLast, SeesRange};

use crate::client::Client;
use crate::size::Size;
use std::alloc::Global;
use std::sync::Wait;
use tx_journal::JournalId;
use tx_types::{Fault, Key, KeyValue, Ts, Value};
use tx_update::{KeyRange, Page, Stop, last_of};

/// Reads of a client alone, at one timestamp: a view of the store as it was there. It is no
/// transaction: nothing is written, and nothing is to be ended. As long as it is there, its client
/// can do nothing else, and no collection drops what it may read.
///
/// ```
/// let mut view = client.view()?;
/// let part = view.range(Some(from.clone()?), Some(to.clone()?))?.len();
/// ```
pub struct View<'v, 'a, J: JournalId, R: Wait> {
    client: &'v mut Client<'a, J, R>,
    at: Ts,
}

impl<J: JournalId, R: Wait> Drop for View<'_, '_, J, R> {
    fn drop(self) {
        let View { client, at: _ } = self;
        client.leave();
    }
}

impl<'a, J: JournalId, R: Wait> Client<'a, J, R> {
    /// A view of the store as it is now: at a timestamp that is drawn for it. `OracleSpent` where
    /// the client has drawn 2^32 ticks.
    ///
    /// ```
    /// let now = client.view()?.range(None, None)?.len();
    /// ```
    pub fn view(&mut self) -> Result<View<'_, 'a, J, R>, Fault>
        ensures drawn { IfOk result (λ view. HasDrawn J.bounds self.old.seats.resolves.seat
            self.old.seats.resolves.events 1 view.at view.client.now.seats.resolves.events) }
        ensures err { IfErr result (λ e. e ≡ Fault.OracleSpent) }
        ensures begins { IfOk result (λ view. view.client.now.seats.begins ≡ self.old.seats.begins) }
        ensures lent { IfOk result (λ view. view.client.ghost_name ≡ self.entry.ghost_name) }
    {
        match self.draw_entered() {
            Ok(at) => Ok(self.view_at(at)),
            Err(fault) => {
                self.leave();
                Err(fault)
            }
        }
    }

    /// A view of the store as it was at a timestamp, which need not be fresh: its reads answer
    /// `BelowSafePoint` where that lies below the safe point, and `Refused` where it lies above the
    /// last that was drawn.
    ///
    /// ```
    /// let found = client.view_at(at).get(&key)?;
    /// ```
    pub fn view_at(&mut self, at: Ts) -> View<'_, 'a, J, R>
        ensures at { result.at ≡ at }
        ensures same { result.client.now ≡ self.old }
        ensures lent { result.client.ghost_name ≡ self.entry.ghost_name }
    {
        self.enter(at);
        View { client: self, at }
    }
}

impl<'v, 'a, J: JournalId, R: Wait> View<'v, 'a, J, R> {
    /// The timestamp at which it reads.
    pub fn at(&self) -> Ts
        ensures { result ≡ self.now.at }
    {
        self.at
    }

    /// Where it takes memory.
    pub fn alloc(&self) -> Global {
        self.client.alloc()
    }

    /// The value of a key: what the one-step machine sees there. A lock in the way is resolved. It
    /// stops by `Waits` of the key where the transaction of a lock lives or cannot be asked,
    /// `BelowSafePoint` where its timestamp lies below the safe point, `Refused(FutureTimestamp)`
    /// where that lies above the last number that the region knows to be drawn, each as a read
    /// there was answered; and by `Refused` for want of memory. It stops by nothing else: never by
    /// `FutureTimestamp` at a timestamp that this client has drawn for a view, and never by a
    /// conflict or a lost reply.
    pub fn get(&mut self, key: &Key) -> Result<Option<Value>, Stop>
        ensures finds { IfOk result (λ found. Sees (table_of (shadow self.new.client.now.seats.resolves.events)).row
            key.now self.old.at found) }
        ensures err { IfErr result (IsViewStop self.new.client.now.seats.resolves.events
            (last self.old.client.now.seats.resolves.events) self.old.at) }
        ensures names { IfErr result (NamesKey key.now) }
        ensures begins { self.new.client.now.seats.begins ≡ self.old.client.now.seats.begins }
        ensures resolves { OnlySees self.old.client.now.seats.resolves self.new.client.now.seats.resolves }
        ensures same { (self.new.at ≡ self.old.at) × (self.new.client.ghost_name ≡ self.old.client.ghost_name) }
    {
        self.client.get_at(self.at, key)
    }

    /// The values of some keys, in their order: of each what `get` finds of it. It stops only by
    /// what `get` does, and then there are none.
    pub fn get_many(&mut self, keys: &[Key]) -> Result<Vec<Option<Value>>, Stop>
        ensures finds { IfOk result
            (λ found. SeesEach self.new.client.now.seats.resolves.events self.old.at keys.now found.items) }
        ensures err { IfErr result (IsViewStop self.new.client.now.seats.resolves.events
            (last self.old.client.now.seats.resolves.events) self.old.at) }
        ensures begins { self.new.client.now.seats.begins ≡ self.old.client.now.seats.begins }
        ensures resolves { OnlySees self.old.client.now.seats.resolves self.new.client.now.seats.resolves }
        ensures same { (self.new.at ≡ self.old.at) × (self.new.client.ghost_name ≡ self.old.client.ghost_name) }
    {
        self.client.get_many_at(self.at, keys)
    }

    /// The rows of a range, of any number: from a key, or from the least, and up to but not
    /// including another, or to the greatest. It stops only by what `get` does.
    pub fn range(&mut self, from: Option<Key>, to: Option<Key>) -> Result<Vec<KeyValue>, Stop>
        ensures finds { IfOk result
            (λ rows. SeesRange self.new.client.now.seats.resolves.events self.old.at from to rows.items) }
        ensures err { IfErr result (IsViewStop self.new.client.now.seats.resolves.events
            (last self.old.client.now.seats.resolves.events) self.old.at) }
        ensures begins { self.new.client.now.seats.begins ≡ self.old.client.now.seats.begins }
        ensures resolves { OnlySees self.old.client.now.seats.resolves self.new.client.now.seats.resolves }
        ensures same { (self.new.at ≡ self.old.at) × (self.new.client.ghost_name ≡ self.old.client.ghost_name) }
    {
        let range = KeyRange::new(self.alloc(), from, to)?;
        self.client.rows_at(self.at, &range)
    }

    /// The last `limit` rows of a range, told from its end: the last ones that `range` has, the
    /// last of them first. It asks for the whole range, page by page from its front, and drops the
    /// others: it costs what `range` does. It stops only by what `get` does.
    pub fn range_back(
        &mut self,
        from: Option<Key>,
        to: Option<Key>,
        limit: u32,
    ) -> Result<Vec<KeyValue>, Stop>
        ensures finds { IfOk result (λ rows. SeesLast self.new.client.now.seats.resolves.events self.old.at
            from to limit rows.items) }
        ensures err { IfErr result (IsViewStop self.new.client.now.seats.resolves.events
            (last self.old.client.now.seats.resolves.events) self.old.at) }
        ensures begins { self.new.client.now.seats.begins ≡ self.old.client.now.seats.begins }
        ensures resolves { OnlySees self.old.client.now.seats.resolves self.new.client.now.seats.resolves }
        ensures same { (self.new.at ≡ self.old.at) × (self.new.client.ghost_name ≡ self.old.client.ghost_name) }
    {
        let rows = self.range(from, to)?;
        Ok(last_of(rows, limit))
    }

    /// The rows of the keys that begin with these bytes, as `range` has them: those of
    /// `KeyRange::prefix`. `Refused(KeyLength)` for no or more than 512 bytes; else it stops only
    /// by what `get` does.
    ///
    /// ```
    /// let items = view.range_prefix(b"item/")?;
    /// ```
    pub fn range_prefix(&mut self, bytes: &[u8]) -> Result<Vec<KeyValue>, Stop>
        ensures finds { IfOk result (λ rows. SeesRange self.new.client.now.seats.resolves.events self.old.at
            (Some bytes.now) (after_prefix bytes.now) rows.items) }
        ensures err { IfErr result (λ s. IsViewStop self.new.client.now.seats.resolves.events
            (last self.old.client.now.seats.resolves.events) self.old.at s
            ⊎ ((s ≡ stop.Refused fault.KeyLength) × (is_key bytes.now ≡ false))) }
        ensures begins { self.new.client.now.seats.begins ≡ self.old.client.now.seats.begins }
        ensures resolves { OnlySees self.old.client.now.seats.resolves self.new.client.now.seats.resolves }
        ensures same { (self.new.at ≡ self.old.at) × (self.new.client.ghost_name ≡ self.old.client.ghost_name) }
    {
        let range = KeyRange::prefix(self.alloc(), bytes)?;
        self.client.rows_at(self.at, &range)
    }

    /// The first rows of a range, `limit` at most where its end is given, and what is left of it,
    /// which begins above where the range does; none where they are all. A page may have fewer
    /// where a region ends. Page by page, each of the rest of the one before, they are those of
    /// `range`. It stops only by what `get` does.
    ///
    /// ```
    /// let page = view.page(range, 100)?;
    /// ```
    pub fn page(&mut self, range: KeyRange, limit: u32) -> Result<Page, Stop>
        ensures finds { IfOk result (λ page. SeesRange self.new.client.now.seats.resolves.events self.old.at
            (Some range.from) (end_of_page range page.rest) page.rows.items) }
        ensures rest { IfOk result (λ page. IsRestOf range page.rest) }
        ensures err { IfErr result (IsViewStop self.new.client.now.seats.resolves.events
            (last self.old.client.now.seats.resolves.events) self.old.at) }
        ensures begins { self.new.client.now.seats.begins ≡ self.old.client.now.seats.begins }
        ensures resolves { OnlySees self.old.client.now.seats.resolves self.new.client.now.seats.resolves }
        ensures same { (self.new.at ≡ self.old.at) × (self.new.client.ghost_name ≡ self.old.client.ghost_name) }
    {
        self.client.page_at(self.at, range, limit)
    }

    /// How much a range holds: the number of the rows that `range` has, and the bytes of their keys
    /// and values together. It counts them page by page, of 1,024 rows at most, and keeps none. It
    /// stops only by what `get` does.
    ///
    /// ```
    /// let Size { keys, bytes } = view.size(None, None)?;
    /// ```
    pub fn size(&mut self, from: Option<Key>, to: Option<Key>) -> Result<Size, Stop>
        ensures finds { IfOk result (HasSize self.new.client.now.seats.resolves.events self.old.at from to) }
        ensures err { IfErr result (IsViewStop self.new.client.now.seats.resolves.events
            (last self.old.client.now.seats.resolves.events) self.old.at) }
        ensures begins { self.new.client.now.seats.begins ≡ self.old.client.now.seats.begins }
        ensures resolves { OnlySees self.old.client.now.seats.resolves self.new.client.now.seats.resolves }
        ensures same { (self.new.at ≡ self.old.at) × (self.new.client.ghost_name ≡ self.old.client.ghost_name) }
    {
        let range = KeyRange::new(self.alloc(), from, to)?;
        self.client.size_at(self.at, &range)
    }
}
