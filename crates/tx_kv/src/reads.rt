//! Reads of a client at a timestamp.
ghost use Rattle.std.specs.Prelude.{◌≡◌, IfOk, IfErr, Some};
ghost use Rattle.tx_machine.specs.Machine.{Sees, table_of};
ghost use Rattle.tx_core.specs.Histories.{last};
ghost use Rattle.tx_core.specs.Shadow.{shadow};
ghost use Rattle.tx_journal.specs.Known.{HasDrawn};
ghost use Rattle.tx_reader.specs.Readers.{OnlySees};
ghost use Rattle.tx_update.specs.Ranges.{IsRestOf, end_of_page};
ghost use Rattle.tx_update.specs.Stops.{NamesKey};
ghost use Rattle.tx_kv.specs.Clients.{KeepsTerms};
ghost use Rattle.tx_kv.specs.Sizes.{HasSize};
ghost use Rattle.tx_kv.specs.Views.{IsViewStop, SeesEach, SeesRange};

use crate::client::Client;
use crate::many::{found_all, found_at};
use crate::pages::page_of;
use crate::ranges::rows_of;
use crate::size::{Size, size_of};
use std::sync::Wait;
use tx_journal::JournalId;
use tx_reader::Reader;
use tx_store::Wire;
use tx_types::{Fault, Key, KeyValue, Ts, Value};
use tx_update::{KeyRange, Page, Seats, Stop};

impl<'a, J: JournalId, R: Wait> Client<'a, J, R> {
    /// A timestamp that is drawn for reads: what was committed before is seen there, and what is
    /// read there stays. `OracleSpent` where the client has drawn 2^32 ticks.
    ///
    /// ```
    /// let half = client.timestamp().ok()?;
    /// ```
    pub fn timestamp(&mut self) -> Result<Ts, Fault>
        ensures drawn { IfOk result (λ at. HasDrawn J.bounds self.old.seats.resolves.seat
            self.old.seats.resolves.events 1 at self.new.seats.resolves.events) }
        ensures err { IfErr result (λ e. e ≡ Fault.OracleSpent) }
        ensures begins { self.new.seats.begins ≡ self.old.seats.begins }
        ensures terms { KeepsTerms self.old self.new }
    {
        let drawn = self.draw_entered();
        self.leave();
        drawn
    }

    /// The same, of a client that reads there until it leaves.
    pub(crate) fn draw_entered(&mut self) -> Result<Ts, Fault>
        ensures drawn { IfOk result (λ at. HasDrawn J.bounds self.old.seats.resolves.seat
            self.old.seats.resolves.events 1 at self.new.seats.resolves.events) }
        ensures err { IfErr result (λ e. e ≡ Fault.OracleSpent) }
        ensures begins { self.new.seats.begins ≡ self.old.seats.begins }
        ensures terms { KeepsTerms self.old self.new }
    {
        let Some(
            Seats {
                begins,
                mut resolves,
            },
        ) = self.seats.take()
        else {
            unreachable!()
        };
        let drawn = self.live.draw(self.number, &mut resolves);
        self.seats = Some(Seats { begins, resolves });
        drawn
    }

    /// The value of a key at a timestamp.
    pub(crate) fn get_at(&mut self, at: Ts, key: &Key) -> Result<Option<Value>, Stop>
        ensures finds { IfOk result
            (λ found. Sees (table_of (shadow self.new.seats.resolves.events)).row key.now at found) }
        ensures err { IfErr result
            (IsViewStop self.new.seats.resolves.events (last self.old.seats.resolves.events) at) }
        ensures names { IfErr result (NamesKey key.now) }
        ensures begins { self.new.seats.begins ≡ self.old.seats.begins }
        ensures resolves { OnlySees self.old.seats.resolves self.new.seats.resolves }
        ensures terms { KeepsTerms self.old self.new }
    {
        let Some(Seats { begins, resolves }) = self.seats.take() else {
            unreachable!()
        };
        let mut wire = Wire::new(self.rt, self.store);
        let mut reader = Reader::new(self.alloc, resolves, at);
        let found = found_at(&mut reader, key, &mut wire);
        let resolves = reader.into_seat();
        self.seats = Some(Seats { begins, resolves });
        found
    }

    /// The values of some keys at a timestamp.
    pub(crate) fn get_many_at(&mut self, at: Ts, keys: &[Key]) -> Result<Vec<Option<Value>>, Stop>
        ensures finds { IfOk result
            (λ found. SeesEach self.new.seats.resolves.events at keys.now found.items) }
        ensures err { IfErr result
            (IsViewStop self.new.seats.resolves.events (last self.old.seats.resolves.events) at) }
        ensures begins { self.new.seats.begins ≡ self.old.seats.begins }
        ensures resolves { OnlySees self.old.seats.resolves self.new.seats.resolves }
        ensures terms { KeepsTerms self.old self.new }
    {
        let Some(Seats { begins, resolves }) = self.seats.take() else {
            unreachable!()
        };
        let mut wire = Wire::new(self.rt, self.store);
        let mut reader = Reader::new(self.alloc, resolves, at);
        let found = found_all(self.alloc, &mut reader, keys, &mut wire);
        let resolves = reader.into_seat();
        self.seats = Some(Seats { begins, resolves });
        found
    }

    /// The first rows of a range at a timestamp, so many at most, and what is left of it.
    pub(crate) fn page_at(&mut self, at: Ts, range: KeyRange, limit: u32) -> Result<Page, Stop>
        ensures finds { IfOk result (λ page. SeesRange self.new.seats.resolves.events at (Some range.from)
            (end_of_page range page.rest) page.rows.items) }
        ensures rest { IfOk result (λ page. IsRestOf range page.rest) }
        ensures err { IfErr result
            (IsViewStop self.new.seats.resolves.events (last self.old.seats.resolves.events) at) }
        ensures begins { self.new.seats.begins ≡ self.old.seats.begins }
        ensures resolves { OnlySees self.old.seats.resolves self.new.seats.resolves }
        ensures terms { KeepsTerms self.old self.new }
    {
        let Some(Seats { begins, resolves }) = self.seats.take() else {
            unreachable!()
        };
        let mut wire = Wire::new(self.rt, self.store);
        let mut reader = Reader::new(self.alloc, resolves, at);
        let page = page_of(self.alloc, &mut reader, range, limit, &mut wire);
        let resolves = reader.into_seat();
        self.seats = Some(Seats { begins, resolves });
        page
    }

    /// The rows of a range at a timestamp.
    pub(crate) fn rows_at(&mut self, at: Ts, range: &KeyRange) -> Result<Vec<KeyValue>, Stop>
        ensures finds { IfOk result
            (λ rows. SeesRange self.new.seats.resolves.events at (Some range.now.from) range.now.to rows.items) }
        ensures err { IfErr result
            (IsViewStop self.new.seats.resolves.events (last self.old.seats.resolves.events) at) }
        ensures begins { self.new.seats.begins ≡ self.old.seats.begins }
        ensures resolves { OnlySees self.old.seats.resolves self.new.seats.resolves }
        ensures terms { KeepsTerms self.old self.new }
    {
        let Some(Seats { begins, resolves }) = self.seats.take() else {
            unreachable!()
        };
        let mut wire = Wire::new(self.rt, self.store);
        let mut reader = Reader::new(self.alloc, resolves, at);
        let rows = rows_of(self.alloc, &mut reader, range, &mut wire);
        let resolves = reader.into_seat();
        self.seats = Some(Seats { begins, resolves });
        rows
    }

    /// How much a range holds at a timestamp.
    pub(crate) fn size_at(&mut self, at: Ts, range: &KeyRange) -> Result<Size, Stop>
        ensures finds { IfOk result
            (HasSize self.new.seats.resolves.events at (Some range.now.from) range.now.to) }
        ensures err { IfErr result
            (IsViewStop self.new.seats.resolves.events (last self.old.seats.resolves.events) at) }
        ensures begins { self.new.seats.begins ≡ self.old.seats.begins }
        ensures resolves { OnlySees self.old.seats.resolves self.new.seats.resolves }
        ensures terms { KeepsTerms self.old self.new }
    {
        let Some(Seats { begins, resolves }) = self.seats.take() else {
            unreachable!()
        };
        let mut wire = Wire::new(self.rt, self.store);
        let mut reader = Reader::new(self.alloc, resolves, at);
        let size = size_of(self.alloc, &mut reader, range, &mut wire);
        let resolves = reader.into_seat();
        self.seats = Some(Seats { begins, resolves });
        size
    }
}
