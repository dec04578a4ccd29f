//! The rows of a range at the start of a transaction that is lent, page by page.
ghost use Rattle.std.specs.Prelude.{◌≡◌, ◌<◌, IsTrue, OnOk, OnErr, IfOk, IfErr, Some, None, ◌++◌};
ghost use Rattle.tx_types.specs.Keys.{is_between, key_lt};
ghost use Rattle.tx_core.specs.Histories.{Begins};
ghost use Rattle.tx_laws.specs.Rows.{AreRowsOf};
ghost use Rattle.tx_update.specs.Ranges.{IsSplit, is_in_range, row_of};
ghost use Rattle.tx_update.specs.Reads.{Beneath, FindsRange, LosesRead, SeesOn};
ghost use Rattle.tx_update.specs.Stops.{IsReadStop};

use crate::lent::Lent;
use crate::rows::{KeyRange, enter_over, greatest};
use crate::session::Begun;
use crate::stops::Stop;
use tx_journal::{JournalId, Reply, Request, Sender};
use tx_types::limits::MAX_SCAN_ROWS;
use tx_types::{Fault, Key, KeyValue, KeyValues, Value};

/// The rows of a page, of `limit` rows where it is full, of a range that goes up to `end`, and
/// where the next page begins: at the end, where this one is not full; else at its last row, which
/// is left for the next.
pub fn split_page(page: KeyValues, limit: u32, end: Key) -> (Vec<KeyValue>, Key)
    requires some { 0 < limit }
    ensures { IsSplit limit page end result.0.items result.1 }
{
    let mut rows = page.into_vec();
    if rows.len() < limit as usize {
        return (rows, end);
    }
    let Some(last) = rows.pop() else {
        unreachable!()
    };
    (rows, last.key)
}

/// Adds rows at the end. `OutOfMemory` leaves them as they were.
pub fn add_rows(rows: &mut Vec<KeyValue>, mut more: Vec<KeyValue>) -> Result<(), Fault>
    ensures ok { OnOk result (rows.new.items ≡ rows.old.items ++ more.items) }
    ensures same { OnErr result (rows.new.items ≡ rows.old.items) }
    ensures err { IfErr result (λ e. e ≡ Fault.OutOfMemory) }
{
    Ok(rows.append(&mut more)?)
}

/// Adds the row of a key at the end, where it has a value. `OutOfMemory` leaves the rows as they
/// were.
pub fn add_last(rows: &mut Vec<KeyValue>, key: Key, value: Option<Value>) -> Result<(), Fault>
    ensures ok { OnOk result (rows.new.items ≡ rows.old.items ++ row_of key value) }
    ensures same { OnErr result (rows.new.items ≡ rows.old.items) }
    ensures err { IfErr result (λ e. e ≡ Fault.OutOfMemory) }
{
    if let Some(value) = value {
        rows.push(KeyValue { key, value })?;
    }
    Ok(())
}

impl<'a, J: JournalId, S: Sender<Request<J>, Reply<J>>, B: Begun> Lent<'a, J, S, B> {
    // The rows from a key up to but not including another at the start, page by page.
    fn pages(&mut self, from: &Key, to: &Key) -> Result<Vec<KeyValue>, Stop>
        ensures same { self.new.running.state.buffer ≡ self.old.running.state.buffer }
        ensures more { Begins self.old.running.seat.events self.new.running.seat.events }
        ensures finds { IfOk result (λ rows. AreRowsOf (is_between from.now to.now)
            (SeesOn J.bounds self.new.running.seat.events B.session.state.start) rows.items) }
        ensures err { IfErr result (IsReadStop (LosesRead S.sends) self.new.running.seat.events B.session.state.start) }
    {
        let mut rows = Vec::new(self.running.alloc());
        let mut next = from.clone()?;
        for _ in 0..u32::MAX {
            if next >= *to {
                return Ok(rows);
            }
            let page = self.look_for(&next, to, MAX_SCAN_ROWS)?;
            let (more, upto) = split_page(page, MAX_SCAN_ROWS, to.clone()?);
            add_rows(&mut rows, more)?;
            next = upto;
        }
        Err(Stop::Refused(Fault::OutOfMemory))
    }

    // The rows from a key up to but not including another at the start, over which what was entered
    // is still to be entered.
    fn rows_upto(&mut self, from: &Key, to: &Key) -> Result<Vec<KeyValue>, Stop>
        ensures same { self.new.running.state.buffer ≡ self.old.running.state.buffer }
        ensures more { Begins self.old.running.seat.events self.new.running.seat.events }
        ensures finds { IfOk result (λ rows. AreRowsOf (is_in_range (Some from.now) (Some to.now))
            (Beneath self.old.running.state.buffer self.new.running.seat.events B.session.state.start) rows.items) }
        ensures err { IfErr result (IsReadStop (LosesRead S.sends) self.new.running.seat.events B.session.state.start) }
    {
        let rows = self.pages(from, to)?;
        self.running.know_run();
        Ok(rows)
    }

    // The same from a key on: the rows up to the greatest key, and its own.
    fn rows_from(&mut self, from: &Key) -> Result<Vec<KeyValue>, Stop>
        ensures same { self.new.running.state.buffer ≡ self.old.running.state.buffer }
        ensures more { Begins self.old.running.seat.events self.new.running.seat.events }
        ensures finds { IfOk result (λ rows. AreRowsOf (is_in_range (Some from.now) None)
            (Beneath self.old.running.state.buffer self.new.running.seat.events B.session.state.start) rows.items) }
        ensures err { IfErr result (IsReadStop (LosesRead S.sends) self.new.running.seat.events B.session.state.start) }
    {
        let top = greatest(self.running.alloc())?;
        let mut rows = self.pages(from, &top)?;
        if top < *from {
            return Ok(rows);
        }
        let found = self.find(&top)?;
        self.running.know_run();
        add_last(&mut rows, top, found)?;
        Ok(rows)
    }

    /// The first rows from a key up to but not including another above it at the start, fewer than
    /// so many of them, over which what was entered is still to be entered, and up to where they
    /// go.
    pub(crate) fn first_rows(
        &mut self,
        from: &Key,
        to: &Key,
        limit: u32,
    ) -> Result<(Vec<KeyValue>, Key), Stop>
        requires below { IsTrue (key_lt from.now to.now) }
        requires some { 0 < limit }
        ensures same { self.new.running.state.buffer ≡ self.old.running.state.buffer }
        ensures more { Begins self.old.running.seat.events self.new.running.seat.events }
        ensures finds { IfOk result (λ r. AreRowsOf (is_in_range (Some from.now) (Some r.1))
            (Beneath self.old.running.state.buffer self.new.running.seat.events B.session.state.start) r.0.items) }
        ensures err { IfErr result (IsReadStop (LosesRead S.sends) self.new.running.seat.events B.session.state.start) }
    {
        let page = self.look_for(from, to, limit)?;
        let end = to.clone()?;
        self.running.know_run();
        Ok(split_page(page, limit, end))
    }

    /// The rows of a range with what was entered over them.
    pub(crate) fn with_entered(
        &self,
        mut rows: Vec<KeyValue>,
        range: &KeyRange,
    ) -> Result<Vec<KeyValue>, Stop>
        requires beneath { AreRowsOf (is_in_range (Some range.now.from) range.now.to)
            (Beneath self.now.running.state.buffer self.now.running.seat.events B.session.state.start) rows.items }
        ensures finds { IfOk result (λ all. FindsRange self.now.running.state.buffer self.now.running.seat.events
            B.session.state.start (Some range.now.from) range.now.to all.items) }
        ensures err { IfErr result (IsReadStop (LosesRead S.sends) self.now.running.seat.events B.session.state.start) }
    {
        let changes = self.running.entered()?;
        enter_over(&mut rows, changes.as_slice(), range)?;
        Ok(rows)
    }

    /// The rows of a range at the start, over which what was entered is still to be entered.
    pub(crate) fn rows_in(&mut self, range: &KeyRange) -> Result<Vec<KeyValue>, Stop>
        ensures same { self.new.running.state.buffer ≡ self.old.running.state.buffer }
        ensures more { Begins self.old.running.seat.events self.new.running.seat.events }
        ensures finds { IfOk result (λ rows. AreRowsOf (is_in_range (Some range.now.from) range.now.to)
            (Beneath self.old.running.state.buffer self.new.running.seat.events B.session.state.start) rows.items) }
        ensures err { IfErr result (IsReadStop (LosesRead S.sends) self.new.running.seat.events B.session.state.start) }
    {
        match &range.to {
            Some(to) => self.rows_upto(&range.from, to),
            None => self.rows_from(&range.from),
        }
    }
}
