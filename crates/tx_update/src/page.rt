//! A page of a range at the start of a transaction that is lent.
ghost use Rattle.std.specs.Prelude.{◌≡◌, ◌<◌, IfOk, IfErr, IsTrue, Some};
ghost use Rattle.tx_types.specs.Keys.{key_lt};
ghost use Rattle.tx_core.specs.Histories.{Begins};
ghost use Rattle.tx_laws.specs.Rows.{AreRowsOf};
ghost use Rattle.tx_update.specs.Ranges.{IsRestOf, end_of_page, is_in_range};
ghost use Rattle.tx_update.specs.Reads.{Beneath, FindsRange, LosesRead};
ghost use Rattle.tx_update.specs.Stops.{IsReadStop};

use crate::lent::Lent;
use crate::rows::{KeyRange, Page, greatest};
use crate::session::Begun;
use crate::stops::Stop;
use tx_journal::{JournalId, Reply, Request, Sender};
use tx_types::{Key, KeyValue};

// How many rows are asked for, where so many are wanted: one more, at which the next page begins.
fn asked_for(limit: u32) -> u32
    ensures { 0 < result }
{
    limit.saturating_add(1).max(2)
}

impl<'a, J: JournalId, S: Sender<Request<J>, Reply<J>>, B: Begun> Lent<'a, J, S, B> {
    // A page that goes up to a key, which is not the end of its range.
    fn part(&self, rows: Vec<KeyValue>, range: KeyRange, upto: Key) -> Result<Page, Stop>
        requires beneath { AreRowsOf (is_in_range (Some range.from) (Some upto))
            (Beneath self.now.running.state.buffer self.now.running.seat.events B.session.state.start) rows.items }
        requires above { IsTrue (key_lt range.from upto) }
        ensures finds { IfOk result (λ page. FindsRange self.now.running.state.buffer self.now.running.seat.events
            B.session.state.start (Some range.from) (end_of_page range page.rest) page.rows.items) }
        ensures rest { IfOk result (λ page. IsRestOf range page.rest) }
        ensures err { IfErr result (IsReadStop (LosesRead S.sends) self.now.running.seat.events B.session.state.start) }
    {
        let KeyRange { from, to } = range;
        let part = KeyRange {
            from,
            to: Some(upto.clone()?),
        };
        let rows = self.with_entered(rows, &part)?;
        let rest = Some(KeyRange { from: upto, to });
        Ok(Page { rows, rest })
    }

    // All rows of a range.
    fn whole(&mut self, range: KeyRange) -> Result<Page, Stop>
        ensures same { self.new.running.state.buffer ≡ self.old.running.state.buffer }
        ensures more { Begins self.old.running.seat.events self.new.running.seat.events }
        ensures finds { IfOk result (λ page. FindsRange self.old.running.state.buffer self.new.running.seat.events
            B.session.state.start (Some range.from) (end_of_page range page.rest) page.rows.items) }
        ensures rest { IfOk result (λ page. IsRestOf range page.rest) }
        ensures err { IfErr result (IsReadStop (LosesRead S.sends) self.new.running.seat.events B.session.state.start) }
    {
        let rows = self.rows_in(&range)?;
        let rows = self.with_entered(rows, &range)?;
        Ok(Page { rows, rest: None })
    }

    /// The first rows of a range, about so many, and what is left of it.
    pub(crate) fn page_of(&mut self, range: KeyRange, limit: u32) -> Result<Page, Stop>
        ensures same { self.new.running.state.buffer ≡ self.old.running.state.buffer }
        ensures more { Begins self.old.running.seat.events self.new.running.seat.events }
        ensures finds { IfOk result (λ page. FindsRange self.old.running.state.buffer self.new.running.seat.events
            B.session.state.start (Some range.from) (end_of_page range page.rest) page.rows.items) }
        ensures rest { IfOk result (λ page. IsRestOf range page.rest) }
        ensures err { IfErr result (IsReadStop (LosesRead S.sends) self.new.running.seat.events B.session.state.start) }
    {
        let end = match &range.to {
            Some(to) => to.clone()?,
            None => greatest(self.running.alloc())?,
        };
        if range.from >= end {
            return self.whole(range);
        }
        let (rows, upto) = self.first_rows(&range.from, &end, asked_for(limit))?;
        if range.from < upto && upto < end {
            return self.part(rows, range, upto);
        }
        if range.to.is_some() && upto == end {
            let rows = self.with_entered(rows, &range)?;
            return Ok(Page { rows, rest: None });
        }
        self.whole(range)
    }
}
