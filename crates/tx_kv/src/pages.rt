//! A page of a range at a timestamp.
ghost use Rattle.std.specs.Prelude.{◌≡◌, ◌<◌, IfOk, IfErr, IsTrue, Some};
ghost use Rattle.tx_types.specs.Keys.{key_lt};
ghost use Rattle.tx_core.specs.Histories.{last};
ghost use Rattle.tx_journal.specs.Senders.{IsSender, LosesNothing};
ghost use Rattle.tx_reader.specs.Readers.{OnlySees};
ghost use Rattle.tx_update.specs.Ranges.{IsRestOf, end_of_page};
ghost use Rattle.tx_kv.specs.Views.{IsViewStop, SeesRange};

use crate::ranges::{page, rows_of};
use std::alloc::Global;
use tx_journal::{JournalId, Reply, Request, Sender};
use tx_reader::Reader;
use tx_types::{Key, KeyValue};
use tx_update::{KeyRange, Page, Stop, greatest, split_page};

// How many rows are asked for, where so many are wanted: one more, at which the next page begins.
fn asked_for(limit: u32) -> u32
    ensures { 0 < result }
{
    limit.saturating_add(1).max(2)
}

// The first rows from a key up to but not including another above it, fewer than so many, and up to
// where they go.
fn first_rows<J: JournalId, S: Sender<Request<J>, Reply<J>>>(
    reader: &mut Reader<J>,
    from: &Key,
    to: &Key,
    limit: u32,
    sender: &mut S,
) -> Result<(Vec<KeyValue>, Key), Stop>
    requires way { IsSender J.bounds S.fits S.sends S.keys_between }
    requires lossless { LosesNothing S.sends }
    requires below { IsTrue (key_lt from.now to.now) }
    requires some { 0 < limit }
    ensures at { reader.new.at ≡ reader.old.at }
    ensures seat { OnlySees reader.old.seat reader.new.seat }
    ensures finds { IfOk result
        (λ r. SeesRange reader.new.seat.events reader.old.at (Some from.now) (Some r.1) r.0.items) }
    ensures err { IfErr result
        (IsViewStop reader.new.seat.events (last reader.old.seat.events) reader.old.at) }
{
    let part = page(reader, from, to, limit, sender)?;
    reader.know_run();
    Ok(split_page(part.0, limit, part.1))
}

// All rows of a range.
fn whole<J: JournalId, S: Sender<Request<J>, Reply<J>>>(
    alloc: Global,
    reader: &mut Reader<J>,
    range: KeyRange,
    sender: &mut S,
) -> Result<Page, Stop>
    requires way { IsSender J.bounds S.fits S.sends S.keys_between }
    requires lossless { LosesNothing S.sends }
    ensures at { reader.new.at ≡ reader.old.at }
    ensures seat { OnlySees reader.old.seat reader.new.seat }
    ensures finds { IfOk result (λ page. SeesRange reader.new.seat.events reader.old.at (Some range.from)
        (end_of_page range page.rest) page.rows.items) }
    ensures rest { IfOk result (λ page. IsRestOf range page.rest) }
    ensures err { IfErr result
        (IsViewStop reader.new.seat.events (last reader.old.seat.events) reader.old.at) }
{
    let rows = rows_of(alloc, reader, &range, sender)?;
    Ok(Page { rows, rest: None })
}

/// The first rows of a range, so many at most, and what is left of it.
pub(crate) fn page_of<J: JournalId, S: Sender<Request<J>, Reply<J>>>(
    alloc: Global,
    reader: &mut Reader<J>,
    range: KeyRange,
    limit: u32,
    sender: &mut S,
) -> Result<Page, Stop>
    requires way { IsSender J.bounds S.fits S.sends S.keys_between }
    requires lossless { LosesNothing S.sends }
    ensures at { reader.new.at ≡ reader.old.at }
    ensures seat { OnlySees reader.old.seat reader.new.seat }
    ensures finds { IfOk result (λ page. SeesRange reader.new.seat.events reader.old.at (Some range.from)
        (end_of_page range page.rest) page.rows.items) }
    ensures rest { IfOk result (λ page. IsRestOf range page.rest) }
    ensures err { IfErr result
        (IsViewStop reader.new.seat.events (last reader.old.seat.events) reader.old.at) }
{
    let end = match &range.to {
        Some(to) => to.clone()?,
        None => greatest(alloc)?,
    };
    if range.from >= end {
        return whole(alloc, reader, range, sender);
    }
    let (rows, upto) = first_rows(reader, &range.from, &end, asked_for(limit), sender)?;
    if range.from < upto && upto < end {
        let rest = KeyRange {
            from: upto,
            to: range.to,
        };
        return Ok(Page {
            rows,
            rest: Some(rest),
        });
    }
    if range.to.is_some() && upto == end {
        return Ok(Page { rows, rest: None });
    }
    whole(alloc, reader, range, sender)
}
