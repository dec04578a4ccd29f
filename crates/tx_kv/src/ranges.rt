//! The rows of a range at a timestamp, page by page, each of one region.
ghost use Rattle.std.specs.Prelude.{◌≡◌, IfOk, IfErr, IsTrue, Some, None};
ghost use Rattle.tx_types.specs.Keys.{is_between, is_scanned, key_le, key_lt};
ghost use Rattle.tx_core.specs.Histories.{last};
ghost use Rattle.tx_journal.specs.Senders.{IsSender, LosesNothing};
ghost use Rattle.tx_reader.specs.Readers.{OnlySees};
ghost use Rattle.tx_laws.specs.Rows.{AreRowsOf};
ghost use Rattle.tx_update.specs.Reads.{SeesOn};
ghost use Rattle.tx_kv.specs.Views.{IsViewStop, SeesRange};

use crate::read_result::{found_in, rows_in};
use std::alloc::Global;
use tx_journal::{JournalId, Reply, Request, Sender};
use tx_reader::{Reader, end_of_part};
use tx_types::limits::MAX_SCAN_ROWS;
use tx_types::{Fault, Key, KeyValue, KeyValues};
use tx_update::{KeyRange, Stop, add_last, add_rows, greatest, split_page};

/// The first rows, so many at most, of a range that lie in the region of its first key, and up to
/// where that looked.
pub(crate) fn page<J: JournalId, S: Sender<Request<J>, Reply<J>>>(
    reader: &mut Reader<J>,
    from: &Key,
    to: &Key,
    limit: u32,
    sender: &mut S,
) -> Result<(KeyValues, Key), Stop>
    requires way { IsSender J.bounds S.fits S.sends S.keys_between }
    requires lossless { LosesNothing S.sends }
    ensures at { reader.new.at ≡ reader.old.at }
    ensures seat { OnlySees reader.old.seat reader.new.seat }
    ensures upto { IfOk result (λ r. IsTrue (key_le r.1 to.now)) }
    ensures some { IfOk result (λ r. IsTrue (key_lt from.now to.now) → IsTrue (key_lt from.now r.1)) }
    ensures finds { IfOk result (λ r. AreRowsOf (is_scanned from.now r.1 limit r.0)
        (SeesOn J.bounds reader.new.seat.events reader.old.at) r.0) }
    ensures err { IfErr result
        (IsViewStop reader.new.seat.events (last reader.old.seat.events) reader.old.at) }
{
    let end = end_of_part(sender.bounds(), from, to).clone()?;
    let answered = reader.scan(from, &end, limit, sender);
    // For proofs: what the seat has seen is a world run.
    reader.know_run();
    let rows = rows_in(answered)?;
    Ok((rows, end))
}

// The rows from a key up to but not including another, page by page.
fn pages<J: JournalId, S: Sender<Request<J>, Reply<J>>>(
    alloc: Global,
    reader: &mut Reader<J>,
    from: &Key,
    to: &Key,
    sender: &mut S,
) -> Result<Vec<KeyValue>, Stop>
    requires way { IsSender J.bounds S.fits S.sends S.keys_between }
    requires lossless { LosesNothing S.sends }
    ensures at { reader.new.at ≡ reader.old.at }
    ensures seat { OnlySees reader.old.seat reader.new.seat }
    ensures finds { IfOk result (λ rows. AreRowsOf (is_between from.now to.now)
        (SeesOn J.bounds reader.new.seat.events reader.old.at) rows.items) }
    ensures err { IfErr result
        (IsViewStop reader.new.seat.events (last reader.old.seat.events) reader.old.at) }
{
    let mut rows = Vec::new(alloc);
    let mut next = from.clone()?;
    for _ in 0..u32::MAX {
        if next >= *to {
            return Ok(rows);
        }
        let part = page(reader, &next, to, MAX_SCAN_ROWS, sender)?;
        let (more, upto) = split_page(part.0, MAX_SCAN_ROWS, part.1);
        add_rows(&mut rows, more)?;
        next = upto;
    }
    Err(Stop::Refused(Fault::OutOfMemory))
}

// The rows from a key up to but not including another.
fn rows_upto<J: JournalId, S: Sender<Request<J>, Reply<J>>>(
    alloc: Global,
    reader: &mut Reader<J>,
    from: &Key,
    to: &Key,
    sender: &mut S,
) -> Result<Vec<KeyValue>, Stop>
    requires way { IsSender J.bounds S.fits S.sends S.keys_between }
    requires lossless { LosesNothing S.sends }
    ensures at { reader.new.at ≡ reader.old.at }
    ensures seat { OnlySees reader.old.seat reader.new.seat }
    ensures finds { IfOk result
        (λ rows. SeesRange reader.new.seat.events reader.old.at (Some from.now) (Some to.now) rows.items) }
    ensures err { IfErr result
        (IsViewStop reader.new.seat.events (last reader.old.seat.events) reader.old.at) }
{
    let rows = pages(alloc, reader, from, to, sender)?;
    reader.know_run();
    Ok(rows)
}

// The rows from a key on: those up to the greatest key, and its own.
fn rows_from<J: JournalId, S: Sender<Request<J>, Reply<J>>>(
    alloc: Global,
    reader: &mut Reader<J>,
    from: &Key,
    sender: &mut S,
) -> Result<Vec<KeyValue>, Stop>
    requires way { IsSender J.bounds S.fits S.sends S.keys_between }
    requires lossless { LosesNothing S.sends }
    ensures at { reader.new.at ≡ reader.old.at }
    ensures seat { OnlySees reader.old.seat reader.new.seat }
    ensures finds { IfOk result
        (λ rows. SeesRange reader.new.seat.events reader.old.at (Some from.now) None rows.items) }
    ensures err { IfErr result
        (IsViewStop reader.new.seat.events (last reader.old.seat.events) reader.old.at) }
{
    let top = greatest(alloc)?;
    let mut rows = pages(alloc, reader, from, &top, sender)?;
    if top < *from {
        return Ok(rows);
    }
    let answered = reader.get(&top, sender);
    reader.know_run();
    let found = found_in(answered)?;
    add_last(&mut rows, top, found)?;
    Ok(rows)
}

/// The rows of a range.
pub(crate) fn rows_of<J: JournalId, S: Sender<Request<J>, Reply<J>>>(
    alloc: Global,
    reader: &mut Reader<J>,
    range: &KeyRange,
    sender: &mut S,
) -> Result<Vec<KeyValue>, Stop>
    requires way { IsSender J.bounds S.fits S.sends S.keys_between }
    requires lossless { LosesNothing S.sends }
    ensures at { reader.new.at ≡ reader.old.at }
    ensures seat { OnlySees reader.old.seat reader.new.seat }
    ensures finds { IfOk result
        (λ rows. SeesRange reader.new.seat.events reader.old.at (Some range.now.from) range.now.to rows.items) }
    ensures err { IfErr result
        (IsViewStop reader.new.seat.events (last reader.old.seat.events) reader.old.at) }
{
    match &range.to {
        Some(to) => rows_upto(alloc, reader, &range.from, to, sender),
        None => rows_from(alloc, reader, &range.from, sender),
    }
}
