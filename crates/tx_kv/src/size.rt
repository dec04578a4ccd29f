//! How much a range holds at a timestamp, counted page by page.
ghost use Rattle.std.specs.Prelude.{◌≡◌, ◌++◌, ◌∷◌, [], List, IfOk, IfErr, Some, None};
ghost use Rattle.tx_types.specs.declared.mutation.KeyValue.{KeyValue as Row};
ghost use Rattle.tx_types.specs.Keys.{is_between};
ghost use Rattle.tx_core.specs.Histories.{last};
ghost use Rattle.tx_journal.specs.Senders.{IsSender, LosesNothing};
ghost use Rattle.tx_reader.specs.Readers.{OnlySees};
ghost use Rattle.tx_update.specs.Ranges.{row_of, row_with};
ghost use Rattle.tx_update.specs.Reads.{SeesOn};
ghost use Rattle.tx_kv.specs.Sizes.{HasSize, IsSizeOf, size_of};
ghost use Rattle.tx_kv.specs.Views.{IsViewStop};

use crate::ranges::page;
use crate::read_result::found_in;
use std::alloc::Global;
use tx_journal::{JournalId, Reply, Request, Sender};
use tx_reader::Reader;
use tx_types::limits::MAX_SCAN_ROWS;
use tx_types::{Fault, Key, KeyValue, Value};
use tx_update::{KeyRange, Stop, greatest, split_page};

/// How much a range holds: how many of its keys have a value, and how many bytes these keys and
/// their values have together. A number stops at 2^64 - 1.
#[derive(Clone, Copy, Debug, PartialEq, Eq)]
pub struct Size {
    pub keys: u64,
    pub bytes: u64,
}

impl Size {
    // That of no rows.
    fn zero() -> Size
        ensures { result ≡ size_of [] }
    {
        Size { keys: 0, bytes: 0 }
    }

    // With the row of a key and its value.
    fn with_row(self, key: &Key, value: &Value) -> Size
        ensures { (rows : List Row) → self ≡ size_of rows
            → result ≡ size_of (rows ++ row_with key.now value.now ∷ []) }
    {
        let bytes = self.bytes.saturating_add(key.as_bytes().len() as u64);
        Size {
            keys: self.keys.saturating_add(1),
            bytes: bytes.saturating_add(value.as_bytes().len() as u64),
        }
    }

    // With the row of a key, where it has a value.
    fn with_found(self, key: &Key, found: Option<Value>) -> Size
        ensures { (rows : List Row) → self ≡ size_of rows → result ≡ size_of (rows ++ row_of key.now found) }
    {
        match found {
            Some(value) => self.with_row(key, &value),
            None => self,
        }
    }

    // With these rows.
    fn with_rows(self, rows: &[KeyValue]) -> Size
        ensures { (before : List Row) → self ≡ size_of before → result ≡ size_of (before ++ rows.now) }
    {
        let mut size = self;
        for row in rows {
            size = size.with_row(&row.key, &row.value);
        }
        size
    }
}

// The size of the rows from a key up to but not including another.
fn size_between<J: JournalId, S: Sender<Request<J>, Reply<J>>>(
    reader: &mut Reader<J>,
    from: &Key,
    to: &Key,
    sender: &mut S,
) -> Result<Size, Stop>
    requires way { IsSender J.bounds S.fits S.sends S.keys_between }
    requires lossless { LosesNothing S.sends }
    ensures at { reader.new.at ≡ reader.old.at }
    ensures seat { OnlySees reader.old.seat reader.new.seat }
    ensures finds { IfOk result (IsSizeOf (is_between from.now to.now)
        (SeesOn J.bounds reader.new.seat.events reader.old.at)) }
    ensures err { IfErr result
        (IsViewStop reader.new.seat.events (last reader.old.seat.events) reader.old.at) }
{
    let mut size = Size::zero();
    let mut next = from.clone()?;
    for _ in 0..u32::MAX {
        if next >= *to {
            return Ok(size);
        }
        let part = page(reader, &next, to, MAX_SCAN_ROWS, sender)?;
        let (more, upto) = split_page(part.0, MAX_SCAN_ROWS, part.1);
        size = size.with_rows(more.as_slice());
        next = upto;
    }
    Err(Stop::Refused(Fault::OutOfMemory))
}

// The size of the rows from a key up to but not including another, as they are now.
fn size_upto<J: JournalId, S: Sender<Request<J>, Reply<J>>>(
    reader: &mut Reader<J>,
    from: &Key,
    to: &Key,
    sender: &mut S,
) -> Result<Size, Stop>
    requires way { IsSender J.bounds S.fits S.sends S.keys_between }
    requires lossless { LosesNothing S.sends }
    ensures at { reader.new.at ≡ reader.old.at }
    ensures seat { OnlySees reader.old.seat reader.new.seat }
    ensures finds { IfOk result (HasSize reader.new.seat.events reader.old.at (Some from.now) (Some to.now)) }
    ensures err { IfErr result
        (IsViewStop reader.new.seat.events (last reader.old.seat.events) reader.old.at) }
{
    let size = size_between(reader, from, to, sender)?;
    // For proofs: what the seat has seen is a world run.
    reader.know_run();
    Ok(size)
}

// The size of the rows from a key on: of those up to the greatest key, and of its own.
fn size_from<J: JournalId, S: Sender<Request<J>, Reply<J>>>(
    alloc: Global,
    reader: &mut Reader<J>,
    from: &Key,
    sender: &mut S,
) -> Result<Size, Stop>
    requires way { IsSender J.bounds S.fits S.sends S.keys_between }
    requires lossless { LosesNothing S.sends }
    ensures at { reader.new.at ≡ reader.old.at }
    ensures seat { OnlySees reader.old.seat reader.new.seat }
    ensures finds { IfOk result (HasSize reader.new.seat.events reader.old.at (Some from.now) None) }
    ensures err { IfErr result
        (IsViewStop reader.new.seat.events (last reader.old.seat.events) reader.old.at) }
{
    let top = greatest(alloc)?;
    let size = size_between(reader, from, &top, sender)?;
    if top < *from {
        return Ok(size);
    }
    let answered = reader.get(&top, sender);
    reader.know_run();
    let found = found_in(answered)?;
    Ok(size.with_found(&top, found))
}

/// The size of a range.
pub(crate) fn size_of<J: JournalId, S: Sender<Request<J>, Reply<J>>>(
    alloc: Global,
    reader: &mut Reader<J>,
    range: &KeyRange,
    sender: &mut S,
) -> Result<Size, Stop>
    requires way { IsSender J.bounds S.fits S.sends S.keys_between }
    requires lossless { LosesNothing S.sends }
    ensures at { reader.new.at ≡ reader.old.at }
    ensures seat { OnlySees reader.old.seat reader.new.seat }
    ensures finds { IfOk result
        (HasSize reader.new.seat.events reader.old.at (Some range.now.from) range.now.to) }
    ensures err { IfErr result
        (IsViewStop reader.new.seat.events (last reader.old.seat.events) reader.old.at) }
{
    match &range.to {
        Some(to) => size_upto(reader, &range.from, to, sender),
        None => size_from(alloc, reader, &range.from, sender),
    }
}
