//! The values of some keys at a timestamp.
ghost use Rattle.std.specs.Prelude.{◌≡◌, IfOk, IfErr};
ghost use Rattle.tx_machine.specs.Machine.{Sees, table_of};
ghost use Rattle.tx_core.specs.Histories.{last};
ghost use Rattle.tx_core.specs.Shadow.{shadow};
ghost use Rattle.tx_journal.specs.Senders.{IsSender, LosesNothing};
ghost use Rattle.tx_reader.specs.Readers.{OnlySees};
ghost use Rattle.tx_update.specs.Reads.{SeesOn};
ghost use Rattle.tx_update.specs.Stops.{NamesKey};
ghost use Rattle.tx_kv.specs.Views.{IsViewStop, SeesEach, SeesEachOn};

use crate::read_result::found_in;
use std::alloc::Global;
use tx_journal::{JournalId, Reply, Request, Sender};
use tx_reader::Reader;
use tx_types::{Key, Value};
use tx_update::Stop;

/// The value of a key.
pub(crate) fn found_at<J: JournalId, S: Sender<Request<J>, Reply<J>>>(
    reader: &mut Reader<J>,
    key: &Key,
    sender: &mut S,
) -> Result<Option<Value>, Stop>
    requires way { IsSender J.bounds S.fits S.sends S.keys_between }
    requires lossless { LosesNothing S.sends }
    ensures at { reader.new.at ≡ reader.old.at }
    ensures seat { OnlySees reader.old.seat reader.new.seat }
    ensures finds { IfOk result (SeesOn J.bounds reader.new.seat.events reader.old.at key.now) }
    ensures sees { IfOk result
        (λ found. Sees (table_of (shadow reader.new.seat.events)).row key.now reader.old.at found) }
    ensures err { IfErr result
        (IsViewStop reader.new.seat.events (last reader.old.seat.events) reader.old.at) }
    ensures names { IfErr result (NamesKey key.now) }
{
    let answered = reader.get(key, sender);
    // For proofs: what the seat has seen is a world run.
    reader.know_run();
    found_in(answered)
}

// The values of these keys, in their order, in each world run from then on.
fn found_each<J: JournalId, S: Sender<Request<J>, Reply<J>>>(
    alloc: Global,
    reader: &mut Reader<J>,
    keys: &[Key],
    sender: &mut S,
) -> Result<Vec<Option<Value>>, Stop>
    requires way { IsSender J.bounds S.fits S.sends S.keys_between }
    requires lossless { LosesNothing S.sends }
    ensures at { reader.new.at ≡ reader.old.at }
    ensures seat { OnlySees reader.old.seat reader.new.seat }
    ensures finds { IfOk result
        (λ found. SeesEachOn J.bounds reader.new.seat.events reader.old.at keys.now found.items) }
    ensures err { IfErr result
        (IsViewStop reader.new.seat.events (last reader.old.seat.events) reader.old.at) }
{
    let mut found = Vec::new(alloc);
    for key in keys {
        let value = found_at(reader, key, sender)?;
        found.push(value)?;
    }
    Ok(found)
}

/// The values of these keys, in their order.
pub(crate) fn found_all<J: JournalId, S: Sender<Request<J>, Reply<J>>>(
    alloc: Global,
    reader: &mut Reader<J>,
    keys: &[Key],
    sender: &mut S,
) -> Result<Vec<Option<Value>>, Stop>
    requires way { IsSender J.bounds S.fits S.sends S.keys_between }
    requires lossless { LosesNothing S.sends }
    ensures at { reader.new.at ≡ reader.old.at }
    ensures seat { OnlySees reader.old.seat reader.new.seat }
    ensures finds { IfOk result (λ found. SeesEach reader.new.seat.events reader.old.at keys.now found.items) }
    ensures err { IfErr result
        (IsViewStop reader.new.seat.events (last reader.old.seat.events) reader.old.at) }
{
    let found = found_each(alloc, reader, keys, sender);
    // For proofs: what the seat has seen is a world run.
    reader.know_run();
    found
}
