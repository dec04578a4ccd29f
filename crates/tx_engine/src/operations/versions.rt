//! What a region keeps of a key is shown: its lock, its write records and the values
//! that it keeps apart.
ghost use Rattle.tx_engine.specs.Slots.{Inspected};

use crate::operations::is_key;
use std::alloc::Global;
use tx_cells::Families;
use tx_journal::JournalId;
use tx_network::Network;
use tx_reply::ScriptReply;
use tx_types::Key;

/// What is kept of a key is shown. No event is made.
pub(crate) fn versions<J: JournalId, F: Families>(
    alloc: Global,
    network: &mut Network<J, F>,
    key: &str,
) -> ScriptReply
    ensures { Inspected J.bounds key.now result network.old network.new }
{
    if !is_key(key) {
        return ScriptReply::KeyLength;
    }
    let Ok(key) = Key::new(alloc, key.as_bytes()) else {
        return ScriptReply::OutOfMemory;
    };
    match network.show_key(&key) {
        Ok(copy) => ScriptReply::Versions(copy),
        Err(_) => ScriptReply::OutOfMemory,
    }
}
