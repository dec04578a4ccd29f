//! A held request is delivered: its region takes a copy of it, and its session hears
//! nothing of that.
ghost use Rattle.tx_engine.specs.Slots.{Delivered};

use tx_cells::Families;
use tx_journal::JournalId;
use tx_network::Network;
use tx_reply::ScriptReply;
use tx_types::Cause;

/// A copy of the request that is held under a name is taken, and the request stays held. `Name`
/// where none is held under it.
pub(crate) fn deliver<J: JournalId, F: Families>(
    network: &mut Network<J, F>,
    name: &str,
) -> Result<ScriptReply, Cause>
    ensures { Delivered J.bounds name.now result network.old network.new }
{
    match network.deliver(name) {
        None => Err(Cause::Name),
        Some(None) => Ok(ScriptReply::OutOfMemory),
        Some(Some(answer)) => Ok(ScriptReply::Answered(answer)),
    }
}
