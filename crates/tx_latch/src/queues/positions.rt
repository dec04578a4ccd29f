//! What is at one position of the list of commands, and what a call changes of it.
ghost use Rattle.std.specs.Prelude.{◌≡◌, ◌-◌, ◌<◌, ◌≤◌, length};
ghost use Rattle.std.specs.Option.{option_map};
ghost use Rattle.std.specs.List.{All, slice_get};
ghost use Rattle.tx_latch.specs.Queues.{HasRoom, link_of, room_of, followed, adds, lowered, is_number, has_none_before};

use crate::cid::Cid;
use crate::queues::QueueEntry;
use crate::slot::Slot;
use tx_types::limits::LATCH_SLOTS;

/// The number of the command at a position.
pub(crate) fn cid_in(position: &Option<QueueEntry>) -> Option<Cid>
    ensures { result ≡ option_map (λ l. l.cid) (option_map link_of position.now) }
{
    match position {
        Some(entry) => Some(entry.cid),
        None => None,
    }
}

/// Whether this is the number.
pub(crate) fn is_cid(found: Option<Cid>, cid: Cid) -> bool
    ensures { result ≡ is_number cid found }
{
    match found {
        Some(found) => cid.get() == found.get(),
        None => false,
    }
}

/// Whether a command stands at this position with none before it.
pub(crate) fn is_first(position: &Option<QueueEntry>) -> bool
    ensures { result ≡ has_none_before (option_map link_of position.now) }
{
    match position {
        Some(entry) => entry.ahead == 0,
        None => false,
    }
}

/// Puts a command directly behind that at this position, unless it was put there just now.
/// Says whether it did.
pub(crate) fn follow(position: &mut Option<QueueEntry>, cid: Cid) -> bool
    requires { HasRoom cid (option_map link_of position.old) (room_of position.old) }
    ensures followed { option_map link_of position.new ≡ option_map (followed cid) (option_map link_of position.old) }
    ensures told { result ≡ adds cid (option_map link_of position.old) }
    ensures room { room_of position.old ≤ room_of position.new }
{
    let Some(entry) = position else {
        return false;
    };
    if ends_with(entry.behind.as_slice(), cid) {
        return false;
    }
    let Ok(()) = entry.behind.push(cid) else {
        unreachable!()
    };
    true
}

/// One stands less before the command at this position.
pub(crate) fn lower(position: &mut Option<QueueEntry>)
    ensures lowered { option_map link_of position.new ≡ option_map lowered (option_map link_of position.old) }
    ensures room { room_of position.old ≤ room_of position.new }
{
    if let Some(entry) = position {
        entry.ahead = entry.ahead.saturating_sub(1);
    }
}

/// Whether this is the last of the numbers.
fn ends_with(cids: &[Cid], cid: Cid) -> bool
    ensures { result ≡ is_number cid (slice_get cids.now (length cids.now - 1)) }
{
    match cids.last() {
        Some(last) => cid.get() == last.get(),
        None => false,
    }
}

/// For proofs: each number of a slot is below `LATCH_SLOTS`.
pub(crate) fn know_small(slots: &[Slot])
    ensures { All (λ s. s < LATCH_SLOTS) slots.now }
{
    for slot in slots {
        let _number = slot.get();
    }
}
