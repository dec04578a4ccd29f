//! Journals over two regions, and the seats that are dealt with them.
ghost use Rattle.std.specs.Prelude.{◌≡◌, IfSome, length};

use std::alloc::Global;
use tx_harness::one_bound;
use tx_journal::{JournalId, Opened, Seat};

/// A journal over two regions, with this key between them and so many seats for sessions.
pub fn two_regions(alloc: Global, between: &[u8], sessions: u8) -> Option<Opened>
    ensures { IfSome result (λ o. length o.bounds ≡ 1) }
{
    let bounds = one_bound(alloc, between)?;
    Opened::new(alloc, bounds, usize::from(sessions)).ok()
}

/// The next two seats.
pub fn pair<J: JournalId>(seats: &mut Vec<Seat<J>>) -> Option<(Seat<J>, Seat<J>)> {
    let one = seats.pop()?;
    let two = seats.pop()?;
    Some((one, two))
}
