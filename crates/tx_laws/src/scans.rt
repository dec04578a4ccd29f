//! The rows of a session's scan over all regions.
ghost use Rattle.tx_types.specs.Keys.{AreRising};
ghost use Rattle.tx_journal.specs.Senders.{IsSender};
ghost use Rattle.tx_laws.specs.Scans.{SeesWhole};

use tx_journal::{JournalId, Reply, Request, Sender};

/// Where a session's scan over all regions comes to rows, they are the first `limit` keys of its
/// whole range that a read at its start sees: the regions' parts, each read with the limit less the
/// rows so far, join without a gap. It is so over each way that `Session::scan` takes, which says
/// that its requests went so; that the keys between regions rise, `bounds` of the way says.
pub fn scans_see_whole<J: JournalId, S: Sender<Request<J>, Reply<J>>>()
    ensures { AreRising J.bounds → IsSender J.bounds S.fits S.sends S.keys_between → SeesWhole J.bounds S.sends }
{}
