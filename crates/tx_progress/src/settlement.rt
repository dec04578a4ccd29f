//! What a resolver comes to where nothing is lost or refused.
ghost use Rattle.tx_journal.specs.Senders.{IsSender};
ghost use Rattle.tx_progress.specs.Settlement.{SettlesUnlessAlive, Settles};

use tx_journal::{JournalId, Reply, Request, Sender};

/// A lock whose time is over can be settled by anybody: where none of a resolver's requests is lost
/// or refused for want of memory or below a safe point, and its read is at a timestamp that was
/// drawn by what its seat has seen, it comes to a fate, which the lock has then got, or to a push
/// above the read. It waits only where its transaction's async lock on its primary was shown, which
/// does not let the read pass and whose own time is not over, as where a heartbeat has prolonged
/// it.
pub fn expired_locks_settle<J: JournalId, S: Sender<Request<J>, Reply<J>>>()
    ensures unless_alive { IsSender J.bounds S.fits S.sends S.keys_between → SettlesUnlessAlive J.bounds S.sends }
    ensures settles { IsSender J.bounds S.fits S.sends S.keys_between → Settles J.bounds S.sends }
{}
