//! A lock that stands in a session's way, resolved.
ghost use Rattle.std.specs.Prelude.{◌≡◌, IfErr};
ghost use Rattle.tx_types.specs.declared.fault.Fault.TheVariants as fault;
ghost use Rattle.tx_journal.specs.Senders.{IsSender};
ghost use Rattle.tx_update.specs.declared.stops.Stop.TheVariants as stop;
ghost use Rattle.tx_update.specs.Updates.{Follows, SeatGoesOn};

use tx_client::{Resolved, Session, Status, WaitCause};
use tx_journal::{JournalId, Reply, Request, Seat, Sender};
use tx_types::Fault;
use tx_update::{Stop, resolve_met};

// Tells the session what was found of a lock.
fn learn<J: JournalId>(session: &mut Session<J>, found: Resolved<J>) -> Result<(), Fault>
    ensures session { Follows session.old session.new }
    ensures buffer { session.new.state.buffer ≡ session.old.state.buffer }
    ensures err { IfErr result (λ e. e ≡ fault.OutOfMemory) }
{
    session.learn(found)
}

/// Resolves the lock that last stood in the session's way, by a seat of its own, at the last
/// timestamp that was drawn, and tells the session what was found.
pub(crate) fn clear<J: JournalId, S: Sender<Request<J>, Reply<J>>>(
    session: &mut Session<J>,
    resolver: &mut Seat<J>,
    sender: &mut S,
) -> Result<Status, Stop>
    requires way { IsSender J.bounds S.fits S.sends S.keys_between }
    ensures session { Follows session.old session.new }
    ensures buffer { session.new.state.buffer ≡ session.old.state.buffer }
    ensures resolver { SeatGoesOn resolver.old resolver.new }
    ensures err { IfErr result (λ s. s ≡ stop.Refused fault.OutOfMemory) }
{
    let Some(met) = session.met()? else {
        return Ok(Status::Waiting(WaitCause::NotFound));
    };
    let now = resolver.last();
    let found = resolve_met(resolver, met, session.start(), now, sender);
    let status = found.status();
    learn(session, found)?;
    Ok(status)
}
