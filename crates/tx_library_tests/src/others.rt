//! What a session learns of others.
ghost use Rattle.tx_journal.specs.Senders.{IsSender};

use crate::words::{OK, Short, by_fault, by_status};
use tx_client::{Decision, Met, Resolved, Session, Status};
use tx_journal::{JournalId, Reply, Request, Seat, Sender};
use tx_types::{Fate, Ts};
use tx_update::resolve_met;

/// The lock that a session met, where there is memory to tell of it.
pub fn met_by<J: JournalId>(session: &mut Session<J>) -> Option<Met<J>> {
    session.met().ok()?
}

/// The resolver finds, at this time, what became of the transaction whose lock a session met, and
/// the session learns it.
pub fn resolve<J: JournalId, S: Sender<Request<J>, Reply<J>>>(
    resolver: &mut Seat<J>,
    session: &mut Session<J>,
    now: u64,
    sender: &mut S,
) -> Short
    requires way { IsSender J.bounds S.fits S.sends S.keys_between }
{
    let Some(met) = met_by(session) else {
        return ("none", 0);
    };
    let now = Ts::new(now);
    let resolved = resolve_met(resolver, met, session.start(), now, sender);
    let short = by_status(resolved.status());
    match session.learn(resolved) {
        Ok(()) => short,
        Err(fault) => by_fault(fault),
    }
}

// That a transaction is decided so.
fn resolved<J: JournalId>(decision: Decision<J>) -> Resolved<J> {
    let (start, fate, told) = decision.into_parts();
    let status = match fate {
        Fate::Committed(commit) => Status::Committed(commit),
        Fate::Aborted => Status::Aborted,
    };
    Resolved::new(start, status, told)
}

/// A session learns the fate of another's transaction.
pub fn learn<J: JournalId>(session: &mut Session<J>, other: &mut Session<J>) -> Short {
    let Some(decision) = other.decision() else {
        return ("none", 0);
    };
    match session.learn(resolved(decision)) {
        Ok(()) => OK,
        Err(fault) => by_fault(fault),
    }
}
