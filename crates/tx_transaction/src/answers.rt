//! What an answer does to a session's state.
ghost use Rattle.std.specs.Prelude.{◌≡◌};
ghost use Rattle.tx_transaction.specs.Sessions.{committed_by, cause_of, drawn_after, sent_by, marked_by};

use crate::state::{Phase, Progress};
use tx_core::{Answer, UnknownCause};
use tx_types::{Fate, Ts};

/// Why it tells nothing of the fate.
pub(crate) fn cause(answer: &Answer) -> Option<UnknownCause>
    ensures { result ≡ cause_of answer.now }
{
    match answer {
        Answer::BelowSafePoint { .. } => Some(UnknownCause::BelowSafePoint),
        _ => None,
    }
}

/// The drawn timestamp that is left.
pub(crate) fn drawn(answer: &Answer, drawn: Option<Ts>) -> Option<Ts>
    ensures { result ≡ drawn_after answer.now drawn }
{
    match answer {
        Answer::CommitTsExpired { .. } => None,
        _ => drawn,
    }
}

/// Marks what is known of a key once a request went out.
pub(crate) fn mark_sent(phase: Phase, progress: &mut Progress)
    ensures { progress.new ≡ sent_by phase progress.old }
{
    if phase == Phase::Prewrite {
        progress.sent = true;
    }
}

/// Marks what an answer says of its key, for which a request went out.
pub(crate) fn mark(phase: Phase, answer: &Answer, progress: &mut Progress)
    ensures { progress.new ≡ marked_by phase answer.now (sent_by phase progress.old) }
{
    mark_sent(phase, progress);
    match (phase, answer) {
        (Phase::Prewrite, Answer::Prewritten(minimum)) => progress.accepted = Some(*minimum),
        (Phase::Commit, Answer::Committed(_)) => progress.committed = true,
        (Phase::Abort, Answer::RolledBack | Answer::Missing) => progress.rolled = true,
        (Phase::Abort, Answer::Locked(info)) => progress.accepted = Some(info.facts().async_min()),
        _ => {}
    }
}

/// A transaction that is committed here, if somewhere.
pub(crate) fn committed(commit: Option<Ts>) -> Option<Fate>
    ensures { result ≡ committed_by commit }
{
    match commit {
        Some(commit) => Some(Fate::Committed(commit)),
        None => None,
    }
}
