//! What an answer tells of a fate.
ghost use Rattle.std.specs.Prelude.{◌≡◌};
ghost use Rattle.tx_core.specs.Decisions.{fate_in};

use tx_plan::Answer;
use tx_types::Fate;

/// The fate that an answer tells of the transaction that its request names, if it tells one.
pub fn fate_in(answer: &Answer) -> Option<Fate>
    ensures { result ≡ fate_in answer.now }
{
    match answer {
        Answer::Committed(commit) => Some(Fate::Committed(*commit)),
        Answer::AlreadyCommitted { commit } => Some(Fate::Committed(*commit)),
        Answer::RolledBack | Answer::Missing | Answer::AlreadyRolledBack => Some(Fate::Aborted),
        _ => None,
    }
}
