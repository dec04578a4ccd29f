//! The keys at the head of a list of which a phase has nothing left to send.
ghost use Rattle.std.specs.Prelude.{◌≡◌, ◌<◌, ℕ, false, length};
ghost use Rattle.tx_transaction.specs.Buffers.{Entries, progress_at, wants, with_progress};
ghost use Rattle.tx_transaction.specs.Heads.{IsSettled};

use crate::state::{Phase, Progress};

/// Whether a phase has something left to send of a key that is so far.
pub(crate) fn wants_more(phase: Phase, progress: Progress) -> bool
    ensures { result ≡ wants phase progress }
{
    match phase {
        Phase::Prewrite => progress.accepted.is_none(),
        Phase::Commit => !progress.committed,
        Phase::Abort => progress.sent && !progress.rolled,
    }
}

/// So many keys, from the first on, of which a phase has nothing left to send. The search for the
/// next request begins behind them, so that its cost does not grow with what is done.
#[derive(Clone, Copy, Debug)]
pub(crate) struct Settled {
    phase: Phase,
    keys: usize,
}

impl Settled {
    /// Of no key.
    pub(crate) const NONE: Settled = Settled {
        phase: Phase::Prewrite,
        keys: 0,
    };

    /// How many keys it knows to be settled in a phase.
    pub(crate) fn keys(self, phase: Phase) -> usize
        ensures settled { (es : Entries) → IsSettled self es → (k : ℕ) → k < result
            → wants phase (progress_at es k) ≡ false }
        ensures all { self.phase ≡ phase → result ≡ self.keys }
    {
        if self.phase == phase { self.keys } else { 0 }
    }

    /// What is settled once the key at an index is so far, of which the phase sent a request.
    pub(crate) fn after(self, phase: Phase, i: usize, progress: &Progress) -> Settled
        ensures { (es : Entries) → i < length es → IsSettled self es
            → IsSettled result (with_progress es i progress.now) }
    {
        let keys = self.keys(phase);
        if wants_more(phase, *progress) {
            let keys = keys.min(i);
            return Settled { phase, keys };
        }
        if keys == i {
            let keys = i.saturating_add(1);
            return Settled { phase, keys };
        }
        Settled { phase, keys }
    }
}
