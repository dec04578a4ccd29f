//! Whether a request of a phase is due, and which key it is of.
ghost use Rattle.std.specs.Prelude.{◌≡◌, ◌<◌, length, is_some, IfSome, option_map};
ghost use Rattle.tx_transaction.specs.Next.{due, due_key, due_index, open_index, primary_of};

use super::Transaction;
use crate::buffer::{has_keys, index_of, key_at};
use crate::state::Phase;
use tx_types::{Fate, Key, Mode};

impl Transaction {
    // The index of the prewrite that is due.
    fn prewrite_index(&self) -> Option<usize>
        ensures index { result ≡ due_index self.now Phase.Prewrite }
        ensures within { IfSome result (λ i. i < length self.now.buffer) }
    {
        if self.declared.is_none() {
            return None;
        }
        index_of(&self.buffer, Phase::Prewrite)
    }

    // The index of the commit that is due.
    fn commit_index(&self) -> Option<usize>
        ensures index { result ≡ due_index self.now Phase.Commit }
        ensures within { IfSome result (λ i. i < length self.now.buffer) }
    {
        if !self.has_primary() {
            return None;
        }
        match self.decision {
            None => match self.drawn {
                Some(_) => Some(0),
                None => None,
            },
            Some(Fate::Committed(_)) => index_of(&self.buffer, Phase::Commit),
            Some(Fate::Aborted) => None,
        }
    }

    // The index of what may decide.
    fn open_index(&self) -> Option<usize>
        ensures index { result ≡ open_index self.now }
        ensures within { IfSome result (λ i. i < length self.now.buffer) }
    {
        let Some(terms) = self.declared else {
            return None;
        };
        if !has_keys(&self.buffer) {
            return None;
        }
        match terms.mode {
            Mode::TwoPhase => Some(0),
            Mode::Async => index_of(&self.buffer, Phase::Prewrite),
        }
    }

    // The index of the request of an abort that is due.
    fn abort_index(&self) -> Option<usize>
        ensures index { result ≡ due_index self.now Phase.Abort }
        ensures within { IfSome result (λ i. i < length self.now.buffer) }
    {
        match self.decision {
            None => self.open_index(),
            Some(Fate::Committed(_)) => None,
            Some(Fate::Aborted) => index_of(&self.buffer, Phase::Abort),
        }
    }

    // The index of the request of a phase that is due.
    fn due_index(&self, phase: Phase) -> Option<usize>
        ensures index { result ≡ due_index self.now phase }
        ensures within { IfSome result (λ i. i < length self.now.buffer) }
    {
        match phase {
            Phase::Prewrite => self.prewrite_index(),
            Phase::Commit => self.commit_index(),
            Phase::Abort => self.abort_index(),
        }
    }

    /// Whether a request of a phase is due.
    pub fn is_due(&self, phase: Phase) -> bool
        ensures { result ≡ is_some (due self.now phase) }
    {
        self.due_index(phase).is_some()
    }

    /// The key that the next request of a phase is of, where one is due.
    pub fn due_key(&self, phase: Phase) -> Option<&Key>
        ensures { option_map (λ k. k.now) result ≡ due_key self.now phase }
    {
        match self.due_index(phase) {
            Some(i) => Some(key_at(&self.buffer, i)),
            None => None,
        }
    }

    /// The primary, which heartbeats are of: the first key of a declared write set.
    pub fn primary(&self) -> Option<&Key>
        ensures { option_map (λ k. k.now) result ≡ primary_of self.now }
    {
        if self.has_primary() {
            Some(key_at(&self.buffer, 0))
        } else {
            None
        }
    }
}
