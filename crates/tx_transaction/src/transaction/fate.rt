//! What may be done of a transaction, and what is known of its fate.
ghost use Rattle.std.specs.Prelude.{◌≡◌, true, IfOk, IfErr, OnOk, OnErr, option_map};
ghost use Rattle.tx_transaction.specs.declared.state.Phase.TheVariants as phase;
ghost use Rattle.tx_transaction.specs.Buffers.{first_index};
ghost use Rattle.tx_transaction.specs.Sessions.{can_draw, may_commit, can_commit, may_abort, can_abort, notes_one, with_passed, finish_of};

use super::Transaction;
use crate::buffer::{has_keys, has_two_phase_lock, index_of};
use crate::state::Phase;
use tx_core::Outcome;
use tx_types::{Fate, Fault, LockInfo, Mode, Ts};

impl Transaction {
    /// Whether a commit timestamp may be drawn.
    pub fn can_draw(&self) -> bool
        ensures { result ≡ can_draw self.now }
    {
        self.decision.is_none()
            && self.drawn.is_none()
            && self.has_primary()
            && index_of(&self.buffer, Phase::Prewrite).is_none()
            && has_two_phase_lock(&self.buffer)
    }

    /// Takes the commit timestamp that its seat drew.
    pub fn drew(&mut self, commit: Ts)
        ensures { self.new ≡ record self.old { drawn = Some commit } }
    {
        self.drawn = Some(commit);
    }

    // Whether a commit may be asked, where something was declared.
    fn may_commit(&self) -> bool
        ensures { result ≡ may_commit self.now.decision self.now.drawn }
    {
        match self.decision {
            None => self.drawn.is_some(),
            Some(Fate::Committed(_)) => true,
            Some(Fate::Aborted) => false,
        }
    }

    /// Whether a commit may be asked.
    pub fn can_commit(&self) -> bool
        ensures { result ≡ can_commit self.now }
    {
        self.declared.is_some() && (!has_keys(&self.buffer) || self.may_commit())
    }

    // Whether an abort may be asked, where something was declared in this mode.
    fn may_abort(&self, mode: Mode) -> bool
        ensures { result ≡ may_abort self.now.decision mode (first_index phase.Prewrite self.now.buffer) }
    {
        match self.decision {
            None => match mode {
                Mode::TwoPhase => true,
                Mode::Async => index_of(&self.buffer, Phase::Prewrite).is_some(),
            },
            Some(Fate::Committed(_)) => false,
            Some(Fate::Aborted) => true,
        }
    }

    /// Whether an abort may be asked.
    pub fn can_abort(&self) -> bool
        ensures { result ≡ can_abort self.now }
    {
        match self.declared {
            None => false,
            Some(terms) => !has_keys(&self.buffer) || self.may_abort(terms.mode),
        }
    }

    /// What it knows of its fate.
    pub fn decision(&self) -> Option<Fate>
        ensures { result ≡ self.now.decision }
    {
        self.decision
    }

    /// The lock that last stood in its way.
    pub fn met_lock(&self) -> Option<&LockInfo>
        ensures { option_map (λ info. info.now) result ≡ self.now.met }
    {
        match &self.met {
            Some(info) => Some(info),
            None => None,
        }
    }

    /// A copy of that lock.
    pub fn met(&self) -> Result<Option<LockInfo>, Fault>
        ensures ok { IfOk result (λ met. met ≡ self.now.met) }
        ensures err { IfErr result (λ e. e ≡ Fault.OutOfMemory) }
    {
        match &self.met {
            Some(info) => Ok(Some(info.clone()?)),
            None => Ok(None),
        }
    }

    /// The outcome, where there is one.
    pub fn outcome(&self) -> Option<Outcome>
        ensures { result ≡ finish_of self.now }
    {
        match self.decision {
            Some(Fate::Committed(commit)) => Some(Outcome::Committed(commit)),
            Some(Fate::Aborted) => Some(Outcome::Aborted),
            None if !self.has_primary() => Some(Outcome::ReadOnly),
            None => match self.cause {
                Some(cause) => Some(Outcome::Unknown(cause)),
                None => None,
            },
        }
    }

    /// Its reads pass by one more transaction, where they may. It is named once, however often it
    /// is passed, and only where it was not yet it takes memory.
    pub fn pass(&mut self, start: Ts, may: bool) -> Result<(), Fault>
        ensures ok { OnOk result (self.new ≡ with_passed self.old start may) }
        ensures same { OnErr result (self.new ≡ self.old) }
        ensures err { IfErr result (λ e. (e ≡ Fault.OutOfMemory) × (notes_one self.old start may ≡ true)) }
    {
        if may && !self.bypass.as_slice().contains(&start) {
            self.bypass.push(start)?;
        }
        Ok(())
    }
}
