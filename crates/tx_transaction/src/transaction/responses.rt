//! What comes of a transaction's requests.
ghost use Rattle.std.specs.Prelude.{◌≡◌, ◌<◌, None, Ok, Err, length};
ghost use Rattle.tx_core.specs.Decisions.{fate_in};
ghost use Rattle.tx_transaction.specs.Buffers.{promised};
ghost use Rattle.tx_transaction.specs.Sessions.{first_settled, committed_by, cause_by, met_by, after_response, after_read};

use super::Transaction;
use crate::answers::{cause, committed, drawn};
use crate::buffer::{Buffer, note, note_sent, promised};
use crate::state::{Miss, Phase};
use tx_core::{Answer, UnknownCause, fate_in};
use tx_types::{Fate, LockInfo};

// What is decided once an answer was heard: what was known first stands, then the fate that the
// answer tells, then that each key has an async lock.
fn decided(known: Option<Fate>, answer: &Answer, buffer: &Buffer) -> Option<Fate>
    ensures { result ≡ first_settled (first_settled known (fate_in answer.now))
        (committed_by (promised buffer.now)) }
{
    if known.is_some() {
        return known;
    }
    match fate_in(answer) {
        Some(fate) => Some(fate),
        None => committed(promised(buffer)),
    }
}

// Why the fate is not known, where no answer came.
fn cause_by(why: Miss) -> UnknownCause
    ensures { result ≡ cause_by why }
{
    match why {
        Miss::Lost => UnknownCause::Reply,
        Miss::Fault => UnknownCause::OutOfMemory,
    }
}

impl Transaction {
    // Keeps the lock that an answer names as in the way, of which it gets a copy.
    fn on_lock(&mut self, answer: &Answer, lock: Option<LockInfo>)
        requires { lock ≡ met_by answer.now None }
        ensures { self.new ≡ record self.old { met = met_by answer.now self.old.met } }
    {
        match answer {
            Answer::KeyIsLocked(_) => self.met = lock,
            _ => {}
        }
    }

    /// The answer to a request of a phase, and a copy of the lock that it names as in the way.
    pub fn after_answer(
        &mut self,
        phase: Phase,
        index: usize,
        answer: &Answer,
        lock: Option<LockInfo>,
    )
        requires within { index < length self.old.buffer }
        requires lock { lock ≡ met_by answer.now None }
        ensures { self.new ≡ after_response self.old phase index (Ok answer.now) }
    {
        note(&mut self.buffer, index, phase, answer);
        self.drawn = drawn(answer, self.drawn);
        self.cause = cause(answer);
        self.decision = decided(self.decision, answer, &self.buffer);
        self.on_lock(answer, lock);
    }

    /// No answer came to a request of a phase.
    #[inline(never)]
    pub fn after_miss(&mut self, phase: Phase, index: usize, why: Miss)
        requires { index < length self.old.buffer }
        ensures { self.new ≡ after_response self.old phase index (Err why) }
    {
        note_sent(&mut self.buffer, index, phase);
        self.cause = Some(cause_by(why));
    }

    /// The answer to a read, and a copy of the lock that it names as in the way. A read that has no
    /// answer changes nothing.
    pub fn after_read(&mut self, answer: &Answer, lock: Option<LockInfo>)
        requires lock { lock ≡ met_by answer.now None }
        ensures { self.new ≡ after_read self.old (Ok answer.now) }
    {
        self.on_lock(answer, lock);
    }
}
