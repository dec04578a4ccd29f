//! An answer with a copy of the lock that it names.
ghost use Rattle.std.specs.Prelude.{◌≡◌, Some, None, IfOk, IfErr};
ghost use Rattle.tx_types.specs.declared.fault.Fault.TheVariants as fault;
ghost use Rattle.tx_journal.specs.Replies.{lock_in};

use std::marker::Model;
use tx_core::Answer;
use tx_types::{Fault, LockInfo};

/// An answer, and beside it a copy of the lock that it names as in the way: who asked keeps the
/// copy and hands the answer on, and takes no memory for it once the region has answered. Contracts
/// see the answer.
#[derive(Debug, Drop)]
pub struct AnswerWithLock {
    answer: Answer,
    lock: Option<LockInfo>,
}

impl Model for AnswerWithLock {
    ghost use Rattle.std.specs.Prelude.{◌≡◌};
    ghost use Rattle.tx_plan.specs.declared.answer.Answer.{Answer};
    ghost use Rattle.tx_journal.specs.Replies.{lock_in};

    ghost Value = { Answer };

    ghost view = { λ a. a.answer };

    ghost invariant = { λ a. a.lock ≡ lock_in a.answer };
}

// A copy of a lock.
#[inline(never)]
fn copied(info: &LockInfo) -> Result<Option<LockInfo>, Fault>
    ensures ok { IfOk result (λ lock. lock ≡ Some info.now) }
    ensures err { IfErr result (λ e. e ≡ fault.OutOfMemory) }
{
    Ok(Some(info.clone()?))
}

// A copy of the lock that an answer names as in the way. Mostly it names none.
#[inline(always)]
fn copied_lock(answer: &Answer) -> Result<Option<LockInfo>, Fault>
    ensures ok { IfOk result (λ lock. lock ≡ lock_in answer.now) }
    ensures err { IfErr result (λ e. e ≡ fault.OutOfMemory) }
{
    match answer {
        Answer::KeyIsLocked(info) => copied(info),
        _ => Ok(None),
    }
}

impl AnswerWithLock {
    /// An answer, with a copy of the lock that it names as in the way. `OutOfMemory` where there is
    /// no room for the copy.
    #[inline(always)]
    pub fn new(answer: Answer) -> Result<AnswerWithLock, Fault>
        ensures ok { IfOk result (λ a. a ≡ answer) }
        ensures err { IfErr result (λ e. e ≡ fault.OutOfMemory) }
    {
        let lock = copied_lock(&answer)?;
        Ok(AnswerWithLock { answer, lock })
    }

    /// An answer that names no lock as in the way. It takes no memory.
    pub fn unlocked(answer: Answer) -> AnswerWithLock
        requires { lock_in answer ≡ None }
        ensures { result ≡ answer }
    {
        AnswerWithLock { answer, lock: None }
    }

    /// The answer.
    pub fn answer(&self) -> &Answer
        ensures { result.now ≡ self.now }
    {
        &self.answer
    }

    /// The answer, and the lock that it names as in the way.
    pub fn into_parts(self) -> (Answer, Option<LockInfo>)
        ensures { (result.0 ≡ self) × (result.1 ≡ lock_in self) }
    {
        let AnswerWithLock { answer, lock } = self;
        (answer, lock)
    }

    /// The answer alone.
    pub fn into_answer(self) -> Answer
        ensures { result ≡ self }
    {
        let AnswerWithLock { answer, lock: _ } = self;
        answer
    }
}
