//! What a plan gives: the answer, the change on its key, and the timestamp that was read.
ghost use Rattle.std.specs.Prelude.{◌≡◌, None};
ghost use Rattle.tx_plan.specs.Plans.{answer_with};

use crate::answer::Answer;
use crate::key_change::KeyChange;
use tx_types::{LockInfo, Ts};

/// What is answered. Two answers name the lock on the key, which a plan sees no more of than its
/// head: the store adds what is told of that lock.
#[derive(Debug, Drop)]
pub enum PlannedAnswer {
    /// This.
    Given(Answer),
    /// `Answer::KeyIsLocked`, with the lock on the key.
    KeyIsLocked,
    /// `Answer::Locked`, with the lock on the key; its minimum is this one from now on.
    Locked { min: Ts },
}

impl PlannedAnswer {
    /// The whole answer, by what is told of the lock that was on the key before the change. An
    /// answer that names no lock needs none. `TxnLockNotFound` where there is no lock to name: no
    /// plan names one that is not there.
    pub fn with_lock(self, info: Option<LockInfo>) -> Answer
        ensures { result ≡ answer_with info self }
    {
        match self {
            PlannedAnswer::Given(answer) => answer,
            PlannedAnswer::KeyIsLocked => match info {
                Some(info) => Answer::KeyIsLocked(info),
                None => Answer::TxnLockNotFound,
            },
            PlannedAnswer::Locked { min } => match info {
                Some(mut info) => {
                    info.set_min(min);
                    Answer::Locked(info)
                }
                None => Answer::TxnLockNotFound,
            },
        }
    }
}

/// What is answered to a command, what changes on its key, and which timestamp counts as read from
/// then on: the greatest timestamp read rises to at least it.
#[derive(Debug, Drop)]
pub struct Plan {
    pub answer: PlannedAnswer,
    pub change: KeyChange,
    pub read: Option<Ts>,
}

impl Plan {
    /// An answer that changes nothing.
    pub fn unchanged(answer: PlannedAnswer) -> Plan
        ensures { result ≡ record { answer = answer; change = KeyChange.Nothing; read = None } }
    {
        Plan {
            answer,
            change: KeyChange::Nothing,
            read: None,
        }
    }

    /// An answer that changes nothing and names no lock.
    pub fn given(answer: Answer) -> Plan
        ensures { result ≡ record { answer = PlannedAnswer.Given answer; change = KeyChange.Nothing; read = None } }
    {
        Plan::unchanged(PlannedAnswer::Given(answer))
    }

    /// An answer that names no lock, and the change.
    pub fn changes(answer: Answer, change: KeyChange) -> Plan
        ensures { result ≡ record { answer = PlannedAnswer.Given answer; change = change; read = None } }
    {
        Plan {
            answer: PlannedAnswer::Given(answer),
            change,
            read: None,
        }
    }
}
