//! Why a transaction went no further.
ghost use Rattle.std.specs.Prelude.{◌≡◌};
ghost use Rattle.tx_update.specs.Stops.{may_pass, IsStopOfRefusal};

use std::alloc::{AllocError, AllocFailed};
use thiserror::Error;
use tx_client::{Miss, WaitCause};
use tx_core::Answer;
use tx_types::{Fault, Key};

/// Why a transaction went no further.
#[derive(Debug, Drop, Error)]
pub enum Stop {
    /// A lock stands in the way on this key, and this is why what became of its transaction is not
    /// known.
    #[error("a lock stands in the way on the key {0}, and what became of its transaction is not known")]
    Waits(Key, WaitCause),
    /// E2: another transaction committed this key after the start.
    #[error("another transaction committed the key {0} after this one began")]
    Conflict(Key),
    /// E3: another transaction, which met a lock of this one, rolled it back.
    #[error("this transaction was rolled back by another, which met a lock of it")]
    RolledBack,
    /// E17: this key is to be inserted, and has a value.
    #[error("the key {0} is to be inserted, and has a value")]
    AlreadyExists(Key),
    /// E7: the start lies below the safe point.
    #[error("the transaction began below the safe point, whose history may be collected")]
    BelowSafePoint,
    /// No reply came.
    #[error("no reply came")]
    Lost,
    /// E8, E11, E12, E15: a timestamp was not drawn yet, the seat's ticks are spent, memory was
    /// refused, or there are too many keys.
    #[error("{0}")]
    Refused(Fault),
}

impl Stop {
    /// Whether it may go well in a transaction that begins later.
    pub fn may_pass(&self) -> bool
        ensures { result ≡ may_pass self.now }
    {
        match self {
            Stop::Waits(..)
            | Stop::Conflict(_)
            | Stop::RolledBack
            | Stop::BelowSafePoint
            | Stop::Lost => true,
            Stop::AlreadyExists(_) | Stop::Refused(_) => false,
        }
    }
}

impl From<Fault> for Stop {
    ghost use Rattle.std.specs.Prelude.{◌≡◌};
    ghost use Rattle.tx_update.specs.declared.stops.Stop.TheVariants.{Refused};

    ghost from_gives = { λ fault stop. stop ≡ Refused fault };

    fn from(fault: Fault) -> Stop {
        Stop::Refused(fault)
    }
}

impl<T: Drop> From<AllocFailed<T>> for Stop {
    ghost use Rattle.std.specs.Prelude.{◌≡◌};
    ghost use Rattle.tx_types.specs.declared.fault.Fault.TheVariants.{OutOfMemory};
    ghost use Rattle.tx_update.specs.declared.stops.Stop.TheVariants.{Refused};

    ghost from_gives = { λ _ stop. stop ≡ Refused OutOfMemory };

    fn from(_: AllocFailed<T>) -> Stop {
        Stop::Refused(Fault::OutOfMemory)
    }
}

impl From<AllocError> for Stop {
    ghost use Rattle.std.specs.Prelude.{◌≡◌};
    ghost use Rattle.tx_types.specs.declared.fault.Fault.TheVariants.{OutOfMemory};
    ghost use Rattle.tx_update.specs.declared.stops.Stop.TheVariants.{Refused};

    ghost from_gives = { λ _ stop. stop ≡ Refused OutOfMemory };

    fn from(_: AllocError) -> Stop {
        Stop::Refused(Fault::OutOfMemory)
    }
}

impl From<Miss> for Stop {
    ghost use Rattle.std.specs.Prelude.{◌≡◌};
    ghost use Rattle.tx_update.specs.Stops.{stop_of_miss};

    ghost from_gives = { λ miss stop. stop ≡ stop_of_miss miss };

    fn from(miss: Miss) -> Stop {
        match miss {
            Miss::Lost => Stop::Lost,
            Miss::Fault => Stop::Refused(Fault::OutOfMemory),
        }
    }
}

/// What a refusal comes to: a lock in the way, the safe point, or a timestamp that was not drawn
/// yet; by any other the transaction was rolled back.
pub fn stop_by(answer: Answer) -> Stop
    ensures { IsStopOfRefusal answer result }
{
    match answer {
        Answer::KeyIsLocked(info) => match info.facts().key.clone() {
            Ok(key) => Stop::Waits(key, WaitCause::Live),
            Err(fault) => Stop::Refused(fault),
        },
        Answer::BelowSafePoint { .. } => Stop::BelowSafePoint,
        Answer::FutureTimestamp { last } => Stop::Refused(Fault::FutureTimestamp { last }),
        _ => Stop::RolledBack,
    }
}
