//! Why a work went no further.
ghost use Rattle.std.specs.Prelude.{◌≡◌};
ghost use Rattle.tx_update.specs.Failures.{may_pass, failure_in};

use crate::stops::Stop;
use std::alloc::{AllocError, AllocFailed};
use thiserror::Error;
use tx_types::Fault;

/// Why a work, or the transaction that it was done in, went no further.
#[derive(Debug, Drop, Error)]
pub enum Failure<E> {
    /// The work refused, for a reason of its own.
    #[error("the work refused")]
    Own(E),
    /// The transaction was stopped.
    #[error("{0}")]
    Stopped(Stop),
}

impl<E> Failure<E> {
    /// Whether it may go well in a transaction that begins later.
    pub fn may_pass(&self) -> bool
        ensures { result ≡ may_pass self.now }
    {
        match self {
            Failure::Own(_) => false,
            Failure::Stopped(stop) => stop.may_pass(),
        }
    }
}

impl<E> From<Stop> for Failure<E> {
    ghost use Rattle.std.specs.Prelude.{◌≡◌};
    ghost use Rattle.tx_update.specs.declared.failure.Failure.TheVariants.{Stopped};

    ghost from_gives = { λ stop failure. failure ≡ Stopped stop };

    fn from(stop: Stop) -> Failure<E> {
        Failure::Stopped(stop)
    }
}

impl<E> From<Fault> for Failure<E> {
    ghost use Rattle.std.specs.Prelude.{◌≡◌};
    ghost use Rattle.tx_update.specs.declared.stops.Stop.TheVariants.{Refused};
    ghost use Rattle.tx_update.specs.declared.failure.Failure.TheVariants.{Stopped};

    ghost from_gives = { λ fault failure. failure ≡ Stopped (Refused fault) };

    fn from(fault: Fault) -> Failure<E> {
        Failure::Stopped(Stop::from(fault))
    }
}

impl<T: Drop, E> From<AllocFailed<T>> for Failure<E> {
    ghost use Rattle.std.specs.Prelude.{◌≡◌};
    ghost use Rattle.tx_types.specs.declared.fault.Fault.TheVariants.{OutOfMemory};
    ghost use Rattle.tx_update.specs.declared.stops.Stop.TheVariants.{Refused};
    ghost use Rattle.tx_update.specs.declared.failure.Failure.TheVariants.{Stopped};

    ghost from_gives = { λ _ failure. failure ≡ Stopped (Refused OutOfMemory) };

    fn from(_: AllocFailed<T>) -> Failure<E> {
        Failure::Stopped(Stop::Refused(Fault::OutOfMemory))
    }
}

impl<E> From<AllocError> for Failure<E> {
    ghost use Rattle.std.specs.Prelude.{◌≡◌};
    ghost use Rattle.tx_types.specs.declared.fault.Fault.TheVariants.{OutOfMemory};
    ghost use Rattle.tx_update.specs.declared.stops.Stop.TheVariants.{Refused};
    ghost use Rattle.tx_update.specs.declared.failure.Failure.TheVariants.{Stopped};

    ghost from_gives = { λ _ failure. failure ≡ Stopped (Refused OutOfMemory) };

    fn from(_: AllocError) -> Failure<E> {
        Failure::Stopped(Stop::Refused(Fault::OutOfMemory))
    }
}

/// What went no further after a work had answered.
pub(crate) fn failed_by<E>(done: Result<(), Stop>) -> Option<Failure<E>>
    ensures { result ≡ failure_in done }
{
    match done {
        Ok(()) => None,
        Err(stop) => Some(Failure::Stopped(stop)),
    }
}
