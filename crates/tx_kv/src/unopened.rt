//! Why a store is not opened.
use std::alloc::AllocFailed;
use thiserror::Error;
use tx_types::Fault;

/// Why a store is not opened.
#[derive(Debug, Drop, Error)]
pub enum Unopened {
    /// The keys between the regions do not rise.
    #[error("the keys between the regions do not rise")]
    NotRising,
    /// There are more regions and clients than a journal has seats.
    #[error("a store has at most 1024 seats: one for each region, two for each client, and two more")]
    TooMany,
    /// E12, E13: memory was refused, or a key between the regions is no key.
    #[error("{0}")]
    Refused(Fault),
}

impl<T: Drop> From<AllocFailed<T>> for Unopened {
    ghost use Rattle.std.specs.Prelude.{◌≡◌};
    ghost use Rattle.tx_types.specs.declared.fault.Fault.TheVariants.{OutOfMemory};
    ghost use Rattle.tx_kv.specs.declared.unopened.Unopened.TheVariants.{Refused};

    ghost from_gives = { λ _ why. why ≡ Refused OutOfMemory };

    fn from(_: AllocFailed<T>) -> Unopened {
        Unopened::Refused(Fault::OutOfMemory)
    }
}

impl From<Fault> for Unopened {
    ghost use Rattle.std.specs.Prelude.{◌≡◌};
    ghost use Rattle.tx_kv.specs.declared.unopened.Unopened.TheVariants.{Refused};

    ghost from_gives = { λ fault why. why ≡ Refused fault };

    fn from(fault: Fault) -> Unopened {
        Unopened::Refused(fault)
    }
}
