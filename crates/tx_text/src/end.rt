//! How a text's reading ends: by its input, by a fault of its own, or broken off by what
//! stands around it.
ghost use Rattle.std.specs.Prelude.{◌≡◌};
ghost use Rattle.tx_text.specs.declared.end.Broken.TheVariants.{Memory};

use std::alloc::{AllocError, AllocFailed};

/// How it ended, where no read, write or growth failed.
#[derive(Clone, Copy, Debug, PartialEq, Eq)]
pub enum End {
    /// All was read and nothing was wrong.
    Well,
    /// A line could not be read as what it should be; the last line that was written names it.
    Faulted,
    /// What was checked does not hold; the last line that was written says so.
    No,
}

/// What failed around it. What was written by then is a beginning of the text.
#[derive(Clone, Copy, Debug, PartialEq, Eq)]
pub enum Broken {
    /// A read failed.
    Input,
    /// A write failed, or took nothing.
    Output,
    /// A growth was refused.
    Memory,
}

impl<T: Drop> From<AllocFailed<T>> for Broken {
    ghost from_gives = { λ _ e. e ≡ Memory };

    fn from(_e: AllocFailed<T>) -> Broken {
        Broken::Memory
    }
}

impl From<AllocError> for Broken {
    ghost from_gives = { λ _ e. e ≡ Memory };

    fn from(_e: AllocError) -> Broken {
        Broken::Memory
    }
}
