//! The numbers of regions.
ghost use Rattle.std.specs.Prelude.{◌≡◌};

use std::fmt;
use std::marker::Model;

/// Which of a store's regions: 0 is the one of the least keys. Contracts see the number.
#[derive(Clone, Copy, Debug, PartialEq, Eq, PartialOrd, Ord, Hash)]
pub struct RegionNo {
    index: u32,
}

impl Model for RegionNo {
    ghost use Rattle.std.specs.Prelude.{ℕ};

    ghost Value = { ℕ };

    ghost view = { λ n. n.index };

    ghost inverse = { λ n. record { index = n } };
}

impl RegionNo {
    /// The region of this number.
    pub fn new(index: u32) -> RegionNo
        ensures { result ≡ index }
    {
        RegionNo { index }
    }

    /// Its number.
    pub fn get(self) -> u32
        ensures { result ≡ self }
    {
        self.index
    }
}

impl fmt::Display for RegionNo {
    fn fmt<W: fmt::Write>(&self, f: &mut fmt::Formatter<W>) -> fmt::Result {
        write!(f, "{}", self.index)
    }
}
