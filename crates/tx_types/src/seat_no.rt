//! The numbers of seats.
ghost use Rattle.std.specs.Prelude.{◌≡◌};

use std::fmt;
use std::marker::Model;

/// Who makes an event: each region, session and resolver has a seat of its own. A region's seat has
/// the region's number. Contracts see the number.
#[derive(Clone, Copy, Debug, PartialEq, Eq, PartialOrd, Ord, Hash)]
pub struct SeatNo {
    index: u32,
}

impl Model for SeatNo {
    ghost use Rattle.std.specs.Prelude.{ℕ};

    ghost Value = { ℕ };

    ghost view = { λ n. n.index };

    ghost inverse = { λ n. record { index = n } };
}

impl SeatNo {
    /// The seat of this number.
    pub fn new(index: u32) -> SeatNo
        ensures { result ≡ index }
    {
        SeatNo { index }
    }

    /// Its number.
    pub fn get(self) -> u32
        ensures { result ≡ self }
    {
        self.index
    }
}

impl fmt::Display for SeatNo {
    fn fmt<W: fmt::Write>(&self, f: &mut fmt::Formatter<W>) -> fmt::Result {
        write!(f, "{}", self.index)
    }
}
