//! Timestamps.
ghost use Rattle.std.specs.Prelude.{◌≡◌, Some, nat_eq, refl};
ghost use Rattle.std.specs.Ordering.{nat_cmp};
ghost use Rattle.std.specs.Hash as fed;
ghost use Rattle.std.specs.Cmp.{partial_equiv_from_equiv, nat_eq_equiv, nat_cmp_total, unsigned_po, unsigned_ties};
ghost use Rattle.std.specs.Cmp.Rules.{hashing};
ghost use Rattle.std.proofs.Common.{rules};

use std::cmp::Ordering;
use std::fmt;
use std::hash::{Hash, Hasher};
use std::marker::Model;

/// A timestamp: a whole number of ticks, as the oracle counts them. The oracle's first is 1; 0
/// comes before all of them. Contracts see the number.
#[derive(Clone, Copy, Debug)]
pub struct Ts {
    ticks: u64,
}

impl Model for Ts {
    ghost use Rattle.std.specs.Prelude.{ℕ};

    ghost Value = { ℕ };

    ghost view = { λ t. t.ticks };

    ghost inverse = { λ n. record { ticks = n } };
}

impl Ts {
    /// The timestamp before all that the oracle gives.
    pub const ZERO: Ts = Ts { ticks: 0 };

    /// The timestamp of this number.
    pub fn new(ticks: u64) -> Ts
        ensures { result ≡ ticks }
    {
        Ts { ticks }
    }

    /// Its number.
    pub fn get(self) -> u64
        ensures { result ≡ self }
    {
        self.ticks
    }
}

impl fmt::Display for Ts {
    fn fmt<W: fmt::Write>(&self, f: &mut fmt::Formatter<W>) -> fmt::Result {
        write!(f, "{}", self.ticks)
    }
}

impl PartialEq for Ts {
    ghost eq = { nat_eq };

    ghost laws = { partial_equiv_from_equiv nat_eq_equiv };

    fn eq(&self, other: &Ts) -> bool {
        self.ticks == other.ticks
    }
}

impl Eq for Ts {
    ghost laws = { nat_eq_equiv };
}

impl PartialOrd for Ts {
    ghost partial_cmp = { λ x y. Some (nat_cmp x y) };

    ghost laws = { unsigned_po };

    fn partial_cmp(&self, other: &Ts) -> Option<Ordering> {
        Some(self.cmp(other))
    }
}

impl Ord for Ts {
    ghost cmp = { nat_cmp };

    ghost total = { nat_cmp_total };

    ghost matches_partial_cmp = { λ x y. refl };

    ghost matches_eq = { unsigned_ties };

    // The greater comes first: a search that goes on while it is greater is then one test a key.
    fn cmp(&self, other: &Ts) -> Ordering {
        if self.ticks > other.ticks {
            Ordering::Greater
        } else if self.ticks == other.ticks {
            Ordering::Equal
        } else {
            Ordering::Less
        }
    }
}

impl Hash for Ts {
    ghost hash_input = { fed.u64 };

    ghost respects_eq = { Prim.search (hashing, rules) };

    fn hash<H: Hasher>(&self, state: &mut H) {
        self.ticks.hash(state);
    }
}
