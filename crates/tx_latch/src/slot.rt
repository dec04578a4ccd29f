//! The slots over which latches are spread, and the slot of a key.
ghost use Rattle.std.specs.Prelude.{◌≡◌};
ghost use Rattle.tx_latch.specs.Slots.{slot_of_key};

use std::marker::Model;
use tx_types::Key;
use tx_types::limits::LATCH_SLOTS;

/// One of the 256 slots over which latches are spread. Contracts see its number.
#[derive(Clone, Copy, Debug, Default, PartialEq, Eq)]
pub struct Slot {
    number: u8,
}

impl Model for Slot {
    ghost use Rattle.std.specs.Prelude.{ℕ};

    ghost Value = { ℕ };

    ghost view = { λ s. s.number };

    ghost inverse = { λ n. record { number = n } };
}

impl Slot {
    /// The slot of this number.
    pub fn new(number: u8) -> Slot
        ensures { result ≡ number }
    {
        Slot { number }
    }

    /// Its number, from 0 to 255.
    pub fn get(self) -> u8
        ensures { result ≡ self }
    {
        self.number
    }
}

/// The slot of a key: h starts at 0, each byte of the key makes h the last eight bits of 31 h +
/// byte, and the last h is the slot.
pub fn slot_of(key: &Key) -> Slot
    ensures { result ≡ slot_of_key key.now }
{
    let mut hash: u32 = 0;
    for byte in key.as_bytes() {
        hash = (31 * hash + u32::from(*byte)) % LATCH_SLOTS as u32;
    }
    Slot::new(hash as u8)
}
