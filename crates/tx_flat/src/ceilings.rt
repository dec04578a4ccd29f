//! A timestamp for each key that no write record of it is above.
ghost use Rattle.std.specs.Prelude.{◌≡◌, ◌<◌, ◌≤◌, List, ℕ};
ghost use Rattle.tx_flat.specs.Ceilings.{slot_of, ceiling_of};
ghost use Rattle.tx_flat.specs.declared.ceilings.TheConstants.{SLOTS};

use std::marker::Model;
use tx_spelling::EncodedKey;
use tx_types::Ts;

/// How many timestamps are kept: keys share one where their last two bytes lead to one slot.
pub(crate) const SLOTS: usize = 64;

/// The slot of a key, by its last two bytes, in which numbered keys differ.
pub(crate) fn slot(key: &EncodedKey<'_>) -> usize
    ensures slot { result ≡ slot_of key.now }
    ensures within { result < SLOTS }
{
    let bytes = key.key().as_bytes();
    let last = bytes.len() - 1;
    (bytes[last] as usize + 10 * bytes[last.saturating_sub(1)] as usize) % SLOTS
}

/// A ceiling for each key. It only rises.
#[derive(Drop)]
pub(crate) struct Ceilings {
    marks: [Ts; SLOTS],
}

impl Model for Ceilings {
    ghost Value = { List ℕ };

    ghost view = { λ c. c.marks };
}

impl Ceilings {
    /// All at 0.
    pub fn new() -> Ceilings {
        Ceilings {
            marks: [Ts::ZERO; SLOTS],
        }
    }

    /// The ceiling of a key.
    pub fn of(&self, key: &EncodedKey<'_>) -> Ts
        ensures { result ≡ ceiling_of self.now key.now }
    {
        self.marks[slot(key)]
    }

    /// A record of this key is put at a timestamp.
    pub fn raise(&mut self, key: &EncodedKey<'_>, at: Ts)
        ensures kept { (k : List ℕ) → ceiling_of self.old k ≤ ceiling_of self.new k }
        ensures above { at ≤ ceiling_of self.new key.now }
    {
        let slot = slot(key);
        if self.marks[slot] < at {
            self.marks[slot] = at;
        }
    }
}
