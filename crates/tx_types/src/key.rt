//! Keys.
ghost use Rattle.std.specs.Prelude.{◌≡◌, ◌⊎◌, ◌↔◌, ◌++◌, false, replicate, take, Some, nat_eq, refl, IfOk, IfErr, IsErrOf};
ghost use Rattle.std.specs.Ordering.{nat_cmp};
ghost use Rattle.std.specs.Hash as fed;
ghost use Rattle.std.specs.Cmp.Lexicographic.{pointwise, slice_cmp, nat_list_eq_equiv, nat_list_cmp_total, texts_ties, texts_po};
ghost use Rattle.std.specs.Cmp.{partial_equiv_from_equiv};
ghost use Rattle.std.specs.Cmp.Rules.{hashing};
ghost use Rattle.std.proofs.Common.{rules};
ghost use Rattle.tx_types.specs.Fronts.{AreBytes, front};
ghost use Rattle.tx_types.specs.Lengths.{IsKey, is_key as key_test};

use crate::fault::Fault;
use crate::fields::escape;
use crate::limits::{MAX_KEY_BYTES, MIN_KEY_BYTES};
use crate::order::order;
use crate::text::Text;
use std::alloc::Global;
use std::cmp::Ordering;
use std::fmt;
use std::hash::{Hash, Hasher};
use std::marker::Model;

/// Whether a key is of these bytes: whether they are 1 to 512.
pub fn is_key(bytes: &[u8]) -> bool
    ensures { result ≡ key_test bytes.now }
{
    bytes.len() >= MIN_KEY_BYTES && bytes.len() <= MAX_KEY_BYTES
}

// For proofs: each number of a slice of bytes is a byte.
fn know_bytes(bytes: &[u8])
    ensures { AreBytes bytes.now }
{
    let _ = bytes;
}

/// A key of 1 to 512 bytes, ordered as its bytes are. A copy of a long one shares them.
/// Contracts see the bytes.
#[derive(Clone, Debug, Drop)]
pub struct Key {
    text: Text,
}

impl Model for Key {
    ghost use Rattle.std.specs.Prelude.{List, ℕ};
    ghost use Rattle.tx_types.specs.Lengths.{IsKey};

    ghost Value = { List ℕ };

    ghost view = { λ k. k.text };

    ghost invariant = { λ k. IsKey k.text };

    ghost inverse = { λ bs. record { text = bs } };
}

impl Key {
    /// The key of these bytes. `KeyLength` where they are fewer than 1 or more than 512,
    /// `OutOfMemory` where there is no room for a copy of them.
    pub fn new(alloc: Global, bytes: &[u8]) -> Result<Key, Fault>
        ensures ok { IfOk result (λ key. key ≡ bytes.now) }
        ensures length { IsErrOf result Fault.KeyLength ↔ (key_test bytes.now ≡ false) }
        ensures err { IfErr result (λ e. (e ≡ Fault.KeyLength) ⊎ (e ≡ Fault.OutOfMemory)) }
    {
        if !is_key(bytes) {
            return Err(Fault::KeyLength);
        }
        let text = Text::new(alloc, bytes)?;
        Ok(Key { text })
    }

    /// Its bytes.
    pub fn as_bytes(&self) -> &[u8]
        ensures value { result.now ≡ self.now }
        ensures within { IsKey result.now }
    {
        self.text.as_slice()
    }

    /// Its first eight bytes, with zeros behind them where it has fewer.
    pub fn first_eight(&self) -> [u8; 8]
        ensures { result ≡ take 8 (self.now ++ replicate 8 0) }
    {
        self.text.first_eight()
    }

    /// The number that its first eight bytes spell, where zeros stand behind them.
    pub fn front(&self) -> u64
        ensures value { result ≡ front self.now }
        ensures bytes { AreBytes self.now }
    {
        know_bytes(self.as_bytes());
        u64::from_be_bytes(self.first_eight())
    }

    /// A copy, which shares its bytes where they are many.
    pub fn clone(&self) -> Result<Key, Fault>
        ensures ok { IfOk result (λ copy. copy ≡ self.now) }
        ensures err { IfErr result (λ e. e ≡ Fault.OutOfMemory) }
    {
        Ok(Clone::clone(self)?)
    }
}

impl fmt::Display for Key {
    fn fmt<W: fmt::Write>(&self, f: &mut fmt::Formatter<W>) -> fmt::Result {
        escape(self.as_bytes(), f)
    }
}

impl PartialEq for Key {
    ghost eq = { pointwise nat_eq };

    ghost laws = { partial_equiv_from_equiv nat_list_eq_equiv };

    fn eq(&self, other: &Key) -> bool {
        self.text == other.text
    }
}

impl Eq for Key {
    ghost laws = { nat_list_eq_equiv };
}

impl PartialOrd for Key {
    ghost partial_cmp = { λ x y. Some (slice_cmp nat_cmp x y) };

    ghost laws = { texts_po };

    fn partial_cmp(&self, other: &Key) -> Option<Ordering> {
        Some(self.cmp(other))
    }
}

impl Ord for Key {
    ghost cmp = { slice_cmp nat_cmp };

    ghost total = { nat_list_cmp_total };

    ghost matches_partial_cmp = { λ x y. refl };

    ghost matches_eq = { texts_ties };

    // Mostly the first eight bytes decide.
    fn cmp(&self, other: &Key) -> Ordering {
        let front = self.front();
        let others = other.front();
        if front > others {
            return Ordering::Greater;
        }
        if front < others {
            return Ordering::Less;
        }
        order(self.as_bytes(), other.as_bytes())
    }
}

impl Hash for Key {
    ghost hash_input = { fed.slice fed.u8 };

    ghost respects_eq = { Prim.search (hashing, rules) };

    fn hash<H: Hasher>(&self, state: &mut H) {
        self.as_bytes().hash(state);
    }
}
