//! Names of keys and processes, and values.
ghost use Rattle.std.specs.Prelude.{◌≡◌, ◌⊎◌, ◌↔◌, ◌<◌, ◌≤◌, length, nat_eq, IfOk, IfErr, IsErrOf};
ghost use Rattle.std.specs.Hash as fed;
ghost use Rattle.std.specs.Cmp.Lexicographic.{pointwise, nat_list_eq_equiv};
ghost use Rattle.std.specs.Cmp.{partial_equiv_from_equiv};
ghost use Rattle.std.specs.Cmp.Rules.{hashing};
ghost use Rattle.std.proofs.Common.{rules};
ghost use Rattle.tx_types.specs.declared.limits.TheConstants.{MAX_VALUE_BYTES};

use std::alloc::Global;
use std::hash::{Hash, Hasher};
use std::marker::Model;
use tx_types::{Fault, Key, Value};

/// What a history calls a key or a process: a string of 1 to 512 bytes, or a whole number.
#[derive(Clone, Debug, Drop, PartialEq, Eq, Hash)]
pub enum Name {
    Text(Key),
    Number(u64),
}

/// A string of at most 65,536 bytes that is a value. Contracts see the bytes.
#[derive(Clone, Debug, Drop)]
pub struct Words {
    value: Value,
}

impl Model for Words {
    ghost use Rattle.std.specs.Prelude.{List, ℕ, ◌≤◌, length};
    ghost use Rattle.tx_types.specs.declared.limits.TheConstants.{MAX_VALUE_BYTES};

    ghost Value = { List ℕ };

    ghost view = { λ w. w.value };

    ghost invariant = { λ w. length w.value ≤ MAX_VALUE_BYTES };

    ghost inverse = { λ bs. record { value = bs } };
}

impl Words {
    /// The string of these bytes. `ValueLength` where they are more than 65,536, `OutOfMemory`
    /// where there is no room for a copy of them.
    pub fn new(alloc: Global, bytes: &[u8]) -> Result<Words, Fault>
        ensures ok { IfOk result (λ words. words ≡ bytes.now) }
        ensures length { IsErrOf result Fault.ValueLength ↔ (MAX_VALUE_BYTES < length bytes.now) }
        ensures err { IfErr result (λ e. (e ≡ Fault.ValueLength) ⊎ (e ≡ Fault.OutOfMemory)) }
    {
        let value = Value::new(alloc, bytes)?;
        Ok(Words { value })
    }

    /// Its bytes.
    pub fn as_bytes(&self) -> &[u8]
        ensures value { result.now ≡ self.now }
        ensures within { length result.now ≤ MAX_VALUE_BYTES }
    {
        self.value.as_bytes()
    }
}

impl PartialEq for Words {
    ghost eq = { pointwise nat_eq };

    ghost laws = { partial_equiv_from_equiv nat_list_eq_equiv };

    fn eq(&self, other: &Words) -> bool {
        self.as_bytes() == other.as_bytes()
    }
}

impl Eq for Words {
    ghost laws = { nat_list_eq_equiv };
}

impl Hash for Words {
    ghost hash_input = { fed.slice fed.u8 };

    ghost respects_eq = { Prim.search (hashing, rules) };

    fn hash<H: Hasher>(&self, state: &mut H) {
        self.as_bytes().hash(state);
    }
}

/// A value of a key: a string of at most 65,536 bytes, a whole number from -2^63 to 2^64 - 1, or
/// true or false.
#[derive(Clone, Debug, Drop, PartialEq, Eq, Hash)]
pub enum Scalar {
    Text(Words),
    Number(u64),
    /// A whole number below 0.
    Negative(i64),
    Truth(bool),
}
