//! The numbers of names and of values.
ghost use Rattle.std.specs.Prelude.{◌≡◌, ◌≤◌, ◌+◌, [], length, slice_get, option_map, IfOk, OnOk};
ghost use Rattle.tx_import.specs.Numbers.{Grows, AreApart, IsNameOf, IsValueOf};

use crate::name::{Name, Scalar};
use indexmap::IndexSet;
use std::alloc::{AllocError, Global};
use std::marker::Model;

/// Names, each once, numbered as they came. Contracts see the list of them.
#[derive(Drop)]
pub struct Names {
    names: IndexSet<Name>,
}

impl Model for Names {
    ghost use Rattle.std.specs.Prelude.{List};
    ghost use Rattle.tx_import.specs.declared.name.Name.{Name};

    ghost Value = { List Name };

    ghost view = { λ t. t.names.keys };
}

impl Names {
    /// No names.
    pub fn new(alloc: Global) -> Names
        ensures { result ≡ [] }
    {
        Names {
            names: IndexSet::new(alloc),
        }
    }

    /// How many there are.
    pub fn len(&self) -> usize
        ensures len { result ≡ length self.now }
        ensures apart { AreApart self.now }
    {
        self.names.len()
    }

    /// The number of a name, which is added where it is new.
    pub fn number(&mut self, name: &Name) -> Result<usize, AllocError>
        ensures grows { OnOk result (Grows self.old self.new) }
        ensures named { IfOk result (λ n. IsNameOf self.new n name.now) }
        ensures few { OnOk result (length self.new ≤ length self.old + 1) }
    {
        let (number, _) = self.names.insert_full(name.clone()?)?;
        Ok(number)
    }

    /// The name of this number.
    pub fn get(&self, number: usize) -> Option<&Name>
        ensures { option_map (λ n. n.now) result ≡ slice_get self.now number }
    {
        self.names.get_index(number)
    }
}

/// A value that a key was given, or was said to have. The same at two keys is two values.
#[derive(Debug, Drop, PartialEq, Eq, Hash)]
pub struct KeyedValue {
    /// The number of the key.
    pub key: u32,
    pub value: Scalar,
}

/// Values of keys, each once, numbered as they came. Contracts see the list of them.
#[derive(Drop)]
pub struct Values {
    values: IndexSet<KeyedValue>,
}

impl Model for Values {
    ghost use Rattle.std.specs.Prelude.{List};
    ghost use Rattle.tx_import.specs.declared.names.KeyedValue.{KeyedValue};

    ghost Value = { List KeyedValue };

    ghost view = { λ t. t.values.keys };
}

impl Values {
    /// No values.
    pub fn new(alloc: Global) -> Values
        ensures { result ≡ [] }
    {
        Values {
            values: IndexSet::new(alloc),
        }
    }

    /// How many there are.
    pub fn len(&self) -> usize
        ensures len { result ≡ length self.now }
        ensures apart { AreApart self.now }
    {
        self.values.len()
    }

    /// The number of a key's value, which is added where it is new.
    pub fn number(&mut self, key: u32, value: &Scalar) -> Result<usize, AllocError>
        ensures grows { OnOk result (Grows self.old self.new) }
        ensures valued { IfOk result (λ n. IsValueOf self.new key n value.now) }
        ensures few { OnOk result (length self.new ≤ length self.old + 1) }
    {
        let value = value.clone()?;
        let (number, _) = self.values.insert_full(KeyedValue { key, value })?;
        Ok(number)
    }

    /// The value of this number.
    pub fn get(&self, number: usize) -> Option<&KeyedValue>
        ensures { option_map (λ n. n.now) result ≡ slice_get self.now number }
    {
        self.values.get_index(number)
    }
}
