//! Lists, which contracts see as lists.
ghost use Rattle.std.specs.Prelude.{◌≡◌, ◌++◌, ◌∷◌, [], ◌<◌, ◌≤◌, length, IfOk, IfErr, OnOk, OnErr};

use crate::fault::Fault;
use crate::key::Key;
use crate::limits::MAX_SECONDARIES;
use crate::mutation::{Change, KeyValue};
use std::alloc::Global;
use std::marker::Model;

/// A list. Contracts see its items.
#[derive(Clone, Debug, Drop)]
pub struct Items<T> {
    items: Vec<T>,
}

impl<T> Model for Items<T> {
    ghost use Rattle.std.specs.Prelude.{List};

    ghost Value = { List T };

    ghost view = { λ l. l.items.items };
}

impl<T: Drop> Items<T> {
    /// The empty list.
    pub fn new(alloc: Global) -> Items<T>
        ensures { result ≡ [] }
    {
        Items {
            items: Vec::new(alloc),
        }
    }

    /// The empty list, with room for so many items. `OutOfMemory` where there is none.
    pub fn with_capacity(alloc: Global, count: usize) -> Result<Items<T>, Fault>
        ensures ok { IfOk result (λ list. list ≡ []) }
        ensures err { IfErr result (λ e. e ≡ Fault.OutOfMemory) }
    {
        let items = Vec::with_capacity(alloc, count)?;
        Ok(Items { items })
    }

    /// The list of what a `Vec` holds.
    pub fn from_vec(items: Vec<T>) -> Items<T>
        ensures { result ≡ items.items }
    {
        Items { items }
    }

    /// The items, as a `Vec`, whose room contracts see.
    pub fn into_vec(self) -> Vec<T>
        ensures { result.items ≡ self }
    {
        self.items
    }

    /// Adds one at the end. `OutOfMemory` leaves the list as it was.
    pub fn push(&mut self, item: T) -> Result<(), Fault>
        ensures ok { OnOk result (self.new ≡ self.old ++ item ∷ []) }
        ensures same { OnErr result (self.new ≡ self.old) }
        ensures err { IfErr result (λ e. e ≡ Fault.OutOfMemory) }
    {
        self.items.push(item)?;
        Ok(())
    }

    /// The items, in order.
    pub fn as_slice(&self) -> &[T]
        ensures { result.now ≡ self.now }
    {
        self.items.as_slice()
    }
}

/// A write set, in the order in which its keys were first touched.
pub type Changes = Items<Change>;

/// The rows of a scan.
pub type KeyValues = Items<KeyValue>;

/// The other keys of an async transaction, at most 255, which the lock of its primary lists.
#[derive(Clone, Debug, Drop)]
pub struct Secondaries {
    keys: Items<Key>,
}

impl Model for Secondaries {
    ghost use Rattle.std.specs.Prelude.{List, ℕ, ◌≤◌, length};
    ghost use Rattle.tx_types.specs.declared.limits.TheConstants.{MAX_SECONDARIES};

    ghost Value = { List (List ℕ) };

    ghost view = { λ l. l.keys };

    ghost invariant = { λ l. length l.keys ≤ MAX_SECONDARIES };
}

impl Secondaries {
    /// The empty list.
    pub fn new(alloc: Global) -> Secondaries
        ensures { result ≡ [] }
    {
        Secondaries {
            keys: Items::new(alloc),
        }
    }

    /// The empty list, with room for so many keys. `OutOfMemory` where there is none.
    pub fn with_capacity(alloc: Global, count: usize) -> Result<Secondaries, Fault>
        ensures ok { IfOk result (λ list. list ≡ []) }
        ensures err { IfErr result (λ e. e ≡ Fault.OutOfMemory) }
    {
        let keys = Items::with_capacity(alloc, count)?;
        Ok(Secondaries { keys })
    }

    /// Adds one at the end. `OutOfMemory` leaves the list as it was.
    pub fn push(&mut self, key: Key) -> Result<(), Fault>
        requires { length self.old < MAX_SECONDARIES }
        ensures ok { OnOk result (self.new ≡ self.old ++ key ∷ []) }
        ensures same { OnErr result (self.new ≡ self.old) }
        ensures err { IfErr result (λ e. e ≡ Fault.OutOfMemory) }
    {
        self.keys.push(key)
    }

    /// How many keys there are.
    pub fn len(&self) -> usize
        ensures len { result ≡ length self.now }
        ensures few { result ≤ MAX_SECONDARIES }
    {
        self.keys.as_slice().len()
    }

    /// The keys, in order.
    pub fn as_slice(&self) -> &[Key]
        ensures { result.now ≡ self.now }
    {
        self.keys.as_slice()
    }
}
