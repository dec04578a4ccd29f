//! Transactions that are declared and not decided: what each still waits for.
ghost use Rattle.std.specs.Prelude.{◌≡◌, ◌≢◌, true, is_some, IfOk, IfErr};
ghost use Rattle.std.specs.BTreeMap as tree;
ghost use Rattle.std.specs.Ordering.{nat_cmp};
ghost use Rattle.tx_types.specs.declared.key.Key.{Key};
ghost use Rattle.tx_machine.specs.Keys.{mutation_at};
ghost use Rattle.tx_trace.specs.Pending.{has, IsFirst, TakesOutKey, Completes, Accepts, AcceptsIn};

use std::alloc::Global;
use std::collections::{BTreeMap, BTreeSet};
use tx_core::Declaration;
use tx_types::{Fault, Key, Mode, Ts};

/// The locks of an async transaction.
#[derive(Drop)]
pub(crate) struct Locks {
    /// The keys that are not accepted yet.
    pub left: BTreeSet<Key>,
    /// The greatest minimum of those that are.
    pub min: Ts,
}

/// What a declared transaction that is not decided waits for.
#[derive(Drop)]
pub(crate) enum Pending {
    /// The commit of its primary: it was declared two-phase, or some key has a two-phase lock.
    Primary,
    /// An async lock on each key.
    Locks(Locks),
}

// The keys of a write set.
fn keys_of(alloc: Global, of: &Declaration) -> Result<BTreeSet<Key>, Fault>
    ensures ok { IfOk result (λ keys. (k : Key) → has keys k ≡ is_some (mutation_at of.now.changes k)) }
    ensures err { IfErr result (λ e. e ≡ Fault.OutOfMemory) }
{
    let mut keys = BTreeSet::new(alloc);
    for change in of.changes.as_slice() {
        keys.insert(change.key.clone()?)?;
    }
    Ok(keys)
}

impl Locks {
    // A key is accepted that was left. The commit timestamp of the transaction,
    // where no key is left.
    fn take(&mut self, key: &Key, min: Ts) -> Option<Ts>
        requires left { has self.old.left key.now ≡ true }
        requires minimum { min ≢ 0 }
        ensures takes { TakesOutKey self.old key.now min self.new }
        ensures completes { Completes self.new result }
    {
        self.left.remove(key);
        self.min = Ts::new(self.min.get().max(min.get()));
        if self.left.is_empty() {
            Some(self.min)
        } else {
            None
        }
    }
}

impl Pending {
    /// What a transaction waits for that has just declared this.
    pub fn new(alloc: Global, of: &Declaration) -> Result<Pending, Fault>
        ensures ok { IfOk result (IsFirst of.now) }
        ensures err { IfErr result (λ e. e ≡ Fault.OutOfMemory) }
    {
        match of.mode {
            Mode::TwoPhase => Ok(Pending::Primary),
            Mode::Async => Ok(Pending::Locks(Locks {
                left: keys_of(alloc, of)?,
                min: Ts::ZERO,
            })),
        }
    }

    /// The key is accepted with this minimum, 0 of a two-phase lock. Where it was accepted before,
    /// nothing changes. The commit timestamp of the transaction, where that completes it.
    pub fn accept(&mut self, key: &Key, min: Ts) -> Option<Ts>
        ensures { Accepts self.old key.now min self.new result }
    {
        let Pending::Locks(locks) = self else {
            return None;
        };
        if !locks.left.contains(key) {
            return None;
        }
        if min == Ts::ZERO {
            *self = Pending::Primary;
            return None;
        }
        locks.take(key, min)
    }
}

/// A key of a transaction is accepted, if the transaction is kept. Its commit timestamp, where
/// that completes it.
pub(crate) fn accept_in(
    kept: &mut BTreeMap<Ts, Pending>,
    start: Ts,
    key: &Key,
    min: Ts,
) -> Option<Ts>
    ensures { AcceptsIn start key.now min (tree.get nat_cmp kept.old) (tree.get nat_cmp kept.new) result }
{
    match kept.get_mut(&start) {
        Some(pending) => pending.accept(key, min),
        None => None,
    }
}
