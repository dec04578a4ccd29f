//! Who put each value.
ghost use Rattle.std.specs.Prelude.{◌≡◌, ℕ, ◌+◌, ◌<◌, length, None, Some, IfOk, IfSome, IfNone};
ghost use Rattle.tx_recording.specs.Explanations.{Puts};
ghost use Rattle.tx_recording.specs.Recordings.{IsRecording, txns_of, ops_of};
ghost use Rattle.tx_views.specs.Owners.{IsOwned, IsTwice, IsOwnerOf, KeepsOwners, Notes, owner_at};

use std::alloc::{AllocError, Global};
use tx_recording::{Act, Recording};

/// The transaction that put a value, and the place of the operation among its own.
#[derive(Clone, Copy, Debug, PartialEq, Eq)]
pub struct Owner {
    pub txn: u32,
    pub place: u32,
}

/// A value that is put twice.
#[derive(Clone, Copy, Debug, PartialEq, Eq)]
pub struct Twice {
    pub value: u32,
    pub first: Owner,
    pub second: Owner,
}

/// Who put the values of a recording.
#[derive(Debug, Drop)]
pub enum Owned {
    /// By the number of the value.
    Once(Vec<Option<Owner>>),
    /// This one is put twice.
    Twice(Twice),
}

// The value that an act puts.
fn value_of(act: Act) -> Option<u32>
    ensures some { IfSome result (Puts act) }
    ensures none { IfNone result ((v : ℕ) → Puts act v → ⊥) }
{
    match act {
        Act::Append(value) => Some(value),
        Act::Write(value) => Some(value),
        Act::Read(_) => None,
    }
}

// Notes who put the values of a transaction, or finds one that was put before.
fn note(table: &mut Vec<Option<Owner>>, recording: &Recording, txn: u32) -> Option<Twice>
    requires recording { IsRecording recording.now }
    requires within { txn < txns_of recording.now }
    requires each { length table.old.items ≡ recording.now.values }
    requires only { (v : ℕ) (o : Owner) → owner_at table.old.items v ≡ Some o → IsOwnerOf recording.now v o }
    requires early { (v : ℕ) (o : Owner) → owner_at table.old.items v ≡ Some o → o.txn < txn }
    ensures each { IfNone result (length table.new.items ≡ length table.old.items) }
    ensures early { IfNone result ((v : ℕ) (o : Owner) → owner_at table.new.items v ≡ Some o → o.txn < txn + 1) }
    ensures kept { IfNone result (KeepsOwners table.old.items table.new.items) }
    ensures noted { IfNone result (Notes recording.now table.new.items txn (length (ops_of recording.now txn))) }
    ensures only { IfNone result ((v : ℕ) (o : Owner) → owner_at table.new.items v ≡ Some o
        → IsOwnerOf recording.now v o) }
    ensures twice { IfSome result (IsTwice recording.now) }
{
    let ops = recording.ops_of(txn as usize);
    for place in 0..ops.len() {
        let Some(value) = value_of(ops[place].act) else {
            continue;
        };
        let second = Owner {
            txn,
            place: place as u32,
        };
        if let Some(first) = table[value as usize] {
            return Some(Twice {
                value,
                first,
                second,
            });
        }
        table[value as usize] = Some(second);
    }
    None
}

/// Who put each value of a recording.
pub fn owners(alloc: Global, recording: &Recording) -> Result<Owned, AllocError>
    requires { IsRecording recording.now }
    ensures { IfOk result (IsOwned recording.now) }
{
    let mut table = vec![in alloc; None; recording.values as usize]?;
    for txn in 0..recording.transactions.len() {
        if let Some(twice) = note(&mut table, recording, txn as u32) {
            return Ok(Owned::Twice(twice));
        }
    }
    Ok(Owned::Once(table))
}
