//! What is shown of a key.
ghost use Rattle.std.specs.Prelude.{◌≡◌, ◌↔◌, ℕ, Some, Contains, IfOk, IfErr, option_map};
ghost use Rattle.tx_plan.specs.declared.view.RecordHead.{RecordHead};
ghost use Rattle.tx_plan.specs.Cells.{Cells};
ghost use Rattle.tx_cells.specs.declared.copies.KeyVersions.{KeyVersions};
ghost use Rattle.tx_cells.specs.Heads.{write_head};
ghost use Rattle.tx_cells.specs.Histories.{AreFitting};
ghost use Rattle.tx_cells.specs.Copies.{Copies, AreFalling, times_of};

use crate::history::History;
use std::alloc::Global;
use std::marker::Model;
use tx_plan::{LockHead, RecordHead};
use tx_types::{Fault, Items, Ts};

/// The head of a write record, and its timestamp.
#[derive(Clone, Copy, Debug)]
pub struct RecordAt {
    pub at: Ts,
    pub head: RecordHead,
}

/// What is shown of a key.
#[derive(Debug, Drop)]
pub struct KeyVersions {
    pub lock: Option<LockHead>,
    /// The write records, from the newest on.
    pub records: Items<RecordAt>,
    /// The starts of the values that are kept apart from their records, from the newest on.
    pub values: Items<Ts>,
}

/// Such a copy in memory of its own, so that a reply that may show a key is small. Contracts see
/// what is shown.
#[derive(Debug, Drop)]
pub struct ShownKey {
    copy: Box<KeyVersions>,
}

impl Model for ShownKey {
    ghost use Rattle.tx_cells.specs.declared.copies.KeyVersions.{KeyVersions};

    ghost Value = { KeyVersions };

    ghost view = { λ s. s.copy.value };
}

impl ShownKey {
    /// This copy.
    pub fn new(alloc: Global, copy: KeyVersions) -> Result<ShownKey, Fault>
        ensures ok { IfOk result (λ shown. shown ≡ copy) }
        ensures err { IfErr result (λ e. e ≡ Fault.OutOfMemory) }
    {
        let copy = Box::new(alloc, copy)?;
        Ok(ShownKey { copy })
    }

    /// The copy.
    pub fn copy(&self) -> &KeyVersions
        ensures { result.now ≡ self.now }
    {
        &self.copy
    }
}

/// Cells show one copy.
pub fn one_copy()
    ensures { (cells : Cells) (a b : KeyVersions) → Copies cells a → Copies cells b → a ≡ b }
{}

/// The heads of the write records of a key, from the newest on.
pub fn records_down<H: History>(alloc: Global, history: &mut H) -> Result<Items<RecordAt>, Fault>
    requires { AreFitting (H.writes history.old) }
    ensures fall { IfOk result (λ records. AreFalling (times_of records)) }
    ensures all { IfOk result (λ records. (at : ℕ) (head : RecordHead)
        → Contains records (record { at = at; head = head })
        ↔ (option_map write_head (H.writes history.old at) ≡ Some head)) }
    ensures same_key { H.key history.new ≡ H.key history.old }
    ensures err { IfErr result (λ e. e ≡ Fault.OutOfMemory) }
{
    let mut records = Items::new(alloc);
    let mut bound = u64::MAX;
    'records: loop {
        let Some(entry) = history.upto(Ts::new(bound)) else {
            return Ok(records);
        };
        let (at, head) = entry;
        records.push(RecordAt { at, head })?;
        if at.get() == 0 {
            return Ok(records);
        }
        bound = at.get() - 1;
    }
}
