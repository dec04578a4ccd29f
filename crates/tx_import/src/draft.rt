//! A recording as its lines come.
ghost use Rattle.std.specs.Prelude.{◌≡◌, ◌≤◌, ◌<◌, ◌+◌, ◌^◌, ◌++◌, ◌∷◌, ◌↔◌, [], ℕ, List, All, length, slice_range, IfOk, OnOk, IsTrue};
ghost use Rattle.tx_import.specs.Numbers.{Grows, AreValuesOf, IsActSaid, IsProcessSaid, reads_list, are_lists};
ghost use Rattle.tx_import.specs.Drafts.{width, weight, held, GrowsDraft, FitsOps, FitsDraft, AddsOps, AddsTransaction, IsDraftOf};

use crate::line_content::{SaidAct, SaidOp, SaidTransaction};
use crate::name::{Name, Scalar};
use crate::names::{Names, Values};
use std::alloc::{AllocError, Global};
use tx_recording::{Act, RecordedOp, RecordedTransaction, Span};

/// The numbers of keys, of their values, and of processes, and which reads are of lists.
#[derive(Drop)]
pub struct Tables {
    pub keys: Names,
    pub values: Values,
    pub processes: Names,
    /// By operation: whether it is a read of a list.
    pub lists: Vec<bool>,
}

/// A recording, as far as its lines were read.
#[derive(Drop)]
pub(crate) struct Draft {
    pub(crate) transactions: Vec<RecordedTransaction>,
    pub(crate) ops: Vec<RecordedOp>,
    pub(crate) elements: Vec<u32>,
    pub(crate) tables: Tables,
}

// Adds the values that a read of a key found.
fn put_values(
    values: &mut Values,
    elements: &mut Vec<u32>,
    key: u32,
    found: &[Scalar],
) -> Result<(), AllocError>
    requires few { length values.old + length found.now < 2 ^ 32 }
    ensures said { OnOk result ((ns : List ℕ) × (elements.new.items ≡ elements.old.items ++ ns)
        × AreValuesOf values.new key ns found.now) }
    ensures grows { OnOk result (Grows values.old values.new) }
    ensures few { OnOk result (length values.new ≤ length values.old + length found.now) }
    ensures within { OnOk result (All (λ v. v < length values.old) elements.old.items
        → All (λ v. v < length values.new) elements.new.items) }
{
    for value in found {
        let number = values.number(key, value)?;
        elements.push(number as u32)?;
    }
    Ok(())
}

// Adds a read of a key.
fn put_read(
    values: &mut Values,
    elements: &mut Vec<u32>,
    key: u32,
    found: &[Scalar],
) -> Result<Span, AllocError>
    requires values { length values.old + length found.now < 2 ^ 32 }
    requires elements { length elements.old.items + length found.now < 2 ^ 32 }
    ensures upto { IfOk result (λ span. span.first + span.count ≡ length elements.new.items) }
    ensures said { IfOk result (λ span. AreValuesOf values.new key
        (slice_range elements.new.items span.first (span.first + span.count)) found.now) }
    ensures grows { OnOk result (Grows elements.old.items elements.new.items) }
    ensures values { OnOk result (Grows values.old values.new) }
    ensures few { OnOk result (length values.new ≤ length values.old + length found.now) }
    ensures elements { OnOk result (length elements.new.items ≡ length elements.old.items + length found.now) }
    ensures within { OnOk result (All (λ v. v < length values.old) elements.old.items
        → All (λ v. v < length values.new) elements.new.items) }
{
    let first = elements.len() as u32;
    let count = found.len() as u32;
    put_values(values, elements, key, found)?;
    Ok(Span { first, count })
}

// Adds what an operation did with a key.
fn put_act(
    values: &mut Values,
    elements: &mut Vec<u32>,
    key: u32,
    said: &SaidAct,
) -> Result<Act, AllocError>
    requires values { length values.old + width said.now + 1 < 2 ^ 32 }
    requires elements { length elements.old.items + width said.now < 2 ^ 32 }
    ensures said { IfOk result (λ act. IsActSaid values.new elements.new.items key act said.now) }
    ensures grows { OnOk result (Grows elements.old.items elements.new.items) }
    ensures values { OnOk result (Grows values.old values.new) }
    ensures few { OnOk result (length values.new ≤ length values.old + width said.now + 1) }
    ensures elements { OnOk result (length elements.new.items ≡ length elements.old.items + width said.now) }
    ensures within { OnOk result (All (λ v. v < length values.old) elements.old.items
        → All (λ v. v < length values.new) elements.new.items) }
{
    match said {
        SaidAct::Append(value) => Ok(Act::Append(values.number(key, value)? as u32)),
        SaidAct::Write(value) => Ok(Act::Write(values.number(key, value)? as u32)),
        SaidAct::Read(found) => Ok(Act::Read(put_read(values, elements, key, found.as_slice())?)),
        SaidAct::ReadList(found) => Ok(Act::Read(put_read(
            values,
            elements,
            key,
            found.as_slice(),
        )?)),
    }
}

// The number of a process, where there is one.
fn process_number(processes: &mut Names, said: &Option<Name>) -> Result<Option<u32>, AllocError>
    requires { length processes.old < 2 ^ 31 }
    ensures said { IfOk result (λ process. IsProcessSaid processes.new process said.now) }
    ensures grows { OnOk result (Grows processes.old processes.new) }
    ensures few { OnOk result (length processes.new ≤ length processes.old + 1) }
{
    match said {
        None => Ok(None),
        Some(name) => Ok(Some(processes.number(name)? as u32)),
    }
}

impl Draft {
    /// Nothing yet.
    pub(crate) fn new(alloc: Global) -> Draft
        ensures none { IsDraftOf result [] }
        ensures counted { length result.transactions.items ≡ 0 }
        ensures held { held result ≡ 0 }
        ensures fits { FitsDraft result }
    {
        Draft {
            transactions: Vec::new(alloc),
            ops: Vec::new(alloc),
            elements: Vec::new(alloc),
            tables: Tables {
                keys: Names::new(alloc),
                values: Values::new(alloc),
                processes: Names::new(alloc),
                lists: Vec::new(alloc),
            },
        }
    }

    /// Whether there is room for these operations.
    pub(crate) fn has_room(&self, said: &[SaidOp]) -> bool
        requires { FitsDraft self.now }
        ensures { IsTrue result ↔ (held self.now + weight said.now < 2 ^ 32) }
    {
        let mut room = 0xffff_ffff - (self.ops.len() + self.elements.len());
        for op in said {
            let width = op.act.width();
            if width >= room {
                return false;
            }
            room -= width + 1;
        }
        true
    }

    // Adds an operation.
    fn put_op(&mut self, said: &SaidOp) -> Result<(), AllocError>
        requires fits { FitsOps self.old }
        requires few { held self.old + (1 + width said.now.act) < 2 ^ 32 }
        ensures said { OnOk result (AddsOps self.old self.new (said.now ∷ [])) }
        ensures lists { OnOk result (self.new.tables.lists.items
            ≡ self.old.tables.lists.items ++ reads_list said.now.act ∷ []) }
        ensures grows { OnOk result (GrowsDraft self.old self.new) }
        ensures fits { OnOk result (FitsOps self.new) }
        ensures held { OnOk result (held self.new ≡ held self.old + (1 + width said.now.act)) }
        ensures same { OnOk result (self.new.transactions ≡ self.old.transactions) }
        ensures processes { OnOk result (self.new.tables.processes ≡ self.old.tables.processes) }
    {
        let key = self.tables.keys.number(&said.key)? as u32;
        let act = put_act(&mut self.tables.values, &mut self.elements, key, &said.act)?;
        self.tables.lists.push(said.act.reads_list())?;
        self.ops.push(RecordedOp { key, act })?;
        Ok(())
    }

    // Adds operations.
    fn put_ops(&mut self, said: &[SaidOp]) -> Result<(), AllocError>
        requires fits { FitsOps self.old }
        requires few { held self.old + weight said.now < 2 ^ 32 }
        ensures said { OnOk result (AddsOps self.old self.new said.now) }
        ensures lists { OnOk result (self.new.tables.lists.items
            ≡ self.old.tables.lists.items ++ are_lists said.now) }
        ensures grows { OnOk result (GrowsDraft self.old self.new) }
        ensures fits { OnOk result (FitsOps self.new) }
        ensures held { OnOk result (held self.new ≡ held self.old + weight said.now) }
        ensures same { OnOk result (self.new.transactions ≡ self.old.transactions) }
        ensures processes { OnOk result (self.new.tables.processes ≡ self.old.tables.processes) }
    {
        for op in said {
            self.put_op(op)?;
        }
        Ok(())
    }

    /// Adds a transaction.
    pub(crate) fn put(&mut self, said: &SaidTransaction) -> Result<(), AllocError>
        requires fits { FitsDraft self.old }
        requires few { held self.old + weight said.now.ops < 2 ^ 32 }
        requires transactions { length self.old.transactions.items < 2 ^ 30 }
        ensures said { OnOk result (AddsTransaction self.old self.new said.now) }
        ensures grows { OnOk result (GrowsDraft self.old self.new) }
        ensures fits { OnOk result (FitsDraft self.new) }
        ensures held { OnOk result (held self.new ≡ held self.old + weight said.now.ops) }
    {
        let process = process_number(&mut self.tables.processes, &said.process)?;
        let first = self.ops.len() as u32;
        self.put_ops(said.ops.as_slice())?;
        let upto = self.ops.len() as u32;
        self.transactions.push(RecordedTransaction {
            id: said.id,
            outcome: said.outcome,
            process,
            began: said.began,
            ended: said.ended,
            first,
            upto,
        })?;
        Ok(())
    }
}
