//! The machine that commits each transaction in one step.
//!
//! It keeps of each number that was drawn how far its transaction has come, and of each transaction
//! that ended how. Commits are listed by key and commit timestamp, reads by key and by timestamp,
//! so that a step costs about the logarithm of what was before. A commit lists its versions first
//! and then ends the transaction: where memory is refused in between, the versions say nothing,
//! since their transaction is not committed. What follows, the reads that its inserts leave, takes
//! no memory.
ghost use Rattle.std.specs.Prelude.{◌≡◌, ◌↔◌, true, false, List, Option, Some, None, IsTrue, IfOk, IfErr, OnOk, OnErr, IsErrOf};
ghost use Rattle.std.specs.Ordering.{nat_cmp};
ghost use Rattle.std.specs.BTreeMap as tree;
ghost use Rattle.tx_machine.specs.Machine.{empty};
ghost use Rattle.tx_machine.specs.Shown.{Shows};
ghost use Rattle.tx_types.specs.declared.mutation.Change.{Change};
ghost use Rattle.tx_types.specs.declared.mutation.Fate.{Fate};
ghost use Rattle.tx_machine.specs.Representation.{Represents, Makes, Refuses, Keeps, row_of, state_of};

use crate::commit::{first_block, list_all, note_inserts};
use crate::reads::Reads;
use crate::scan::{Index, sees_rows};
use crate::sets::repeated;
use crate::span::span_of;
use crate::step::{ScanRead, Step};
use crate::versions::{Fates, seen};
use std::alloc::{AllocFailed, Global};
use std::collections::BTreeMap;
use tx_types::{Changes, Fate, Fault, Key, Ts, Value};

/// How far the transaction of a number that was drawn has come.
#[derive(Drop)]
pub(crate) enum TxnStage {
    Drawn,
    Begun,
    Declared(Changes),
}

/// The machine.
#[derive(Drop)]
pub struct Machine {
    pub(crate) alloc: Global,
    pub(crate) last: Ts,
    pub(crate) stages: BTreeMap<Ts, TxnStage>,
    pub(crate) fates: Fates,
    pub(crate) index: Index,
    pub(crate) reads: Reads,
}

/// Why a step is not made. The machine is as it was.
#[derive(Clone, Copy, Debug, PartialEq, Eq)]
pub enum Refused {
    /// The machine does not make this step now.
    Step,
    /// There was no room for what the step would leave.
    Memory,
}

impl<T: Drop> From<AllocFailed<T>> for Refused {
    ghost use Rattle.std.specs.Prelude.{◌≡◌};
    ghost use Rattle.tx_machine.specs.declared.machine.Refused.TheVariants.{Memory};

    ghost from_gives = { λ _ e. e ≡ Memory };

    fn from(_e: AllocFailed<T>) -> Refused {
        Refused::Memory
    }
}

impl From<Fault> for Refused {
    ghost use Rattle.std.specs.Prelude.{◌≡◌};
    ghost use Rattle.tx_machine.specs.declared.machine.Refused.TheVariants.{Memory};

    ghost from_gives = { λ _ e. e ≡ Memory };

    fn from(_e: Fault) -> Refused {
        Refused::Memory
    }
}

impl Machine {
    /// The machine before its first step.
    pub fn new(alloc: Global) -> Machine
        ensures { Represents result empty }
    {
        Machine {
            alloc,
            last: Ts::ZERO,
            stages: BTreeMap::new(alloc),
            fates: BTreeMap::new(alloc),
            index: BTreeMap::new(alloc),
            reads: Reads::new(alloc),
        }
    }

    /// Makes a step. `Refused::Step` where the machine's table does not admit it, `Refused::Memory`
    /// where there is no room; either way the machine is as it was. A step costs about the
    /// logarithm of the steps before it, for each key that it names or finds in its range.
    pub fn step(&mut self, step: &Step) -> Result<(), Refused>
        ensures ok { OnOk result (Makes self.old self.new step.now) }
        ensures refused { IsErrOf result Refused.Step → Refuses self.old step.now }
        ensures same { OnErr result (Keeps self.old self.new) }
    {
        match step {
            Step::Draw(n) => self.draw(*n),
            Step::Begin(t) => self.begin(*t),
            Step::Declare(t, set) => self.declare(*t, set),
            Step::Commit(t, c) => self.commit(*t, *c),
            Step::Abort(t) => self.abort(*t),
            Step::Read(key, at, found) => self.read(key, *at, found),
            Step::Scan(scan) => self.scan(scan),
            Step::Answer(t, fate) => self.answer(*t, *fate),
        }
    }

    fn draw(&mut self, n: Ts) -> Result<(), Refused>
        ensures ok { OnOk result (Makes self.old self.new (Step.Draw n)) }
        ensures refused { IsErrOf result Refused.Step → Refuses self.old (Step.Draw n) }
        ensures same { OnErr result (Keeps self.old self.new) }
    {
        if n <= self.last {
            return Err(Refused::Step);
        }
        self.stages.insert(n, TxnStage::Drawn)?;
        self.last = n;
        Ok(())
    }

    fn begin(&mut self, t: Ts) -> Result<(), Refused>
        ensures ok { OnOk result (Makes self.old self.new (Step.Begin t)) }
        ensures refused { IsErrOf result Refused.Step → Refuses self.old (Step.Begin t) }
        ensures same { OnErr result (Keeps self.old self.new) }
    {
        match self.stages.get_mut(&t) {
            Some(stage) => match stage {
                TxnStage::Drawn => *stage = TxnStage::Begun,
                _ => return Err(Refused::Step),
            },
            None => return Err(Refused::Step),
        }
        Ok(())
    }

    fn declare(&mut self, t: Ts, set: &Changes) -> Result<(), Refused>
        ensures ok { OnOk result (Makes self.old self.new (Step.Declare t set.now)) }
        ensures refused { IsErrOf result Refused.Step → Refuses self.old (Step.Declare t set.now) }
        ensures same { OnErr result (Keeps self.old self.new) }
    {
        if self.fates.get(&t).is_some() || set.as_slice().is_empty() {
            return Err(Refused::Step);
        }
        if repeated(self.alloc, set.as_slice())?.is_some() {
            return Err(Refused::Step);
        }
        match self.stages.get_mut(&t) {
            Some(stage) => match stage {
                TxnStage::Begun => *stage = declared(set)?,
                _ => return Err(Refused::Step),
            },
            None => return Err(Refused::Step),
        }
        Ok(())
    }

    fn abort(&mut self, t: Ts) -> Result<(), Refused>
        ensures ok { OnOk result (Makes self.old self.new (Step.Abort t)) }
        ensures refused { IsErrOf result Refused.Step → Refuses self.old (Step.Abort t) }
        ensures same { OnErr result (Keeps self.old self.new) }
    {
        if !has_begun(&self.stages, t) || self.fates.get(&t).is_some() {
            return Err(Refused::Step);
        }
        self.fates.insert(t, Fate::Aborted)?;
        Ok(())
    }

    fn read(&mut self, key: &Key, at: Ts, found: &Option<Value>) -> Result<(), Refused>
        ensures ok { OnOk result (Makes self.old self.new (Step.Read key.now at found.now)) }
        ensures refused { IsErrOf result Refused.Step → Refuses self.old (Step.Read key.now at found.now) }
        ensures same { OnErr result (Keeps self.old self.new) }
    {
        if at.get() > self.last.get() {
            return Err(Refused::Step);
        }
        if !shows(&self.index, &self.fates, key, at, found) {
            return Err(Refused::Step);
        }
        self.reads.add_key(key, at)?;
        Ok(())
    }

    fn commit(&mut self, t: Ts, c: Ts) -> Result<(), Refused>
        ensures ok { OnOk result (Makes self.old self.new (Step.Commit t c)) }
        ensures refused { IsErrOf result Refused.Step → Refuses self.old (Step.Commit t c) }
        ensures same { OnErr result (Keeps self.old self.new) }
    {
        let Some(TxnStage::Declared(set)) = self.stages.get(&t) else {
            return Err(Refused::Step);
        };
        let (start, commit) = (t.get(), c.get());
        if self.fates.get(&t).is_some() || commit <= start || commit - 1 > self.last.get() {
            return Err(Refused::Step);
        }
        if first_block(&self.index, &self.fates, &self.reads, t, c, set.as_slice()).is_some() {
            return Err(Refused::Step);
        }
        list_all(self.alloc, &mut self.index, t, c, set.as_slice())?;
        self.fates.insert(t, Fate::Committed(c))?;
        note_inserts(&mut self.index, t, set.as_slice());
        Ok(())
    }

    fn scan(&mut self, scan: &ScanRead) -> Result<(), Refused>
        ensures ok { OnOk result (Makes self.old self.new (Step.Scan scan.now)) }
        ensures refused { IsErrOf result Refused.Step → Refuses self.old (Step.Scan scan.now) }
        ensures same { OnErr result (Keeps self.old self.new) }
    {
        if scan.at.get() > self.last.get() {
            return Err(Refused::Step);
        }
        if !sees_rows(&self.index, &self.fates, scan) {
            return Err(Refused::Step);
        }
        if let Some(span) = span_of(scan)? {
            self.reads.add_span(self.alloc, span, scan.at)?;
        }
        Ok(())
    }

    fn answer(&mut self, t: Ts, fate: Fate) -> Result<(), Refused>
        ensures ok { OnOk result (Makes self.old self.new (Step.Answer t fate)) }
        ensures refused { IsErrOf result Refused.Step → Refuses self.old (Step.Answer t fate) }
        ensures same { OnErr result (Keeps self.old self.new) }
    {
        match self.fates.get(&t) {
            Some(ended) if *ended == fate => Ok(()),
            _ => Err(Refused::Step),
        }
    }
}

// Whether the transaction has begun: then it has a row, and else none.
fn has_begun(stages: &BTreeMap<Ts, TxnStage>, t: Ts) -> bool
    ensures some { result ≡ true → (changes : Option (List Change)) × ((fate : Option Fate)
        → row_of (tree.get nat_cmp stages.now t) fate ≡ Some record { changes = changes; state = state_of fate }) }
    ensures none { result ≡ false → (fate : Option Fate) → row_of (tree.get nat_cmp stages.now t) fate ≡ None }
{
    match stages.get(&t) {
        None | Some(TxnStage::Drawn) => false,
        Some(TxnStage::Begun) => true,
        Some(TxnStage::Declared(_)) => true,
    }
}

// The stage of a transaction that declares a write set.
fn declared(set: &Changes) -> Result<TxnStage, Fault>
    ensures ok { IfOk result (λ stage. stage ≡ TxnStage.Declared set.now) }
    ensures err { IfErr result (λ e. e ≡ Fault.OutOfMemory) }
{
    Ok(TxnStage::Declared(set.clone()?))
}

// Whether a read of the key at this timestamp gives this.
fn shows(index: &Index, fates: &Fates, key: &Key, at: Ts, found: &Option<Value>) -> bool
    ensures { IsTrue result ↔ Shows index.now fates.now key.now at found.now }
{
    match index.get(key) {
        None => found.is_none(),
        Some(history) => seen(&history.versions, fates, at) == found.as_ref(),
    }
}
