//! The keys of a write buffer behind its first few: a table, which is made with the first of them.
ghost use Rattle.std.specs.Prelude.{◌≡◌, ◌<◌, ◌^◌, ◌⊎◌, ℕ, [], None, Some, false, length, slice_get, bytes_eq, IsSome, IfErr, IfOk, IfSome, OnOk, OnErr, option_map};
ghost use Rattle.std.specs.Map.Iter.{deref_pair};
ghost use Rattle.indexmap.specs.IndexMap.{insert_entry};
ghost use Rattle.tx_transaction.specs.Buffers.{buffered, progress_at, wants, with_progress};
ghost use Rattle.tx_transaction.specs.Heads.{IsSettled};
ghost use Rattle.tx_transaction.specs.Sessions.{marked_by, sent_by};
ghost use Rattle.tx_transaction.specs.Tables.{IsEmptyTable};

use crate::answers::mark;
use crate::settled::Settled;
use crate::state::{BufferEntry, Phase, Progress};
use indexmap::IndexMap;
use std::alloc::Global;
use std::marker::Model;
use tx_core::Answer;
use tx_types::{Fault, Key, Mutation};

/// The table, and what is settled of it.
#[derive(Debug, Drop)]
pub(crate) struct TableParts {
    entries: IndexMap<Key, BufferEntry>,
    /// Those of it, from the first on, of which a phase has nothing left to send.
    settled: Settled,
}

/// The keys of a write buffer behind its first few, in the order in which they were first touched;
/// they are found by their hashes. It stands in memory of its own and takes none while there is no
/// key, so that what holds it is small.
#[derive(Debug)]
pub(crate) struct KeyTable {
    parts: Option<Box<TableParts>>,
}

impl Model for KeyTable {
    ghost use Rattle.tx_transaction.specs.Buffers.{Entries};
    ghost use Rattle.tx_transaction.specs.Tables.{entries_in, AreSettledIn};

    ghost Value = { Entries };

    ghost view = { λ t. entries_in t.parts };

    ghost invariant = { λ t. AreSettledIn t.parts };
}

impl Drop for KeyTable {
    fn drop(self) {
        let Self { parts: _ } = self;
    }
}

// An empty table.
#[cold]
#[inline(never)]
fn empty_table(alloc: Global) -> Result<Box<TableParts>, Fault>
    ensures ok { IfOk result (λ b. IsEmptyTable b) }
    ensures err { IfErr result (λ e. e ≡ Fault.OutOfMemory) }
{
    let entries = IndexMap::new(alloc);
    let settled = Settled::NONE;
    Ok(Box::new(alloc, TableParts { entries, settled })?)
}

// Makes the table where there is none.
#[inline(always)]
fn make_table(parts: &mut Option<Box<TableParts>>, alloc: Global) -> Result<(), Fault>
    ensures made { OnOk result (IsSome parts.new) }
    ensures same { OnOk result ((parts.new ≡ parts.old)
        ⊎ ((parts.old ≡ None) × IfSome parts.new (λ b. IsEmptyTable b))) }
    ensures unmade { OnErr result (parts.new ≡ parts.old) }
    ensures err { IfErr result (λ e. e ≡ Fault.OutOfMemory) }
{
    if parts.is_none() {
        *parts = Some(empty_table(alloc)?);
    }
    Ok(())
}

impl TableParts {
    /// Sets how far the key at an index is, of which the phase sent a request.
    #[inline(always)]
    fn set_progress(&mut self, phase: Phase, i: usize, progress: Progress)
        requires { i < length self.old.entries.entries }
        ensures entries { self.new.entries.entries ≡ with_progress self.old.entries.entries i progress }
        ensures settled { IsSettled self.old.settled self.old.entries.entries
            → IsSettled self.new.settled self.new.entries.entries }
    {
        if let Some(entry) = self.entries.get_index_mut(i) {
            self.settled = self.settled.after(phase, i, &progress);
            entry.progress = progress;
        }
    }

    /// Marks what an answer says of the key at an index, of which the phase sent a request, where
    /// its progress is kept.
    #[inline(always)]
    fn mark(&mut self, phase: Phase, i: usize, answer: &Answer)
        requires { i < length self.old.entries.entries }
        ensures entries { self.new.entries.entries ≡ with_progress self.old.entries.entries i
            (marked_by phase answer.now (sent_by phase (progress_at self.old.entries.entries i))) }
        ensures settled { IsSettled self.old.settled self.old.entries.entries
            → IsSettled self.new.settled self.new.entries.entries }
    {
        if let Some(entry) = self.entries.get_index_mut(i) {
            mark(phase, answer, &mut entry.progress);
            self.settled = self.settled.after(phase, i, &entry.progress);
        }
    }
}

impl KeyTable {
    /// No keys. It takes no memory.
    pub(crate) fn new() -> KeyTable
        ensures { result ≡ [] }
    {
        KeyTable { parts: None }
    }

    /// How many keys there are.
    #[inline(always)]
    pub(crate) fn len(&self) -> usize
        ensures len { result ≡ length self.now }
        ensures small { result < 2 ^ 63 }
    {
        match &self.parts {
            Some(parts) => parts.entries.len(),
            None => 0,
        }
    }

    /// The key at an index, and what is done to it.
    #[inline(always)]
    pub(crate) fn get_index(&self, i: usize) -> Option<(&Key, &BufferEntry)>
        ensures { option_map deref_pair result ≡ slice_get self.now i }
    {
        match &self.parts {
            Some(parts) => parts.entries.get_index(i),
            None => None,
        }
    }

    /// What is done to a key, where it is there.
    #[inline(always)]
    pub(crate) fn find(&self, key: &Key) -> Option<&Mutation>
        ensures { option_map (λ m. m.now) result ≡ buffered self.now key.now }
    {
        let Some(parts) = &self.parts else {
            return None;
        };
        match parts.entries.get(key) {
            Some(entry) => Some(&entry.mutation),
            None => None,
        }
    }

    /// Sets what is done to a key, and how far it is. A key that is there keeps its place.
    #[inline(always)]
    pub(crate) fn insert(
        &mut self,
        alloc: Global,
        key: Key,
        entry: BufferEntry,
    ) -> Result<(), Fault>
        ensures ok { OnOk result (self.new ≡ insert_entry bytes_eq self.old key entry) }
        ensures same { OnErr result (self.new ≡ self.old) }
        ensures err { IfErr result (λ e. e ≡ Fault.OutOfMemory) }
    {
        make_table(&mut self.parts, alloc)?;
        match &mut self.parts {
            Some(parts) => {
                parts.entries.insert(key, entry)?;
                parts.settled = Settled::NONE;
                Ok(())
            }
            None => unreachable!(),
        }
    }

    /// How many of its keys, from the first on, a phase is known to have nothing left to send of.
    #[inline(always)]
    pub(crate) fn settled(&self, phase: Phase) -> usize
        ensures { (k : ℕ) → k < result → wants phase (progress_at self.now k) ≡ false }
    {
        match &self.parts {
            Some(parts) => parts.settled.keys(phase),
            None => 0,
        }
    }

    /// Sets how far the key at an index is, of which the phase sent a request.
    #[inline(always)]
    pub(crate) fn set_progress(&mut self, phase: Phase, i: usize, progress: Progress)
        requires { i < length self.old }
        ensures { self.new ≡ with_progress self.old i progress }
    {
        if let Some(parts) = &mut self.parts {
            parts.set_progress(phase, i, progress);
        }
    }

    /// Marks what an answer says of the key at an index, of which the phase sent a request, where
    /// its progress is kept.
    #[inline(always)]
    pub(crate) fn mark(&mut self, phase: Phase, i: usize, answer: &Answer)
        requires { i < length self.old }
        ensures { self.new ≡ with_progress self.old i
            (marked_by phase answer.now (sent_by phase (progress_at self.old i))) }
    {
        if let Some(parts) = &mut self.parts {
            parts.mark(phase, i, answer);
        }
    }
}
