//! The entries of a write buffer: keys in the order in which they were first touched, the first few
//! in a list, and what comes behind these in a table.
ghost use Rattle.std.specs.Prelude.{Some, ◌≡◌, ◌<◌, ◌≤◌, ◌↔◌, ℕ, [], true, false, length, slice_get, IsSome, IsTrue, IfErr, IfSome, IfNone, OnOk, OnErr, option_map, bytes_eq};
ghost use Rattle.std.specs.Map.Iter.{deref_pair};
ghost use Rattle.tx_machine.specs.Keys.{IsDistinct};
ghost use Rattle.tx_transaction.specs.Buffers.{buffered, changes_of, key_at, progress_at, put_over, touched, wants, with_progress};
ghost use Rattle.tx_transaction.specs.Sessions.{marked_by, sent_by};

use crate::answers::mark;
use crate::key_table::KeyTable;
use crate::state::{BufferEntry, Phase, Progress};
use std::alloc::Global;
use std::marker::Model;
use tx_core::Answer;
use tx_types::{Fault, Key, Mutation, Value};

/// So many keys are compared in less than one is hashed.
const FEW: usize = 4;

// Whether the key at an index has these bytes.
fn is_at(few: &[(Key, BufferEntry)], i: usize, key: &[u8]) -> bool
    requires { i < length few.now }
    ensures { result ≡ bytes_eq (key_at few.now i) key.now }
{
    match few.get(i) {
        Some((found, _)) => found.as_bytes() == key,
        None => unreachable!(),
    }
}

// The index of the key of these bytes among a few.
fn seek_few(few: &[(Key, BufferEntry)], key: &[u8]) -> Option<usize>
    ensures found { IfSome result (λ i. (i < length few.now) × (bytes_eq (key_at few.now i) key.now ≡ true)
        × ((j : ℕ) → j < i → bytes_eq (key_at few.now j) key.now ≡ false)) }
    ensures absent { IfNone result ((j : ℕ) → j < length few.now → bytes_eq (key_at few.now j) key.now ≡ false) }
{
    for i in 0..few.len() {
        if is_at(few, i, key) {
            return Some(i);
        }
    }
    None
}

// What a put enters over what is done to its key: an insert stays one, with the new value.
fn put_over_one(mutation: &Mutation, value: Value) -> Mutation
    ensures { result ≡ put_over (Some mutation.now) value }
{
    match mutation {
        Mutation::Insert(_) => Mutation::Insert(value),
        Mutation::Put(_) | Mutation::Delete | Mutation::Lock => Mutation::Put(value),
    }
}

/// What a session does to its keys, and how far each is. A session has few keys mostly, and these
/// take no table.
#[derive(Debug)]
pub(crate) struct KeyEntries {
    /// The first of them, which are compared one by one.
    few: Vec<(Key, BufferEntry)>,
    /// Those behind them: none while there is room among the few.
    more: KeyTable,
}

impl Model for KeyEntries {
    ghost use Rattle.std.specs.Prelude.{◌≡◌, ◌≤◌, ◌++◌, ◌⊎◌, [], length};
    ghost use Rattle.tx_machine.specs.Keys.{IsDistinct};
    ghost use Rattle.tx_transaction.specs.Buffers.{Entries, changes_of};
    ghost use Rattle.tx_transaction.specs.declared.key_entries.TheConstants.{FEW};

    ghost Value = { Entries };

    ghost view = { λ b. b.few.items ++ b.more };

    ghost invariant = { λ b. IsDistinct (changes_of (b.few.items ++ b.more))
        × ((b.more ≡ []) ⊎ (FEW ≤ length b.few.items)) };
}

impl Drop for KeyEntries {
    fn drop(self) {
        let Self { few: _, more: _ } = self;
    }
}

impl KeyEntries {
    /// No entries. It takes no memory.
    pub(crate) fn new(alloc: Global) -> KeyEntries
        ensures { result ≡ [] }
    {
        KeyEntries {
            few: Vec::new(alloc),
            more: KeyTable::new(),
        }
    }

    pub(crate) fn allocator(&self) -> &Global {
        self.few.allocator()
    }

    /// How many keys there are.
    pub(crate) fn len(&self) -> usize
        ensures len { result ≡ length self.now }
        ensures distinct { IsDistinct (changes_of self.now) }
    {
        self.few.len() + self.more.len()
    }

    pub(crate) fn is_empty(&self) -> bool
        ensures { IsTrue result ↔ (length self.now ≡ 0) }
    {
        self.few.is_empty()
    }

    /// The key at an index, and what is done to it.
    pub(crate) fn get_index(&self, i: usize) -> Option<(&Key, &BufferEntry)>
        ensures entry { option_map deref_pair result ≡ slice_get self.now i }
        ensures found { IsSome result ↔ (i < length self.now) }
    {
        let few = self.few.len();
        if i < few {
            let (key, entry) = &self.few[i];
            return Some((key, entry));
        }
        self.more.get_index(i - few)
    }

    /// What is done to a key, where it is there.
    pub(crate) fn find(&self, key: &Key) -> Option<&Mutation>
        ensures { option_map (λ m. m.now) result ≡ buffered self.now key.now }
    {
        if let Some(i) = seek_few(self.few.as_slice(), key.as_bytes()) {
            return Some(&self.few[i].1.mutation);
        }
        self.more.find(key)
    }

    // As `put`, where the few are full.
    #[inline(never)]
    fn put_behind(&mut self, key: Key, value: Value) -> Result<(), Fault>
        ensures ok { OnOk result (self.new ≡ touched self.old key (put_over (buffered self.old key) value)) }
        ensures same { OnErr result (self.new ≡ self.old) }
        ensures err { IfErr result (λ e. e ≡ Fault.OutOfMemory) }
    {
        let mutation = match self.find(&key) {
            Some(mutation) => put_over_one(mutation, value),
            None => Mutation::Put(value),
        };
        self.touch(key, mutation)
    }

    /// Puts a value on a key, of which nothing was sent then: one search. A key that is there keeps
    /// its place, and an insert of it stays one.
    pub(crate) fn put(&mut self, key: Key, value: Value) -> Result<(), Fault>
        ensures ok { OnOk result (self.new ≡ touched self.old key (put_over (buffered self.old key) value)) }
        ensures same { OnErr result (self.new ≡ self.old) }
        ensures err { IfErr result (λ e. e ≡ Fault.OutOfMemory) }
    {
        let progress = Progress {
            sent: false,
            accepted: None,
            committed: false,
            rolled: false,
        };
        if let Some(i) = seek_few(self.few.as_slice(), key.as_bytes()) {
            let mutation = put_over_one(&self.few[i].1.mutation, value);
            self.few[i].1 = BufferEntry { mutation, progress };
            return Ok(());
        }
        if self.few.len() < FEW {
            let mutation = Mutation::Put(value);
            self.few.push((key, BufferEntry { mutation, progress }))?;
            return Ok(());
        }
        self.put_behind(key, value)
    }

    /// Sets a key's mutation, of which nothing was sent then. A key that is there keeps its place.
    pub(crate) fn touch(&mut self, key: Key, mutation: Mutation) -> Result<(), Fault>
        ensures ok { OnOk result (self.new ≡ touched self.old key mutation) }
        ensures same { OnErr result (self.new ≡ self.old) }
        ensures err { IfErr result (λ e. e ≡ Fault.OutOfMemory) }
    {
        let progress = Progress {
            sent: false,
            accepted: None,
            committed: false,
            rolled: false,
        };
        let entry = BufferEntry { mutation, progress };
        if let Some(i) = seek_few(self.few.as_slice(), key.as_bytes()) {
            self.few[i].1 = entry;
            return Ok(());
        }
        if self.few.len() < FEW {
            self.few.push((key, entry))?;
            return Ok(());
        }
        let alloc = *self.few.allocator();
        self.more.insert(alloc, key, entry)?;
        Ok(())
    }

    /// The indexes from one up to another, of whose keys a phase is known to have nothing left to
    /// send.
    pub(crate) fn settled(&self, phase: Phase) -> (usize, usize)
        ensures within { result.0 ≤ length self.now }
        ensures settled { (k : ℕ) → result.0 ≤ k → k < result.1
            → wants phase (progress_at self.now k) ≡ false }
    {
        let few = self.few.len();
        let keys = self.more.settled(phase);
        (few, few.saturating_add(keys))
    }

    /// Sets how far the key at an index is, of which the phase sent a request.
    pub(crate) fn set_progress(&mut self, phase: Phase, i: usize, progress: Progress)
        requires { i < length self.old }
        ensures { self.new ≡ with_progress self.old i progress }
    {
        let few = self.few.len();
        if i < few {
            self.few[i].1.progress = progress;
        } else {
            self.more.set_progress(phase, i - few, progress);
        }
    }

    /// Marks what an answer says of the key at an index, of which the phase sent a request, where
    /// its progress is kept.
    pub(crate) fn mark(&mut self, phase: Phase, i: usize, answer: &Answer)
        requires { i < length self.old }
        ensures { self.new ≡ with_progress self.old i
            (marked_by phase answer.now (sent_by phase (progress_at self.old i))) }
    {
        let few = self.few.len();
        if i < few {
            mark(phase, answer, &mut self.few[i].1.progress);
        } else {
            self.more.mark(phase, i - few, answer);
        }
    }
}
