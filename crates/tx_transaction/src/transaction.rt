//! One transaction, as its client knows it: the rules of a session, without its seat.
ghost use Rattle.std.specs.Prelude.{◌≡◌, ◌<◌, ◌⊎◌, true, false, not, Some, None, is_some, Ok, Err, IfOk, IfErr, OnOk, OnErr};
ghost use Rattle.tx_transaction.specs.Buffers.{touched, put_over, inserted, locked, buffered, is_full, is_known, not_empty};
ghost use Rattle.tx_transaction.specs.Sessions.{begun, is_declared, has_primary, declaration, exceeds};
ghost use Rattle.tx_transaction.specs.declared.state.Miss.TheVariants as miss;
ghost use Rattle.tx_transaction.specs.Returns.{IsBuffered};

mod fate;
mod next;
mod requests;
mod responses;

use crate::buffer::{
    Buffer, can_insert, changes_in, find, has_keys, has_room, insert_over, is_full, is_known, touch,
};
use crate::state::{Miss, Terms};
use std::alloc::Global;
use std::marker::Model;
use tx_core::{Answer, Declaration, Starts, UnknownCause};
use tx_types::limits::MAX_ASYNC_KEYS;
use tx_types::{Fate, Fault, Key, LockInfo, Mode, Mutation, Ts, Value};

// A copy of a value, as an answer.
fn found(value: &Value) -> Result<Answer, Miss>
    ensures { (result ≡ Err miss.Fault) ⊎ (result ≡ Ok (Answer.Found value.now)) }
{
    match value.clone() {
        Ok(value) => Ok(Answer::Found(value)),
        Err(_) => Err(Miss::Fault),
    }
}

/// One transaction: its write buffer, what was sent and answered of each key, and what is
/// known of its fate.
#[derive(Debug, Drop)]
pub struct Transaction {
    /// The timestamp at which it began, which names it.
    start: Ts,
    /// What it does to each key, in the order in which keys were first touched, and what was sent
    /// and answered of each. The first key is the primary.
    buffer: Buffer,
    /// How it commits, once it has declared.
    declared: Option<Terms>,
    /// The number that was drawn for its declaration, above which it commits; 0 before.
    placed: Ts,
    /// The transactions whose locks do not stop its reads.
    bypass: Starts,
    /// The lock that stood in its way last.
    met: Option<LockInfo>,
    /// The commit timestamp that was drawn, until it is refused as too low.
    drawn: Option<Ts>,
    /// Its fate, once that is known.
    decision: Option<Fate>,
    /// Why its fate may stay unknown: what came of the last request that could have told it.
    cause: Option<UnknownCause>,
}

impl Model for Transaction {
    ghost use Rattle.tx_transaction.specs.Sessions.{SessionState};
    ghost use Rattle.std.specs.Prelude.{◌<◌};
    ghost use Rattle.tx_transaction.specs.Sessions.{Few};

    ghost Value = { SessionState };

    ghost view = { λ t. record {
      start = t.start;
      buffer = t.buffer;
      declared = t.declared;
      placed = t.placed;
      bypass = t.bypass;
      met = t.met;
      drawn = t.drawn;
      decision = t.decision;
      cause = t.cause;
    } };

    ghost invariant = { λ t. Few t.declared t.buffer × (t.placed < 18446744073709551615) };
}

impl Transaction {
    /// A transaction that starts here. It takes no memory.
    pub fn begin(alloc: Global, start: Ts) -> Transaction
        ensures { result ≡ begun start }
    {
        Transaction {
            start,
            buffer: Buffer::new(alloc),
            declared: None,
            placed: Ts::ZERO,
            bypass: Starts::new(alloc),
            met: None,
            drawn: None,
            decision: None,
            cause: None,
        }
    }

    /// The allocator that it began with.
    pub fn allocator(&self) -> Global {
        *self.buffer.allocator()
    }

    /// The timestamp at which it started.
    pub fn start(&self) -> Ts
        ensures { result ≡ self.now.start }
    {
        self.start
    }

    /// Whether its write set was declared.
    pub fn is_declared(&self) -> bool
        ensures { result ≡ is_declared self.now }
    {
        self.declared.is_some()
    }

    /// Whether a write set was declared that has keys, so that there is a primary.
    pub fn has_primary(&self) -> bool
        ensures { result ≡ has_primary self.now }
    {
        self.declared.is_some() && has_keys(&self.buffer)
    }

    /// What the buffer answers to a read of a key.
    pub fn answer_of(&self, key: &Key) -> Option<Result<Answer, Miss>>
        ensures { IsBuffered (buffered self.now.buffer key.now) result }
    {
        match find(&self.buffer, key) {
            Some(Mutation::Put(value)) => Some(found(value)),
            Some(Mutation::Insert(value)) => Some(found(value)),
            Some(Mutation::Delete) => Some(Ok(Answer::Nothing)),
            _ => None,
        }
    }

    /// Whether the buffer answers a read of the key of these bytes.
    pub fn is_known(&self, key: &[u8]) -> bool
        ensures { result ≡ is_known (buffered self.now.buffer key.now) }
    {
        is_known(&self.buffer, key)
    }

    /// Whether the key of these bytes is in the buffer or would not be one too many there.
    pub fn has_room(&self, key: &[u8]) -> bool
        ensures { result ≡ not (is_full self.now.buffer key.now) }
    {
        has_room(&self.buffer, key)
    }

    /// Whether the buffer has no value of the key of these bytes, so that it may be inserted.
    pub fn can_insert(&self, key: &[u8]) -> bool
        ensures { (value : Value) → result ≡ is_some (inserted self.now.buffer key.now value) }
    {
        can_insert(&self.buffer, key)
    }

    /// Enters a change of a key into the buffer. A key that is there keeps its place.
    pub fn touch(&mut self, key: Key, mutation: Mutation) -> Result<(), Fault>
        requires { is_declared self.old ≡ false }
        ensures ok { OnOk result ((is_full self.old.buffer key ≡ false)
            × (self.new ≡ record self.old { buffer = touched self.old.buffer key mutation })) }
        ensures same { OnErr result (self.new ≡ self.old) }
        ensures err { IfErr result (λ e. ((e ≡ Fault.OutOfMemory) × (is_full self.old.buffer key ≡ false))
            ⊎ ((e ≡ Fault.TooManyKeys) × (is_full self.old.buffer key ≡ true))) }
    {
        if is_full(&self.buffer, &key) {
            return Err(Fault::TooManyKeys);
        }
        touch(&mut self.buffer, key, mutation)
    }

    /// Enters a put of a key into the buffer. An insert that is there stays one,
    /// with the new value.
    pub fn put(&mut self, key: Key, value: Value) -> Result<(), Fault>
        requires { is_declared self.old ≡ false }
        ensures ok { OnOk result ((is_full self.old.buffer key ≡ false)
            × (self.new ≡ record self.old {
              buffer = touched self.old.buffer key
                  (put_over (buffered self.old.buffer key) value);
            })) }
        ensures same { OnErr result (self.new ≡ self.old) }
        ensures err { IfErr result (λ e. ((e ≡ Fault.OutOfMemory) × (is_full self.old.buffer key ≡ false))
            ⊎ ((e ≡ Fault.TooManyKeys) × (is_full self.old.buffer key ≡ true))) }
    {
        if is_full(&self.buffer, &key) {
            return Err(Fault::TooManyKeys);
        }
        self.buffer.put(key, value)
    }

    /// Enters an insert of a key into the buffer, and over a delete a put. A key with a value there
    /// is refused.
    pub fn insert(&mut self, key: Key, value: Value) -> Result<(), Fault>
        requires { is_declared self.old ≡ false }
        ensures ok { OnOk result ((is_full self.old.buffer key ≡ false)
            × (inserted self.old.buffer key value ≡ Some self.new.buffer)
            × (self.new ≡ record self.old { buffer = self.new.buffer })) }
        ensures same { OnErr result (self.new ≡ self.old) }
        ensures err { IfErr result (λ e. ((e ≡ Fault.OutOfMemory)
            × (is_some (inserted self.old.buffer key value) ≡ true) × (is_full self.old.buffer key ≡ false))
            ⊎ ((e ≡ Fault.TooManyKeys) × (is_full self.old.buffer key ≡ true))
            ⊎ ((e ≡ Fault.AlreadyExists) × (inserted self.old.buffer key value ≡ None))) }
    {
        let Some(mutation) = insert_over(&self.buffer, &key, value) else {
            return Err(Fault::AlreadyExists);
        };
        self.touch(key, mutation)
    }

    /// Enters a lock of a key that is not in the buffer.
    pub fn lock(&mut self, key: Key) -> Result<(), Fault>
        requires { is_declared self.old ≡ false }
        ensures ok { OnOk result ((is_full self.old.buffer key ≡ false)
            × (self.new ≡ record self.old { buffer = locked self.old.buffer key })) }
        ensures same { OnErr result (self.new ≡ self.old) }
        ensures err { IfErr result (λ e. ((e ≡ Fault.OutOfMemory) × (is_full self.old.buffer key ≡ false))
            ⊎ ((e ≡ Fault.TooManyKeys) × (is_full self.old.buffer key ≡ true))) }
    {
        if find(&self.buffer, &key).is_some() {
            return Ok(());
        }
        self.touch(key, Mutation::Lock)
    }

    /// Whether its buffer has a key.
    pub fn has_keys(&self) -> bool
        ensures { result ≡ not_empty self.now.buffer }
    {
        has_keys(&self.buffer)
    }

    /// What the buffer declares under these terms with a number that was drawn for it, which is
    /// nothing where it is empty.
    pub fn declaration(
        &self,
        alloc: Global,
        placed: Ts,
        terms: &Terms,
    ) -> Result<Option<Declaration>, Fault>
        ensures ok { IfOk result (λ d. d ≡ declaration self.now.start placed self.now.buffer terms.now) }
        ensures err { IfErr result (λ e. e ≡ Fault.OutOfMemory) }
    {
        if !has_keys(&self.buffer) {
            return Ok(None);
        }
        let changes = changes_in(alloc, &self.buffer)?;
        Ok(Some(Declaration {
            start: self.start,
            changes,
            mode: terms.mode,
            ttl: terms.ttl,
            max_commit: terms.max_commit,
            drawn: placed,
        }))
    }

    /// Whether the buffer has more keys than these terms allow.
    pub fn exceeds(&self, terms: &Terms) -> bool
        ensures { result ≡ exceeds self.now.buffer terms.now }
    {
        terms.mode == Mode::Async && self.buffer.len() > MAX_ASYNC_KEYS
    }

    /// The number that was drawn for what it declared, 0 where it declared nothing.
    pub fn placed(&self) -> Ts
        ensures { result ≡ self.now.placed }
    {
        self.placed
    }

    /// Its buffer is fixed under these terms, and a number was drawn for it.
    pub fn declare(&mut self, terms: Terms, placed: Ts)
        requires few { exceeds self.old.buffer terms ≡ false }
        requires room { placed < u64.MAX }
        ensures { self.new ≡ record self.old { declared = Some terms; placed = placed } }
    {
        self.declared = Some(terms);
        self.placed = placed;
    }
}
