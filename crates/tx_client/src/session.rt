//! Sessions: one transaction each, run over a way to the regions.
ghost use Rattle.std.specs.Prelude.{◌≡◌, ℕ, ◌<◌, ◌⊎◌, is_some, true, false, Some, None, IfOk, IfErr, IfSome, OnOk, OnErr};
ghost use Rattle.tx_types.specs.declared.fault.Fault.TheVariants as fault;
ghost use Rattle.tx_core.specs.declared.event.Event.TheVariants.{Began, Declared};
ghost use Rattle.tx_core.specs.Histories.{History};
ghost use Rattle.tx_core.specs.Recording.{MayRecord};
ghost use Rattle.tx_journal.specs.Known.{HasDrawn};
ghost use Rattle.tx_transaction.specs.Buffers.{touched, put_over, inserted, locked, buffered, not_empty, is_full};
ghost use Rattle.tx_transaction.specs.Sessions.{begun, is_declared, has_primary, declaration, declaration_of, exceeds, can_draw, can_commit, can_abort};
ghost use Rattle.tx_client.specs.Calls.{seated, HasHeard, BeganAt, Records, RecordsDeclared};
ghost use Rattle.tx_client.specs.Order.{IsDrawnAfter};

mod ends;
mod phases;
mod reads;

use std::alloc::Global;
use std::marker::{Brand, Model};
use tx_journal::{JournalId, Seat, StepEvent, Told};
use tx_transaction::{Terms, Transaction};
use tx_types::{Fault, Key, Mutation, Ts, Value};

/// A session: one transaction, and the seat that it was begun with. Contracts see its state and
/// what its seat knows. What it knows of its transaction is so in what its seat has seen.
#[derive(Drop)]
pub struct Session<J: JournalId> {
    /// Draws its timestamps, records its events, and learns what the regions tell.
    seat: Seat<J>,
    /// What it knows of its transaction: the rules of tx_transaction are functions of that.
    transaction: Transaction,
}

impl<J: JournalId> Model for Session<J> {
    ghost use Rattle.tx_client.specs.Calls.{Seated};
    ghost use Rattle.tx_client.specs.Facts.{IsSeated};

    ghost Value = { Seated };

    ghost view = { λ s. record { state = s.transaction; seat = s.seat } };

    ghost invariant = { λ s. IsSeated J.bounds s.seat s.transaction };
}

// Records the event that the call picks: a transaction began.
fn record_start<J: JournalId, E: StepEvent>(seat: &mut Seat<J>, start: Ts)
    requires is { E.event ≡ Began start }
    requires right { MayRecord J.bounds seat.old.seat seat.old.events E.event }
    ensures { Records J.bounds seat.old E.event seat.new }
{
    let _ = start;
    seat.record_as::<E>();
}

// Records the event that the call picks: a transaction declares its buffer under these terms.
fn record_declaration<J: JournalId, E: StepEvent>(
    seat: &mut Seat<J>,
    transaction: &Transaction,
    placed: Ts,
    terms: &Terms,
)
    requires is { E.event ≡ Declared (declaration_of transaction.now.start placed transaction.now.buffer terms.now) }
    requires right { MayRecord J.bounds seat.old.seat seat.old.events E.event }
    ensures { Records J.bounds seat.old E.event seat.new }
{
    let _ = transaction;
    let _ = placed;
    let _ = terms;
    seat.record_as::<E>();
}

// Records that a transaction began.
fn record_began<J: JournalId>(seat: &mut Seat<J>, start: Ts)
    requires { MayRecord J.bounds seat.old.seat seat.old.events (Began start) }
    ensures { Records J.bounds seat.old (Began start) seat.new }
{
    record_start::<J, Brand>(seat, start);
}

// Draws a number for what a transaction declares under these terms, and records it, if there is
// anything to declare.
fn record_declared<J: JournalId>(
    seat: &mut Seat<J>,
    transaction: &Transaction,
    terms: &Terms,
) -> Result<Ts, Fault>
    requires { (p : ℕ) (mid : History) → HasDrawn J.bounds seat.old.seat seat.old.events 1 p mid
        → IfSome (declaration transaction.now.start p transaction.now.buffer terms.now)
        (λ d. MayRecord J.bounds seat.old.seat mid (Declared d)) }
    ensures ok { IfOk result (λ p. RecordsDeclared J.bounds seat.old
        (declaration transaction.now.start p transaction.now.buffer terms.now) seat.new) }
    ensures none { IfOk result (λ p. not_empty transaction.now.buffer ≡ false → p ≡ 0) }
    ensures room { IfOk result (λ p. p < u64.MAX) }
    ensures spent { IfErr result (λ e. (e ≡ fault.OracleSpent) × (seat.old.ticks < 1)
        × (not_empty transaction.now.buffer ≡ true) × (seat.new ≡ seat.old)) }
{
    if !transaction.has_keys() {
        return Ok(Ts::ZERO);
    }
    let placed = seat.draw(1)?;
    record_declaration::<J, Brand>(seat, transaction, placed, terms);
    Ok(placed)
}

impl<J: JournalId> Session<J> {
    /// Begins a transaction at a timestamp that its seat draws, which lies at or above each commit
    /// that its seat then knows to be decided. It takes no memory. A seat whose ticks are spent is
    /// handed back.
    pub fn begin(alloc: Global, mut seat: Seat<J>) -> Result<Session<J>, Seat<J>>
        ensures ok { IfOk result (λ s. (s.state ≡ begun s.state.start) × BeganAt J.bounds seat s.state.start s.seat) }
        ensures after_known { IfOk result (λ s. IsDrawnAfter seat.events s.seat.events s.state.start) }
        ensures spent { IfErr result (λ s. (s ≡ seat) × (seat.ticks < 1)) }
    {
        let Ok(start) = seat.draw(1) else {
            return Err(seat);
        };
        record_began(&mut seat, start);
        Ok(Session {
            seat,
            transaction: Transaction::begin(alloc, start),
        })
    }

    /// Its start timestamp.
    pub fn start(&self) -> Ts
        ensures { result ≡ self.now.state.start }
    {
        self.transaction.start()
    }

    /// Whether `declare` went well.
    pub fn is_declared(&self) -> bool
        ensures { result ≡ is_declared self.now.state }
    {
        self.transaction.is_declared()
    }

    /// Whether a buffer that is not empty was declared.
    pub fn has_primary(&self) -> bool
        ensures { result ≡ has_primary self.now.state }
    {
        self.transaction.has_primary()
    }

    /// Whether a commit timestamp may be drawn: each key of a declared set is locked, some in two
    /// phases, nothing is decided, and none is drawn.
    pub fn can_draw(&self) -> bool
        ensures { result ≡ can_draw self.now.state }
    {
        self.transaction.can_draw()
    }

    /// Whether a commit may be asked: the transaction is committed, or a timestamp is drawn; of
    /// nothing declared, always.
    pub fn can_commit(&self) -> bool
        ensures { result ≡ can_commit self.now.state }
    {
        self.transaction.can_commit()
    }

    /// Whether an abort may be asked: the transaction is aborted, or undecided, and then of an
    /// async one some key has no accepted lock; of nothing declared, always.
    pub fn can_abort(&self) -> bool
        ensures { result ≡ can_abort self.now.state }
    {
        self.transaction.can_abort()
    }

    /// Its transaction: what is entered and declared, what may be asked of it, and what is due.
    pub fn transaction(&self) -> &Transaction
        ensures { result.now ≡ self.now.state }
    {
        &self.transaction
    }

    /// What its seat has seen, to be handed to others.
    pub fn tell(&mut self) -> Told<J>
        ensures same { self.new ≡ self.old }
        ensures told { result ≡ self.old.seat.events }
    {
        self.seat.tell()
    }

    /// Learns what others were told.
    pub fn learn_told(&mut self, told: Told<J>)
        ensures state { self.new.state ≡ self.old.state }
        ensures after_answer { HasHeard J.bounds self.old.seat told self.new.seat }
    {
        self.seat.learn(told);
    }
}

impl<J: JournalId> Session<J> {
    /// Enters a put into the buffer. A key that is there keeps its place. A refusal leaves the
    /// session as it was.
    pub fn put(&mut self, key: Key, value: Value) -> Result<(), Fault>
        requires { is_declared self.old.state ≡ false }
        ensures ok { OnOk result ((is_full self.old.state.buffer key ≡ false)
            × (self.new ≡ seated (record self.old.state {
              buffer = touched self.old.state.buffer key
                  (put_over (buffered self.old.state.buffer key) value);
            }) self.old.seat)) }
        ensures same { OnErr result (self.new ≡ self.old) }
        ensures err { IfErr result (λ e. ((e ≡ fault.OutOfMemory) × (is_full self.old.state.buffer key ≡ false))
            ⊎ ((e ≡ fault.TooManyKeys) × (is_full self.old.state.buffer key ≡ true))) }
    {
        self.transaction.put(key, value)
    }

    /// Enters an insert into the buffer, and over a delete a put. A key that is there keeps its
    /// place. `AlreadyExists` where the buffer has a put or an insert of the key. A refusal leaves
    /// the session as it was.
    pub fn insert(&mut self, key: Key, value: Value) -> Result<(), Fault>
        requires { is_declared self.old.state ≡ false }
        ensures ok { OnOk result ((is_full self.old.state.buffer key ≡ false)
            × (inserted self.old.state.buffer key value ≡ Some self.new.state.buffer)
            × (self.new ≡ seated (record self.old.state { buffer = self.new.state.buffer }) self.old.seat)) }
        ensures same { OnErr result (self.new ≡ self.old) }
        ensures err { IfErr result (λ e. ((e ≡ fault.OutOfMemory)
            × (is_some (inserted self.old.state.buffer key value) ≡ true) × (is_full self.old.state.buffer key ≡ false))
            ⊎ ((e ≡ fault.TooManyKeys) × (is_full self.old.state.buffer key ≡ true))
            ⊎ ((e ≡ fault.AlreadyExists) × (inserted self.old.state.buffer key value ≡ None))) }
    {
        self.transaction.insert(key, value)
    }

    /// Enters a delete into the buffer. A key that is there keeps its place. A refusal leaves the
    /// session as it was.
    pub fn delete(&mut self, key: Key) -> Result<(), Fault>
        requires { is_declared self.old.state ≡ false }
        ensures ok { OnOk result ((is_full self.old.state.buffer key ≡ false)
            × (self.new ≡ seated (record self.old.state { buffer = touched self.old.state.buffer key Mutation.Delete })
            self.old.seat)) }
        ensures same { OnErr result (self.new ≡ self.old) }
        ensures err { IfErr result (λ e. ((e ≡ fault.OutOfMemory) × (is_full self.old.state.buffer key ≡ false))
            ⊎ ((e ≡ fault.TooManyKeys) × (is_full self.old.state.buffer key ≡ true))) }
    {
        self.transaction.touch(key, Mutation::Delete)
    }

    /// Enters a lock into the buffer, where the key is not there. A refusal leaves the
    /// session as it was.
    pub fn lock(&mut self, key: Key) -> Result<(), Fault>
        requires { is_declared self.old.state ≡ false }
        ensures ok { OnOk result ((is_full self.old.state.buffer key ≡ false)
            × (self.new ≡ seated (record self.old.state { buffer = locked self.old.state.buffer key }) self.old.seat)) }
        ensures same { OnErr result (self.new ≡ self.old) }
        ensures err { IfErr result (λ e. ((e ≡ fault.OutOfMemory) × (is_full self.old.state.buffer key ≡ false))
            ⊎ ((e ≡ fault.TooManyKeys) × (is_full self.old.state.buffer key ≡ true))) }
    {
        self.transaction.lock(key)
    }

    /// Fixes the write set, and, where it is not empty, draws a number for it and records it. It
    /// commits above each commit that its seat knew to be decided before. `TooManyKeys` where it is
    /// to commit asynchronously and has more than 256 keys, `OracleSpent` where it has not, the
    /// set is not empty and the ticks of its seat are spent: the session is then as it was. It
    /// takes no memory.
    pub fn declare(&mut self, terms: Terms) -> Result<(), Fault>
        requires { is_declared self.old.state ≡ false }
        ensures ok { OnOk result ((exceeds self.old.state.buffer terms ≡ false)
            × (self.new.state ≡ record self.old.state { declared = Some terms; placed = self.new.state.placed })
            × RecordsDeclared J.bounds self.old.seat
            (declaration self.old.state.start self.new.state.placed self.old.state.buffer terms) self.new.seat) }
        ensures none { OnOk result (not_empty self.old.state.buffer ≡ false → self.new.state.placed ≡ 0) }
        ensures after_known { OnOk result (not_empty self.old.state.buffer ≡ true
            → IsDrawnAfter self.old.seat.events self.new.seat.events self.new.state.placed) }
        ensures same { OnErr result (self.new ≡ self.old) }
        ensures err { IfErr result (λ e. ((e ≡ fault.TooManyKeys) × (exceeds self.old.state.buffer terms ≡ true))
            ⊎ ((e ≡ fault.OracleSpent) × (self.old.seat.ticks < 1)
            × (exceeds self.old.state.buffer terms ≡ false) × (not_empty self.old.state.buffer ≡ true))) }
    {
        if self.transaction.exceeds(&terms) {
            return Err(Fault::TooManyKeys);
        }
        let placed = record_declared(&mut self.seat, &self.transaction, &terms)?;
        self.transaction.declare(terms, placed);
        Ok(())
    }
}
