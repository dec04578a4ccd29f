//! A seed of a run: a transaction of its own, which puts a value on a key.
ghost use Rattle.std.specs.Prelude.{◌≡◌, ◌⊎◌, ◌≤◌, ℕ, List, true, length, Some, IfOk, IfErr, OnOk};
ghost use Rattle.tx_types.specs.declared.fault.Fault.TheVariants as fault;
ghost use Rattle.tx_types.specs.declared.limits.TheConstants.{MAX_VALUE_BYTES};
ghost use Rattle.tx_types.specs.Lengths.{is_key};
ghost use Rattle.tx_transaction.specs.declared.state.Phase.TheVariants as phase;
ghost use Rattle.tx_transaction.specs.Buffers.{is_full};
ghost use Rattle.tx_transaction.specs.Sessions.{begun, finish_of, is_declared};
ghost use Rattle.tx_core.specs.Histories.{Begins};
ghost use Rattle.tx_transfer.specs.Seeds.{IsWriteFault, IsTextFault, IsSeedFault, KeepsPut, PutsJust, WasSeeded};
ghost use Rattle.tx_transfer.specs.SeedLines.{Commits, Puts, SeedEnds, SeedPlays, SeedWrites, is_committed, seeded_by};
ghost use Rattle.tx_transfer.specs.Steps.{CommitsOr, EndsBy, SendsOr, sent_by};

use crate::changes::TTL;
use crate::context::Context;
use crate::requests;
use std::alloc::Global;
use std::sync::Wait;
use tx_cells::Families;
use tx_client::{Miss, Session, Terms};
use tx_core::{Answer, Outcome};
use tx_journal::{JournalId, Seat};
use tx_types::{Fault, Key, Mode, Value};

const TERMS: Terms = Terms {
    mode: Mode::TwoPhase,
    ttl: TTL,
    max_commit: None,
};

// Puts the value on the key.
fn put<J: JournalId>(session: &mut Session<J>, key: Key, value: Value) -> Result<(), Fault>
    requires { session.old.state ≡ begun session.old.state.start }
    ensures puts { Puts J.bounds key value session.old result session.new }
    ensures ok { OnOk result (PutsJust key value session.new.state) }
    ensures err { IfErr result (IsWriteFault (is_full session.old.state.buffer key)) }
{
    session.put(key, value)?;
    session.declare(TERMS)
}

// Over a store a request that has no answer was not sent, for want of memory.
fn was_sent(answered: &Result<Option<Answer>, Miss>) -> Result<(), Fault>
    ensures is { result ≡ sent_by answered.now }
    ensures err { IfErr result (λ e. e ≡ fault.OutOfMemory) }
{
    match answered {
        Ok(_) => Ok(()),
        Err(_) => Err(Fault::OutOfMemory),
    }
}

// Locks it.
fn prewrite<J: JournalId, F: Families + Drop, R: Wait + Drop>(
    session: &mut Session<J>,
    context: &mut Context<J, F, R>,
) -> Result<(), Fault>
    requires { is_declared session.old.state ≡ true }
    ensures sends { SendsOr J.bounds phase.Prewrite session.old result session.new }
    ensures keeps { KeepsPut session.old.state session.new.state }
    ensures err { IfErr result (λ e. e ≡ fault.OutOfMemory) }
{
    context.show();
    let answered = requests::prewrite(context.alloc, session, context);
    was_sent(&answered)
}

// Sends its commit, where it may be asked.
fn send_commit<J: JournalId, F: Families + Drop, R: Wait + Drop>(
    session: &mut Session<J>,
    context: &mut Context<J, F, R>,
) -> Result<(), Fault>
    ensures commits { CommitsOr J.bounds session.old result session.new }
    ensures keeps { KeepsPut session.old.state session.new.state }
    ensures err { IfErr result (λ e. e ≡ fault.OutOfMemory) }
{
    if !session.can_commit() {
        return Err(Fault::OutOfMemory);
    }
    context.show();
    let answered = requests::commit(session, context);
    was_sent(&answered)
}

// Locks it, and commits it.
fn commit<J: JournalId, F: Families + Drop, R: Wait + Drop>(
    session: &mut Session<J>,
    context: &mut Context<J, F, R>,
) -> Result<(), Fault>
    requires { is_declared session.old.state ≡ true }
    ensures commits { Commits J.bounds session.old result session.new }
    ensures keeps { KeepsPut session.old.state session.new.state }
    ensures err { IfErr result (λ e. (e ≡ fault.OracleSpent) ⊎ (e ≡ fault.OutOfMemory)) }
{
    prewrite(session, context)?;
    requests::draw(session)?;
    send_commit(session, context)
}

// Puts the value on the key, and commits it.
fn write<J: JournalId, F: Families + Drop, R: Wait + Drop>(
    session: &mut Session<J>,
    context: &mut Context<J, F, R>,
    key: Key,
    value: Value,
) -> Result<(), Fault>
    requires { session.old.state ≡ begun session.old.state.start }
    ensures writes { SeedWrites J.bounds key value session.old result session.new }
    ensures ok { OnOk result (PutsJust key value session.new.state) }
    ensures err { IfErr result (IsWriteFault (is_full session.old.state.buffer key)) }
{
    put(session, key, value)?;
    commit(session, context)
}

fn is_committed(outcome: &Outcome) -> bool
    ensures { result ≡ is_committed (Some outcome.now) }
{
    matches!(outcome, Outcome::Committed(_))
}

// Ends the session, whatever it came to, and says whether it is committed.
fn end<J: JournalId>(session: Session<J>) -> (Seat<J>, bool)
    ensures ends { EndsBy J.bounds session (finish_of session.state) result.0 }
    ensures says { result.1 ≡ is_committed (finish_of session.state) }
    ensures wrote { result.1 ≡ true → (key value : List ℕ) → PutsJust key value session.state
        → WasSeeded result.0.events key value }
{
    // For proofs: what its transaction declared is its buffer.
    session.show();
    match session.finish() {
        Ok((outcome, seat)) => (seat, is_committed(&outcome)),
        Err(session) => (session.stop(), false),
    }
}

// The key and the value of these texts.
fn texts_of(alloc: Global, key: &str, value: &str) -> Result<(Key, Value), Fault>
    ensures ok { IfOk result (λ made. (made.0 ≡ key.now) × (made.1 ≡ value.now)) }
    ensures fits { OnOk result ((is_key key.now ≡ true) × (length value.now ≤ MAX_VALUE_BYTES)) }
    ensures err { IfErr result (IsTextFault key.now value.now) }
{
    let key = Key::new(alloc, key.as_bytes())?;
    let value = Value::new(alloc, value.as_bytes())?;
    Ok((key, value))
}

// What a seed came to, whose session is to have committed. Seeds are alone in the store, where only
// want of memory keeps one from its commit: that is told of any that did not commit.
fn seeded(written: Result<(), Fault>, committed: bool) -> Result<(), Fault>
    ensures is { result ≡ seeded_by written committed }
    ensures ok { OnOk result ((written ≡ Ok tt) × (committed ≡ true)) }
    ensures err { IfErr result (λ e. (e ≡ fault.OutOfMemory) ⊎ (written ≡ Err e)) }
{
    written?;
    if committed {
        Ok(())
    } else {
        Err(Fault::OutOfMemory)
    }
}

// Puts the value on the key by a transaction of its own.
fn seed_key<J: JournalId, F: Families + Drop, R: Wait + Drop>(
    seat: Seat<J>,
    context: &mut Context<J, F, R>,
    key: Key,
    value: Value,
) -> (Seat<J>, Result<(), Fault>)
    ensures plays { SeedEnds J.bounds key value seat result.1 result.0 }
    ensures wrote { OnOk result.1 (WasSeeded result.0.events key value) }
    ensures err { IfErr result.1 (λ e. (e ≡ fault.OracleSpent) ⊎ (e ≡ fault.OutOfMemory)) }
{
    match Session::begin(context.alloc, seat) {
        Err(seat) => (seat, Err(Fault::OracleSpent)),
        Ok(mut session) => {
            let written = write(&mut session, context, key, value);
            let (seat, committed) = end(session);
            (seat, seeded(written, committed))
        }
    }
}

/// Seeds a key: the seat is then free again. `KeyLength` and `ValueLength` as of any key and value,
/// `OracleSpent` where ticks are spent, and `OutOfMemory`, also where it is not committed.
pub fn seed<J: JournalId, F: Families + Drop, R: Wait + Drop>(
    mut seat: Seat<J>,
    context: &mut Context<J, F, R>,
    key: &str,
    value: &str,
) -> (Seat<J>, Result<(), Fault>)
    ensures fits { OnOk result.1 ((is_key key.now ≡ true) × (length value.now ≤ MAX_VALUE_BYTES)) }
    ensures plays { SeedPlays J.bounds key.now value.now seat result.1 result.0 }
    ensures wrote { OnOk result.1 (WasSeeded result.0.events key.now value.now) }
    ensures knows { Begins seat.events result.0.events }
    ensures err { IfErr result.1 (IsSeedFault key.now value.now) }
{
    match texts_of(context.alloc, key, value) {
        Err(fault) => (seat, Err(fault)),
        Ok((key, value)) => {
            // For proofs: it still knows then what it knew.
            let known = seat.tell();
            let (mut seat, result) = seed_key(seat, context, key, value);
            seat.learn(known);
            (seat, result)
        }
    }
}
