//! Which transactions a verdict tells of.
ghost use Rattle.std.specs.Prelude.{◌≡◌, Option};
ghost use Rattle.std.specs.List.{list_any};
ghost use Rattle.tx_recording.specs.Recordings.{IsRecording, transaction_at, ops_of as ops_in};
ghost use Rattle.tx_onward.specs.Tells.{is_ok as is_ok_outcome, is_value, puts_value, sees_one, read_by, sees_in, sees_put, sees_one_of, first_keyed, is_on, is_round_of, is_lemma_of, is_on_one, is_dirty, is_named, tells};

use tx_recording::{Act, RecordedOp, Recording, Span};
use tx_verdict::{Anomaly, Cycle, CycleStep, HistoryVerdict, Lemma, Refutation, Settled};

// Whether an act puts a value.
fn is_value(act: Act, value: u32) -> bool
    ensures { result ≡ is_value value act }
{
    match act {
        Act::Append(found) => found == value,
        Act::Write(found) => found == value,
        Act::Read(_) => false,
    }
}

// Whether one of the operations puts a value.
fn puts_value(ops: &[RecordedOp], value: u32) -> bool
    ensures { result ≡ puts_value ops.now value }
{
    for i in 0..ops.len() {
        if is_value(ops[i].act, value) {
            return true;
        }
    }
    false
}

// Whether one of the operations puts one of the values.
fn sees_one(ops: &[RecordedOp], values: &[u32]) -> bool
    ensures { result ≡ sees_one ops.now values.now }
{
    for i in 0..values.len() {
        if puts_value(ops, values[i]) {
            return true;
        }
    }
    false
}

// The values that an act read.
fn read_by(recording: &Recording, act: Act) -> &[u32]
    ensures { result.now ≡ read_by recording.now act }
{
    match act {
        Act::Append(_) | Act::Write(_) => &[],
        Act::Read(span) => values_of(recording, span),
    }
}

// The values of a read, where they are there.
fn values_of(recording: &Recording, span: Span) -> &[u32]
    ensures { result.now ≡ read_by recording.now (Act.Read span) }
{
    let first = span.first as usize;
    let upto = first + span.count as usize;
    if upto <= recording.elements.len() {
        &recording.elements[first..upto]
    } else {
        &[]
    }
}

// Whether an operation read in the key what one of some operations put.
fn sees_in(recording: &Recording, key: u32, ops: &[RecordedOp], op: RecordedOp) -> bool
    ensures { result ≡ sees_in recording.now key ops.now op }
{
    op.key == key && sees_one(ops, read_by(recording, op.act))
}

// The operations of a transaction, none past the last one.
fn ops_of(recording: &Recording, txn: u32) -> &[RecordedOp]
    requires { IsRecording recording.now }
    ensures { result.now ≡ ops_in recording.now txn }
{
    if (txn as usize) < recording.transactions.len() {
        recording.ops_of(txn as usize)
    } else {
        &[]
    }
}

// Whether a transaction read in the key what another one put.
fn sees_put(recording: &Recording, key: u32, by: u32, txn: u32) -> bool
    requires { IsRecording recording.now }
    ensures { result ≡ sees_put recording.now by (Option.Some key) txn }
{
    let put = ops_of(recording, by);
    let ops = ops_of(recording, txn);
    for i in 0..ops.len() {
        if sees_in(recording, key, put, ops[i]) {
            return true;
        }
    }
    false
}

// The first of the edges that has a key.
fn first_keyed(steps: &[CycleStep]) -> Option<CycleStep>
    ensures { result ≡ first_keyed steps.now }
{
    steps.iter().find(|step| step.key.is_some()).copied()
}

// Whether a transaction read in the key of an edge what one of its transactions put there.
fn sees_one_of(recording: &Recording, step: Option<CycleStep>, txn: u32) -> bool
    requires { IsRecording recording.now }
    ensures { result ≡ sees_one_of recording.now step txn }
{
    match step {
        Some(
            CycleStep {
                key: Some(key),
                from,
                to,
                ..
            },
        ) => sees_put(recording, key, to, txn) || sees_put(recording, key, from, txn),
        Some(_) | None => false,
    }
}

// Whether a transaction is on a cycle of these steps.
fn is_on(steps: &[CycleStep], txn: u32) -> bool
    ensures { result ≡ is_on steps.now txn }
{
    for i in 0..steps.len() {
        if steps[i].from == txn {
            return true;
        }
    }
    false
}

// Whether a transaction is on the round of one of these orders.
fn is_settled_by(facts: &[Settled], txn: u32) -> bool
    ensures { result ≡ list_any (is_round_of txn) facts.now }
{
    for i in 0..facts.len() {
        if is_on(facts[i].round.as_slice(), txn) {
            return true;
        }
    }
    false
}

// Whether a transaction is on the round of one of these clauses.
fn is_learned_by(lemmas: &[Lemma], txn: u32) -> bool
    ensures { result ≡ list_any (is_lemma_of txn) lemmas.now }
{
    for i in 0..lemmas.len() {
        if is_on(lemmas[i].round.as_slice(), txn) {
            return true;
        }
    }
    false
}

// Whether a transaction is on one of the rounds of a refutation.
fn is_on_one(refutation: &Refutation, txn: u32) -> bool
    ensures { result ≡ is_on_one refutation.now txn }
{
    let facts = refutation.facts.as_slice();
    let lemmas = refutation.lemmas.as_slice();
    is_on(refutation.last.as_slice(), txn)
        || is_settled_by(facts, txn)
        || is_learned_by(lemmas, txn)
}

// Whether no edge of a cycle is by a read.
fn is_dirty(anomaly: Anomaly) -> bool
    ensures { result ≡ is_dirty anomaly }
{
    matches!(anomaly, Anomaly::G0)
}

// Whether a cycle tells of a transaction.
fn is_named(recording: &Recording, cycle: &Cycle, txn: u32) -> bool
    requires { IsRecording recording.now }
    ensures { result ≡ is_named recording.now cycle.now txn }
{
    let steps = cycle.steps.as_slice();
    is_on(steps, txn) || is_dirty(cycle.anomaly) && sees_one_of(recording, first_keyed(steps), txn)
}

// Whether a transaction is known to have committed.
fn is_ok(recording: &Recording, txn: u32) -> bool
    ensures { result ≡ is_ok_outcome (transaction_at recording.now txn).outcome }
{
    match recording.transactions.get(txn as usize) {
        Some(transaction) => transaction.outcome.is_ok(),
        None => false,
    }
}

/// Whether a verdict tells of a transaction, which is known to have committed.
pub(crate) fn tells(recording: &Recording, verdict: &HistoryVerdict, txn: u32) -> bool
    requires { IsRecording recording.now }
    ensures { result ≡ tells recording.now verdict.now txn }
{
    if !is_ok(recording, txn) {
        return false;
    }
    match verdict {
        HistoryVerdict::No(cycle) => is_named(recording, cycle, txn),
        HistoryVerdict::Refuted(refutation) => is_on_one(refutation, txn),
        HistoryVerdict::Fact(fact) => fact.txn == txn,
        HistoryVerdict::Yes(_)
        | HistoryVerdict::Open(_)
        | HistoryVerdict::Unknown
        | HistoryVerdict::Twice(..) => false,
    }
}
