//! The machine's steps of a transaction.
ghost use Rattle.std.specs.Prelude.{◌≡◌, ◌<◌, ◌++◌, length, OnOk, IfOk};
ghost use Rattle.std.specs.List.{list_any, flat_map};
ghost use Rattle.tx_recording.specs.Recordings.{IsRecording, transaction_at, ops_of as ops_in};
ghost use Rattle.tx_answers.specs.Traces.{key_bytes, name_bytes, scalar_bytes, value_bytes, put_by as put_of_act, is_put as is_put_op, is_put_into, found_by, read_at, reads_of, read_step, change_of, change_at, changes_of as changes_by, declared_by, start_steps, commit_steps, moment_steps};

use crate::moment::Moment;
use std::alloc::Global;
use tx_import::{Name, NamedHistory, Scalar};
use tx_machine::Step;
use tx_recording::{Act, RecordedOp, RecordedOutcome, Recording, Span};
use tx_text::{Broken, put_digits};
use tx_types::{Change, Changes, Items, Key, Mutation, Ts, Value};
use tx_verdict_text::{put_signed, truth_word};

// The key of a text.
fn new_key(alloc: Global, text: &[u8]) -> Result<Key, Broken>
    ensures { IfOk result (λ key. key ≡ text.now) }
{
    match Key::new(alloc, text) {
        Ok(key) => Ok(key),
        Err(_) => Err(Broken::Memory),
    }
}

// The value of a text.
fn new_value(alloc: Global, text: &[u8]) -> Result<Value, Broken>
    ensures { IfOk result (λ value. value ≡ text.now) }
{
    match Value::new(alloc, text) {
        Ok(value) => Ok(value),
        Err(_) => Err(Broken::Memory),
    }
}

// A number as a text.
fn digits(alloc: Global, n: u64) -> Result<Vec<u8>, Broken>
    ensures { IfOk result (λ text. text.items ≡ name_bytes (Name.Number n)) }
{
    let mut text = Vec::new(alloc);
    put_digits(&mut text, n)?;
    Ok(text)
}

// The key of this number.
fn key_of(alloc: Global, history: &NamedHistory, key: u32) -> Result<Key, Broken>
    ensures { IfOk result (λ made. made ≡ key_bytes history.now key) }
{
    match history.tables.keys.get(key as usize) {
        Some(Name::Text(key)) => new_key(alloc, key.as_bytes()),
        Some(Name::Number(n)) => new_key(alloc, digits(alloc, *n)?.as_slice()),
        None => new_key(alloc, digits(alloc, 0)?.as_slice()),
    }
}

// A number with a sign as a text.
fn signed(alloc: Global, n: i64) -> Result<Vec<u8>, Broken>
    ensures { IfOk result (λ text. text.items ≡ scalar_bytes (Scalar.Negative n)) }
{
    let mut text = Vec::new(alloc);
    put_signed(&mut text, n)?;
    Ok(text)
}

// A value as a text.
fn value_text(alloc: Global, value: &Scalar) -> Result<Value, Broken>
    ensures { IfOk result (λ made. made ≡ scalar_bytes value.now) }
{
    match value {
        Scalar::Text(words) => new_value(alloc, words.as_bytes()),
        Scalar::Number(n) => new_value(alloc, digits(alloc, *n)?.as_slice()),
        Scalar::Negative(n) => new_value(alloc, signed(alloc, *n)?.as_slice()),
        Scalar::Truth(truth) => new_value(alloc, truth_word(*truth).as_bytes()),
    }
}

// The value of this number.
fn value_of(alloc: Global, history: &NamedHistory, value: u32) -> Result<Value, Broken>
    ensures { IfOk result (λ made. made ≡ value_bytes history.now value) }
{
    match history.tables.values.get(value as usize) {
        Some(keyed) => value_text(alloc, &keyed.value),
        None => new_value(alloc, digits(alloc, 0)?.as_slice()),
    }
}

// What an act puts into its key.
fn put_by(act: Act) -> Option<u32>
    ensures { result ≡ put_of_act act }
{
    match act {
        Act::Append(value) => Some(value),
        Act::Write(value) => Some(value),
        Act::Read(_) => None,
    }
}

// Whether an operation puts something.
fn is_put(op: RecordedOp) -> bool
    ensures { result ≡ is_put_op op }
{
    put_by(op.act).is_some()
}

// Whether an operation puts something into the key.
fn is_into(op: RecordedOp, key: u32) -> bool
    ensures { result ≡ is_put_into key op }
{
    op.key == key && is_put(op)
}

// Whether one of the operations puts something into the key.
fn puts_into(ops: &[RecordedOp], key: u32) -> bool
    ensures { result ≡ list_any (is_put_into key) ops.now }
{
    for i in 0..ops.len() {
        if is_into(ops[i], key) {
            return true;
        }
    }
    false
}

// Whether one of the operations puts something.
fn puts(ops: &[RecordedOp]) -> bool
    ensures { result ≡ list_any is_put_op ops.now }
{
    for i in 0..ops.len() {
        if is_put(ops[i]) {
            return true;
        }
    }
    false
}

// What a read found: the last of its values stands for all of them.
fn found_in(alloc: Global, history: &NamedHistory, span: Span) -> Result<Option<Value>, Broken>
    ensures { IfOk result (λ found. found ≡ found_by history.now span) }
{
    if span.count == 0 {
        return Ok(None);
    }
    let last = span.first as usize + (span.count - 1) as usize;
    match history.recording.elements.get(last) {
        Some(value) => Ok(Some(value_of(alloc, history, *value)?)),
        None => Ok(None),
    }
}

// Adds the read of a key at a number.
fn put_read(
    alloc: Global,
    steps: &mut Vec<Step>,
    history: &NamedHistory,
    at: Ts,
    op: RecordedOp,
) -> Result<(), Broken>
    ensures { OnOk result (steps.new.items ≡ steps.old.items ++ read_step history.now at op.key op.act) }
{
    match op.act {
        Act::Read(span) => {
            let key = key_of(alloc, history, op.key)?;
            let found = found_in(alloc, history, span)?;
            steps.push(Step::Read(key, at, found))?;
            Ok(())
        }
        Act::Append(_) | Act::Write(_) => Ok(()),
    }
}

// Adds the read of the operation at a place, where those before put nothing into its key.
fn put_read_at(
    alloc: Global,
    steps: &mut Vec<Step>,
    history: &NamedHistory,
    at: Ts,
    ops: &[RecordedOp],
    place: usize,
) -> Result<(), Broken>
    requires { place < length ops.now }
    ensures { OnOk result (steps.new.items ≡ steps.old.items ++ read_at history.now at ops.now place) }
{
    let op = ops[place];
    if puts_into(&ops[..place], op.key) {
        return Ok(());
    }
    put_read(alloc, steps, history, at, op)
}

// Adds what operations read of keys that those before put nothing into.
fn put_reads(
    alloc: Global,
    steps: &mut Vec<Step>,
    history: &NamedHistory,
    at: Ts,
    ops: &[RecordedOp],
) -> Result<(), Broken>
    ensures { OnOk result (steps.new.items ≡ steps.old.items ++ reads_of history.now RecordedOutcome.Ok at ops.now) }
{
    for i in 0..ops.len() {
        put_read_at(alloc, steps, history, at, ops, i)?;
    }
    Ok(())
}

// Adds what an act leaves in a key.
fn put_change(
    alloc: Global,
    changes: &mut Changes,
    history: &NamedHistory,
    op: RecordedOp,
) -> Result<(), Broken>
    ensures { OnOk result (changes.new ≡ changes.old ++ change_of history.now op.key (put_of_act op.act)) }
{
    let Some(value) = put_by(op.act) else {
        return Ok(());
    };
    let key = key_of(alloc, history, op.key)?;
    let mutation = Mutation::Put(value_of(alloc, history, value)?);
    match changes.push(Change { key, mutation }) {
        Ok(()) => Ok(()),
        Err(_) => Err(Broken::Memory),
    }
}

// Adds what the operation at a place leaves, where those behind it put nothing into its key.
fn put_change_at(
    alloc: Global,
    changes: &mut Changes,
    history: &NamedHistory,
    ops: &[RecordedOp],
    place: usize,
) -> Result<(), Broken>
    requires { place < length ops.now }
    ensures { OnOk result (changes.new ≡ changes.old ++ change_at history.now ops.now place) }
{
    let op = ops[place];
    if puts_into(&ops[place + 1..], op.key) {
        return Ok(());
    }
    put_change(alloc, changes, history, op)
}

// What operations leave in each key.
fn changes_of(alloc: Global, history: &NamedHistory, ops: &[RecordedOp]) -> Result<Changes, Broken>
    ensures { IfOk result (λ changes. changes ≡ changes_by history.now ops.now) }
{
    let mut changes = Items::new(alloc);
    for i in 0..ops.len() {
        put_change_at(alloc, &mut changes, history, ops, i)?;
    }
    Ok(changes)
}

// The operations of a transaction, none past the last one.
fn ops_of(recording: &Recording, txn: u32) -> &[RecordedOp]
    requires { IsRecording recording.now }
    ensures { result.now ≡ ops_in recording.now txn }
{
    if (txn as usize) < recording.transactions.len() {
        recording.ops_of(txn as usize)
    } else {
        &[]
    }
}

// What is known of a transaction's end.
fn outcome_of(recording: &Recording, txn: u32) -> RecordedOutcome
    ensures { result ≡ (transaction_at recording.now txn).outcome }
{
    match recording.transactions.get(txn as usize) {
        Some(transaction) => transaction.outcome,
        None => RecordedOutcome::Fail,
    }
}

// Adds what a transaction read, where that is known.
fn put_known_reads(
    alloc: Global,
    steps: &mut Vec<Step>,
    history: &NamedHistory,
    outcome: RecordedOutcome,
    at: Ts,
    ops: &[RecordedOp],
) -> Result<(), Broken>
    ensures { OnOk result (steps.new.items ≡ steps.old.items ++ reads_of history.now outcome at ops.now) }
{
    match outcome {
        RecordedOutcome::Ok => put_reads(alloc, steps, history, at, ops),
        RecordedOutcome::Fail | RecordedOutcome::Info => Ok(()),
    }
}

// Adds what a transaction declares, where it puts something.
fn put_declared(
    alloc: Global,
    steps: &mut Vec<Step>,
    history: &NamedHistory,
    at: Ts,
    ops: &[RecordedOp],
) -> Result<(), Broken>
    ensures { OnOk result (steps.new.items ≡ steps.old.items ++ declared_by history.now at ops.now) }
{
    if !puts(ops) {
        return Ok(());
    }
    let changes = changes_of(alloc, history, ops)?;
    steps.push(Step::Declare(at, changes))?;
    Ok(())
}

// Adds the steps of a transaction that starts.
fn put_start(
    alloc: Global,
    steps: &mut Vec<Step>,
    history: &NamedHistory,
    txn: u32,
    at: Ts,
) -> Result<(), Broken>
    requires { IsRecording history.now.recording }
    ensures { OnOk result (steps.new.items ≡ steps.old.items ++ start_steps history.now txn at) }
{
    let ops = ops_of(&history.recording, txn);
    let outcome = outcome_of(&history.recording, txn);
    steps.push(Step::Draw(at))?;
    steps.push(Step::Begin(at))?;
    put_known_reads(alloc, steps, history, outcome, at, ops)?;
    put_declared(alloc, steps, history, at, ops)
}

// Adds the steps of a transaction that commits.
fn put_commit(
    steps: &mut Vec<Step>,
    history: &NamedHistory,
    txn: u32,
    at: Ts,
    commit: Ts,
) -> Result<(), Broken>
    requires { IsRecording history.now.recording }
    ensures { OnOk result (steps.new.items ≡ steps.old.items ++ commit_steps history.now txn at commit) }
{
    if !puts(ops_of(&history.recording, txn)) {
        return Ok(());
    }
    steps.push(Step::Draw(commit))?;
    steps.push(Step::Commit(at, commit))?;
    Ok(())
}

// Adds the steps of a moment.
fn put_moment(
    alloc: Global,
    steps: &mut Vec<Step>,
    history: &NamedHistory,
    moment: Moment,
) -> Result<(), Broken>
    requires { IsRecording history.now.recording }
    ensures { OnOk result (steps.new.items ≡ steps.old.items ++ moment_steps history.now moment) }
{
    match moment {
        Moment::Start(txn, at) => put_start(alloc, steps, history, txn, at),
        Moment::Commit(txn, at, commit) => put_commit(steps, history, txn, at, commit),
    }
}

/// The steps of moments, in turn.
pub(crate) fn steps_of(
    alloc: Global,
    history: &NamedHistory,
    moments: &[Moment],
) -> Result<Vec<Step>, Broken>
    requires { IsRecording history.now.recording }
    ensures { IfOk result (λ steps. steps.items ≡ flat_map (moment_steps history.now) moments.now) }
{
    let mut steps = Vec::new(alloc);
    for moment in moments {
        put_moment(alloc, &mut steps, history, *moment)?;
    }
    Ok(steps)
}
