//! The line of a step, member by member.
ghost use Rattle.std.specs.Prelude.{◌≡◌, [], ◌∷◌, ◌++◌, OnOk};
ghost use Rattle.serde_json.specs.Data.{string};
ghost use Rattle.serde_json.specs.Written.{compact_text};
ghost use Rattle.tx_steps.specs.declared.op.Op.TheVariants as ops;
ghost use Rattle.tx_steps.specs.Steps.{named, op_named, call_named, delivery_named, transfer_named};
ghost use Rattle.tx_step_text.specs.StepTexts.{mode_word as mode_text, op_word as op_text, call_word as call_text, step_word as step_text, bound_members, op_members, call_members, delivery_members, transfer_members, step_members, later_text, line_of};

use crate::text::StepText;
use std::alloc::AllocError;
use tx_steps::{Call, Delivery, Op, Step, Transfer};
use tx_text::{put_number, put_string, put_text};
use tx_types::Mode;

// Appends a comma and a text.
fn put_more<S: StepText>(out: &mut Vec<u8>, text: &S) -> Result<(), AllocError>
    ensures { OnOk result (out.new.items ≡ out.old.items ++ 44 ∷ compact_text (string (S.bytes text.now))) }
{
    out.push(b',')?;
    text.put(out)
}

// Appends a comma and a word.
fn put_word(out: &mut Vec<u8>, word: &str) -> Result<(), AllocError>
    ensures { OnOk result (out.new.items ≡ out.old.items ++ 44 ∷ compact_text (string word.now)) }
{
    put_text(out, word.as_bytes())
}

fn mode_word(mode: Mode) -> &'static str
    ensures { result.now ≡ mode_text mode }
{
    match mode {
        Mode::TwoPhase => "two-phase",
        Mode::Async => "async",
    }
}

fn op_word<S: StepText>(op: &Op<S>) -> &'static str
    ensures { result.now ≡ op_text (op_named S.bytes op.now) }
{
    match op {
        Op::Put(..) => "put",
        Op::Insert(..) => "insert",
        Op::Delete(_) => "delete",
        Op::Lock(_) => "lock",
        Op::Declare(..) => "declare",
        Op::Draw => "draw",
        Op::Finish => "finish",
        Op::Stop => "stop",
        Op::Resolve(_) => "resolve",
    }
}

fn call_word<S: StepText>(call: &Call<S>) -> &'static str
    ensures { result.now ≡ call_text (call_named S.bytes call.now) }
{
    match call {
        Call::Get(_) => "get",
        Call::Scan(..) => "scan",
        Call::Prewrite => "prewrite",
        Call::Commit => "commit",
        Call::Abort => "abort",
        Call::Heartbeat(_) => "heartbeat",
    }
}

fn step_word<S: StepText>(step: &Step<S>) -> &'static str
    ensures { result.now ≡ step_text (named S.bytes step.now) }
{
    match step {
        Step::Begin(_) => "begin",
        Step::Act(_, op) => op_word(op),
        Step::Send(_, call, _) => call_word(call),
        Step::Deliver(_) => "deliver",
        Step::Read(..) => "read",
        Step::Versions(_) => "versions",
        Step::Tick(_) => "tick",
        Step::Gc(_) => "gc",
        Step::Seed(..) => "seed",
        Step::Transfer(..) => "transfer",
    }
}

// Appends two texts, each with a comma before it.
fn put_pair<S: StepText>(out: &mut Vec<u8>, first: &S, second: &S) -> Result<(), AllocError>
    ensures { OnOk result (out.new.items ≡ out.old.items
        ++ later_text (string (S.bytes first.now) ∷ string (S.bytes second.now) ∷ [])) }
{
    put_more(out, first)?;
    put_more(out, second)
}

// Appends the terms of a declared write set.
fn put_terms(
    out: &mut Vec<u8>,
    mode: Mode,
    ttl: u32,
    max_commit: Option<u64>,
) -> Result<(), AllocError>
    ensures { OnOk result (out.new.items ≡ out.old.items ++ later_text (op_members (ops.Declare mode ttl max_commit))) }
{
    put_word(out, mode_word(mode))?;
    put_number(out, u64::from(ttl))?;
    match max_commit {
        Some(commit) => put_number(out, commit),
        None => Ok(()),
    }
}

// Appends what a session does by itself, behind its name.
fn put_op<S: StepText>(out: &mut Vec<u8>, op: &Op<S>) -> Result<(), AllocError>
    ensures { OnOk result (out.new.items ≡ out.old.items ++ later_text (op_members (op_named S.bytes op.now))) }
{
    match op {
        Op::Put(key, value) | Op::Insert(key, value) => put_pair(out, key, value),
        Op::Delete(key) | Op::Lock(key) => put_more(out, key),
        Op::Declare(mode, ttl, max_commit) => put_terms(out, *mode, *ttl, *max_commit),
        Op::Draw | Op::Finish | Op::Stop => Ok(()),
        Op::Resolve(now) => put_number(out, *now),
    }
}

// Appends what a session sends, behind its name.
fn put_call<S: StepText>(out: &mut Vec<u8>, call: &Call<S>) -> Result<(), AllocError>
    ensures { OnOk result (out.new.items ≡ out.old.items ++ later_text (call_members (call_named S.bytes call.now))) }
{
    match call {
        Call::Get(key) => put_more(out, key),
        Call::Scan(from, to, limit) => {
            put_pair(out, from, to)?;
            put_number(out, u64::from(*limit))
        }
        Call::Prewrite | Call::Commit | Call::Abort => Ok(()),
        Call::Heartbeat(ttl) => put_number(out, u64::from(*ttl)),
    }
}

// Appends what becomes of a request.
fn put_delivery<S: StepText>(out: &mut Vec<u8>, delivery: &Delivery<S>) -> Result<(), AllocError>
    ensures { OnOk result (out.new.items ≡ out.old.items
        ++ later_text (delivery_members (delivery_named S.bytes delivery.now))) }
{
    match delivery {
        Delivery::Taken => Ok(()),
        Delivery::Lost => put_word(out, "lose"),
        Delivery::Unanswered => put_word(out, "lose-reply"),
        Delivery::Repeated => put_word(out, "repeat"),
        Delivery::Held(name) => {
            put_word(out, "hold")?;
            put_more(out, name)
        }
    }
}

// Appends what is moved, behind the session's name.
fn put_transfer<S: StepText>(out: &mut Vec<u8>, what: &Transfer<S>) -> Result<(), AllocError>
    ensures { OnOk result (out.new.items ≡ out.old.items
        ++ later_text (transfer_members (transfer_named S.bytes what.now))) }
{
    put_pair(out, &what.from, &what.to)?;
    put_number(out, what.amount)?;
    put_word(out, mode_word(what.mode))
}

// Appends the members behind the word.
fn put_members<S: StepText>(out: &mut Vec<u8>, step: &Step<S>) -> Result<(), AllocError>
    ensures { OnOk result (out.new.items ≡ out.old.items ++ later_text (step_members (named S.bytes step.now))) }
{
    match step {
        Step::Begin(text) | Step::Deliver(text) | Step::Versions(text) => put_more(out, text),
        Step::Act(name, op) => {
            put_more(out, name)?;
            put_op(out, op)
        }
        Step::Send(name, call, delivery) => {
            put_more(out, name)?;
            put_call(out, call)?;
            put_delivery(out, delivery)
        }
        Step::Read(key, at) => {
            put_more(out, key)?;
            put_number(out, *at)
        }
        Step::Tick(ticks) => put_number(out, u64::from(*ticks)),
        Step::Gc(safe) => put_number(out, *safe),
        Step::Seed(key, value) => put_pair(out, key, value),
        Step::Transfer(name, what) => {
            put_more(out, name)?;
            put_transfer(out, what)
        }
    }
}

/// Appends the line of a step, without its newline.
pub fn put_step<S: StepText>(out: &mut Vec<u8>, step: &Step<S>) -> Result<(), AllocError>
    ensures { OnOk result (out.new.items ≡ out.old.items ++ line_of (named S.bytes step.now)) }
{
    out.push(b'[')?;
    put_string(out, step_word(step).as_bytes())?;
    put_members(out, step)?;
    out.push(b']')?;
    Ok(())
}
