//! A step as a picture shows it.
use crate::row::Sending;
use crate::words::{put_stamp, put_text};
use std::alloc::AllocError;
use tx_steps::{Call, Delivery, Op, Step};
use tx_types::Mode;

// Appends a word, a key and its value.
fn put_pair(out: &mut String, word: &str, key: &str, value: &str) -> Result<(), AllocError> {
    out.push_str(word)?;
    put_text(out, key)?;
    put_text(out, value)
}

// Appends a word and a text.
fn put_one(out: &mut String, word: &str, text: &str) -> Result<(), AllocError> {
    out.push_str(word)?;
    put_text(out, text)
}

fn put_declare(
    out: &mut String,
    mode: Mode,
    ttl: u32,
    max_commit: Option<u64>,
) -> Result<(), AllocError> {
    match mode {
        Mode::TwoPhase => put_stamp(out, "declare two-phase ", u64::from(ttl))?,
        Mode::Async => put_stamp(out, "declare async ", u64::from(ttl))?,
    }
    match max_commit {
        Some(most) => put_stamp(out, " ", most),
        None => Ok(()),
    }
}

fn put_op(out: &mut String, op: Op<&str>) -> Result<(), AllocError> {
    match op {
        Op::Put(key, value) => put_pair(out, "put", key, value),
        Op::Insert(key, value) => put_pair(out, "insert", key, value),
        Op::Delete(key) => put_one(out, "delete", key),
        Op::Lock(key) => put_one(out, "lock", key),
        Op::Declare(mode, ttl, max_commit) => put_declare(out, mode, ttl, max_commit),
        Op::Draw => out.push_str("draw"),
        Op::Finish => out.push_str("finish"),
        Op::Stop => out.push_str("stop"),
        Op::Resolve(now) => put_stamp(out, "resolve ", now),
    }
}

fn put_scan(out: &mut String, from: &str, to: &str, limit: u32) -> Result<(), AllocError> {
    put_pair(out, "scan", from, to)?;
    put_stamp(out, " ", u64::from(limit))
}

fn put_call(out: &mut String, call: Call<&str>) -> Result<(), AllocError> {
    match call {
        Call::Get(key) => put_one(out, "get", key),
        Call::Scan(from, to, limit) => put_scan(out, from, to, limit),
        Call::Prewrite => out.push_str("prewrite"),
        Call::Commit => out.push_str("commit"),
        Call::Abort => out.push_str("abort"),
        Call::Heartbeat(ttl) => put_stamp(out, "heartbeat ", u64::from(ttl)),
    }
}

/// Appends a step without its session and its delivery.
pub(crate) fn put_step(out: &mut String, step: &Step<&str>) -> Result<(), AllocError> {
    match *step {
        Step::Begin(_) => out.push_str("begin"),
        Step::Act(_, op) => put_op(out, op),
        Step::Send(_, call, _) => put_call(out, call),
        Step::Deliver(name) => put_one(out, "deliver", name),
        Step::Read(key, at) => {
            put_one(out, "read", key)?;
            put_stamp(out, " ", at)
        }
        Step::Versions(key) => put_one(out, "versions", key),
        Step::Tick(ticks) => put_stamp(out, "tick ", u64::from(ticks)),
        Step::Gc(safe) => put_stamp(out, "gc ", safe),
        Step::Seed(key, value) => put_pair(out, "seed", key, value),
        Step::Transfer(..) => out.push_str("transfer"),
    }
}

// What became of a request by its delivery, where it was sent: of those that regions took it knows
// whether there are some, and of the others whether the reply is that none came.
fn delivered(delivery: Delivery<&str>, is_taken: bool, is_lost: bool) -> Sending {
    match delivery {
        Delivery::Lost if is_lost => Sending::Lost,
        Delivery::Held(_) if is_lost => Sending::Held,
        Delivery::Unanswered if is_taken => Sending::ReplyLost,
        Delivery::Repeated if is_taken => Sending::Twice,
        _ => Sending::Plain,
    }
}

/// What became of the request of a step, by whether regions took some and whether the reply is that
/// none came. A delivery that the step ignored, since it sent nothing, is none.
pub(crate) fn sending_of(step: &Step<&str>, is_taken: bool, is_lost: bool) -> Sending {
    match *step {
        Step::Send(_, _, delivery) => delivered(delivery, is_taken, is_lost),
        Step::Deliver(_) => Sending::Delivered,
        _ => Sending::Plain,
    }
}

/// The name under which the request of a step is held, or was.
pub(crate) fn held_as<'a>(step: &Step<&'a str>) -> &'a str {
    match *step {
        Step::Send(_, _, Delivery::Held(name)) | Step::Deliver(name) => name,
        _ => "",
    }
}

/// Whether a step ends its session, where it is no fault.
pub(crate) fn is_last(step: &Step<&str>) -> bool {
    matches!(step, Step::Act(_, Op::Finish | Op::Stop))
}
