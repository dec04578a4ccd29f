//! The reason of a refusal, as a sentence of what the reply says.
use crate::reply::Reply;
use crate::words::{put_shown, put_stamp};
use std::alloc::AllocError;

// A lock stands in the way.
fn put_locked(out: &mut String, reply: Reply<'_>) -> Result<(), AllocError> {
    let key = reply.text(0);
    let primary = reply.text(2);
    put_shown(out, key)?;
    put_stamp(out, " is locked by ", reply.number(1))?;
    if primary != key {
        out.push_str(", whose primary is ")?;
        put_shown(out, primary)?;
    }
    if reply.number(3) > 0 {
        put_stamp(out, ", min ", reply.number(3))?;
    }
    out.push_str(", ")?;
    out.push_str(reply.text(4))
}

// Another transaction has committed the key meanwhile.
fn put_conflict(out: &mut String, reply: Reply<'_>, start: Option<u64>) -> Result<(), AllocError> {
    put_stamp(out, "transaction ", reply.number(0))?;
    put_stamp(out, " committed the key at ", reply.number(1))?;
    match start {
        Some(start) => put_stamp(out, ", after this one started at ", start),
        None => Ok(()),
    }
}

// A lock stands that a collection wants gone.
fn put_remains(out: &mut String, reply: Reply<'_>) -> Result<(), AllocError> {
    put_stamp(out, "a lock of ", reply.number(1))?;
    out.push_str(" that started below the safe point stands on ")?;
    put_shown(out, reply.text(0))
}

fn put_future(out: &mut String, last: u64) -> Result<(), AllocError> {
    put_stamp(out, "above the last number ", last)?;
    out.push_str(" that the region knows")
}

fn put_fault(out: &mut String, cause: &str) -> Result<(), AllocError> {
    out.push_str("the script is at fault: ")?;
    out.push_str(cause)
}

/// Appends the reason of a refusal to a session that started so.
pub(crate) fn put_reason(
    out: &mut String,
    reply: Reply<'_>,
    start: Option<u64>,
) -> Result<(), AllocError> {
    match reply.word {
        "E1" => put_locked(out, reply),
        "E2" => put_conflict(out, reply, start),
        "E3" => out.push_str("the transaction was rolled back on the key"),
        "E4" => put_stamp(out, "it is committed at ", reply.number(0)),
        "E5" => put_stamp(out, "the lock allows no commit below ", reply.number(0)),
        "E6" => out.push_str("neither lock nor record of the transaction stands there"),
        "E7" => put_stamp(out, "below the safe point ", reply.number(0)),
        "E8" => put_future(out, reply.number(0)),
        "E9" => put_remains(out, reply),
        "E10" => out.push_str("nothing of the transaction stands there"),
        "E11" => out.push_str("this seat has drawn its 2^32 numbers"),
        "E12" => out.push_str("no memory"),
        "E13" => out.push_str("a key has 1 to 512 bytes"),
        "E14" => out.push_str("a value has at most 65,536 bytes"),
        "E15" => out.push_str("too many keys"),
        "E16" => put_fault(out, reply.text(0)),
        "E17" => out.push_str("the key has a value already"),
        _ => Ok(()),
    }
}
