//! Replies that no script of the examples has, as text.
use std::test::Fail;
use tx_client::{Status, WaitCause};
use tx_core::Answer;
use tx_reply::{ScriptReply, put_reply};
use tx_types::{Key, KeyValue, KeyValues, Value};

// Whether this is the line of a reply.
fn says(rt: &HostRuntime, number: u64, reply: &ScriptReply, line: &str) -> bool {
    let mut text = Vec::new(rt.alloc());
    put_reply(&mut text, number, reply).is_ok() && text.as_slice() == line.as_bytes()
}

// A resolver may wait for what a reader of a script never meets.
#[test]
fn statuses(rt: HostRuntime) {
    for (why, line) in [
        (
            WaitCause::NotFound,
            "[11,\"status\",\"waiting\",\"not-found\"]\n",
        ),
        (WaitCause::Reply, "[11,\"status\",\"waiting\",\"lost\"]\n"),
        (
            WaitCause::OutOfMemory,
            "[11,\"status\",\"waiting\",\"E12\"]\n",
        ),
    ] {
        assert!(rt; says(&rt, 11, &ScriptReply::Status(Status::Waiting(why)), line));
    }
}

// A key that is no text is null, and a value has its escapes.
#[test]
fn bytes_that_are_no_text(rt: HostRuntime) -> Result<(), Fail> {
    let mut rows = KeyValues::new(rt.alloc());
    rows.push(KeyValue {
        key: Key::new(rt.alloc(), b"\xff")?,
        value: Value::new(rt.alloc(), b"\"\xc3\xa9\n")?,
    })?;
    let reply = ScriptReply::Answered(Answer::Rows(rows));
    assert!(rt; says(&rt, 12, &reply, "[12,\"rows\",[[null,\"\\\"é\\n\"]]]\n"));
    Ok(())
}
