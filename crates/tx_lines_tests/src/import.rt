//! What is read of lines, and what is not.
use std::alloc::Global;
use std::test::Fail;
use tx_import::{LineFault, read_history};
use tx_types::Cause;

// How many transactions, operations, values that were read, keys and values these lines say.
fn counts(alloc: Global, text: &str) -> Option<(usize, usize, usize, u32, u32)> {
    let mut reader = text.as_bytes();
    match read_history(alloc, &mut reader) {
        Ok(Ok(history)) => {
            let recording = &history.recording;
            Some((
                recording.transactions.len(),
                recording.ops.len(),
                recording.elements.len(),
                recording.keys,
                recording.values,
            ))
        }
        Ok(Err(_)) | Err(_) => None,
    }
}

// The first of these lines that says no transaction.
fn fault(alloc: Global, text: &str) -> Option<LineFault> {
    let mut reader = text.as_bytes();
    match read_history(alloc, &mut reader) {
        Ok(Err(fault)) => Some(fault),
        Ok(Ok(_)) | Err(_) => None,
    }
}

static FAULTS: [(&str, u64, Cause); 8] = [
    ("{\"type\":\"ok\"", 1, Cause::Json),
    ("[]", 1, Cause::Form),
    (
        "{\"type\":\"ok\",\"ops\":[]}\n{\"type\":\"no\",\"ops\":[]}",
        2,
        Cause::Form,
    ),
    (
        "{\"type\":\"ok\",\"ops\":[[\"append\",\"x\"]]}",
        1,
        Cause::Form,
    ),
    (
        "{\"type\":\"ok\",\"ops\":[[\"add\",\"x\",1]]}",
        1,
        Cause::Form,
    ),
    ("{\"type\":\"ok\",\"ops\":[[\"w\",\"\",1]]}", 1, Cause::Form),
    ("{\"type\":\"ok\",\"id\":-1,\"ops\":[]}", 1, Cause::Form),
    (
        "{\"type\":\"ok\",\"id\":1,\"id\":2,\"ops\":[]}",
        1,
        Cause::Form,
    ),
];

#[test]
fn first_line_that_says_none(rt: HostRuntime) {
    for (text, number, cause) in FAULTS {
        let found = fault(rt.alloc(), text);
        assert!(rt; found == Some(LineFault { number, cause }));
    }
}

// The same value of two keys is two, and a number and a text are two names.
#[test]
fn names_have_numbers(rt: HostRuntime) {
    let text =
        "{\"type\":\"ok\",\"ops\":[[\"append\",\"x\",1],[\"append\",1,1],[\"r\",\"x\",[1,\"1\"]]]}\n\
        {\"type\":\"info\",\"process\":\"p\",\"start\":3,\"ops\":[[\"r\",1,null],[\"r\",\"x\",1]]}";
    let found = counts(rt.alloc(), text);
    assert!(rt; found == Some((2, 5, 3, 2, 3)));
}
