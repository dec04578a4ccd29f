//! Why a line of a history says no transaction.
use crate::show::shown_value;
use json::{Error, Scratch, Tape};
use serde_json::Value;
use std::alloc::{AllocError, Global};
use tx_hints::meant;
use tx_types::limits::MAX_VALUE_BYTES;

// Whether a value is a name: a string, or a whole number.
fn is_name(value: &Value) -> bool {
    match value.as_str() {
        Some(text) => matches!(text.len(), 1..=512),
        None => value.as_u64().is_some(),
    }
}

// Whether a value is one of a key: a string of at most 65,536 bytes, a whole number of 64 bits, or
// true or false.
fn is_scalar(value: &Value) -> bool {
    match value.as_str() {
        Some(text) => text.len() <= MAX_VALUE_BYTES,
        None => value.as_u64().is_some() || value.as_i64().is_some() || value.is_boolean(),
    }
}

// Whether a value is what a read may find.
fn is_read(value: &Value) -> bool {
    match value.as_array() {
        Some(values) => values.iter().all(|value| is_scalar(value)),
        None => value.is_null() || is_scalar(value),
    }
}

// Whether a value is an operation.
fn is_op(value: &Value) -> bool {
    let Some(members) = value.as_array() else {
        return false;
    };
    match members.as_slice() {
        [word, key, found] => match word.as_str() {
            Some("append" | "w") => is_name(key) && is_scalar(found),
            Some("r") => is_name(key) && is_read(found),
            _ => false,
        },
        _ => false,
    }
}

// The word that an operation begins with, or an empty one.
fn word_of(op: &Value) -> &str {
    match op.as_array() {
        Some(members) => match members.first() {
            Some(word) => word.as_str().unwrap_or_default(),
            None => "",
        },
        None => "",
    }
}

// Whether an operation has a string that is too long for a value.
fn is_long(op: &Value) -> bool {
    let Some(members) = op.as_array() else {
        return false;
    };
    match members.as_slice() {
        [_, _, found] => match found.as_str() {
            Some(text) => text.len() > MAX_VALUE_BYTES,
            None => false,
        },
        _ => false,
    }
}

// What is to be done about what is no operation.
fn advice(op: &Value) -> &'static str {
    if word_of(op) == "scan" {
        ": bench/scans writes a scan as the reads that it is"
    } else if is_long(op) {
        ": a value has at most 65536 bytes, of a longer one write down a digest"
    } else {
        ""
    }
}

// Why a transaction's operations are none.
fn wrong_ops(alloc: Global, value: &Value) -> Result<Option<String>, AllocError> {
    let Some(ops) = value.get("ops").and_then(Value::as_array) else {
        return Ok(Some("the transaction has no list \"ops\"".to_string(alloc)?));
    };
    match ops.iter().find(|op| !is_op(op)) {
        None => Ok(None),
        Some(op) => {
            let meant = meant(alloc, word_of(op), &["append"])?;
            let advice = advice(op);
            let op = shown_value(alloc, op)?;
            Ok(Some(format!(in alloc;
                "{op} is no operation ([\"append\",key,value], [\"w\",key,value], [\"r\",key,values]){meant}{advice}"
            )?))
        }
    }
}

// Whether a member is a whole number, null, or not there.
fn is_number_or_none(value: &Value, name: &str) -> bool {
    match value.get(name) {
        None => true,
        Some(found) => found.is_null() || found.as_u64().is_some(),
    }
}

// The name of a member that is no number.
fn wrong_number(value: &Value) -> Option<&'static str> {
    'names: for name in ["id", "start", "end"] {
        if !is_number_or_none(value, name) {
            return Some(name);
        }
    }
    None
}

// Whether a member is a name, null, or not there.
fn is_name_or_none(value: &Value, name: &str) -> bool {
    match value.get(name) {
        None => true,
        Some(found) => found.is_null() || is_name(found),
    }
}

// Why a line is none of a history that is no object.
fn no_object(alloc: Global, value: &Value) -> Result<String, AllocError> {
    let hint = if value.is_array() {
        ": steps of scripts are for txkv simulate, those of traces for txkv check"
    } else {
        ""
    };
    format!(in alloc; "the line is no object{hint}")
}

// The names of the members of an object, as its text has them.
fn names_in<'a>(
    alloc: Global,
    scratch: &'a mut Scratch,
    text: &'a str,
) -> Result<Vec<&'a str>, AllocError> {
    let mut names = Vec::new(alloc);
    let tape = match Tape::parse(text, scratch, Vec::new(alloc)) {
        Ok(tape) => tape,
        Err(Error::OutOfMemory) => return Err(AllocError),
        Err(_) => return Ok(names),
    };
    let Some(mut members) = tape.root().members() else {
        return Ok(names);
    };
    for _ in 0..u64::MAX {
        let Some((name, _)) = members.next() else {
            break;
        };
        names.push(name)?;
    }
    Ok(names)
}

// That a member stands twice in an object, if one does.
fn member_twice(alloc: Global, text: &str) -> Result<Option<String>, AllocError> {
    let mut scratch = Scratch::new(alloc);
    let mut names = names_in(alloc, &mut scratch, text)?;
    names.sort_unstable();
    for i in 1..names.len() {
        if names[i - 1] == names[i] {
            let name = shown_value(alloc, &Value::String(names[i].to_string(alloc)?))?;
            return Ok(Some(format!(in alloc; "the transaction has {name} twice")?));
        }
    }
    Ok(None)
}

/// Why the value of a text says no transaction, where that can be said of the text alone.
pub(crate) fn wrong_transaction(
    alloc: Global,
    text: &str,
    value: &Value,
) -> Result<Option<String>, AllocError> {
    if !value.is_object() {
        return Ok(Some(no_object(alloc, value)?));
    }
    if let Some(wrong) = member_twice(alloc, text)? {
        return Ok(Some(wrong));
    }
    if !is_name_or_none(value, "process") {
        return Ok(Some(
            "\"process\" is no string of 1 to 512 bytes and no whole number below 2^64".to_string(
                alloc,
            )?,
        ));
    }
    let word = value.get("type").and_then(Value::as_str);
    if !matches!(word, Some("ok" | "fail" | "info")) {
        return Ok(Some("\"type\" is \"ok\", \"fail\" or \"info\"".to_string(alloc)?));
    }
    if let Some(name) = wrong_number(value) {
        return Ok(Some(format!(in alloc; "\"{name}\" is no whole number below 2^64")?));
    }
    wrong_ops(alloc, value)
}
