//! Whether a member of a line is what its step wants there, and what that is.
use crate::form::Kind;
use serde_json::Value;
use std::alloc::{AllocError, Global};
use tx_hints::meant;
use tx_steps::MAX_AMOUNT;
use tx_types::limits::{
    MAX_KEY_BYTES, MAX_REGIONS, MAX_SCAN_ROWS, MAX_TICK, MAX_TTL, MAX_VALUE_BYTES,
};

// Whether it is a number from `low` to `high`.
fn is_within(value: &Value, low: u64, high: u64) -> bool {
    match value.as_u64() {
        Some(number) => low <= number && number <= high,
        None => false,
    }
}

// Whether it is a string of so many bytes.
fn is_sized(value: &Value, low: usize, high: usize) -> bool {
    match value.as_str() {
        Some(text) => low <= text.len() && text.len() <= high,
        None => false,
    }
}

fn is_key(value: &Value) -> bool {
    is_sized(value, 1, MAX_KEY_BYTES)
}

fn is_value(value: &Value) -> bool {
    is_sized(value, 0, MAX_VALUE_BYTES)
}

// Whether it is one of two words.
fn is_word(value: &Value, first: &str, second: &str) -> bool {
    match value.as_str() {
        Some(word) => word == first || word == second,
        None => false,
    }
}

// The members of an array, none of anything else.
fn members_of(value: &Value) -> Option<&[Value]> {
    match value.as_array() {
        Some(members) => Some(members.as_slice()),
        None => None,
    }
}

// Whether it is an entry of a write set.
fn is_change(value: &Value) -> bool {
    match members_of(value) {
        Some([key, word]) => is_key(key) && is_word(word, "delete", "lock"),
        Some([key, word, value]) => {
            is_key(key) && is_word(word, "put", "insert") && is_value(value)
        }
        _ => false,
    }
}

// Whether it is a row.
fn is_row(value: &Value) -> bool {
    match members_of(value) {
        Some([key, value]) => is_key(key) && is_value(value),
        _ => false,
    }
}

// Whether it is a list of entries of a write set.
fn are_changes(value: &Value) -> bool {
    let Some(entries) = members_of(value) else {
        return false;
    };
    'entries: for entry in entries {
        if !is_change(entry) {
            return false;
        }
    }
    true
}

// Whether it is a list of rows.
fn are_rows(value: &Value) -> bool {
    let Some(entries) = members_of(value) else {
        return false;
    };
    'entries: for entry in entries {
        if !is_row(entry) {
            return false;
        }
    }
    true
}

// Whether it is a list of keys between regions, each above the one before.
fn are_bounds(value: &Value) -> bool {
    let Some(keys) = members_of(value) else {
        return false;
    };
    let mut last = "";
    'keys: for key in keys {
        match key.as_str() {
            Some(text) if is_key(key) && last < text => last = text,
            _ => return false,
        }
    }
    !keys.is_empty() && keys.len() < MAX_REGIONS
}

/// Whether a member is of this kind.
pub(crate) fn is_of(kind: Kind, value: &Value) -> bool {
    match kind {
        Kind::Session | Kind::Request | Kind::Key | Kind::Value => value.as_str().is_some(),
        Kind::SizedKey => is_key(value),
        Kind::Stamp => value.as_u64().is_some(),
        Kind::Ttl => is_within(value, 0, MAX_TTL as u64),
        Kind::Ticks => is_within(value, 1, MAX_TICK as u64),
        Kind::Limit => is_within(value, 1, MAX_SCAN_ROWS as u64),
        Kind::Amount => is_within(value, 1, MAX_AMOUNT),
        Kind::Mode => is_word(value, "two-phase", "async"),
        Kind::Read => value.is_null() || is_value(value),
        Kind::Fate => is_word(value, "committed", "aborted"),
        Kind::Bounds => are_bounds(value),
        Kind::Changes => are_changes(value),
        Kind::Rows => are_rows(value),
    }
}

/// What a member of this kind is called, and what it may be.
pub(crate) fn rule_of(kind: Kind) -> (&'static str, &'static str) {
    match kind {
        Kind::Session => ("session's name", "a string"),
        Kind::Request => ("held request's name", "a string"),
        Kind::Key => ("key", "a string"),
        Kind::Value => ("value", "a string"),
        Kind::SizedKey => ("key", "a string of 1 to 512 bytes"),
        Kind::Stamp => ("timestamp", "a whole number below 2^64"),
        Kind::Ttl => ("time to live", "0 to 4294967295 ticks"),
        Kind::Ticks => ("number of ticks", "1 to 4294967295"),
        Kind::Limit => ("limit", "1 to 1024 rows"),
        Kind::Amount => ("amount", "1 to 1000000000000"),
        Kind::Mode => ("mode", "two-phase, async"),
        Kind::Read => (
            "value that was read",
            "a string of at most 65536 bytes, or null",
        ),
        Kind::Fate => ("fate", "committed, aborted"),
        Kind::Bounds => (
            "list of keys between regions",
            "1 to 63 keys, each above the one before",
        ),
        Kind::Changes => (
            "write set",
            r#"[[key,"put",value],[key,"insert",value],[key,"delete"],[key,"lock"],..]"#,
        ),
        Kind::Rows => ("list of rows", "[[key,value],..]"),
    }
}

/// The end of a sentence on a word that is no member of this kind: which was meant, where there are
/// a few and one of them is near.
pub(crate) fn meant_for(alloc: Global, kind: Kind, word: &str) -> Result<String, AllocError> {
    match kind {
        Kind::Mode => meant(alloc, word, &["two-phase", "async"]),
        Kind::Fate => meant(alloc, word, &["committed", "aborted"]),
        _ => Ok(String::new(alloc)),
    }
}
