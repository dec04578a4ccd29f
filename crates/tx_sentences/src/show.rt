//! Members as a sentence shows them.
use crate::line::Member;
use serde_json::Value;
use std::alloc::{AllocError, Global};

// How many bytes of a member are shown at most.
const MAX_SHOWN: usize = 60;

// The greatest count of bytes, at most so many, that ends with a character.
fn cut_at(text: &str, most: usize) -> usize {
    let mut end = 0;
    'characters: for (at, _) in text.char_indices() {
        if at > most {
            return end;
        }
        end = at;
    }
    end
}

// A text, or the beginning of a long one.
fn cut(alloc: Global, text: &str) -> Result<String, AllocError> {
    if text.len() <= MAX_SHOWN {
        return text.to_string(alloc);
    }
    let end = cut_at(text, MAX_SHOWN);
    match text.get(..end) {
        Some(beginning) => format!(in alloc; "{beginning}.."),
        None => text.to_string(alloc),
    }
}

/// A member as its line has it, or the beginning of a long one.
pub(crate) fn shown(alloc: Global, member: Member<'_>) -> Result<String, AllocError> {
    cut(alloc, member.text)
}

/// A value as JSON, or the beginning of a long one.
pub(crate) fn shown_value(alloc: Global, value: &Value) -> Result<String, AllocError> {
    let whole = format!(in alloc; "{value}")?;
    cut(alloc, whole.as_str())
}
