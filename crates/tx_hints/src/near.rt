//! The word that was meant by another, where one is near.
use std::alloc::{AllocError, Global};
use strsim::osa_distance;

// A longer word is no slip of any.
const MAX_WORD_BYTES: usize = 32;

// Words of other stores, and the words that scripts have for the same.
static NEAR_WORDS: [(&str, &str); 22] = [
    ("rollback", "abort"),
    ("cancel", "abort"),
    ("set", "put"),
    ("write", "put"),
    ("update", "put"),
    ("upsert", "put"),
    ("w", "put"),
    ("add", "insert"),
    ("remove", "delete"),
    ("del", "delete"),
    ("select", "get"),
    ("r", "get"),
    ("range", "scan"),
    ("start", "begin"),
    ("prepare", "prewrite"),
    ("end", "finish"),
    ("quit", "stop"),
    ("collect", "gc"),
    ("sleep", "tick"),
    ("2pc", "two-phase"),
    ("1pc", "async"),
    ("drop", "lose"),
];

// How many slips lie between a word and this one that was meant, at most.
fn most_slips(known: &str) -> usize {
    if known.len() < 5 { 1 } else { 2 }
}

// The first of these words than which none is fewer slips away, where these are few.
fn nearest<'a>(
    alloc: Global,
    word: &str,
    words: &[&'a str],
) -> Result<Option<&'a str>, AllocError> {
    if !matches!(word.len(), 2..=MAX_WORD_BYTES) {
        return Ok(None);
    }
    let mut least = usize::MAX;
    let mut found = None;
    'words: for known in words {
        let slips = if word.eq_ignore_ascii_case(known) {
            0
        } else {
            osa_distance(alloc, word, known)?
        };
        if slips < least && slips <= most_slips(known) {
            least = slips;
            found = Some(*known);
        }
    }
    Ok(found)
}

// The one of these words that stands for a word of other stores.
fn same(word: &str, words: &[&str]) -> Option<&'static str> {
    let (_, known) = NEAR_WORDS
        .iter()
        .find(|pair| word.eq_ignore_ascii_case(pair.0))?;
    if words.iter().any(|each| each == known) {
        Some(known)
    } else {
        None
    }
}

/// The end of a sentence on a word that is none of these: which of them was meant, where one is
/// near or is called so elsewhere, or nothing.
pub fn meant(alloc: Global, word: &str, words: &[&str]) -> Result<String, AllocError> {
    if let Some(known) = same(word, words) {
        return format!(in alloc; "; did you mean \"{known}\"?");
    }
    match nearest(alloc, word, words)? {
        Some(known) => format!(in alloc; "; did you mean \"{known}\"?"),
        None => Ok(String::new(alloc)),
    }
}
