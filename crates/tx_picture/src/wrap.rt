//! Words that go on below where a line is full.
use std::alloc::AllocError;
use tx_cut::places;

/// Where words stand: behind how many places of their line, and how many they have.
#[derive(Clone, Copy, Debug)]
pub(crate) struct Room {
    pub begins: usize,
    pub places: usize,
}

/// The least that words have, however full their line is.
const LEAST: usize = 20;

impl Room {
    /// What is left of a line of so many places behind these; all where nobody says how many.
    pub fn behind(begins: usize, width: Option<usize>) -> Room {
        let places = match width {
            Some(width) => width.saturating_sub(begins).max(LEAST),
            None => usize::MAX,
        };
        Room { begins, places }
    }

    /// The same, so many places further on.
    pub fn further(self, by: usize) -> Room {
        Room {
            begins: self.begins.saturating_add(by),
            places: self.places.saturating_sub(by).max(1),
        }
    }
}

/// Appends so many spaces.
pub(crate) fn put_spaces(out: &mut String, count: usize) -> Result<(), AllocError> {
    for _ in 0..count {
        out.push(' ')?;
    }
    Ok(())
}

// Appends what stands between two words: a space, or where the next has no room a new line. How
// many places are taken then.
fn put_between(
    out: &mut String,
    room: Room,
    taken: usize,
    next: usize,
) -> Result<usize, AllocError> {
    if taken == 0 {
        return Ok(0);
    }
    if taken.saturating_add(next) < room.places {
        out.push(' ')?;
        return Ok(taken.saturating_add(1));
    }
    out.push('\n')?;
    put_spaces(out, room.begins)?;
    Ok(0)
}

/// Appends words from where they stand on; those that have no room there stand below one another.
/// A single word is not parted.
pub(crate) fn put_words(out: &mut String, room: Room, words: &str) -> Result<(), AllocError> {
    let mut taken = 0usize;
    'words: for word in words.split(' ') {
        let next = places(word);
        taken = put_between(out, room, taken, next)?.saturating_add(next);
        out.push_str(word)?;
    }
    Ok(())
}
