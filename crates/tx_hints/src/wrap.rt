//! Texts broken into lines of so many places.
use crate::escape::places_of;
use std::alloc::{AllocError, Global};

// What is said of a thing has at least so many places beside its name.
const LEAST_BESIDE: usize = 30;

// How many places a text takes.
fn places(text: &str) -> usize {
    let mut count = 0_usize;
    'characters: for character in text.chars() {
        count = count.saturating_add(places_of(character));
    }
    count
}

// Where the last column of a line begins, at this byte or before: behind two blanks, or where its
// text begins.
fn column_of(line: &str, most: usize) -> usize {
    let (mut column, mut blanks) = (0_usize, 2_usize);
    'characters: for (at, character) in line.char_indices() {
        if at > most {
            return column;
        }
        if character == ' ' {
            blanks = blanks.saturating_add(1);
        } else {
            if blanks >= 2 {
                column = at;
            }
            blanks = 0;
        }
    }
    column
}

// Begins a new line so far in.
fn put_break(out: &mut String, indent: usize) -> Result<(), AllocError> {
    out.push('\n')?;
    'blanks: for _ in 0..indent {
        out.push(' ')?;
    }
    Ok(())
}

// Appends words behind a line so long, and goes on so far in where they would be over so many
// places.
fn put_words(out: &mut String, words: &str, indent: usize, width: usize) -> Result<(), AllocError> {
    let mut at = indent;
    'words: for word in words.split(' ') {
        let len = places(word);
        if word.is_empty() {
            continue;
        }
        let end = at.saturating_add(len);
        if at > indent && end >= width {
            put_break(out, indent)?;
            at = indent;
        } else if at > indent {
            out.push(' ')?;
            at = at.saturating_add(1);
        }
        out.push_str(word)?;
        at = at.saturating_add(len);
    }
    Ok(())
}

// Appends a line, broken at blanks where it takes too many places.
fn put_line(out: &mut String, line: &str, width: usize) -> Result<(), AllocError> {
    if places(line) <= width {
        return out.push_str(line);
    }
    let column = column_of(line, width.saturating_sub(LEAST_BESIDE));
    let (Some(head), Some(rest)) = (line.get(..column), line.get(column..)) else {
        return out.push_str(line);
    };
    out.push_str(head)?;
    put_words(out, rest, column, width)
}

/// A text whose lines take at most so many places, but for words that alone take more: a longer one
/// is broken at blanks, and goes on below the beginning of its last column.
pub fn wrapped(alloc: Global, text: &str, width: usize) -> Result<String, AllocError> {
    let mut out = String::new(alloc);
    'lines: for line in text.lines() {
        put_line(&mut out, line, width)?;
        out.push('\n')?;
    }
    Ok(out)
}
