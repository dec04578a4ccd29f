//! A line that is an array whose last member is a list of rows, as the machine's steps have it, by
//! a scan of its bytes.
ghost use Rattle.std.specs.Prelude.{◌≡◌, ◌≤◌, length, drop, Some, IfSome};
ghost use Rattle.serde_json.specs.Data.{array};
ghost use Rattle.tx_text.specs.Parts.{json_of, scanned_items};
ghost use Rattle.tx_text.specs.Scan.{BeginsRow, BeginsRows};

use crate::part::Parts;
use crate::scan::{is_over, leading, pass, string, text_of};
use std::alloc::Global;

/// A row: an array of two or three strings.
#[derive(Clone, Copy, Debug, Drop)]
pub enum ListItem<'a> {
    Pair(&'a str, &'a str),
    Triple(&'a str, &'a str, &'a str),
}

/// What comes after the plain members of a line.
#[derive(Debug, Drop)]
pub enum Scanned<'a> {
    /// Nothing: they are all.
    Plain,
    /// One more member, the list of these rows.
    Listed(Vec<ListItem<'a>>),
}

// The row from here on, with what comes after it.
fn row_at(line: &str, from: usize) -> Option<(ListItem<'_>, usize)>
    requires { from ≤ length line.now }
    ensures range { IfSome result (λ found. found.1 ≤ length line.now) }
    ensures begins { IfSome result (λ found. BeginsRow (drop from line.now) found.0 (drop found.1 line.now)) }
{
    let open = pass(line, from, b'[')?;
    let (first, after_first) = string(line, open)?;
    let next = pass(line, after_first, b',')?;
    let (second, after_second) = string(line, next)?;
    if let Some(end) = pass(line, after_second, b']') {
        return Some((ListItem::Pair(first, second), end));
    }
    let last = pass(line, after_second, b',')?;
    let (third, after_third) = string(line, last)?;
    let end = pass(line, after_third, b']')?;
    Some((ListItem::Triple(first, second, third), end))
}

// The list of rows from here on, with what comes after it. Where there is no room for them
// it says nothing.
fn rows_at(alloc: Global, line: &str, from: usize) -> Option<(Vec<ListItem<'_>>, usize)>
    requires { from ≤ length line.now }
    ensures range { IfSome result (λ found. found.1 ≤ length line.now) }
    ensures begins { IfSome result (λ found. BeginsRows (drop from line.now) found.0.items (drop found.1 line.now)) }
{
    let mut at = pass(line, from, b'[')?;
    let mut rows = Vec::new(alloc);
    if let Some(end) = pass(line, at, b']') {
        return Some((rows, end));
    }
    'rows: for _ in 0..line.len() {
        let (row, after) = row_at(line, at)?;
        if rows.push(row).is_err() {
            return None;
        }
        if let Some(end) = pass(line, after, b']') {
            return Some((rows, end));
        }
        at = pass(line, after, b',')?;
    }
    None
}

/// The members of a line that is an array of at most `MAX_PARTS` strings with no escape, whole
/// numbers that do not begin with 0, and nulls, which it puts into `parts` in place of what was
/// there, and then of a list of rows where there is one. Of any other line it says nothing, nor
/// where a growth was refused.
pub fn scanned_with_rows<'a>(
    alloc: Global,
    line: &'a [u8],
    parts: &mut Parts<'a>,
) -> Option<Scanned<'a>>
    ensures { IfSome result (λ found. json_of line.now ≡ Some (array (scanned_items parts.new.items found))) }
{
    parts.clear();
    let text = text_of(line)?;
    let position = leading(text, parts)?;
    let Some(at) = position else {
        return Some(Scanned::Plain);
    };
    let (rows, end) = rows_at(alloc, text, at)?;
    if is_over(text, end) {
        Some(Scanned::Listed(rows))
    } else {
        None
    }
}
