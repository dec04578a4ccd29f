//! A read that cannot be, drawn.
ghost use Rattle.std.specs.Prelude.{◌≡◌, ◌++◌, Some, None, OnOk, IfOk};
ghost use Rattle.tx_acts.specs.Shown.{read_shown};
ghost use Rattle.tx_diagram.specs.Reads.{read_text, why_text, colour_of, tie_of, tied_text, rows_of, most_rows, box_at, alone_text, pair_text, boxes_text, boxes_of, framed_text, read_picture, tip_text, edge_text, read_drawing};

use crate::boxes::{put_box_of, shown_of};
use crate::drawing::put_quoted;
use std::alloc::{AllocError, Global};
use tx_acts::put_read_shown;
use tx_import::NamedHistory;
use tx_ring::{Subject, Tie, put_close, put_end_of_box, put_head, put_tie, reach_of};
use tx_verdict::{Fact, Rule};
use tx_verdict_text::{put_id, put_key, put_known_value, rule_word};

// What was read: a key, and its value.
fn read_text(alloc: Global, history: &NamedHistory, fact: Fact) -> Result<Vec<u8>, AllocError>
    ensures { IfOk result (λ text. text.items ≡ read_text history.now fact) }
{
    let mut text = Vec::new(alloc);
    put_key(&mut text, history, fact.key)?;
    text.extend_from_slice(b" ")?;
    put_known_value(&mut text, history, fact.value)?;
    Ok(text)
}

// Why it cannot be.
fn why_of(rule: Rule) -> &'static str
    ensures { result.now ≡ why_text rule }
{
    match rule {
        Rule::Internal => "read, and not as the reader itself had left it",
        Rule::G1a => "read, and the one who put it failed",
        Rule::G1b => "read, and not all as it was left there",
        Rule::Unwritten => "read, and nobody put it there",
        Rule::Unrepeatable => "read, and not the same as before",
        Rule::IncompatibleOrder => "both read it, in two orders",
        Rule::Duplicate => "read twice",
        Rule::LostUpdate => "both saw the same, and both put something there",
    }
}

// Its colour.
fn colour_of(rule: Rule) -> &'static str
    ensures { result.now ≡ colour_of rule }
{
    match rule {
        Rule::LostUpdate => "ww",
        _ => "wr",
    }
}

// What leads from the other who is told of to the reader.
fn tie_of(rule: Rule) -> Tie
    ensures { result ≡ tie_of rule }
{
    match rule {
        Rule::IncompatibleOrder | Rule::LostUpdate => Tie::Line,
        _ => Tie::Arrow,
    }
}

// What shows the read.
fn shown(alloc: Global, history: &NamedHistory, fact: Fact) -> Result<Vec<u8>, AllocError>
    ensures { IfOk result (λ text. text.items ≡ read_shown history.now fact) }
{
    let mut text = Vec::new(alloc);
    put_read_shown(alloc, &mut text, history, fact)?;
    Ok(text)
}

// Appends the words of what leads from a box to the next one, and the end of the box.
fn put_tied(
    alloc: Global,
    out: &mut Vec<u8>,
    history: &NamedHistory,
    fact: Fact,
    rows: usize,
    tie: Tie,
) -> Result<(), AllocError>
    ensures { OnOk result (out.new.items ≡ out.old.items ++ tied_text history.now fact rows tie) }
{
    let label = read_text(alloc, history, fact)?;
    let shown = shown(alloc, history, fact)?;
    let why = why_of(fact.rule).as_bytes();
    put_tie(out, rows, tie, label.as_slice(), why, shown.as_slice())
}

// How many operations are shown of a transaction.
fn rows_of(alloc: Global, history: &NamedHistory, fact: Fact, txn: u32) -> Result<usize, AllocError>
    ensures { IfOk result (λ rows. rows ≡ rows_of history.now fact txn) }
{
    let shown = shown_of(alloc, history, &[fact.key], txn)?;
    Ok(shown.len())
}

// How many rows each box has.
fn most_rows(alloc: Global, history: &NamedHistory, fact: Fact) -> Result<usize, AllocError>
    ensures { IfOk result (λ rows. rows ≡ most_rows history.now fact fact.by) }
{
    let rows = rows_of(alloc, history, fact, fact.txn)?;
    match fact.by {
        None => Ok(rows),
        Some(other) => {
            let others = rows_of(alloc, history, fact, other)?;
            Ok(others.max(rows))
        }
    }
}

// Appends the box of a transaction at a place, of a kind.
fn put_box_at(
    alloc: Global,
    out: &mut Vec<u8>,
    history: &NamedHistory,
    fact: Fact,
    rows: usize,
    place: usize,
    kind: &str,
    txn: u32,
) -> Result<(), AllocError>
    ensures { OnOk result (out.new.items ≡ out.old.items
        ++ box_at history.now fact rows place kind.now txn) }
{
    let keys = &[fact.key];
    put_box_of(alloc, out, history, keys, rows, place, kind, txn)
}

// Appends the reader's box.
fn put_alone(
    alloc: Global,
    out: &mut Vec<u8>,
    history: &NamedHistory,
    fact: Fact,
    rows: usize,
) -> Result<(), AllocError>
    ensures { OnOk result (out.new.items ≡ out.old.items ++ alone_text history.now fact rows) }
{
    let kind = colour_of(fact.rule);
    put_box_at(alloc, out, history, fact, rows, 0, kind, fact.txn)?;
    put_tied(alloc, out, history, fact, rows, Tie::Nothing)
}

// Appends the other's box, and the reader's.
fn put_pair(
    alloc: Global,
    out: &mut Vec<u8>,
    history: &NamedHistory,
    fact: Fact,
    rows: usize,
    other: u32,
) -> Result<(), AllocError>
    ensures { OnOk result (out.new.items ≡ out.old.items ++ pair_text history.now fact rows other) }
{
    let kind = colour_of(fact.rule);
    put_box_at(alloc, out, history, fact, rows, 0, kind, other)?;
    let tie = tie_of(fact.rule);
    put_tied(alloc, out, history, fact, rows, tie)?;
    put_box_at(alloc, out, history, fact, rows, 1, "last", fact.txn)?;
    put_end_of_box(out)
}

// Appends the reader's box, behind that of the other who is told of, if there is one.
fn put_boxes(
    alloc: Global,
    out: &mut Vec<u8>,
    history: &NamedHistory,
    fact: Fact,
    rows: usize,
) -> Result<(), AllocError>
    ensures { OnOk result (out.new.items ≡ out.old.items ++ boxes_text history.now fact rows fact.by) }
{
    match fact.by {
        None => put_alone(alloc, out, history, fact, rows),
        Some(other) => put_pair(alloc, out, history, fact, rows, other),
    }
}

// How many boxes there are.
fn boxes_of(by: Option<u32>) -> usize
    ensures { result ≡ boxes_of by }
{
    if by.is_some() { 2 } else { 1 }
}

// Appends boxes with so many rows, whose words reach so far.
fn put_framed(
    alloc: Global,
    out: &mut Vec<u8>,
    history: &NamedHistory,
    fact: Fact,
    rows: usize,
    reach: usize,
) -> Result<(), AllocError>
    ensures { OnOk result (out.new.items ≡ out.old.items ++ framed_text history.now fact rows reach) }
{
    let title = rule_word(fact.rule).as_bytes();
    let count = boxes_of(fact.by);
    put_head(out, Subject::Read, title, rows, count, reach)?;
    put_boxes(alloc, out, history, fact, rows)?;
    put_close(out)
}

/// A read that cannot be as an SVG.
pub fn read_picture(
    alloc: Global,
    history: &NamedHistory,
    fact: Fact,
) -> Result<Vec<u8>, AllocError>
    ensures { IfOk result (λ text. text.items ≡ read_picture history.now fact) }
{
    let label = read_text(alloc, history, fact)?;
    let reach = reach_of(label.as_slice(), why_of(fact.rule).as_bytes());
    let rows = most_rows(alloc, history, fact)?;
    let mut out = Vec::new(alloc);
    put_framed(alloc, &mut out, history, fact, rows, reach)?;
    Ok(out)
}

// Appends what stands behind the words at an edge.
fn put_tip(out: &mut Vec<u8>, tie: Tie) -> Result<(), AllocError>
    ensures { OnOk result (out.new.items ≡ out.old.items ++ tip_text tie) }
{
    match tie {
        Tie::Line => out.extend_from_slice(b",dir=none];\n"),
        _ => out.extend_from_slice(b"];\n"),
    }
}

// Appends the reader, with words beside it.
fn put_reader(
    out: &mut Vec<u8>,
    history: &NamedHistory,
    fact: Fact,
    label: &[u8],
) -> Result<(), AllocError>
    ensures { OnOk result (out.new.items ≡ out.old.items ++ edge_text history.now fact None label.now) }
{
    out.extend_from_slice(b"  ")?;
    put_id(out, history, fact.txn)?;
    out.extend_from_slice(b" [xlabel=")?;
    put_quoted(out, label)?;
    out.extend_from_slice(b"];\n")
}

// Appends the edge that leads to the reader from the other.
fn put_edge(
    out: &mut Vec<u8>,
    history: &NamedHistory,
    fact: Fact,
    other: u32,
    label: &[u8],
) -> Result<(), AllocError>
    ensures { OnOk result (out.new.items ≡ out.old.items ++ edge_text history.now fact (Some other) label.now) }
{
    out.extend_from_slice(b"  ")?;
    put_id(out, history, other)?;
    out.extend_from_slice(b" -> ")?;
    put_id(out, history, fact.txn)?;
    out.extend_from_slice(b" [label=")?;
    put_quoted(out, label)?;
    put_tip(out, tie_of(fact.rule))
}

// Appends the reader, or the edge that leads there.
fn put_told(
    out: &mut Vec<u8>,
    history: &NamedHistory,
    fact: Fact,
    label: &[u8],
) -> Result<(), AllocError>
    ensures { OnOk result (out.new.items ≡ out.old.items ++ edge_text history.now fact fact.by label.now) }
{
    match fact.by {
        None => put_reader(out, history, fact, label),
        Some(other) => put_edge(out, history, fact, other, label),
    }
}

/// A read that cannot be as a graph for Graphviz.
pub fn read_drawing(
    alloc: Global,
    history: &NamedHistory,
    fact: Fact,
) -> Result<Vec<u8>, AllocError>
    ensures { IfOk result (λ text. text.items ≡ read_drawing history.now fact) }
{
    let label = read_text(alloc, history, fact)?;
    let mut out = Vec::new(alloc);
    out.extend_from_slice(b"digraph \"")?;
    out.extend_from_slice(rule_word(fact.rule).as_bytes())?;
    out.extend_from_slice(b"\" {\n")?;
    put_told(&mut out, history, fact, label.as_slice())?;
    out.extend_from_slice(b"}\n")?;
    Ok(out)
}
