//! A cycle, drawn as a picture.
ghost use Rattle.std.specs.Prelude.{◌≡◌, ◌<◌, ◌++◌, length, OnOk, IfOk};
ghost use Rattle.tx_verdict.specs.Steps.{step_at};
ghost use Rattle.tx_ring.specs.Markup.{each_of};
ghost use Rattle.tx_diagram.specs.Pictures.{told_text, sense_text, reach_at, most_of, known_keys, key_at, keys_of, rows_at, rows_of, tied_text, tie_at, piece_text, piece_at, last_word, ringed_text, picture_of, picture_text};
ghost use Rattle.tx_acts.specs.Shown.{shown_text};
ghost use Rattle.tx_ring.specs.Rings.{end_text};

use crate::boxes::{put_box_of, shown_of};
use crate::drawing::label;
use std::alloc::{AllocError, Global};
use tx_acts::put_shown;
use tx_import::NamedHistory;
use tx_ring::{Subject, Tie, put_end, put_head, put_tie, reach_of};
use tx_verdict::{Cycle, CycleStep, EdgeKind};
use tx_verdict_text::{cycle_word, edge_word, put_id};

// Words before, between and behind the ids of two transactions.
fn told(
    alloc: Global,
    history: &NamedHistory,
    before: &str,
    first: u32,
    between: &str,
    second: u32,
    behind: &str,
) -> Result<Vec<u8>, AllocError>
    ensures { IfOk result (λ text. text.items
        ≡ told_text history.now before.now first between.now second behind.now) }
{
    let mut text = Vec::new(alloc);
    text.extend_from_slice(before.as_bytes())?;
    put_id(&mut text, history, first)?;
    text.extend_from_slice(between.as_bytes())?;
    put_id(&mut text, history, second)?;
    text.extend_from_slice(behind.as_bytes())?;
    Ok(text)
}

// What an edge says.
fn sense(alloc: Global, history: &NamedHistory, step: CycleStep) -> Result<Vec<u8>, AllocError>
    ensures { IfOk result (λ text. text.items ≡ sense_text history.now step.edge step.from step.to) }
{
    let CycleStep { from, edge, to, .. } = step;
    match edge {
        EdgeKind::Ww => told(alloc, history, "", to, " wrote it after ", from, ""),
        EdgeKind::Wr => told(alloc, history, "", to, " read what ", from, " wrote"),
        EdgeKind::Rw => {
            let between = " read it as it was before ";
            told(alloc, history, "", from, between, to, " wrote it")
        }
        EdgeKind::So => told(
            alloc,
            history,
            "one process ran ",
            from,
            " and then ",
            to,
            "",
        ),
        EdgeKind::Rt => told(alloc, history, "", from, " had ended when ", to, " began"),
    }
}

// How far the words of an edge reach.
fn reach_at(alloc: Global, history: &NamedHistory, step: CycleStep) -> Result<usize, AllocError>
    ensures { IfOk result (λ reach. reach ≡ reach_at history.now step) }
{
    let label = label(alloc, history, step)?;
    let sense = sense(alloc, history, step)?;
    Ok(reach_of(label.as_slice(), sense.as_slice()))
}

// How far the words of all edges reach.
fn reach_over(
    alloc: Global,
    history: &NamedHistory,
    steps: &[CycleStep],
) -> Result<usize, AllocError>
    ensures { IfOk result (λ reach. reach
        ≡ most_of (λ i. reach_at history.now (step_at steps.now i)) (length steps.now)) }
{
    let mut most = 0_usize;
    for i in 0..steps.len() {
        most = most.max(reach_at(alloc, history, steps[i])?);
    }
    Ok(most)
}

// Adds a key, where there is one.
fn put_known_key(keys: &mut Vec<u32>, key: Option<u32>) -> Result<(), AllocError>
    ensures { OnOk result (keys.new.items ≡ keys.old.items ++ known_keys key) }
{
    let Some(key) = key else {
        return Ok(());
    };
    keys.push(key)?;
    Ok(())
}

// Adds the key of the edge at a place, where it has one.
fn put_key_at(keys: &mut Vec<u32>, steps: &[CycleStep], place: usize) -> Result<(), AllocError>
    requires { place < length steps.now }
    ensures { OnOk result (keys.new.items ≡ keys.old.items ++ key_at steps.now place) }
{
    put_known_key(keys, steps[place].key)
}

// The keys of edges.
fn keys_of(alloc: Global, steps: &[CycleStep]) -> Result<Vec<u32>, AllocError>
    ensures { IfOk result (λ keys. keys.items ≡ keys_of steps.now) }
{
    let mut keys = Vec::new(alloc);
    for i in 0..steps.len() {
        put_key_at(&mut keys, steps, i)?;
    }
    Ok(keys)
}

// How many operations are shown of the transaction that an edge leaves.
fn rows_at(
    alloc: Global,
    history: &NamedHistory,
    keys: &[u32],
    step: CycleStep,
) -> Result<usize, AllocError>
    ensures { IfOk result (λ rows. rows ≡ rows_at history.now keys.now step) }
{
    let shown = shown_of(alloc, history, keys, step.from)?;
    Ok(shown.len())
}

// How many rows each box has.
fn rows_of(
    alloc: Global,
    history: &NamedHistory,
    keys: &[u32],
    steps: &[CycleStep],
) -> Result<usize, AllocError>
    ensures { IfOk result (λ rows. rows ≡ rows_of history.now keys.now steps.now) }
{
    let mut most = 0_usize;
    for i in 0..steps.len() {
        most = most.max(rows_at(alloc, history, keys, steps[i])?);
    }
    Ok(most)
}

// What shows an edge.
fn shown(alloc: Global, history: &NamedHistory, step: CycleStep) -> Result<Vec<u8>, AllocError>
    ensures { IfOk result (λ text. text.items ≡ shown_text history.now step) }
{
    let mut text = Vec::new(alloc);
    put_shown(alloc, &mut text, history, step)?;
    Ok(text)
}

// Appends the edge that leaves a box, and the end of the box.
fn put_tied(
    alloc: Global,
    out: &mut Vec<u8>,
    history: &NamedHistory,
    rows: usize,
    tie: Tie,
    step: CycleStep,
) -> Result<(), AllocError>
    ensures { OnOk result (out.new.items ≡ out.old.items ++ tied_text history.now rows tie step) }
{
    let label = label(alloc, history, step)?;
    let sense = sense(alloc, history, step)?;
    let shown = shown(alloc, history, step)?;
    put_tie(
        out,
        rows,
        tie,
        label.as_slice(),
        sense.as_slice(),
        shown.as_slice(),
    )
}

// Appends the box of a transaction, and the edge that leaves it.
fn put_piece(
    alloc: Global,
    out: &mut Vec<u8>,
    history: &NamedHistory,
    keys: &[u32],
    rows: usize,
    place: usize,
    tie: Tie,
    step: CycleStep,
) -> Result<(), AllocError>
    ensures { OnOk result (out.new.items ≡ out.old.items
        ++ piece_text history.now keys.now rows place tie step) }
{
    let kind = edge_word(step.edge);
    let txn = step.from;
    put_box_of(alloc, out, history, keys, rows, place, kind, txn)?;
    put_tied(alloc, out, history, rows, tie, step)
}

// What leads to the next box from that at a place, of so many.
fn tie_at(count: usize, place: usize) -> Tie
    requires { place < count }
    ensures { result ≡ tie_at count place }
{
    if place == count - 1 {
        Tie::Nothing
    } else {
        Tie::Arrow
    }
}

// Appends the box of the transaction at a place, and the edge that leaves it.
fn put_piece_at(
    alloc: Global,
    out: &mut Vec<u8>,
    history: &NamedHistory,
    keys: &[u32],
    rows: usize,
    steps: &[CycleStep],
    place: usize,
) -> Result<(), AllocError>
    requires { place < length steps.now }
    ensures { OnOk result (out.new.items ≡ out.old.items
        ++ piece_at history.now keys.now rows steps.now place) }
{
    let tie = tie_at(steps.len(), place);
    put_piece(alloc, out, history, keys, rows, place, tie, steps[place])
}

// Appends the boxes of all transactions.
fn put_pieces(
    alloc: Global,
    out: &mut Vec<u8>,
    history: &NamedHistory,
    keys: &[u32],
    rows: usize,
    steps: &[CycleStep],
) -> Result<(), AllocError>
    ensures { OnOk result (out.new.items ≡ out.old.items
        ++ each_of (piece_at history.now keys.now rows steps.now) (length steps.now)) }
{
    for i in 0..steps.len() {
        put_piece_at(alloc, out, history, keys, rows, steps, i)?;
    }
    Ok(())
}

// The kind of the last edge.
fn last_kind(steps: &[CycleStep]) -> &'static str
    ensures { result.now ≡ last_word steps.now }
{
    if steps.is_empty() {
        return edge_word(EdgeKind::Ww);
    }
    edge_word(steps[steps.len() - 1].edge)
}

// Appends the last edge, and the end.
fn put_last(out: &mut Vec<u8>, rows: usize, steps: &[CycleStep]) -> Result<(), AllocError>
    ensures { OnOk result (out.new.items ≡ out.old.items
        ++ end_text rows (length steps.now) (last_word steps.now)) }
{
    put_end(out, rows, steps.len(), last_kind(steps))
}

// Appends a cycle of these edges, under a title.
fn put_ringed(
    alloc: Global,
    out: &mut Vec<u8>,
    history: &NamedHistory,
    title: &[u8],
    keys: &[u32],
    rows: usize,
    steps: &[CycleStep],
) -> Result<(), AllocError>
    ensures { OnOk result (out.new.items ≡ out.old.items
        ++ ringed_text history.now title.now keys.now rows steps.now) }
{
    let reach = reach_over(alloc, history, steps)?;
    put_head(out, Subject::Cycle, title, rows, steps.len(), reach)?;
    put_pieces(alloc, out, history, keys, rows, steps)?;
    put_last(out, rows, steps)
}

/// Appends a cycle of these edges as an SVG, under a title.
pub(crate) fn put_picture(
    alloc: Global,
    out: &mut Vec<u8>,
    history: &NamedHistory,
    title: &[u8],
    steps: &[CycleStep],
) -> Result<(), AllocError>
    ensures { OnOk result (out.new.items ≡ out.old.items ++ picture_of history.now title.now steps.now) }
{
    let found = keys_of(alloc, steps)?;
    let keys = found.as_slice();
    let rows = rows_of(alloc, history, keys, steps)?;
    put_ringed(alloc, out, history, title, keys, rows, steps)
}

/// A cycle as an SVG.
pub fn cycle_picture(
    alloc: Global,
    history: &NamedHistory,
    cycle: &Cycle,
) -> Result<Vec<u8>, AllocError>
    ensures { IfOk result (λ text. text.items ≡ picture_text history.now cycle.now) }
{
    let mut out = Vec::new(alloc);
    let title = cycle_word(cycle).as_bytes();
    put_picture(alloc, &mut out, history, title, cycle.steps.as_slice())?;
    Ok(out)
}
