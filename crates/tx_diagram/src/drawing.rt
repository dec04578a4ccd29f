//! A cycle, drawn for Graphviz.
ghost use Rattle.std.specs.Prelude.{◌≡◌, ◌++◌, codes, OnOk, IfOk};
ghost use Rattle.std.specs.List.{flat_map};
ghost use Rattle.tx_diagram.specs.Drawings.{drawn_byte, quoted, label_text, arrow_text, drawing_text, order_text, titled_text, settled_text, lemma_text, refuted_drawing};

use std::alloc::{AllocError, Global};
use tx_import::NamedHistory;
use tx_verdict::{Cycle, CycleStep, Lemma, Refutation, Settled, WriteOrder};
use tx_verdict_text::{cycle_word, edge_word, put_id, put_key};

// Appends a byte of a string of the drawing.
fn put_byte(out: &mut Vec<u8>, byte: u8) -> Result<(), AllocError>
    ensures { OnOk result (out.new.items ≡ out.old.items ++ drawn_byte byte) }
{
    if byte == b'"' || byte == b'\\' {
        return out.extend_from_slice(&[b'\\', byte]);
    }
    out.push(byte)?;
    Ok(())
}

// Appends bytes of a string of the drawing.
fn put_bytes(out: &mut Vec<u8>, text: &[u8]) -> Result<(), AllocError>
    ensures { OnOk result (out.new.items ≡ out.old.items ++ flat_map drawn_byte text.now) }
{
    for byte in text {
        put_byte(out, *byte)?;
    }
    Ok(())
}

/// Appends a text as a string of the drawing, which JSON's escapes are in, too.
pub(crate) fn put_quoted(out: &mut Vec<u8>, text: &[u8]) -> Result<(), AllocError>
    ensures { OnOk result (out.new.items ≡ out.old.items ++ quoted text.now) }
{
    out.extend_from_slice(b"\"")?;
    put_bytes(out, text)?;
    out.extend_from_slice(b"\"")
}

/// The words at an edge: its kind, and its key where it has one.
pub(crate) fn label(
    alloc: Global,
    history: &NamedHistory,
    step: CycleStep,
) -> Result<Vec<u8>, AllocError>
    ensures { IfOk result (λ text. text.items ≡ label_text history.now step step.key) }
{
    let mut label = Vec::new(alloc);
    label.extend_from_slice(edge_word(step.edge).as_bytes())?;
    let Some(key) = step.key else {
        return Ok(label);
    };
    label.extend_from_slice(b" ")?;
    put_key(&mut label, history, key)?;
    Ok(label)
}

// Appends an edge.
fn put_arrow(
    alloc: Global,
    out: &mut Vec<u8>,
    history: &NamedHistory,
    step: CycleStep,
) -> Result<(), AllocError>
    ensures { OnOk result (out.new.items ≡ out.old.items ++ arrow_text history.now step) }
{
    let label = label(alloc, history, step)?;
    out.extend_from_slice(b"  ")?;
    put_id(out, history, step.from)?;
    out.extend_from_slice(b" -> ")?;
    put_id(out, history, step.to)?;
    out.extend_from_slice(b" [label=")?;
    put_quoted(out, label.as_slice())?;
    out.extend_from_slice(b"];\n")
}

// Appends edges.
fn put_arrows(
    alloc: Global,
    out: &mut Vec<u8>,
    history: &NamedHistory,
    steps: &[CycleStep],
) -> Result<(), AllocError>
    ensures { OnOk result (out.new.items ≡ out.old.items ++ flat_map (arrow_text history.now) steps.now) }
{
    for step in steps {
        put_arrow(alloc, out, history, *step)?;
    }
    Ok(())
}

/// A cycle as a graph for Graphviz.
pub fn cycle_drawing(
    alloc: Global,
    history: &NamedHistory,
    cycle: &Cycle,
) -> Result<Vec<u8>, AllocError>
    ensures { IfOk result (λ text. text.items ≡ drawing_text history.now cycle.now) }
{
    let mut out = Vec::new(alloc);
    out.extend_from_slice(b"digraph \"")?;
    out.extend_from_slice(cycle_word(cycle).as_bytes())?;
    out.extend_from_slice(b"\" {\n")?;
    put_arrows(alloc, &mut out, history, cycle.steps.as_slice())?;
    out.extend_from_slice(b"}\n")?;
    Ok(out)
}

/// Which of two wrote a key first, behind words.
pub(crate) fn order_title(
    alloc: Global,
    history: &NamedHistory,
    order: WriteOrder,
) -> Result<Vec<u8>, AllocError>
    ensures { IfOk result (λ text. text.items ≡ codes "not " ++ order_text history.now order) }
{
    let mut text = Vec::new(alloc);
    text.extend_from_slice(b"not ")?;
    put_id(&mut text, history, order.first)?;
    text.extend_from_slice(b" before ")?;
    put_id(&mut text, history, order.second)?;
    text.extend_from_slice(b" in ")?;
    put_key(&mut text, history, order.key)?;
    Ok(text)
}

// Appends edges under a title.
fn put_titled(
    alloc: Global,
    out: &mut Vec<u8>,
    history: &NamedHistory,
    title: &[u8],
    steps: &[CycleStep],
) -> Result<(), AllocError>
    ensures { OnOk result (out.new.items ≡ out.old.items ++ titled_text history.now title.now steps.now) }
{
    out.extend_from_slice(b"digraph ")?;
    put_quoted(out, title)?;
    out.extend_from_slice(b" {\n")?;
    put_arrows(alloc, out, history, steps)?;
    out.extend_from_slice(b"}\n")
}

// Appends the round that the opposite of an order closes.
fn put_settled(
    alloc: Global,
    out: &mut Vec<u8>,
    history: &NamedHistory,
    fact: &Settled,
) -> Result<(), AllocError>
    ensures { OnOk result (out.new.items ≡ out.old.items ++ settled_text history.now fact.now) }
{
    let title = order_title(alloc, history, fact.order)?;
    put_titled(alloc, out, history, title.as_slice(), fact.round.as_slice())
}

// Appends the rounds of orders.
fn put_all_settled(
    alloc: Global,
    out: &mut Vec<u8>,
    history: &NamedHistory,
    facts: &[Settled],
) -> Result<(), AllocError>
    ensures { OnOk result (out.new.items ≡ out.old.items ++ flat_map (settled_text history.now) facts.now) }
{
    for fact in facts {
        put_settled(alloc, out, history, fact)?;
    }
    Ok(())
}

// Appends the round that the opposites of a clause's orders close.
fn put_lemma(
    alloc: Global,
    out: &mut Vec<u8>,
    history: &NamedHistory,
    lemma: &Lemma,
) -> Result<(), AllocError>
    ensures { OnOk result (out.new.items ≡ out.old.items ++ lemma_text history.now lemma.now) }
{
    put_titled(alloc, out, history, b"clause", lemma.round.as_slice())
}

// Appends the rounds of clauses.
fn put_all_lemmas(
    alloc: Global,
    out: &mut Vec<u8>,
    history: &NamedHistory,
    lemmas: &[Lemma],
) -> Result<(), AllocError>
    ensures { OnOk result (out.new.items ≡ out.old.items ++ flat_map (lemma_text history.now) lemmas.now) }
{
    for lemma in lemmas {
        put_lemma(alloc, out, history, lemma)?;
    }
    Ok(())
}

/// The rounds of a refutation as graphs for Graphviz.
pub fn refuted_drawing(
    alloc: Global,
    history: &NamedHistory,
    refutation: &Refutation,
) -> Result<Vec<u8>, AllocError>
    ensures { IfOk result (λ text. text.items ≡ refuted_drawing history.now refutation.now) }
{
    let mut out = Vec::new(alloc);
    put_all_settled(alloc, &mut out, history, refutation.facts.as_slice())?;
    put_all_lemmas(alloc, &mut out, history, refutation.lemmas.as_slice())?;
    put_titled(
        alloc,
        &mut out,
        history,
        b"order",
        refutation.last.as_slice(),
    )?;
    Ok(out)
}
