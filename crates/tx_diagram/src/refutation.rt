//! A refutation, drawn as pictures: its rounds.
ghost use Rattle.std.specs.Prelude.{◌≡◌, ◌++◌, OnOk, IfOk};
ghost use Rattle.std.specs.List.{flat_map};
ghost use Rattle.tx_diagram.specs.Pictures.{refuted_picture, settled_picture, lemma_picture, refuted_pictures};

use crate::drawing::order_title;
use crate::picture::put_picture;
use std::alloc::{AllocError, Global};
use tx_import::NamedHistory;
use tx_verdict::{Lemma, Refutation, Settled};

// Appends the last round of a refutation.
fn put_refuted(
    alloc: Global,
    out: &mut Vec<u8>,
    history: &NamedHistory,
    refutation: &Refutation,
) -> Result<(), AllocError>
    ensures { OnOk result (out.new.items ≡ out.old.items ++ refuted_picture history.now refutation.now) }
{
    put_picture(alloc, out, history, b"order", refutation.last.as_slice())
}

/// The last round of a refutation as an SVG.
pub fn refuted_picture(
    alloc: Global,
    history: &NamedHistory,
    refutation: &Refutation,
) -> Result<Vec<u8>, AllocError>
    ensures { IfOk result (λ text. text.items ≡ refuted_picture history.now refutation.now) }
{
    let mut out = Vec::new(alloc);
    put_refuted(alloc, &mut out, history, refutation)?;
    Ok(out)
}

// Appends the round that the opposite of an order closes.
fn put_settled(
    alloc: Global,
    out: &mut Vec<u8>,
    history: &NamedHistory,
    fact: &Settled,
) -> Result<(), AllocError>
    ensures { OnOk result (out.new.items ≡ out.old.items ++ settled_picture history.now fact.now) }
{
    let title = order_title(alloc, history, fact.order)?;
    put_picture(alloc, out, history, title.as_slice(), fact.round.as_slice())
}

// Appends the round that the opposites of a clause's orders close.
fn put_lemma(
    alloc: Global,
    out: &mut Vec<u8>,
    history: &NamedHistory,
    lemma: &Lemma,
) -> Result<(), AllocError>
    ensures { OnOk result (out.new.items ≡ out.old.items ++ lemma_picture history.now lemma.now) }
{
    put_picture(alloc, out, history, b"clause", lemma.round.as_slice())
}

// Appends the rounds of orders.
fn put_all_settled(
    alloc: Global,
    out: &mut Vec<u8>,
    history: &NamedHistory,
    facts: &[Settled],
) -> Result<(), AllocError>
    ensures { OnOk result (out.new.items ≡ out.old.items ++ flat_map (settled_picture history.now) facts.now) }
{
    for fact in facts {
        put_settled(alloc, out, history, fact)?;
    }
    Ok(())
}

// Appends the rounds of clauses.
fn put_all_lemmas(
    alloc: Global,
    out: &mut Vec<u8>,
    history: &NamedHistory,
    lemmas: &[Lemma],
) -> Result<(), AllocError>
    ensures { OnOk result (out.new.items ≡ out.old.items ++ flat_map (lemma_picture history.now) lemmas.now) }
{
    for lemma in lemmas {
        put_lemma(alloc, out, history, lemma)?;
    }
    Ok(())
}

/// The rounds of a refutation, each as an SVG, one behind the other.
pub fn refuted_pictures(
    alloc: Global,
    history: &NamedHistory,
    refutation: &Refutation,
) -> Result<Vec<u8>, AllocError>
    ensures { IfOk result (λ text. text.items ≡ refuted_pictures history.now refutation.now) }
{
    let mut out = Vec::new(alloc);
    put_all_settled(alloc, &mut out, history, refutation.facts.as_slice())?;
    put_all_lemmas(alloc, &mut out, history, refutation.lemmas.as_slice())?;
    put_refuted(alloc, &mut out, history, refutation)?;
    Ok(out)
}
