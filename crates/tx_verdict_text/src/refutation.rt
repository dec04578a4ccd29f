//! The line of a refutation that has clauses.
ghost use Rattle.std.specs.Prelude.{◌≡◌, ◌<◌, ◌++◌, ◌+◌, codes, map, OnOk, length};
ghost use Rattle.serde_json.specs.Data.{array, item, no_items, number, unsigned};
ghost use Rattle.serde_json.specs.View.{items_of};
ghost use Rattle.serde_json.specs.Written.{compact_text};
ghost use Rattle.tx_text.specs.Texts.{line_text, members_text};
ghost use Rattle.tx_verdict_text.specs.Words.{order_data, clause_data, hint_data, hints_data, lemma_data, facts_data, steps_data, answer_words, refuted_items};

use crate::line::{put_all_settled, put_round};
use crate::words::{put_id, put_key};
use std::alloc::AllocError;
use tx_import::NamedHistory;
use tx_text::put_digits;
use tx_verdict::{Hint, Lemma, Refutation, WriteOrder};

// Appends an order.
fn put_order(out: &mut Vec<u8>, history: &NamedHistory, order: WriteOrder) -> Result<(), AllocError>
    ensures { OnOk result (out.new.items ≡ out.old.items ++ compact_text (order_data history.now order)) }
{
    out.extend_from_slice(b"[")?;
    put_key(out, history, order.key)?;
    out.extend_from_slice(b",")?;
    put_id(out, history, order.first)?;
    out.extend_from_slice(b",")?;
    put_id(out, history, order.second)?;
    out.extend_from_slice(b"]")
}

// Appends orders, each with a comma before it.
fn put_more_orders(
    out: &mut Vec<u8>,
    history: &NamedHistory,
    orders: &[WriteOrder],
) -> Result<(), AllocError>
    ensures { OnOk result (out.new.items ≡ out.old.items
        ++ members_text (items_of (map (order_data history.now) orders.now))) }
{
    for order in orders {
        out.push(b',')?;
        put_order(out, history, *order)?;
    }
    Ok(())
}

// Appends the orders of a clause.
fn put_orders(
    out: &mut Vec<u8>,
    history: &NamedHistory,
    orders: &[WriteOrder],
) -> Result<(), AllocError>
    ensures { OnOk result (out.new.items ≡ out.old.items
        ++ compact_text (array (items_of (map (order_data history.now) orders.now)))) }
{
    let Some((first, others)) = orders.split_first() else {
        return out.extend_from_slice(b"[]");
    };
    out.extend_from_slice(b"[")?;
    put_order(out, history, *first)?;
    put_more_orders(out, history, others)?;
    out.extend_from_slice(b"]")
}

// Appends the number of a clause, from 1 on.
fn put_number(out: &mut Vec<u8>, lemma: u32) -> Result<(), AllocError>
    ensures { OnOk result (out.new.items ≡ out.old.items ++ compact_text (number (unsigned (lemma + 1)))) }
{
    put_digits(out, u64::from(lemma) + 1)
}

// Appends what is left of a clause.
fn put_hint(out: &mut Vec<u8>, history: &NamedHistory, hint: Hint) -> Result<(), AllocError>
    ensures { OnOk result (out.new.items ≡ out.old.items ++ compact_text (hint_data history.now hint)) }
{
    out.extend_from_slice(b"[")?;
    put_number(out, hint.lemma)?;
    out.extend_from_slice(b",")?;
    put_order(out, history, hint.order)?;
    out.extend_from_slice(b"]")
}

// Appends what is left of clauses, each with a comma before it.
fn put_more_hints(
    out: &mut Vec<u8>,
    history: &NamedHistory,
    hints: &[Hint],
) -> Result<(), AllocError>
    ensures { OnOk result (out.new.items ≡ out.old.items
        ++ members_text (items_of (map (hint_data history.now) hints.now))) }
{
    for hint in hints {
        out.push(b',')?;
        put_hint(out, history, *hint)?;
    }
    Ok(())
}

// Appends what is left of clauses.
fn put_hints(out: &mut Vec<u8>, history: &NamedHistory, hints: &[Hint]) -> Result<(), AllocError>
    ensures { OnOk result (out.new.items ≡ out.old.items
        ++ compact_text (array (items_of (map (hint_data history.now) hints.now)))) }
{
    let Some((first, others)) = hints.split_first() else {
        return out.extend_from_slice(b"[]");
    };
    out.extend_from_slice(b"[")?;
    put_hint(out, history, *first)?;
    put_more_hints(out, history, others)?;
    out.extend_from_slice(b"]")
}

// Appends the orders of a lemma.
fn put_clause(
    out: &mut Vec<u8>,
    history: &NamedHistory,
    clause: &Vec<WriteOrder>,
) -> Result<(), AllocError>
    ensures { OnOk result (out.new.items ≡ out.old.items ++ compact_text (clause_data history.now clause.now.items)) }
{
    put_orders(out, history, clause.as_slice())
}

// Appends what is left of clauses, of a list.
fn put_list(out: &mut Vec<u8>, history: &NamedHistory, hints: &Vec<Hint>) -> Result<(), AllocError>
    ensures { OnOk result (out.new.items ≡ out.old.items ++ compact_text (hints_data history.now hints.now.items)) }
{
    put_hints(out, history, hints.as_slice())
}

// Appends a clause, with what it follows from.
fn put_lemma(out: &mut Vec<u8>, history: &NamedHistory, lemma: &Lemma) -> Result<(), AllocError>
    ensures { OnOk result (out.new.items ≡ out.old.items ++ compact_text (lemma_data history.now lemma.now)) }
{
    out.extend_from_slice(b"[")?;
    put_clause(out, history, &lemma.clause)?;
    out.extend_from_slice(b",")?;
    put_list(out, history, &lemma.hints)?;
    out.extend_from_slice(b",")?;
    put_round(out, history, &lemma.round)?;
    out.extend_from_slice(b"]")
}

// Appends clauses, each with a comma before it.
fn put_more_lemmas(
    out: &mut Vec<u8>,
    history: &NamedHistory,
    lemmas: &[Lemma],
) -> Result<(), AllocError>
    ensures { OnOk result (out.new.items ≡ out.old.items
        ++ members_text (items_of (map (lemma_data history.now) lemmas.now))) }
{
    for lemma in lemmas {
        out.push(b',')?;
        put_lemma(out, history, lemma)?;
    }
    Ok(())
}

// Appends clauses.
fn put_lemmas(out: &mut Vec<u8>, history: &NamedHistory, lemmas: &[Lemma]) -> Result<(), AllocError>
    ensures { OnOk result (out.new.items ≡ out.old.items
        ++ compact_text (array (items_of (map (lemma_data history.now) lemmas.now)))) }
{
    let Some((first, others)) = lemmas.split_first() else {
        return out.extend_from_slice(b"[]");
    };
    out.extend_from_slice(b"[")?;
    put_lemma(out, history, first)?;
    put_more_lemmas(out, history, others)?;
    out.extend_from_slice(b"]")
}

// Appends the orders that are settled.
fn put_facts(
    out: &mut Vec<u8>,
    history: &NamedHistory,
    refutation: &Refutation,
) -> Result<(), AllocError>
    ensures { OnOk result (out.new.items ≡ out.old.items ++ compact_text (facts_data history.now refutation.now)) }
{
    put_all_settled(out, history, refutation.facts.as_slice())
}

// Appends the clauses of a refutation.
fn put_clauses(
    out: &mut Vec<u8>,
    history: &NamedHistory,
    refutation: &Refutation,
) -> Result<(), AllocError>
    ensures { OnOk result (out.new.items ≡ out.old.items
        ++ compact_text (array (items_of (map (lemma_data history.now) refutation.now.lemmas.items)))) }
{
    put_lemmas(out, history, refutation.lemmas.as_slice())
}

/// Appends the line of a refutation that has clauses.
#[tactic(auto, unfolding(json::specs::Print::escape_byte))]
pub(crate) fn put_searched(
    out: &mut Vec<u8>,
    history: &NamedHistory,
    refutation: &Refutation,
) -> Result<(), AllocError>
    requires { 0 < length refutation.now.lemmas.items }
    ensures { OnOk result (out.new.items ≡ out.old.items ++ line_text (answer_words (codes "no")
        (refuted_items history.now refutation.now))) }
{
    out.extend_from_slice(b"[\"import\",\"no\",\"order\",")?;
    put_facts(out, history, refutation)?;
    out.extend_from_slice(b",")?;
    put_clauses(out, history, refutation)?;
    out.extend_from_slice(b",")?;
    put_list(out, history, &refutation.hints)?;
    out.extend_from_slice(b",")?;
    put_round(out, history, &refutation.last)?;
    out.extend_from_slice(b"]\n")
}
