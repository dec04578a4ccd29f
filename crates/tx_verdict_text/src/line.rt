//! The line of a verdict.
ghost use Rattle.std.specs.Prelude.{◌≡◌, ◌++◌, codes, map, length, OnOk, IfOk};
ghost use Rattle.serde_json.specs.Data.{array, object, string, item, no_items};
ghost use Rattle.serde_json.specs.View.{items_of};
ghost use Rattle.serde_json.specs.Written.{compact_text};
ghost use Rattle.tx_text.specs.Texts.{line_text, members_text};
ghost use Rattle.tx_verdict_text.specs.Words.{step_data, steps_data, settled_data, refuted_items, key_data, known_key, known_value, known_id, fact_members, yes_members, answer_words, cycle_word as word_of_cycle, edge_word as word_of_edge, rule_word as word_of_rule, verdict_text};

use crate::refutation::put_searched;
use crate::words::{cycle_word, edge_word, put_id, put_key, put_value, rule_word};
use std::alloc::{AllocError, Global};
use tx_import::NamedHistory;
use tx_text::{put_digits, put_fault, put_string};
use tx_types::Cause;
use tx_verdict::{Cycle, CycleStep, EdgeKind, Fact, HistoryVerdict, Refutation, Rule, Settled};

// Appends the name of a key, where there is one.
fn put_known_key(
    out: &mut Vec<u8>,
    history: &NamedHistory,
    key: Option<u32>,
) -> Result<(), AllocError>
    ensures { OnOk result (out.new.items ≡ out.old.items ++ compact_text (known_key history.now key)) }
{
    match key {
        Some(key) => put_key(out, history, key),
        None => out.extend_from_slice(b"null"),
    }
}

// Appends the word of an edge.
fn put_edge(out: &mut Vec<u8>, edge: EdgeKind) -> Result<(), AllocError>
    ensures { OnOk result (out.new.items ≡ out.old.items ++ compact_text (string (word_of_edge edge))) }
{
    put_string(out, edge_word(edge).as_bytes())
}

// Appends the name of the anomaly of a cycle.
fn put_anomaly(out: &mut Vec<u8>, cycle: &Cycle) -> Result<(), AllocError>
    ensures { OnOk result (out.new.items ≡ out.old.items ++ compact_text (string (word_of_cycle cycle.now))) }
{
    put_string(out, cycle_word(cycle).as_bytes())
}

// Appends the name of what one transaction read that cannot be.
fn put_rule(out: &mut Vec<u8>, rule: Rule) -> Result<(), AllocError>
    ensures { OnOk result (out.new.items ≡ out.old.items ++ compact_text (string (word_of_rule rule))) }
{
    put_string(out, rule_word(rule).as_bytes())
}

// Appends a step of a cycle.
fn put_step(out: &mut Vec<u8>, history: &NamedHistory, step: &CycleStep) -> Result<(), AllocError>
    ensures { OnOk result (out.new.items ≡ out.old.items ++ compact_text (step_data history.now step.now)) }
{
    out.extend_from_slice(b"[")?;
    put_id(out, history, step.from)?;
    out.extend_from_slice(b",")?;
    put_edge(out, step.edge)?;
    out.extend_from_slice(b",")?;
    put_known_key(out, history, step.key)?;
    out.extend_from_slice(b",")?;
    put_id(out, history, step.to)?;
    out.extend_from_slice(b"]")
}

// Appends steps, each with a comma before it.
fn put_more_steps(
    out: &mut Vec<u8>,
    history: &NamedHistory,
    steps: &[CycleStep],
) -> Result<(), AllocError>
    ensures { OnOk result (out.new.items ≡ out.old.items
        ++ members_text (items_of (map (step_data history.now) steps.now))) }
{
    for step in steps {
        out.push(b',')?;
        put_step(out, history, step)?;
    }
    Ok(())
}

// Appends the steps of a cycle.
fn put_steps(
    out: &mut Vec<u8>,
    history: &NamedHistory,
    steps: &[CycleStep],
) -> Result<(), AllocError>
    ensures { OnOk result (out.new.items ≡ out.old.items
        ++ compact_text (array (items_of (map (step_data history.now) steps.now)))) }
{
    let Some((first, others)) = steps.split_first() else {
        return out.extend_from_slice(b"[]");
    };
    out.extend_from_slice(b"[")?;
    put_step(out, history, first)?;
    put_more_steps(out, history, others)?;
    out.extend_from_slice(b"]")
}

// Appends an order that is settled, with its round.
fn put_settled(out: &mut Vec<u8>, history: &NamedHistory, fact: &Settled) -> Result<(), AllocError>
    ensures { OnOk result (out.new.items ≡ out.old.items ++ compact_text (settled_data history.now fact.now)) }
{
    out.extend_from_slice(b"[")?;
    put_key(out, history, fact.order.key)?;
    out.extend_from_slice(b",")?;
    put_id(out, history, fact.order.first)?;
    out.extend_from_slice(b",")?;
    put_id(out, history, fact.order.second)?;
    out.extend_from_slice(b",")?;
    put_round(out, history, &fact.round)?;
    out.extend_from_slice(b"]")
}

/// Appends the steps of a round.
pub(crate) fn put_round(
    out: &mut Vec<u8>,
    history: &NamedHistory,
    round: &Vec<CycleStep>,
) -> Result<(), AllocError>
    ensures { OnOk result (out.new.items ≡ out.old.items ++ compact_text (steps_data history.now round.now.items)) }
{
    put_steps(out, history, round.as_slice())
}

// Appends orders that are settled, each with a comma before it.
fn put_more_settled(
    out: &mut Vec<u8>,
    history: &NamedHistory,
    facts: &[Settled],
) -> Result<(), AllocError>
    ensures { OnOk result (out.new.items ≡ out.old.items
        ++ members_text (items_of (map (settled_data history.now) facts.now))) }
{
    for fact in facts {
        out.push(b',')?;
        put_settled(out, history, fact)?;
    }
    Ok(())
}

/// Appends the orders that are settled.
pub(crate) fn put_all_settled(
    out: &mut Vec<u8>,
    history: &NamedHistory,
    facts: &[Settled],
) -> Result<(), AllocError>
    ensures { OnOk result (out.new.items ≡ out.old.items
        ++ compact_text (array (items_of (map (settled_data history.now) facts.now)))) }
{
    let Some((first, others)) = facts.split_first() else {
        return out.extend_from_slice(b"[]");
    };
    out.extend_from_slice(b"[")?;
    put_settled(out, history, first)?;
    put_more_settled(out, history, others)?;
    out.extend_from_slice(b"]")
}

// Appends keys, each with a comma before it.
fn put_more_keys(out: &mut Vec<u8>, history: &NamedHistory, keys: &[u32]) -> Result<(), AllocError>
    ensures { OnOk result (out.new.items ≡ out.old.items
        ++ members_text (items_of (map (key_data history.now) keys.now))) }
{
    for key in keys {
        out.push(b',')?;
        put_key(out, history, *key)?;
    }
    Ok(())
}

// Appends a list of keys.
fn put_keys(out: &mut Vec<u8>, history: &NamedHistory, keys: &[u32]) -> Result<(), AllocError>
    ensures { OnOk result (out.new.items ≡ out.old.items
        ++ compact_text (array (items_of (map (key_data history.now) keys.now)))) }
{
    let Some((first, others)) = keys.split_first() else {
        return out.extend_from_slice(b"[]");
    };
    out.extend_from_slice(b"[")?;
    put_key(out, history, *first)?;
    put_more_keys(out, history, others)?;
    out.extend_from_slice(b"]")
}

/// Appends the name of a value, where it is known.
pub fn put_known_value(
    out: &mut Vec<u8>,
    history: &NamedHistory,
    value: Option<u32>,
) -> Result<(), AllocError>
    ensures { OnOk result (out.new.items ≡ out.old.items ++ compact_text (known_value history.now value)) }
{
    match value {
        Some(value) => put_value(out, history, value),
        None => out.extend_from_slice(b"null"),
    }
}

// Appends the id of a transaction, where it is known.
fn put_known_id(
    out: &mut Vec<u8>,
    history: &NamedHistory,
    txn: Option<u32>,
) -> Result<(), AllocError>
    ensures { OnOk result (out.new.items ≡ out.old.items ++ compact_text (known_id history.now txn)) }
{
    match txn {
        Some(txn) => put_id(out, history, txn),
        None => out.extend_from_slice(b"null"),
    }
}

// Appends what is told of a read that cannot be.
#[tactic(auto, unfolding(json::specs::Print::escape_byte))]
fn put_fact(out: &mut Vec<u8>, history: &NamedHistory, fact: Fact) -> Result<(), AllocError>
    ensures { OnOk result (out.new.items ≡ out.old.items ++ compact_text (object (fact_members history.now fact))) }
{
    out.extend_from_slice(b"{\"txn\":")?;
    put_id(out, history, fact.txn)?;
    out.extend_from_slice(b",\"key\":")?;
    put_key(out, history, fact.key)?;
    out.extend_from_slice(b",\"value\":")?;
    put_known_value(out, history, fact.value)?;
    out.extend_from_slice(b",\"by\":")?;
    put_known_id(out, history, fact.by)?;
    out.extend_from_slice(b"}")
}

// Appends the line of a yes.
#[tactic(auto, unfolding(json::specs::Print::escape_byte))]
fn put_yes(out: &mut Vec<u8>, history: &NamedHistory) -> Result<(), AllocError>
    ensures { OnOk result (out.new.items ≡ out.old.items ++ line_text (answer_words (codes "yes")
        (item (object (yes_members history.now)) no_items))) }
{
    out.extend_from_slice(b"[\"import\",\"yes\",{\"transactions\":")?;
    put_digits(out, history.recording.transactions.len() as u64)?;
    out.extend_from_slice(b"}]\n")
}

// Appends the line of a cycle.
#[tactic(auto, unfolding(json::specs::Print::escape_byte))]
fn put_cycle(out: &mut Vec<u8>, history: &NamedHistory, cycle: &Cycle) -> Result<(), AllocError>
    ensures { OnOk result (out.new.items ≡ out.old.items ++ line_text (answer_words (codes "no")
        (item (string (word_of_cycle cycle.now))
        (item (array (items_of (map (step_data history.now) cycle.now.steps.items))) no_items)))) }
{
    out.extend_from_slice(b"[\"import\",\"no\",")?;
    put_anomaly(out, cycle)?;
    out.extend_from_slice(b",")?;
    put_steps(out, history, cycle.steps.as_slice())?;
    out.extend_from_slice(b"]\n")
}

// Appends the line of a refutation that has no clauses.
#[tactic(auto, unfolding(json::specs::Print::escape_byte))]
fn put_refuted(
    out: &mut Vec<u8>,
    history: &NamedHistory,
    refutation: &Refutation,
) -> Result<(), AllocError>
    requires { length refutation.now.lemmas.items ≡ 0 }
    ensures { OnOk result (out.new.items ≡ out.old.items ++ line_text (answer_words (codes "no")
        (refuted_items history.now refutation.now))) }
{
    out.extend_from_slice(b"[\"import\",\"no\",\"order\",")?;
    put_all_settled(out, history, refutation.facts.as_slice())?;
    out.extend_from_slice(b",")?;
    put_steps(out, history, refutation.last.as_slice())?;
    out.extend_from_slice(b"]\n")
}

// Appends the line of a refutation.
fn put_refutation(
    out: &mut Vec<u8>,
    history: &NamedHistory,
    refutation: &Refutation,
) -> Result<(), AllocError>
    ensures { OnOk result (out.new.items ≡ out.old.items ++ line_text (answer_words (codes "no")
        (refuted_items history.now refutation.now))) }
{
    if refutation.lemmas.len() == 0 {
        return put_refuted(out, history, refutation);
    }
    put_searched(out, history, refutation)
}

// Appends the line of a read that cannot be.
#[tactic(auto, unfolding(json::specs::Print::escape_byte))]
fn put_fact_line(out: &mut Vec<u8>, history: &NamedHistory, fact: Fact) -> Result<(), AllocError>
    ensures { OnOk result (out.new.items ≡ out.old.items ++ line_text (answer_words (codes "no")
        (item (string (word_of_rule fact.rule)) (item (object (fact_members history.now fact)) no_items)))) }
{
    out.extend_from_slice(b"[\"import\",\"no\",")?;
    put_rule(out, fact.rule)?;
    out.extend_from_slice(b",")?;
    put_fact(out, history, fact)?;
    out.extend_from_slice(b"]\n")
}

// Appends the line of what is open.
#[tactic(auto, unfolding(json::specs::Print::escape_byte))]
fn put_open(out: &mut Vec<u8>, history: &NamedHistory, keys: &[u32]) -> Result<(), AllocError>
    ensures { OnOk result (out.new.items ≡ out.old.items ++ line_text (answer_words (codes "open")
        (item (array (items_of (map (key_data history.now) keys.now))) no_items))) }
{
    out.extend_from_slice(b"[\"import\",\"open\",")?;
    put_keys(out, history, keys)?;
    out.extend_from_slice(b"]\n")
}

/// The line that says a verdict, with its newline.
pub fn verdict_line(
    alloc: Global,
    history: &NamedHistory,
    verdict: &HistoryVerdict,
) -> Result<Vec<u8>, AllocError>
    ensures { IfOk result (λ text. text.items ≡ verdict_text history.now verdict.now) }
{
    let mut out = Vec::new(alloc);
    match verdict {
        HistoryVerdict::Yes(_) => put_yes(&mut out, history)?,
        HistoryVerdict::No(cycle) => put_cycle(&mut out, history, cycle)?,
        HistoryVerdict::Refuted(refutation) => put_refutation(&mut out, history, refutation)?,
        HistoryVerdict::Fact(fact) => put_fact_line(&mut out, history, *fact)?,
        HistoryVerdict::Open(keys) => put_open(&mut out, history, keys.as_slice())?,
        HistoryVerdict::Unknown => put_open(&mut out, history, &[])?,
        HistoryVerdict::Twice(_, second, _) => {
            put_fault(&mut out, u64::from(*second) + 1, Cause::Form)?;
        }
    }
    Ok(out)
}
