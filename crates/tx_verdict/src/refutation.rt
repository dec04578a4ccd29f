//! A refutation of a recording of which some keys' orders are open.
ghost use Rattle.std.specs.Prelude.{◌≡◌, [], ◌∷◌, ◌++◌, IfOk, IsTrue};
ghost use Rattle.tx_history.specs.Records.{IsRecorded};
ghost use Rattle.tx_verdict.specs.Cases.{IsCase};
ghost use Rattle.tx_verdict.specs.Verdicts.{IsRefused};
ghost use Rattle.tx_verdict.specs.Refutations.{IsRoundBy, IsSettledBy, IsRefutationBy, IsRefutation};

use crate::case::Case;
use crate::ground::{Ground, is_step_by};
use crate::lemma::are_lemmas;
use crate::steps::{forbids, is_round};
use crate::stretch::has_written;
use crate::verdict::CycleStep;
use crate::versions::Versions;
use std::alloc::{AllocError, Global};

/// Of two that wrote a key, the first wrote it before the second.
#[derive(Clone, Copy, Debug, PartialEq, Eq)]
pub struct WriteOrder {
    pub key: u32,
    pub first: u32,
    pub second: u32,
}

/// An order that is settled, as the opposite one would close a round.
#[derive(Debug, Drop)]
pub struct Settled {
    pub order: WriteOrder,
    pub round: Vec<CycleStep>,
    /// Why each of its steps is so.
    pub grounds: Vec<Ground>,
}

/// Of the clause of a lemma, the order that is left: all others are known to be the other way
/// round.
#[derive(Clone, Copy, Debug, PartialEq, Eq)]
pub struct Hint {
    pub lemma: u32,
    pub order: WriteOrder,
}

/// A clause, one of whose orders holds: with the opposites of them all, and with what is then left
/// of the clauses of lemmas before it, a round would close.
#[derive(Debug, Drop)]
pub struct Lemma {
    pub clause: Vec<WriteOrder>,
    pub hints: Vec<Hint>,
    pub round: Vec<CycleStep>,
    /// Why each of its steps is so.
    pub grounds: Vec<Ground>,
}

/// Orders that are settled, each by those before it, lemmas, each by these orders and by the lemmas
/// before it, and a round that closes with them all.
#[derive(Debug, Drop)]
pub struct Refutation {
    pub facts: Vec<Settled>,
    pub lemmas: Vec<Lemma>,
    /// What is left of the clauses of lemmas, one after the other.
    pub hints: Vec<Hint>,
    pub last: Vec<CycleStep>,
    /// Why each of the last steps is so.
    pub grounds: Vec<Ground>,
}

/// Whether steps go round, as the level that is asked for forbids, each on its ground.
pub(crate) fn is_round_by(
    alloc: Global,
    case: &Case<'_>,
    versions: &Versions,
    known: &[WriteOrder],
    steps: &[CycleStep],
    grounds: &[Ground],
) -> Result<bool, AllocError>
    requires case { IsCase case.now }
    requires history { IsRecorded versions.now.recorded }
    ensures { IfOk result (λ is. IsTrue is
        → IsRoundBy case.now.recording.now case.now.question known.now steps.now) }
{
    if !is_round(steps) {
        return Ok(false);
    }
    if !forbids(case.question.level, steps) {
        return Ok(false);
    }
    if grounds.len() != steps.len() {
        return Ok(false);
    }
    for i in 0..steps.len() {
        if !is_step_by(alloc, case, versions, known, steps[i], grounds[i])? {
            return Ok(false);
        }
    }
    Ok(true)
}

// Whether an order is settled by those that are known, with the opposite one beside them.
fn is_settled(
    alloc: Global,
    case: &Case<'_>,
    versions: &Versions,
    known: &mut Vec<WriteOrder>,
    fact: &Settled,
) -> Result<bool, AllocError>
    requires case { IsCase case.now }
    requires history { IsRecorded versions.now.recorded }
    ensures { IfOk result (λ is. IsTrue is → (known.new.items ≡ known.old.items ++ fact.now.order ∷ [])
        × IsSettledBy case.now.recording.now case.now.question known.old.items fact.now) }
{
    let order = fact.order;
    if order.first == order.second {
        return Ok(false);
    }
    if !has_written(case, versions, order.first, order.key) {
        return Ok(false);
    }
    if !has_written(case, versions, order.second, order.key) {
        return Ok(false);
    }
    let count = known.len();
    known.push(WriteOrder {
        key: order.key,
        first: order.second,
        second: order.first,
    })?;
    if !is_round_by(
        alloc,
        case,
        versions,
        known.as_slice(),
        fact.round.as_slice(),
        fact.grounds.as_slice(),
    )? {
        return Ok(false);
    }
    known[count] = order;
    Ok(true)
}

// Whether each order is settled by those before it, and with them all the lemmas follow and the
// last round closes.
fn are_settled(
    alloc: Global,
    case: &Case<'_>,
    versions: &Versions,
    facts: &[Settled],
    refutation: &Refutation,
) -> Result<bool, AllocError>
    requires case { IsCase case.now }
    requires history { IsRecorded versions.now.recorded }
    ensures { IfOk result (λ is. IsTrue is
        → IsRefutationBy case.now.recording.now case.now.question [] facts.now refutation.now) }
{
    let mut known = Vec::new(alloc);
    for i in 0..facts.len() {
        if !is_settled(alloc, case, versions, &mut known, &facts[i])? {
            return Ok(false);
        }
    }
    let closes = are_lemmas(
        alloc,
        case,
        versions,
        known.as_slice(),
        refutation.lemmas.as_slice(),
        refutation.hints.as_slice(),
        refutation.last.as_slice(),
        refutation.grounds.as_slice(),
    )?;
    Ok(closes)
}

/// Whether each order is settled by those before it, each lemma follows, and with them all the last
/// round closes.
pub fn is_refutation(
    alloc: Global,
    case: &Case<'_>,
    versions: &Versions,
    refutation: &Refutation,
) -> Result<bool, AllocError>
    requires case { IsCase case.now }
    requires history { IsRecorded versions.now.recorded }
    ensures refutation { IfOk result (λ is. IsTrue is
        → IsRefutation case.now.recording.now case.now.question refutation.now) }
    ensures refused { IfOk result (λ is. IsTrue is → IsRefused case.now.recording.now case.now.question) }
{
    let facts = refutation.facts.as_slice();
    let is = are_settled(alloc, case, versions, facts, refutation)?;
    Ok(is)
}
