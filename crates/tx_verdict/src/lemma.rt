//! Clauses of question, each of which follows from those before it.
ghost use Rattle.std.specs.Prelude.{◌≡◌, ◌⊎◌, [], Contains, IfOk, IsTrue};
ghost use Rattle.tx_history.specs.Records.{IsRecorded};
ghost use Rattle.tx_verdict.specs.Cases.{IsCase};
ghost use Rattle.tx_verdict.specs.Refutations.{IsOrder, opposite, IsUnit, IsUnitOf, ClosesBy, IsLemmaBy, AreLemmasBy};

use crate::case::Case;
use crate::ground::Ground;
use crate::refutation::{Hint, Lemma, WriteOrder, is_round_by};
use crate::stretch::has_written;
use crate::verdict::CycleStep;
use crate::versions::Versions;
use std::alloc::{AllocError, Global};

// The order the other way round.
fn opposite_of(order: WriteOrder) -> WriteOrder
    ensures { result ≡ opposite order }
{
    WriteOrder {
        key: order.key,
        first: order.second,
        second: order.first,
    }
}

// Whether an order is known.
fn is_among(known: &[WriteOrder], order: WriteOrder) -> bool
    ensures { IsTrue result → Contains known.now order }
{
    for i in 0..known.len() {
        if known[i] == order {
            return true;
        }
    }
    false
}

// Whether an order is this one, or is known to be the other way round.
fn is_other(known: &[WriteOrder], order: WriteOrder, left: WriteOrder) -> bool
    ensures { IsTrue result → (order ≡ left) ⊎ Contains known.now (opposite order) }
{
    if order == left {
        return true;
    }
    is_among(known, opposite_of(order))
}

// Whether all orders of a clause but this one are known to be the other way round.
fn is_unit(known: &[WriteOrder], clause: &[WriteOrder], left: WriteOrder) -> bool
    ensures { IsTrue result → IsUnit known.now clause.now left }
{
    for i in 0..clause.len() {
        if !is_other(known, clause[i], left) {
            return false;
        }
    }
    true
}

// Whether an order is what is left of the clause of a lemma.
fn is_left(lemmas: &[Lemma], known: &[WriteOrder], hint: Hint) -> bool
    ensures { IsTrue result → IsUnitOf lemmas.now known.now hint }
{
    let place = hint.lemma as usize;
    if place >= lemmas.len() {
        return false;
    }
    is_unit(known, lemmas[place].clause.as_slice(), hint.order)
}

// Whether what is known closes a round, with what is left of the clauses of lemmas.
fn closes_by(
    alloc: Global,
    case: &Case<'_>,
    versions: &Versions,
    lemmas: &[Lemma],
    known: &mut Vec<WriteOrder>,
    hints: &[Hint],
    steps: &[CycleStep],
    grounds: &[Ground],
) -> Result<bool, AllocError>
    requires case { IsCase case.now }
    requires history { IsRecorded versions.now.recorded }
    ensures { IfOk result (λ is. IsTrue is
        → ClosesBy case.now.recording.now case.now.question lemmas.now known.old.items hints.now steps.now) }
{
    for i in 0..hints.len() {
        if !is_left(lemmas, known.as_slice(), hints[i]) {
            return Ok(false);
        }
        known.push(hints[i].order)?;
    }
    let closes = is_round_by(alloc, case, versions, known.as_slice(), steps, grounds)?;
    Ok(closes)
}

// Whether two wrote the key of an order.
fn is_order(case: &Case<'_>, versions: &Versions, order: WriteOrder) -> bool
    requires case { IsCase case.now }
    ensures { IsTrue result → IsOrder case.now.recording.now order }
{
    if order.first == order.second {
        return false;
    }
    if !has_written(case, versions, order.first, order.key) {
        return false;
    }
    has_written(case, versions, order.second, order.key)
}

// Whether one of the orders of a lemma holds, by what is known and by the lemmas before.
fn is_lemma(
    alloc: Global,
    case: &Case<'_>,
    versions: &Versions,
    known: &[WriteOrder],
    before: &[Lemma],
    lemma: &Lemma,
) -> Result<bool, AllocError>
    requires case { IsCase case.now }
    requires history { IsRecorded versions.now.recorded }
    ensures { IfOk result (λ is. IsTrue is
        → IsLemmaBy case.now.recording.now case.now.question known.now before.now lemma.now) }
{
    let clause = lemma.clause.as_slice();
    let mut all = Vec::new(alloc);
    all.extend_from_slice(known)?;
    for i in 0..clause.len() {
        if !is_order(case, versions, clause[i]) {
            return Ok(false);
        }
        all.push(opposite_of(clause[i]))?;
    }
    let closes = closes_by(
        alloc,
        case,
        versions,
        before,
        &mut all,
        lemma.hints.as_slice(),
        lemma.round.as_slice(),
        lemma.grounds.as_slice(),
    )?;
    Ok(closes)
}

/// Whether each lemma follows from what is known and from those before it, and with them all the
/// last round closes.
pub(crate) fn are_lemmas(
    alloc: Global,
    case: &Case<'_>,
    versions: &Versions,
    known: &[WriteOrder],
    lemmas: &[Lemma],
    hints: &[Hint],
    last: &[CycleStep],
    grounds: &[Ground],
) -> Result<bool, AllocError>
    requires case { IsCase case.now }
    requires history { IsRecorded versions.now.recorded }
    ensures { IfOk result (λ is. IsTrue is
        → AreLemmasBy case.now.recording.now case.now.question known.now [] lemmas.now hints.now last.now) }
{
    for i in 0..lemmas.len() {
        let before = &lemmas[..i];
        if !is_lemma(alloc, case, versions, known, before, &lemmas[i])? {
            return Ok(false);
        }
    }
    let mut all = Vec::new(alloc);
    all.extend_from_slice(known)?;
    let closes = closes_by(
        alloc, case, versions, lemmas, &mut all, hints, last, grounds,
    )?;
    Ok(closes)
}
