//! The search for an order of the puts of which nobody knows it.
ghost use Rattle.std.specs.Prelude.{IfOk, IfSome};
ghost use Rattle.tx_verdict.specs.Cases.{IsWhole};
ghost use Rattle.tx_verdict.specs.Verdicts.{IsVerdict};

use crate::attempt::{refuted_by, try_versions, verdict_in};
use crate::consequences::{Follows, follows_from};
use crate::first::{Hint, hint_of};
use crate::open_keys::open_keys;
use std::alloc::{AllocError, Global};
use tx_chains::{Asked, ChainParts, Extras, Put, number, plan_of, versions_of};
use tx_recording::Recording;
use tx_verdict::{Case, HistoryVerdict, Level, Lives, Question};

// The puts in their own order.
fn in_turn(alloc: Global, count: usize) -> Result<Vec<u32>, AllocError> {
    let mut order = Vec::new(alloc);
    for i in 0..count {
        order.push(number(i))?;
    }
    Ok(order)
}

// The number of the transaction of a put.
fn number_of(puts: &[Put], numbers: &[usize], place: u32) -> usize {
    let Some(put) = puts.get(place as usize) else {
        return 0;
    };
    match numbers.get(put.txn as usize) {
        Some(number) => *number,
        None => 0,
    }
}

// What the recording is, with those puts in the order of some numbers of their transactions.
fn verdict_by(
    alloc: Global,
    case: &Case<'_>,
    lives: &Lives,
    parts: &ChainParts,
    numbers: &[usize],
) -> Result<Option<HistoryVerdict>, AllocError>
    requires case { IsWhole case.now }
    ensures { IfOk result (λ found. IfSome found (IsVerdict case.now.recording.now case.now.question)) }
{
    let puts = parts.puts.all.as_slice();
    let mut order = in_turn(alloc, puts.len())?;
    order.sort_by_key(|place| number_of(puts, numbers, *place))?;
    let order = order.as_slice();
    verdict_in(alloc, case, lives, parts, order, Asked::All)
}

// What the recording is, with those puts in one of these orders, or in that in which they are
// recorded.
fn verdict_found(
    alloc: Global,
    case: &Case<'_>,
    lives: &Lives,
    parts: &ChainParts,
    guesses: &[Vec<usize>],
) -> Result<Option<HistoryVerdict>, AllocError>
    requires case { IsWhole case.now }
    ensures { IfOk result (λ found. IfSome found (IsVerdict case.now.recording.now case.now.question)) }
{
    for i in 0..guesses.len() {
        let guess = guesses[i].as_slice();
        let found = verdict_by(alloc, case, lives, parts, guess)?;
        if found.is_some() {
            return Ok(found);
        }
    }
    let turn = in_turn(alloc, parts.puts.all.len())?;
    let order = turn.as_slice();
    let asked = Asked::All;
    verdict_in(alloc, case, lives, parts, order, asked)
}

// What the recording is by what holds in each order of those puts, or by one that is found.
fn verdict_by_hint(
    alloc: Global,
    case: &Case<'_>,
    lives: &Lives,
    parts: &ChainParts,
    hint: Hint,
) -> Result<Option<HistoryVerdict>, AllocError>
    requires case { IsWhole case.now }
    ensures { IfOk result (λ found. IfSome found (IsVerdict case.now.recording.now case.now.question)) }
{
    match hint {
        Hint::First(first) => {
            let turn = in_turn(alloc, parts.puts.all.len())?;
            let asked = Asked::First(first.as_slice());
            let order = turn.as_slice();
            verdict_in(alloc, case, lives, parts, order, asked)
        }
        Hint::Guesses(guesses) => {
            let guesses = guesses.as_slice();
            verdict_found(alloc, case, lives, parts, guesses)
        }
        Hint::Nothing => Ok(None),
    }
}

// The orders that the lines tell of, be they asked for or not: what holds in them holds in those
// that are asked for.
fn told_orders(recording: &Recording, question: Question) -> Question {
    let mut told = question;
    for txn in 0..recording.transactions.len() {
        let transaction = recording.transactions[txn];
        if transaction.process.is_some() {
            told.orders.sessions = true;
        }
        if transaction.ended.is_some() {
            told.orders.strict = true;
        }
    }
    told
}

// What the recording is, by orders of puts that follow from what was seen and from these orders.
fn verdict_by_found(
    alloc: Global,
    case: &Case<'_>,
    lives: &Lives,
    parts: &ChainParts,
    told: Question,
    budget: u32,
) -> Result<Option<HistoryVerdict>, AllocError>
    requires case { IsWhole case.now }
    ensures { IfOk result (λ found. IfSome found (IsVerdict case.now.recording.now case.now.question)) }
{
    let puts = parts.puts.all.as_slice();
    let turn = in_turn(alloc, puts.len())?;
    let asked = Asked::First(&[]);
    let (plan, extras) = plan_of(alloc, case, parts, turn.as_slice(), asked)?;
    let level = told.level;
    let mut plain = *case;
    plain.question = Question {
        level: Level::Snapshot,
        orders: told.orders,
    };
    let versions = versions_of(alloc, &plain, lives, puts, &plan)?;
    let (recording, count) = (case.recording, case.views.len());
    match follows_from(
        alloc, recording, level, count, &versions, puts, &extras, budget,
    )? {
        Follows::Refuted(refutation) => refuted_by(alloc, case, &versions, refutation),
        Follows::Guesses(guesses) => {
            let guesses = guesses.as_slice();
            verdict_found(alloc, case, lives, parts, guesses)
        }
        Follows::Nothing => Ok(None),
    }
}

// The orders of which to look: those that the lines tell of, and those that are asked for.
fn verdict_by_orders(
    alloc: Global,
    case: &Case<'_>,
    lives: &Lives,
    parts: &ChainParts,
    budget: u32,
) -> Result<Option<HistoryVerdict>, AllocError>
    requires case { IsWhole case.now }
    ensures { IfOk result (λ found. IfSome found (IsVerdict case.now.recording.now case.now.question)) }
{
    let question = case.question;
    let told = told_orders(case.recording, question);
    let found = verdict_by_found(alloc, case, lives, parts, told, budget)?;
    if found.is_some() || told == question {
        return Ok(found);
    }
    verdict_by_found(alloc, case, lives, parts, question, budget)
}

// The verdict where none was found.
fn undecided(
    alloc: Global,
    case: &Case<'_>,
    puts: &[Put],
    extras: &Extras,
) -> Result<HistoryVerdict, AllocError>
    requires case { IsWhole case.now }
    ensures { IfOk result (IsVerdict case.now.recording.now case.now.question) }
{
    let keys = open_keys(alloc, case.recording, puts, extras)?;
    if keys.is_empty() {
        return Ok(HistoryVerdict::Unknown);
    }
    Ok(HistoryVerdict::Open(keys))
}

// What the recording is, if it is decided by what is known of the order of its puts, else by orders
// that are found.
fn verdict_sought(
    alloc: Global,
    case: &Case<'_>,
    lives: &Lives,
    parts: &ChainParts,
    hint: Hint,
    budget: u32,
) -> Result<Option<HistoryVerdict>, AllocError>
    requires case { IsWhole case.now }
    ensures { IfOk result (λ found. IfSome found (IsVerdict case.now.recording.now case.now.question)) }
{
    let found = verdict_by_hint(alloc, case, lives, parts, hint)?;
    if found.is_some() {
        return Ok(found);
    }
    verdict_by_orders(alloc, case, lives, parts, budget)
}

/// What the recording is, if the order of its puts is known, or one is found.
pub(crate) fn judge_parts(
    alloc: Global,
    case: &Case<'_>,
    lives: &Lives,
    parts: &ChainParts,
    budget: u32,
) -> Result<HistoryVerdict, AllocError>
    requires case { IsWhole case.now }
    ensures { IfOk result (IsVerdict case.now.recording.now case.now.question) }
{
    let puts = parts.puts.all.as_slice();
    let turn = in_turn(alloc, puts.len())?;
    let asked = Asked::First(&[]);
    let (plan, extras) = plan_of(alloc, case, parts, turn.as_slice(), asked)?;
    let versions = versions_of(alloc, case, lives, puts, &plan)?;
    let hint = hint_of(alloc, &versions, &plan, puts, &extras, case.recording.keys)?;
    let found = try_versions(alloc, case, versions)?;
    if let Some(verdict) = found {
        return Ok(verdict);
    }
    let found = verdict_sought(alloc, case, lives, parts, hint, budget)?;
    match found {
        Some(verdict) => Ok(verdict),
        None => undecided(alloc, case, puts, &extras),
    }
}
