//! Judging a history to its end: of those that a no tells of the reads are taken out, and what is
//! left is judged again.
ghost use Rattle.std.specs.Prelude.{◌≡◌, ◌<◌, ◌++◌, ◌||◌, [], cond, true, false, length, slice_index_or, IfOk, OnOk, List, ℕ};
ghost use Rattle.tx_recording.specs.Recordings.{IsRecording, txns_of};
ghost use Rattle.tx_import.specs.Numbers.{AreInTurn};
ghost use Rattle.tx_onward.specs.Tells.{tells};
ghost use Rattle.tx_onward.specs.Untold.{untold};
ghost use Rattle.tx_answers.specs.Texts.{end_of as end_of_verdict};
ghost use Rattle.tx_answers.specs.All.{IsOneOf, IsAllOf};

use crate::answer::{Answer, AnswerOptions, ImportEnd, end_of};
use crate::sentences::{SIGN, sentences};
use crate::text::answer_text;
use std::alloc::{AllocError, Global};
use tx_import::NamedHistory;
use tx_judge::judge;
use tx_onward::{left_of, note};
use tx_recording::Recording;
use tx_text::Broken;
use tx_verdict::HistoryVerdict;

// What is written of a verdict that stands behind a no: nothing of a yes.
fn later_text(
    alloc: Global,
    options: AnswerOptions,
    history: &NamedHistory,
    verdict: &HistoryVerdict,
) -> Result<Vec<u8>, Broken>
    requires { IsRecording history.now.recording }
    ensures { IfOk result (λ text. IsOneOf options history.now false verdict.now text.items) }
{
    match verdict {
        HistoryVerdict::Yes(_) => Ok(Vec::new(alloc)),
        HistoryVerdict::No(_) => answer_text(alloc, options, history, verdict),
        HistoryVerdict::Refuted(_) => answer_text(alloc, options, history, verdict),
        HistoryVerdict::Fact(_) => answer_text(alloc, options, history, verdict),
        HistoryVerdict::Open(_) => answer_text(alloc, options, history, verdict),
        HistoryVerdict::Unknown => answer_text(alloc, options, history, verdict),
        HistoryVerdict::Twice(..) => answer_text(alloc, options, history, verdict),
    }
}

// What is written of a verdict: nothing of a yes that stands behind a no.
fn one_text(
    alloc: Global,
    options: AnswerOptions,
    history: &NamedHistory,
    is_first: bool,
    verdict: &HistoryVerdict,
) -> Result<Vec<u8>, Broken>
    requires { IsRecording history.now.recording }
    ensures { IfOk result (λ text. IsOneOf options history.now is_first verdict.now text.items) }
{
    if is_first {
        answer_text(alloc, options, history, verdict)
    } else {
        later_text(alloc, options, history, verdict)
    }
}

// How all of it ends: as the first verdict does.
fn end_with(is_first: bool, end: ImportEnd, verdict: &HistoryVerdict) -> ImportEnd
    ensures { result ≡ cond is_first (end_of_verdict verdict.now) end }
{
    if is_first { end_of(verdict) } else { end }
}

// Adds what is written of a verdict, and why it is one.
fn put_one(
    alloc: Global,
    answer: &mut Answer,
    options: AnswerOptions,
    history: &NamedHistory,
    is_first: bool,
    verdict: &HistoryVerdict,
) -> Result<(), Broken>
    requires { IsRecording history.now.recording }
    ensures text { OnOk result ((one : List ℕ) × IsOneOf options history.now is_first verdict.now one
        × (answer.new.text.items ≡ answer.old.text.items ++ one)) }
    ensures end { OnOk result (answer.new.end ≡ cond is_first (end_of_verdict verdict.now) answer.old.end) }
{
    let text = one_text(alloc, options, history, is_first, verdict)?;
    let why = sentences(alloc, history, options.question.level, SIGN, verdict)?;
    answer.text.extend_from_slice(text.as_slice())?;
    answer.why.extend_from_slice(why.as_slice())?;
    answer.end = end_with(is_first, answer.end, verdict);
    Ok(())
}

// Nothing is written yet.
fn no_answer(alloc: Global) -> Answer
    ensures { result.text.items ≡ [] }
{
    Answer {
        text: Vec::new(alloc),
        end: ImportEnd::Yes,
        why: Vec::new(alloc),
    }
}

// Nobody is told of yet.
fn nobody(alloc: Global, recording: &Recording) -> Result<Vec<bool>, AllocError>
    ensures count { IfOk result (λ told. length told.items ≡ txns_of recording.now) }
    ensures none { IfOk result (λ told. (t : ℕ) → slice_index_or told.items t false ≡ false) }
{
    vec![in alloc; false; recording.transactions.len()]
}

// Notes of whom a verdict tells. Whether one of them was not told of before.
fn note_all(told: &mut Vec<bool>, recording: &Recording, verdict: &HistoryVerdict) -> bool
    requires recording { IsRecording recording.now }
    requires count { length told.old.items ≡ txns_of recording.now }
    ensures count { length told.new.items ≡ length told.old.items }
    ensures told { (t : ℕ) → slice_index_or told.new.items t false
        ≡ (slice_index_or told.old.items t false || tells recording.now verdict.now t) }
    ensures more { result ≡ true → untold told.new.items < untold told.old.items }
    ensures one { result ≡ true → (t : ℕ) × (tells recording.now verdict.now t ≡ true)
        × (slice_index_or told.old.items t false ≡ false) }
    ensures none { result ≡ false → told.new.items ≡ told.old.items }
{
    note(told.as_mut_slice(), recording, verdict)
}

/// What is said of a history that was read: each no in turn, each of what those before have left.
pub(crate) fn judged_to_end(
    alloc: Global,
    options: AnswerOptions,
    history: &NamedHistory,
) -> Result<Answer, Broken>
    requires recording { IsRecording history.now.recording }
    requires in_turn { AreInTurn history.now.recording.transactions.items }
    ensures { IfOk result (λ answer. IsAllOf options history.now answer.text.items answer.end) }
{
    let mut told = nobody(alloc, &history.recording)?;
    let mut answer = no_answer(alloc);
    let mut is_first = true;
    'verdicts: loop {
        let left = left_of(alloc, &history.recording, told.as_slice())?;
        let verdict = judge(alloc, &left, options.question, options.budget)?;
        put_one(alloc, &mut answer, options, history, is_first, &verdict)?;
        let is_more = note_all(&mut told, &history.recording, &verdict);
        if !is_more {
            return Ok(answer);
        }
        is_first = false;
    }
}
