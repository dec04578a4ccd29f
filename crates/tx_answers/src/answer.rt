//! Judging a history: its lines are read, and one line is written with the verdict.
ghost use Rattle.std.specs.Prelude.{◌≡◌, OnOk, OnErr, IfOk, IfErr, IfSome};
ghost use Rattle.std.specs.Io.KnownBytes.{Appends};
ghost use Rattle.tx_text.specs.Faults.{fault_words};
ghost use Rattle.tx_text.specs.Lines.{lines_of};
ghost use Rattle.tx_text.specs.Members.{reply_text};
ghost use Rattle.tx_text.specs.Output.{AppendsPart};
ghost use Rattle.tx_recording.specs.Recordings.{IsRecording};
ghost use Rattle.tx_import.specs.Numbers.{AreInTurn};
ghost use Rattle.tx_import.specs.Recorders.{IsTimely};
ghost use Rattle.tx_answers.specs.Pages.{framed_text};
ghost use Rattle.tx_answers.specs.Texts.{end_of};
ghost use Rattle.tx_answers.specs.Answers.{IsOne, IsSaidTo, IsSaid, IsHeard, line_of as line_of_wrong, IsAnswer, WritesAnswer, Breaks};

use crate::all::judged_to_end;
use crate::page::framed;
use crate::sentences::{SIGN, sentences, wrong_sentence};
use crate::text::{answer_text, is_page};
use std::alloc::{AllocError, Global};
use std::io::{BufRead, Write};
use tx_import::{LineFault, Misrecorded, NamedHistory, bare_of, find_misrecorded, read_history};
use tx_judge::judge;
use tx_text::{Broken, finish, put_fault, send};
use tx_types::Cause;
use tx_verdict::{HistoryVerdict, Question};

/// How a no is told: its cycle, its refutation, or its read that cannot be.
#[derive(Clone, Copy, Debug, PartialEq, Eq)]
pub enum CycleForm {
    Line,
    /// As a graph for Graphviz.
    Graph,
    /// As an SVG.
    Picture,
    /// Each verdict as a section of an HTML page, with its line, why it is one, and its pictures.
    Page,
}

/// What is asked of a history.
#[derive(Clone, Copy, Debug, PartialEq, Eq)]
pub struct AnswerOptions {
    pub question: Question,
    /// Whether a yes is told by a trace that `tx_check` judges, in place of its line.
    pub trace: bool,
    pub form: CycleForm,
    /// Whether it goes on after a no, with what that leaves.
    pub all: bool,
    /// How many cycles a search for an order may meet, for each verdict.
    pub budget: u32,
}

/// How a verdict ends.
#[derive(Clone, Copy, Debug, PartialEq, Eq)]
pub enum ImportEnd {
    Yes,
    No,
    /// Neither was found.
    Open,
    /// A line says no transaction, or gives a value to a key that was given it before.
    Faulted,
}

/// What was answered.
#[derive(Debug, Drop)]
pub struct Answered {
    pub end: ImportEnd,
    /// Sentences that say why, each a line.
    pub why: Vec<u8>,
}

/// What is to be written, and how it ends.
#[derive(Drop)]
pub(crate) struct Answer {
    pub(crate) text: Vec<u8>,
    pub(crate) end: ImportEnd,
    pub(crate) why: Vec<u8>,
}

/// How a verdict ends.
pub(crate) fn end_of(verdict: &HistoryVerdict) -> ImportEnd
    ensures { result ≡ end_of verdict.now }
{
    match verdict {
        HistoryVerdict::Yes(_) => ImportEnd::Yes,
        HistoryVerdict::No(_) | HistoryVerdict::Refuted(_) | HistoryVerdict::Fact(_) =>
            ImportEnd::No,
        HistoryVerdict::Open(_) | HistoryVerdict::Unknown => ImportEnd::Open,
        HistoryVerdict::Twice(..) => ImportEnd::Faulted,
    }
}

// What is said of a history that was read, by one verdict.
fn judged_once(
    alloc: Global,
    options: AnswerOptions,
    history: &NamedHistory,
) -> Result<Answer, Broken>
    requires { IsRecording history.now.recording }
    ensures { IfOk result (λ answer. IsOne options history.now answer.text.items answer.end) }
{
    let verdict = judge(alloc, &history.recording, options.question, options.budget)?;
    let text = answer_text(alloc, options, history, &verdict)?;
    let why = sentences(alloc, history, options.question.level, SIGN, &verdict)?;
    let end = end_of(&verdict);
    Ok(Answer { text, end, why })
}

// What is said of a history that was read: all to the end, or one verdict.
fn judged_to(
    alloc: Global,
    options: AnswerOptions,
    history: &NamedHistory,
) -> Result<Answer, Broken>
    requires recording { IsRecording history.now.recording }
    requires in_turn { AreInTurn history.now.recording.transactions.items }
    ensures { IfOk result (λ answer. IsSaidTo options.all options history.now answer.text.items answer.end) }
{
    if options.all {
        return judged_to_end(alloc, options, history);
    }
    judged_once(alloc, options, history)
}

// What is said, on a page where that is asked for.
fn on_page(alloc: Global, paged: bool, answer: Answer) -> Result<Answer, AllocError>
    ensures text { IfOk result (λ made. made.text.items ≡ framed_text paged answer.text.items) }
    ensures end { IfOk result (λ made. made.end ≡ answer.end) }
{
    if !paged {
        return Ok(answer);
    }
    Ok(Answer {
        text: framed(alloc, answer.text.as_slice())?,
        end: answer.end,
        why: answer.why,
    })
}

// What is said of a history that was read.
fn judged(alloc: Global, options: AnswerOptions, history: &NamedHistory) -> Result<Answer, Broken>
    requires recording { IsRecording history.now.recording }
    requires in_turn { AreInTurn history.now.recording.transactions.items }
    ensures { IfOk result (λ answer. IsSaid options history.now answer.text.items answer.end) }
{
    let answer = judged_to(alloc, options, history)?;
    let paged = is_page(options.form);
    let made = on_page(alloc, paged, answer)?;
    Ok(made)
}

// What is said of a fault.
fn faulted(alloc: Global, fault: LineFault) -> Result<Answer, Broken>
    ensures text { IfOk result (λ answer. answer.text.items ≡ reply_text (fault.number, fault_words fault.cause)) }
    ensures end { IfOk result (λ answer. answer.end ≡ ImportEnd.Faulted) }
{
    let mut text = Vec::new(alloc);
    put_fault(&mut text, fault.number, fault.cause)?;
    Ok(Answer {
        text,
        end: ImportEnd::Faulted,
        why: Vec::new(alloc),
    })
}

// What is said of a history of which nothing wrong was found.
fn heard_bare(
    alloc: Global,
    options: AnswerOptions,
    history: NamedHistory,
) -> Result<Answer, Broken>
    requires recording { IsRecording history.recording }
    requires in_turn { AreInTurn history.recording.transactions.items }
    requires timely { IsTimely history.recording }
    ensures { IfOk result (λ answer. IsHeard options history answer.text.items answer.end) }
{
    let bare = bare_of(alloc, history)?;
    let answer = judged(alloc, options, &bare)?;
    Ok(answer)
}

// What is said of a history, unless its recorder got something wrong.
fn heard(alloc: Global, options: AnswerOptions, history: NamedHistory) -> Result<Answer, Broken>
    requires recording { IsRecording history.recording }
    requires in_turn { AreInTurn history.recording.transactions.items }
    ensures { IfOk result (λ answer. IsHeard options history answer.text.items answer.end) }
{
    match find_misrecorded(alloc, &history)? {
        Some(wrong) => misread(alloc, &history, wrong),
        None => heard_bare(alloc, options, history),
    }
}

// What is said of what a recorder got wrong.
fn misread(alloc: Global, history: &NamedHistory, wrong: Misrecorded) -> Result<Answer, Broken>
    ensures text { IfOk result (λ answer. answer.text.items
        ≡ reply_text (line_of_wrong wrong, fault_words Cause.Form)) }
    ensures end { IfOk result (λ answer. answer.end ≡ ImportEnd.Faulted) }
{
    let mut text = Vec::new(alloc);
    put_fault(&mut text, line_of(wrong), Cause::Form)?;
    let why = wrong_sentence(alloc, history, wrong)?;
    Ok(Answer {
        text,
        end: ImportEnd::Faulted,
        why,
    })
}

// The line that tells what a recorder got wrong.
fn line_of(wrong: Misrecorded) -> u64
    ensures { result ≡ line_of_wrong wrong }
{
    match wrong {
        Misrecorded::Empty => 1,
        Misrecorded::EndsEarly(txn) => u64::from(txn) + 1,
        Misrecorded::SameId(_, second) => u64::from(second) + 1,
        Misrecorded::Mixed(_, first, second) => u64::from(first).max(u64::from(second)) + 1,
    }
}

// What is said of the lines.
fn answer_of<R: BufRead>(
    alloc: Global,
    options: AnswerOptions,
    reader: &mut R,
) -> Result<Answer, Broken>
    ensures { IfOk result (λ answer. IfSome (R.remaining reader.old)
        (λ input. IsAnswer options (lines_of input) answer.text.items answer.end)) }
{
    match read_history(alloc, reader)? {
        Ok(history) => heard(alloc, options, history),
        Err(fault) => faulted(alloc, fault),
    }
}

// Writes a text and hands it on, or writes the first of it before a failure, which is `Output`.
fn write_out<W: Write>(writer: &mut W, text: &[u8]) -> Result<(), Broken>
    ensures all { OnOk result (Appends (W.contents writer.old) (W.contents writer.new) text.now) }
    ensures part { OnErr result (AppendsPart (W.contents writer.old) (W.contents writer.new) text.now) }
    ensures err { IfErr result (λ e. e ≡ Broken.Output) }
{
    send(writer, text)?;
    finish(writer)
}

/// Judges a history, and writes one line: `["import","yes",{..}]`, `["import","no",..]`,
/// `["import","open",keys]`, or `[n,"E16",cause]` with the first line that says no transaction.
/// Where that is asked for, a trace in place of the line of a yes, and the drawing of a no in place
/// of its line; or after a no also what comes of what it leaves, to the end.
/// Nothing is written before all of it is known.
///
/// `Input` where a read failed, `Output` where a write or the flush failed, `Memory` where a
/// growth was refused.
pub fn import<R: BufRead, W: Write>(
    alloc: Global,
    options: AnswerOptions,
    reader: &mut R,
    writer: &mut W,
) -> Result<Answered, Broken>
    // Not broken off, it has written what is told of a verdict on the recording of the lines, or of
    // the first line that says no transaction, and nothing else.
    ensures ends { IfOk result (λ answered. IfSome (R.remaining reader.old)
        (λ input. WritesAnswer options input (W.contents writer.old) (W.contents writer.new) answered.end)) }
    // Broken off, it has written nothing, or where a write failed a beginning of that.
    ensures breaks { IfErr result (λ broken. IfSome (R.remaining reader.old)
        (λ input. Breaks options input (W.contents writer.old) (W.contents writer.new) broken)) }
{
    let answer = answer_of(alloc, options, reader)?;
    write_out(writer, answer.text.as_slice())?;
    Ok(Answered {
        end: answer.end,
        why: answer.why,
    })
}
