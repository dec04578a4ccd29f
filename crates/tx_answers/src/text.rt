//! What is written of a verdict: its line, a trace, a drawing, or a section of a page.
ghost use Rattle.std.specs.Prelude.{◌≡◌, ◌⊎◌, ◌++◌, codes, IfOk};
ghost use Rattle.tx_recording.specs.Recordings.{IsRecording};
ghost use Rattle.tx_verdict_text.specs.Words.{verdict_text};
ghost use Rattle.tx_answers.specs.Traces.{IsTrace};
ghost use Rattle.tx_answers.specs.Texts.{cycle_text, refuted_text, read_text, noted_text, is_page, IsPlain, IsTextIn, IsTextOf};

use crate::answer::{AnswerOptions, CycleForm};
use crate::page::section;
use crate::trace::trace_of;
use std::alloc::{AllocError, Global};
use tx_diagram::{
    cycle_drawing, cycle_picture, read_drawing, read_picture, refuted_drawing, refuted_picture,
};
use tx_import::NamedHistory;
use tx_text::Broken;
use tx_verdict::{Cycle, Fact, HistoryVerdict, Refutation, Timestamps};
use tx_verdict_text::verdict_line;

// A line as a remark among graphs.
fn remark(alloc: Global, line: &[u8]) -> Result<Vec<u8>, AllocError>
    ensures { IfOk result (λ text. text.items ≡ codes "// " ++ line.now) }
{
    let mut text = Vec::new(alloc);
    text.extend_from_slice(b"// ")?;
    text.extend_from_slice(line)?;
    Ok(text)
}

// The line of what is no no.
fn noted(
    alloc: Global,
    form: CycleForm,
    history: &NamedHistory,
    verdict: &HistoryVerdict,
) -> Result<Vec<u8>, Broken>
    ensures { IfOk result (λ text. text.items ≡ noted_text form (verdict_text history.now verdict.now)) }
{
    let line = verdict_line(alloc, history, verdict)?;
    match form {
        CycleForm::Line | CycleForm::Picture | CycleForm::Page => Ok(line),
        CycleForm::Graph => Ok(remark(alloc, line.as_slice())?),
    }
}

// What is written of a yes where a trace is asked for. The line, if the machine does not make it.
fn traced(
    alloc: Global,
    form: CycleForm,
    history: &NamedHistory,
    verdict: &HistoryVerdict,
    timestamps: &Timestamps,
) -> Result<Vec<u8>, Broken>
    requires { IsRecording history.now.recording }
    ensures { IfOk result (λ text. IsTrace history.now timestamps.now text.items
        ⊎ (text.items ≡ noted_text form (verdict_text history.now verdict.now))) }
{
    match trace_of(alloc, history, timestamps)? {
        Some(text) => Ok(text),
        None => noted(alloc, form, history, verdict),
    }
}

// What is written of a cycle.
fn cycle_text(
    alloc: Global,
    form: CycleForm,
    history: &NamedHistory,
    verdict: &HistoryVerdict,
    cycle: &Cycle,
) -> Result<Vec<u8>, Broken>
    requires { verdict.now ≡ HistoryVerdict.No cycle.now }
    ensures { IfOk result (λ text. text.items ≡ cycle_text form history.now cycle.now) }
{
    match form {
        CycleForm::Line | CycleForm::Page => Ok(verdict_line(alloc, history, verdict)?),
        CycleForm::Graph => Ok(cycle_drawing(alloc, history, cycle)?),
        CycleForm::Picture => Ok(cycle_picture(alloc, history, cycle)?),
    }
}

// What is written of a refutation.
fn refuted_text(
    alloc: Global,
    form: CycleForm,
    history: &NamedHistory,
    verdict: &HistoryVerdict,
    refutation: &Refutation,
) -> Result<Vec<u8>, Broken>
    requires { verdict.now ≡ HistoryVerdict.Refuted refutation.now }
    ensures { IfOk result (λ text. text.items ≡ refuted_text form history.now refutation.now) }
{
    match form {
        CycleForm::Line | CycleForm::Page => Ok(verdict_line(alloc, history, verdict)?),
        CycleForm::Graph => Ok(refuted_drawing(alloc, history, refutation)?),
        CycleForm::Picture => Ok(refuted_picture(alloc, history, refutation)?),
    }
}

// What is written of a read that cannot be.
fn read_text(
    alloc: Global,
    form: CycleForm,
    history: &NamedHistory,
    verdict: &HistoryVerdict,
    fact: Fact,
) -> Result<Vec<u8>, Broken>
    requires { verdict.now ≡ HistoryVerdict.Fact fact }
    ensures { IfOk result (λ text. text.items ≡ read_text form history.now fact) }
{
    match form {
        CycleForm::Line | CycleForm::Page => Ok(verdict_line(alloc, history, verdict)?),
        CycleForm::Graph => Ok(read_drawing(alloc, history, fact)?),
        CycleForm::Picture => Ok(read_picture(alloc, history, fact)?),
    }
}

/// Whether a page is asked for.
pub(crate) fn is_page(form: CycleForm) -> bool
    ensures { result ≡ is_page form }
{
    match form {
        CycleForm::Line | CycleForm::Graph | CycleForm::Picture => false,
        CycleForm::Page => true,
    }
}

// What is written of a verdict but on a page.
fn plain_text(
    alloc: Global,
    options: AnswerOptions,
    history: &NamedHistory,
    verdict: &HistoryVerdict,
) -> Result<Vec<u8>, Broken>
    requires { IsRecording history.now.recording }
    ensures { IfOk result (λ text. IsPlain options history.now verdict.now text.items) }
{
    let form = options.form;
    match verdict {
        HistoryVerdict::Yes(timestamps) if options.trace => {
            traced(alloc, form, history, verdict, timestamps)
        }
        HistoryVerdict::No(cycle) => cycle_text(alloc, form, history, verdict, cycle),
        HistoryVerdict::Refuted(refutation) => refuted_text(
            alloc, form, history, verdict, refutation,
        ),
        HistoryVerdict::Fact(fact) => read_text(alloc, form, history, verdict, *fact),
        HistoryVerdict::Yes(_) => noted(alloc, form, history, verdict),
        HistoryVerdict::Open(_) => noted(alloc, form, history, verdict),
        HistoryVerdict::Unknown => noted(alloc, form, history, verdict),
        HistoryVerdict::Twice(..) => Ok(verdict_line(alloc, history, verdict)?),
    }
}

// What is written of a verdict: a section where a page is asked for.
fn text_in(
    alloc: Global,
    paged: bool,
    options: AnswerOptions,
    history: &NamedHistory,
    verdict: &HistoryVerdict,
) -> Result<Vec<u8>, Broken>
    requires { IsRecording history.now.recording }
    ensures { IfOk result (λ text. IsTextIn paged options history.now verdict.now text.items) }
{
    if paged {
        return Ok(section(alloc, history, options.question.level, verdict)?);
    }
    plain_text(alloc, options, history, verdict)
}

/// What is written of a verdict.
pub(crate) fn answer_text(
    alloc: Global,
    options: AnswerOptions,
    history: &NamedHistory,
    verdict: &HistoryVerdict,
) -> Result<Vec<u8>, Broken>
    requires { IsRecording history.now.recording }
    ensures { IfOk result (λ text. IsTextOf options history.now verdict.now text.items) }
{
    let paged = is_page(options.form);
    text_in(alloc, paged, options, history, verdict)
}
