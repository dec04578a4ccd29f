//! Checking a trace: each line is read as a step and made by the machine, and one line is written,
//! with the verdict, and where it is asked for and the verdict is no one more, with the reason.
ghost use Rattle.std.specs.Prelude.{◌≡◌, ◌≤◌, length, option_map, option_and_then, OnOk, OnErr, IfOk, IfErr, IfSome};
ghost use Rattle.std.specs.Io.KnownBytes.{Appends};
ghost use Rattle.serde_json.specs.View.{view};
ghost use Rattle.tx_check.specs.MachineSteps.{step_alone, step_beside, step_of};
ghost use Rattle.tx_check.specs.Check.{step_of_form, step_in, IsVerdict, WritesVerdict, Breaks, end_of, EndsWithReason, BreaksWithReason};
ghost use Rattle.tx_check.specs.Turns.{Turns, verdict_of};
ghost use Rattle.tx_machine.specs.declared.step.Step.{Step};
ghost use Rattle.tx_text.specs.Lines.{lines_of};
ghost use Rattle.tx_text.specs.Output.{AppendsPart};

use crate::explanation::{explained, walk_kept};
use crate::listed_step::listed_step;
use crate::machine_step::{UnreadStep, machine_step};
use crate::words::{Verdict, verdict_line};
use serde_json::Value;
use std::alloc::Global;
use std::io::{BufRead, Write};
use tx_machine::{Machine, Refused, Step};
use tx_text::{
    Broken, End, Found, Parts, Scanned, finish, parts_of, read_line, scanned_with_rows, send,
    value_of,
};
use tx_types::Cause;
use tx_types::limits::{MAX_LINE_BYTES, MAX_LINES};

/// Checks a trace, and writes `["check","yes"]`, or `["check","no",n]` with the first line whose
/// step the machine does not make, or `[n,"E16",cause]` with the first line that is no step.
/// Nothing is written before all of it is known.
///
/// `Input` where a read failed, `Output` where a write or the flush failed, `Memory` where a
/// growth was refused.
pub fn check<R: BufRead, W: Write>(
    alloc: Global,
    reader: &mut R,
    writer: &mut W,
) -> Result<End, Broken>
    // Not broken off, it has written the line of its verdict, and nothing else.
    ensures ends { IfOk result (λ end. IfSome (R.remaining reader.old)
        (λ input. WritesVerdict input (W.contents writer.old) (W.contents writer.new) end)) }
    // Broken off, it has written nothing, or where a write failed a beginning of that line.
    ensures breaks { IfErr result (λ broken. IfSome (R.remaining reader.old)
        (λ input. Breaks input (W.contents writer.old) (W.contents writer.new) broken)) }
{
    let verdict = walk(alloc, reader)?.verdict();
    let text = verdict_line(alloc, verdict)?;
    write_out(writer, text.as_bytes())?;
    Ok(end_of_check(verdict))
}

/// The same, and after a no writes one line more, `["why",n,word,{..}]`, with a reason for which
/// the machine does not make the step of line n. Where that is a read or a scan that claims a
/// value, another one, `["wrote",n,{..}]`, says who wrote it and what became of him, or
/// `["wrote",n,null]` that no line before puts it.
pub fn check_with_reason<R: BufRead, W: Write>(
    alloc: Global,
    reader: &mut R,
    writer: &mut W,
) -> Result<End, Broken>
    // Not broken off, it has written the line of its verdict, after a no the line of a reason and
    // that of who wrote what a read claims, and nothing else.
    ensures ends { IfOk result (λ end. IfSome (R.remaining reader.old)
        (λ input. EndsWithReason input (W.contents writer.old) (W.contents writer.new) end)) }
    // Broken off, it has written nothing, or where a write failed a beginning of that.
    ensures breaks { IfErr result (λ broken. IfSome (R.remaining reader.old)
        (λ input. BreaksWithReason input (W.contents writer.old) (W.contents writer.new) broken)) }
{
    let walked = walk_kept(alloc, reader)?;
    let text = explained(alloc, walked.steps.as_slice(), &walked.halt)?;
    write_out(writer, text.as_slice())?;
    Ok(end_of_check(walked.halt.verdict()))
}

/// Writes a text and hands it on, or writes the first of it before a failure, which is `Output`.
pub(crate) fn write_out<W: Write>(writer: &mut W, text: &[u8]) -> Result<(), Broken>
    ensures all { OnOk result (Appends (W.contents writer.old) (W.contents writer.new) text.now) }
    ensures part { OnErr result (AppendsPart (W.contents writer.old) (W.contents writer.new) text.now) }
    ensures err { IfErr result (λ e. e ≡ Broken.Output) }
{
    send(writer, text)?;
    finish(writer)
}

fn end_of_check(verdict: Verdict) -> End
    ensures { result ≡ end_of verdict }
{
    match verdict {
        Verdict::Yes => End::Well,
        Verdict::No(_) => End::No,
        Verdict::Fault(_, _) => End::Faulted,
    }
}

// Where the walk over the lines of a trace stops.
#[derive(Drop)]
pub(crate) enum Halt {
    /// At their end.
    End,
    /// At the line of this number, whose step the machine does not make. It is as it was before.
    Refused(u64, Machine, Step),
    /// At the line of this number, which is no step.
    Faulted(u64, Cause),
}

impl Halt {
    pub(crate) fn verdict(&self) -> Verdict
        ensures { result ≡ verdict_of self.now }
    {
        match self {
            Halt::End => Verdict::Yes,
            Halt::Refused(number, _, _) => Verdict::No(*number),
            Halt::Faulted(number, cause) => Verdict::Fault(*number, *cause),
        }
    }
}

// Walks over the lines up to the first that is refused or is no step.
fn walk<R: BufRead>(alloc: Global, reader: &mut R) -> Result<Halt, Broken>
    ensures { IfOk result (λ stop. IfSome (R.remaining reader.old)
        (λ input. IsVerdict (lines_of input) (verdict_of stop))) }
{
    let mut machine = Machine::new(alloc);
    let mut line = Vec::new(alloc);
    let mut number = 0;
    'lines: loop {
        match next(alloc, reader, &mut line, &mut machine, number + 1)? {
            LineTurn::End => return Ok(Halt::End),
            LineTurn::Made => number += 1,
            LineTurn::Refused(step) => return Ok(Halt::Refused(number + 1, machine, step)),
            LineTurn::Faulted(cause) => return Ok(Halt::Faulted(number + 1, cause)),
        }
    }
}

/// What came of the next line.
#[derive(Drop)]
pub(crate) enum LineTurn {
    End,
    Made,
    Refused(Step),
    Faulted(Cause),
}

/// Reads the next line and has the machine make its step.
pub(crate) fn next<R: BufRead>(
    alloc: Global,
    reader: &mut R,
    line: &mut Vec<u8>,
    machine: &mut Machine,
    number: u64,
) -> Result<LineTurn, Broken>
    // At any reader.
    ensures early { IfOk result (λ turn. turn ≡ LineTurn.Made → number ≤ MAX_LINES) }
    ensures refused { IfOk result (λ turn. (step : Step) → turn ≡ LineTurn.Refused step → number ≤ MAX_LINES) }
    // Where the bytes are known.
    ensures turns { IfOk result (λ turn. IfSome (R.remaining reader.old)
        (λ bytes. Turns bytes (R.remaining reader.new) machine.old machine.new number turn)) }
{
    match read_line(reader, line)? {
        Found::End => return Ok(LineTurn::End),
        Found::Long => return Ok(LineTurn::Faulted(Cause::Long)),
        Found::Line => {}
    }
    let step = match line_step(alloc, number, line)? {
        Ok(step) => step,
        Err(cause) => return Ok(LineTurn::Faulted(cause)),
    };
    match machine.step(&step) {
        Ok(()) => Ok(LineTurn::Made),
        Err(Refused::Step) => Ok(LineTurn::Refused(step)),
        Err(Refused::Memory) => Err(Broken::Memory),
    }
}

// The step that a value says by itself, where it says one.
fn alone_step(alloc: Global, value: &Value) -> Result<Option<Step>, Broken>
    ensures { IfOk result (λ found. found ≡ step_alone (view value.now)) }
{
    let Some(parts) = parts_of(value) else {
        return Ok(None);
    };
    match machine_step(alloc, parts.as_slice()) {
        Ok(step) => Ok(Some(step)),
        Err(UnreadStep::Form) => Ok(None),
        Err(UnreadStep::Memory) => Err(Broken::Memory),
    }
}

// What stands beside the number of a script's line, where a value is both.
fn behind_number(value: &Value) -> Option<&Value>
    ensures { step_beside (view value.now) ≡ option_and_then step_alone (option_map (λ d. view d.now) result) }
{
    match value.as_array()?.as_slice() {
        [number, step] => {
            number.as_u64()?;
            Some(step)
        }
        _ => None,
    }
}

// The step that a value says, or that it says none.
fn value_step(alloc: Global, value: &Value) -> Result<Result<Step, Cause>, Broken>
    ensures { IfOk result (λ found. found ≡ step_of_form (step_of (view value.now))) }
{
    if let Some(step) = alone_step(alloc, value)? {
        return Ok(Ok(step));
    }
    let Some(behind) = behind_number(value) else {
        return Ok(Err(Cause::Form));
    };
    match alone_step(alloc, behind)? {
        Some(step) => Ok(Ok(step)),
        None => Ok(Err(Cause::Form)),
    }
}

/// The step that the line of this number says, or why it says none: a plain line, also one with a
/// list of rows, is read straight from its bytes, any other by its JSON value.
pub(crate) fn line_step(
    alloc: Global,
    number: u64,
    line: &[u8],
) -> Result<Result<Step, Cause>, Broken>
    requires { length line.now ≤ MAX_LINE_BYTES }
    ensures read { IfOk result (λ found. found ≡ step_in number line.now) }
    ensures early { IfOk result (λ found. IfOk found (λ _. number ≤ MAX_LINES)) }
{
    if number > MAX_LINES {
        return Ok(Err(Cause::Lines));
    }
    let mut parts = Parts::new();
    match scanned_with_rows(alloc, line, &mut parts) {
        Some(Scanned::Plain) => {
            if let Ok(step) = machine_step(alloc, parts.as_slice()) {
                return Ok(Ok(step));
            }
        }
        Some(Scanned::Listed(rows)) => {
            if let Ok(step) = listed_step(alloc, parts.as_slice(), rows.as_slice()) {
                return Ok(Ok(step));
            }
        }
        None => {}
    }
    match value_of(alloc, line)? {
        Ok(value) => value_step(alloc, &value),
        Err(cause) => Ok(Err(cause)),
    }
}
