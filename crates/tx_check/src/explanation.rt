//! A walk over the lines of a trace that keeps the steps that were made, and what is told of the
//! step that it stops at.
ghost use Rattle.std.specs.Prelude.{◌≡◌, ◌++◌, ◌≤◌, ℕ, List, length, OnOk, IfOk, IfSome};
ghost use Rattle.tx_machine.specs.declared.reason.Why.{Why};
ghost use Rattle.tx_text.specs.Lines.{lines_of};
ghost use Rattle.tx_check.specs.Check.{IsVerdict, IsReason, Explained};
ghost use Rattle.tx_check.specs.Reasons.{reason_text};
ghost use Rattle.tx_check.specs.Turns.{StepTurns, verdict_of, StandsAt, Stops, IsKept};
ghost use Rattle.tx_check.specs.Writers.{writer_text};

use crate::checker::{Halt, line_step};
use crate::reasons::put_reason;
use crate::words::verdict_line;
use crate::writers::put_claimed;
use std::alloc::{AllocError, Global};
use std::io::BufRead;
use tx_machine::{Machine, Refused, Step, Why};
use tx_text::{Broken, Found, read_line};
use tx_types::Cause;
use tx_types::limits::MAX_LINES;

// What came of the next line, with its step.
#[derive(Drop)]
pub(crate) enum StepTurn {
    End,
    Made(Step),
    Refused(Step),
    Faulted(Cause),
}

// Reads the next line and has the machine make its step.
fn next_step<R: BufRead>(
    alloc: Global,
    reader: &mut R,
    line: &mut Vec<u8>,
    machine: &mut Machine,
    number: u64,
) -> Result<StepTurn, Broken>
    // At any reader.
    ensures early { IfOk result (λ turn. (step : Step) → turn ≡ StepTurn.Made step → number ≤ MAX_LINES) }
    // Where the bytes are known.
    ensures turns { IfOk result (λ turn. IfSome (R.remaining reader.old)
        (λ bytes. StepTurns bytes (R.remaining reader.new) machine.old machine.new number turn)) }
{
    match read_line(reader, line)? {
        Found::End => return Ok(StepTurn::End),
        Found::Long => return Ok(StepTurn::Faulted(Cause::Long)),
        Found::Line => {}
    }
    let step = match line_step(alloc, number, line)? {
        Ok(step) => step,
        Err(cause) => return Ok(StepTurn::Faulted(cause)),
    };
    match machine.step(&step) {
        Ok(()) => Ok(StepTurn::Made(step)),
        Err(Refused::Step) => Ok(StepTurn::Refused(step)),
        Err(Refused::Memory) => Err(Broken::Memory),
    }
}

/// Where a walk stops, and the steps of the lines before.
#[derive(Drop)]
pub(crate) struct Walked {
    pub halt: Halt,
    pub steps: Vec<Step>,
}

/// Walks over the lines up to the first that is refused or is no step, and keeps their steps.
pub(crate) fn walk_kept<R: BufRead>(alloc: Global, reader: &mut R) -> Result<Walked, Broken>
    ensures few { IfOk result (λ walked. length walked.steps.items ≤ MAX_LINES) }
    ensures verdict { IfOk result (λ walked. IfSome (R.remaining reader.old)
        (λ input. IsVerdict (lines_of input) (verdict_of walked.halt))) }
    ensures stops { IfOk result (λ walked. IfSome (R.remaining reader.old)
        (λ input. Stops (lines_of input) walked.halt)) }
    ensures kept { IfOk result (λ walked. IfSome (R.remaining reader.old)
        (λ input. IsKept (lines_of input) walked.halt walked.steps.items)) }
{
    let mut machine = Machine::new(alloc);
    let mut line = Vec::new(alloc);
    let mut steps = Vec::new(alloc);
    let mut number = 0;
    'lines: loop {
        match next_step(alloc, reader, &mut line, &mut machine, number + 1)? {
            StepTurn::Made(step) => {
                steps.push(step)?;
                number += 1;
            }
            StepTurn::End => return Ok(Walked {
                halt: Halt::End,
                steps,
            }),
            StepTurn::Refused(step) => {
                return Ok(Walked {
                    halt: Halt::Refused(number + 1, machine, step),
                    steps,
                })
            }
            StepTurn::Faulted(cause) => {
                return Ok(Walked {
                    halt: Halt::Faulted(number + 1, cause),
                    steps,
                })
            }
        }
    }
}

// Appends the line of a reason, and that of who wrote the value that it claims.
fn put_both(out: &mut Vec<u8>, steps: &[Step], number: u64, why: &Why) -> Result<(), AllocError>
    requires { length steps.now ≤ MAX_LINES }
    ensures { OnOk result (out.new.items ≡ out.old.items
        ++ (reason_text number why.now ++ writer_text steps.now number why.now)) }
{
    put_reason(out, number, why)?;
    put_claimed(out, steps, number, why)
}

// Appends what is told of a step that the machine does not make.
fn put_why(
    text: &mut Vec<u8>,
    steps: &[Step],
    number: u64,
    machine: &Machine,
    step: &Step,
) -> Result<(), Broken>
    requires { length steps.now ≤ MAX_LINES }
    ensures { OnOk result ((lines : List (List ℕ)) → StandsAt lines number machine.now step.now
        → (why : Why) × IsReason lines number why
        × (text.new.items ≡ text.old.items ++ (reason_text number why ++ writer_text steps.now number why))) }
{
    match machine.why(step) {
        Ok(Some(why)) => Ok(put_both(text, steps, number, &why)?),
        // It makes the step.
        Ok(None) => Ok(()),
        Err(_) => Err(Broken::Memory),
    }
}

/// The line of the verdict, and after a no the line of its reason, and that of who wrote the value
/// that a read claims.
pub(crate) fn explained(alloc: Global, steps: &[Step], stop: &Halt) -> Result<Vec<u8>, Broken>
    requires { length steps.now ≤ MAX_LINES }
    ensures { IfOk result (λ text. (lines : List (List ℕ)) → Stops lines stop.now → IsKept lines stop.now steps.now
        → Explained lines (verdict_of stop.now) text.items) }
{
    let mut text = verdict_line(alloc, stop.verdict())?.into_bytes();
    match stop {
        Halt::Refused(number, machine, step) => {
            put_why(&mut text, steps, *number, machine, step)?;
            Ok(text)
        }
        Halt::End | Halt::Faulted(_, _) => Ok(text),
    }
}
