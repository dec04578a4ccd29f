//! Checking a trace to its end: a step that the machine does not make is told, and taken as not
//! made.
ghost use Rattle.std.specs.Prelude.{◌≡◌, ◌++◌, [], cond, OnOk, IfOk, IfErr, IfSome};
ghost use Rattle.tx_machine.specs.declared.reason.Why.{Why};
ghost use Rattle.tx_machine.specs.Machine.{Table, Admits};
ghost use Rattle.tx_machine.specs.Representation.{Represents};
ghost use Rattle.tx_machine.specs.Why.{IsWhy};
ghost use Rattle.tx_text.specs.Lines.{lines_of};
ghost use Rattle.tx_text.specs.Texts.{line_text};
ghost use Rattle.tx_check.specs.All.{no_text, IsAllOf, EndsWithAll, BreaksWithAll};
ghost use Rattle.tx_check.specs.Words.{words};

use crate::checker::{LineTurn, next, write_out};
use crate::reasons::put_reason;
use crate::words::{Verdict, verdict_line};
use std::alloc::Global;
use std::io::{BufRead, Write};
use tx_machine::{Machine, Step, Why};
use tx_text::{Broken, End};

/// Checks a trace, and goes on after a no as if its line were not there: writes `["check","no",n]`
/// for each line whose step the machine does not make, where it is asked for with the line
/// `["why",n,word,{..}]` behind it. Then `["check","yes"]` where there was none, or
/// `[n,"E16",cause]` with the first line that is no step. Nothing is written before all of it is
/// known.
///
/// `Input` where a read failed, `Output` where a write or the flush failed, `Memory` where a
/// growth was refused.
pub fn check_all<R: BufRead, W: Write>(
    alloc: Global,
    has_reasons: bool,
    reader: &mut R,
    writer: &mut W,
) -> Result<End, Broken>
    // Not broken off, it has written the line of each no, and nothing else.
    ensures ends { IfOk result (λ end. IfSome (R.remaining reader.old)
        (λ input. EndsWithAll has_reasons input (W.contents writer.old) (W.contents writer.new) end)) }
    // Broken off, it has written nothing, or where a write failed a beginning of that.
    ensures breaks { IfErr result (λ broken. IfSome (R.remaining reader.old)
        (λ input. BreaksWithAll has_reasons input (W.contents writer.old) (W.contents writer.new) broken)) }
{
    let told = walk_on(alloc, has_reasons, reader)?;
    write_out(writer, told.text.as_slice())?;
    Ok(told.end)
}

// What is told of a trace.
#[derive(Drop)]
struct Told {
    text: Vec<u8>,
    end: End,
}

// Appends the line of a verdict.
fn put_verdict(alloc: Global, text: &mut Vec<u8>, verdict: Verdict) -> Result<(), Broken>
    ensures { OnOk result (text.new.items ≡ text.old.items ++ line_text (words verdict)) }
{
    let line = verdict_line(alloc, verdict)?;
    text.extend_from_slice(line.as_bytes())?;
    Ok(())
}

// Appends the line of a no, and where that is asked for the line of its reason.
fn put_told(
    alloc: Global,
    text: &mut Vec<u8>,
    has_reasons: bool,
    number: u64,
    why: &Why,
) -> Result<(), Broken>
    ensures { OnOk result (text.new.items ≡ text.old.items ++ no_text has_reasons number why.now) }
{
    put_verdict(alloc, text, Verdict::No(number))?;
    if has_reasons {
        put_reason(text, number, why)?;
    }
    Ok(())
}

// Appends what is told of a step that the machine does not make.
fn put_no(
    alloc: Global,
    text: &mut Vec<u8>,
    has_reasons: bool,
    number: u64,
    machine: &Machine,
    step: &Step,
) -> Result<(), Broken>
    ensures { OnOk result ((table : Table) → Represents machine.now table → (Admits table step.now → ⊥)
        → (why : Why) × IsWhy machine.now step.now (Some why)
        × (text.new.items ≡ text.old.items ++ no_text has_reasons number why)) }
{
    match machine.why(step) {
        Ok(Some(why)) => put_told(alloc, text, has_reasons, number, &why),
        // It makes the step.
        Ok(None) => Ok(()),
        Err(_) => Err(Broken::Memory),
    }
}

// What is told where all lines say steps.
fn at_end(alloc: Global, mut text: Vec<u8>, is_refused: bool) -> Result<Told, Broken>
    ensures text { IfOk result (λ told. told.text.items
        ≡ text.items ++ cond is_refused [] (line_text (words Verdict.Yes))) }
    ensures end { IfOk result (λ told. told.end ≡ cond is_refused End.No End.Well) }
{
    if is_refused {
        return Ok(Told { text, end: End::No });
    }
    put_verdict(alloc, &mut text, Verdict::Yes)?;
    Ok(Told {
        text,
        end: End::Well,
    })
}

// Walks over the lines up to their end, or to the first that is no step.
fn walk_on<R: BufRead>(alloc: Global, has_reasons: bool, reader: &mut R) -> Result<Told, Broken>
    ensures { IfOk result (λ told. IfSome (R.remaining reader.old)
        (λ input. IsAllOf has_reasons (lines_of input) told.text.items told.end)) }
{
    let mut machine = Machine::new(alloc);
    let mut line = Vec::new(alloc);
    let mut text = Vec::new(alloc);
    let mut is_refused = false;
    let mut number = 0;
    'lines: loop {
        match next(alloc, reader, &mut line, &mut machine, number + 1)? {
            LineTurn::End => return at_end(alloc, text, is_refused),
            LineTurn::Made => number += 1,
            LineTurn::Refused(step) => {
                number += 1;
                put_no(alloc, &mut text, has_reasons, number, &machine, &step)?;
                is_refused = true;
            }
            LineTurn::Faulted(cause) => {
                put_verdict(alloc, &mut text, Verdict::Fault(number + 1, cause))?;
                return Ok(Told {
                    text,
                    end: End::Faulted,
                });
            }
        }
    }
}
