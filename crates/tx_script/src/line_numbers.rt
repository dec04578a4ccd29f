//! The machine's steps of a script's run, each beside the number of the line during which it was
//! taken.
ghost use Rattle.std.specs.Prelude.{◌≡◌, ◌++◌, ◌∷◌, [], reverse, map, option_map, OnOk, IfErr, IfSome};
ghost use Rattle.std.specs.List.{concat, zip};
ghost use Rattle.std.specs.Io.KnownBytes.{Appends};
ghost use Rattle.tx_core.specs.Histories.{History};
ghost use Rattle.tx_machine.specs.Machine.{IsRun};
ghost use Rattle.tx_check.specs.Steps.{beside_text};
ghost use Rattle.tx_text.specs.Texts.{line_text};
ghost use Rattle.tx_check.specs.Words.{words};
ghost use Rattle.tx_script.specs.Loops.{AppendsBegun, AreOf, NotesLine, TellsNumbers, BeginsNumbers};

use crate::run_check::write_verdict;
use std::alloc::Global;
use std::io::Write;
use tx_check::{Verdict, put_step_beside};
use tx_machine::Step;
use tx_text::{Broken, End, send};
use tx_trace::Trace;

// The same where numbers are noted: apart, so that a script without them pays for a test alone.
fn note_steps(numbers: &mut Option<Vec<u64>>, number: u64, made: Option<usize>)
    ensures { NotesLine number made (option_map (λ v. v.items) numbers.old) (option_map (λ v. v.items) numbers.new) }
{
    let Some(count) = made else {
        *numbers = None;
        return;
    };
    if let Some(each) = numbers {
        if each.resize(count, number).is_err() {
            *numbers = None;
        }
    }
}

/// Notes that the steps that came since the line before were taken during the line of this number:
/// so many are kept now. Where memory for that is refused, or steps are kept no more, no numbers
/// are noted any more.
#[inline(always)]
pub(crate) fn note_line(numbers: &mut Option<Vec<u64>>, number: u64, made: Option<usize>)
    ensures { NotesLine number made (option_map (λ v. v.items) numbers.old) (option_map (λ v. v.items) numbers.new) }
{
    if numbers.is_some() {
        note_steps(numbers, number, made);
    }
}

// Writes the line of each step beside its number.
fn write_each<W: Write>(
    alloc: Global,
    writer: &mut W,
    numbers: &[u64],
    steps: &[Step],
) -> Result<(), Broken>
    ensures all { OnOk result (Appends (W.contents writer.old) (W.contents writer.new)
        (concat (map beside_text (zip numbers.now steps.now)))) }
    ensures part { IfErr result (λ why. AppendsBegun why (W.contents writer.old) (W.contents writer.new)
        (map beside_text (zip numbers.now steps.now))) }
{
    let mut text = Vec::new(alloc);
    'steps: for (number, step) in numbers.iter().zip(steps) {
        text.clear();
        put_step_beside(&mut text, *number, step)?;
        send(writer, text.as_slice())?;
    }
    Ok(())
}

// Writes the steps of a run beside their numbers, and that they are one.
fn write_run<W: Write>(
    alloc: Global,
    writer: &mut W,
    numbers: &[u64],
    steps: &[Step],
) -> Result<(), Broken>
    requires run { IsRun (reverse steps.now) }
    ensures all { OnOk result (Appends (W.contents writer.old) (W.contents writer.new)
        (concat (map beside_text (zip numbers.now steps.now) ++ line_text (words Verdict.Yes) ∷ []))) }
    ensures part { IfErr result (λ why. AppendsBegun why (W.contents writer.old) (W.contents writer.new)
        (map beside_text (zip numbers.now steps.now) ++ line_text (words Verdict.Yes) ∷ [])) }
{
    write_each(alloc, writer, numbers, steps)?;
    write_verdict(alloc, writer, steps)
}

// Writes the steps of a run that were kept beside their numbers, and that they are one. `Memory`
// where they were not kept for want of it.
fn write_kept<W: Write>(
    alloc: Global,
    writer: &mut W,
    trace: Option<Trace>,
    numbers: Option<Vec<u64>>,
) -> Result<(), Broken>
    requires run { IfSome trace (λ t. IsRun t.steps) }
    ensures all { OnOk result ((h : History) → AreOf h trace → TellsNumbers End.Well h
        (option_map (λ v. v.items) numbers) (W.contents writer.old) (W.contents writer.new)) }
    ensures part { IfErr result (λ why. (h : History) → AreOf h trace → BeginsNumbers why h
        (option_map (λ v. v.items) numbers) (W.contents writer.old) (W.contents writer.new)) }
{
    let Some(trace) = trace else {
        return Err(Broken::Memory);
    };
    let Some(numbers) = numbers else {
        return Err(Broken::Memory);
    };
    write_run(alloc, writer, numbers.as_slice(), trace.steps())
}

/// Writes what follows the replies of a script that ended so: where it ended well, the steps of its
/// run that were kept, each beside its number, and that they are one. `Memory` where these were not
/// kept for want of it.
pub(crate) fn write_numbered<W: Write>(
    alloc: Global,
    writer: &mut W,
    end: End,
    trace: Option<Trace>,
    numbers: Option<Vec<u64>>,
) -> Result<(), Broken>
    requires run { IfSome trace (λ t. IsRun t.steps) }
    ensures all { OnOk result ((h : History) → AreOf h trace → TellsNumbers end h
        (option_map (λ v. v.items) numbers) (W.contents writer.old) (W.contents writer.new)) }
    ensures part { IfErr result (λ why. (end ≡ End.Well) × ((h : History) → AreOf h trace → BeginsNumbers why h
        (option_map (λ v. v.items) numbers) (W.contents writer.old) (W.contents writer.new))) }
{
    match end {
        End::Well => write_kept(alloc, writer, trace, numbers),
        End::Faulted | End::No => Ok(()),
    }
}
