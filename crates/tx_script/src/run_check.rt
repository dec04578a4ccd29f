//! The machine's steps of a script's run, and the line that says that they are a run.
ghost use Rattle.std.specs.Prelude.{◌≡◌, ◌++◌, ◌∷◌, [], reverse, map, OnOk, IfOk, IfErr, IfSome};
ghost use Rattle.std.specs.List.{concat};
ghost use Rattle.std.specs.Io.KnownBytes.{Appends};
ghost use Rattle.tx_core.specs.Histories.{History};
ghost use Rattle.tx_machine.specs.Machine.{IsRun};
ghost use Rattle.tx_check.specs.Steps.{step_text};
ghost use Rattle.tx_text.specs.Texts.{line_text};
ghost use Rattle.tx_check.specs.Words.{words};
ghost use Rattle.tx_script.specs.Checked.{step_lines, steps_told};
ghost use Rattle.tx_script.specs.Loops.{AppendsBegun, AreOf};

use std::alloc::Global;
use std::io::Write;
use tx_check::{Verdict, put_step, verdict_line};
use tx_machine::{Step, check_trace};
use tx_text::{Broken, End, finish, send};
use tx_trace::Trace;

// Writes the line of each step.
fn write_steps<W: Write>(alloc: Global, writer: &mut W, steps: &[Step]) -> Result<(), Broken>
    ensures all { OnOk result (Appends (W.contents writer.old) (W.contents writer.new)
        (concat (map step_text steps.now))) }
    ensures part { IfErr result (λ why. AppendsBegun why (W.contents writer.old) (W.contents writer.new)
        (map step_text steps.now)) }
{
    let mut text = Vec::new(alloc);
    'steps: for step in steps {
        text.clear();
        put_step(&mut text, step)?;
        send(writer, text.as_slice())?;
    }
    Ok(())
}

// What the machine's own checker says of steps that are a run: where it has no answer, memory was
// refused.
fn judge(alloc: Global, steps: &[Step]) -> Result<Verdict, Broken>
    requires run { IsRun (reverse steps.now) }
    ensures yes { IfOk result (λ verdict. verdict ≡ Verdict.Yes) }
{
    match check_trace(alloc, steps) {
        Some(_) => Ok(Verdict::Yes),
        None => Err(Broken::Memory),
    }
}

/// Writes what the checker says.
pub(crate) fn write_verdict<W: Write>(
    alloc: Global,
    writer: &mut W,
    steps: &[Step],
) -> Result<(), Broken>
    requires run { IsRun (reverse steps.now) }
    ensures all { OnOk result (Appends (W.contents writer.old) (W.contents writer.new)
        (line_text (words Verdict.Yes))) }
    ensures part { IfErr result (λ why. AppendsBegun why (W.contents writer.old) (W.contents writer.new)
        (line_text (words Verdict.Yes) ∷ [])) }
{
    let verdict = judge(alloc, steps)?;
    let text = verdict_line(alloc, verdict)?;
    send(writer, text.as_bytes())?;
    finish(writer)
}

// Writes the steps of a run, and that they are one.
fn write_run<W: Write>(alloc: Global, writer: &mut W, steps: &[Step]) -> Result<(), Broken>
    requires run { IsRun (reverse steps.now) }
    ensures all { OnOk result (Appends (W.contents writer.old) (W.contents writer.new) (concat (map step_text steps.now
        ++ line_text (words Verdict.Yes) ∷ []))) }
    ensures part { IfErr result (λ why. AppendsBegun why (W.contents writer.old) (W.contents writer.new)
        (map step_text steps.now ++ line_text (words Verdict.Yes) ∷ [])) }
{
    write_steps(alloc, writer, steps)?;
    write_verdict(alloc, writer, steps)
}

// Writes the steps of a run that were kept, and that they are one. `Memory` where they were not
// kept for want of it.
fn write_trace<W: Write>(alloc: Global, writer: &mut W, trace: Option<Trace>) -> Result<(), Broken>
    requires run { IfSome trace (λ t. IsRun t.steps) }
    ensures all { OnOk result ((h : History) → AreOf h trace
        → Appends (W.contents writer.old) (W.contents writer.new) (concat (step_lines h))) }
    ensures part { IfErr result (λ why. (h : History) → AreOf h trace
        → AppendsBegun why (W.contents writer.old) (W.contents writer.new) (step_lines h)) }
{
    let Some(trace) = trace else {
        return Err(Broken::Memory);
    };
    write_run(alloc, writer, trace.steps())
}

/// Writes what follows the replies of a script that ended so: where it ended well, the steps of its
/// run that were kept, and that they are one. `Memory` where they were not kept for want of it.
pub(crate) fn write_rest<W: Write>(
    alloc: Global,
    writer: &mut W,
    end: End,
    trace: Option<Trace>,
) -> Result<(), Broken>
    requires run { IfSome trace (λ t. IsRun t.steps) }
    ensures all { OnOk result ((h : History) → AreOf h trace
        → Appends (W.contents writer.old) (W.contents writer.new) (steps_told end h)) }
    ensures part { IfErr result (λ why. (end ≡ End.Well)
        × ((h : History) → AreOf h trace → AppendsBegun why (W.contents writer.old) (W.contents writer.new)
        (step_lines h))) }
{
    match end {
        End::Well => write_trace(alloc, writer, trace),
        End::Faulted | End::No => Ok(()),
    }
}
