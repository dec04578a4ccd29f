//! The trace of a yes.
ghost use Rattle.std.specs.Prelude.{◌≡◌, reverse, IfOk, IfSome};
ghost use Rattle.std.specs.List.{flat_map};
ghost use Rattle.tx_machine.specs.Machine.{IsRun};
ghost use Rattle.tx_check.specs.Steps.{step_text};
ghost use Rattle.tx_recording.specs.Recordings.{IsRecording};
ghost use Rattle.tx_answers.specs.Traces.{IsTrace};

use crate::moment::moments_of;
use crate::steps::steps_of;
use std::alloc::Global;
use tx_check::put_step;
use tx_import::NamedHistory;
use tx_machine::{Refused, Step, check_steps};
use tx_text::Broken;
use tx_verdict::Timestamps;

// The lines of steps.
fn steps_text(alloc: Global, steps: &[Step]) -> Result<Vec<u8>, Broken>
    ensures { IfOk result (λ text. text.items ≡ flat_map step_text steps.now) }
{
    let mut text = Vec::new(alloc);
    for step in steps {
        put_step(&mut text, step)?;
    }
    Ok(text)
}

// The lines of steps that the machine has made; none where it does not make them.
fn text_of_run(alloc: Global, steps: &[Step]) -> Result<Option<Vec<u8>>, Broken>
    ensures { IfOk result (λ found. IfSome found (λ text. ∥ IsRun (reverse steps.now) ∥₁
        × (text.items ≡ flat_map step_text steps.now))) }
{
    match check_steps(alloc, steps) {
        Ok(checked) => Ok(Some(steps_text(alloc, checked.steps())?)),
        Err(Refused::Step) => Ok(None),
        Err(Refused::Memory) => Err(Broken::Memory),
    }
}

/// The trace of a history under these timestamps, which the machine has made; none where it does
/// not make it.
pub(crate) fn trace_of(
    alloc: Global,
    history: &NamedHistory,
    timestamps: &Timestamps,
) -> Result<Option<Vec<u8>>, Broken>
    requires { IsRecording history.now.recording }
    ensures { IfOk result (λ found. IfSome found (λ text. IsTrace history.now timestamps.now text.items)) }
{
    let count = history.recording.transactions.len() as u32;
    let moments = moments_of(alloc, timestamps, count)?;
    let steps = steps_of(alloc, history, moments.as_slice())?;
    text_of_run(alloc, steps.as_slice())
}
