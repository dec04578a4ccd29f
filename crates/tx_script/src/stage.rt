//! How far the session is of a step that it may not make.
ghost use Rattle.std.specs.Prelude.{◌≡◌, Some, option_map, IfOk, IfErr, IfSome};
ghost use Rattle.tx_steps.specs.Steps.{asked};
ghost use Rattle.tx_engine.specs.Slots.{AllSeated, engine_state};
ghost use Rattle.tx_script.specs.Stages.{step_stage, line_stage};

use std::alloc::Global;
use tx_cells::Families;
use tx_engine::Engine;
use tx_journal::JournalId;
use tx_ops::{SessionStage, ending_name};
use tx_steps::{Line, Program, Step};
use tx_text::{Broken, Parts};
use tx_types::Cause;

// How far the session is of a step that draws, commits or aborts, where it is live.
fn step_stage<J: JournalId, F: Families>(
    engine: &Engine<J, F>,
    step: Option<Step<&str>>,
) -> Option<SessionStage>
    requires ready { AllSeated J.bounds 0 engine.now }
    ensures { result ≡ step_stage (engine_state engine.now) (option_map asked step.entry) }
{
    let step = step?;
    let name = ending_name(&step)?;
    engine.stage(name)
}

/// How far the session is of the step that the line of this number says, where that step is a draw,
/// a commit or an abort, and the session is live.
#[cold]
#[inline(never)]
pub(crate) fn line_stage<J: JournalId, F: Families>(
    alloc: Global,
    engine: &Engine<J, F>,
    number: u64,
    line: &[u8],
) -> Result<Option<SessionStage>, Broken>
    requires ready { AllSeated J.bounds 0 engine.now }
    ensures ok { IfOk result (λ stage. stage ≡ line_stage (engine_state engine.now) number line.now) }
    ensures err { IfErr result (λ why. why ≡ Broken.Memory) }
{
    let mut parts = Parts::new();
    match Line::read(alloc, number, line, &mut parts)? {
        Ok(said) => Ok(step_stage(engine, said.step(Program::Simulate))),
        Err(_) => Ok(None),
    }
}

/// The same of a line that is a fault of this cause, where it is out of order, and there was memory
/// to read it once more.
#[cold]
#[inline(never)]
pub(crate) fn fault_stage<J: JournalId, F: Families>(
    alloc: Global,
    engine: &Engine<J, F>,
    number: u64,
    line: &[u8],
    cause: Cause,
) -> Option<SessionStage>
    requires ready { AllSeated J.bounds 0 engine.now }
    ensures { IfSome result (λ stage. (cause ≡ Cause.Order)
        × (line_stage (engine_state engine.now) number line.now ≡ Some stage)) }
{
    match cause {
        Cause::Order => line_stage(alloc, engine, number, line).unwrap_or(None),
        _ => None,
    }
}
