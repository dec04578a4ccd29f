//! One line of a script, from its bytes to what is replied.
ghost use Rattle.std.specs.Prelude.{◌≡◌, ◌≤◌, option_map, is_some, OnOk, IfOk, IfErr, OnErr};
ghost use Rattle.tx_types.specs.declared.limits.TheConstants as limits;
ghost use Rattle.tx_steps.specs.Steps.{asked};
ghost use Rattle.tx_steps.specs.Lines.{data_of, bounds_in};
ghost use Rattle.tx_engine.specs.Slots.{AllSeated, Goes, TurnedBy};
ghost use Rattle.tx_script.specs.Play.{step_turn, value_turn, line_turn};
ghost use Rattle.tx_steps.specs.Steps.{step_said};
ghost use Rattle.tx_steps.specs.declared.program.Program.TheVariants as programs;
ghost use Rattle.tx_text.specs.Parts.{parts_items};
ghost use Rattle.tx_script.specs.Loops.{FoundTurned, FitsFound, IsEarly, NotesFault};

use crate::stage::fault_stage;
use std::alloc::Global;
use tx_cells::Families;
use tx_engine::Engine;
use tx_journal::JournalId;
use tx_ops::SessionStage;
use tx_reply::ScriptReply;
use tx_steps::{Line, Program, Step, put_step, scanned_line};
use tx_text::{Broken, Found, Part, Parts};
use tx_types::Cause;

/// What came of the next line.
#[derive(Drop)]
pub(crate) enum Turned {
    End,
    Goes(ScriptReply),
    Stops(Cause),
}

// Plays a step, where there is one.
fn play_step<J: JournalId, F: Families>(
    engine: &mut Engine<J, F>,
    step: Option<Step<&str>>,
) -> Result<ScriptReply, Cause>
    requires ready { AllSeated J.bounds 1 engine.old }
    ensures goes { Goes J.bounds engine.old engine.new
        (TurnedBy J.bounds (λ refused. step_turn J.bounds refused (option_map asked step.entry)) result engine.old
        engine.new) }
{
    match step {
        None => Err(Cause::Form),
        Some(step) => engine.play(&step),
    }
}

// Whether a line says the keys between the regions.
#[cold]
#[inline(never)]
fn says_regions(alloc: Global, said: &Line<'_, '_>) -> Result<bool, Broken>
    ensures ok { IfOk result (λ says. says ≡ is_some (bounds_in (data_of said.now))) }
    ensures err { IfErr result (λ why. why ≡ Broken.Memory) }
{
    match said.bounds(alloc) {
        Ok(bounds) => Ok(bounds.is_some()),
        Err(_) => Err(Broken::Memory),
    }
}

// Plays the value of the line of this number.
fn play_said<J: JournalId, F: Families>(
    alloc: Global,
    engine: &mut Engine<J, F>,
    number: u64,
    said: &Line<'_, '_>,
) -> Result<Result<ScriptReply, Cause>, Broken>
    requires ready { AllSeated J.bounds 1 engine.old }
    ensures goes { IfOk result (λ turned. Goes J.bounds engine.old engine.new
        (TurnedBy J.bounds (λ refused. value_turn J.bounds refused number (data_of said.now)) turned engine.old
        engine.new)) }
    ensures same { OnErr result (engine.new ≡ engine.old) }
    ensures err { IfErr result (λ why. why ≡ Broken.Memory) }
{
    if number == 1 && says_regions(alloc, said)? {
        return Ok(Ok(ScriptReply::Regions(engine.regions())));
    }
    Ok(play_step(engine, said.step(Program::Simulate)))
}

// Plays the step that the members of a line say.
#[inline(always)]
fn play_members<J: JournalId, F: Families>(
    engine: &mut Engine<J, F>,
    members: &[Part<'_>],
) -> Result<ScriptReply, Cause>
    requires ready { AllSeated J.bounds 1 engine.old }
    ensures goes { Goes J.bounds engine.old engine.new (TurnedBy J.bounds
        (λ refused. step_turn J.bounds refused (step_said programs.Simulate (parts_items members.now))) result
        engine.old engine.new) }
{
    let mut step = Step::Tick(0);
    if put_step(Program::Simulate, members, &mut step) {
        engine.play(&step)
    } else {
        Err(Cause::Form)
    }
}

// Plays the line of this number, which may be the first, or no array of plain members.
#[cold]
#[inline(never)]
fn play_other<J: JournalId, F: Families>(
    alloc: Global,
    engine: &mut Engine<J, F>,
    number: u64,
    line: &[u8],
) -> Result<Result<ScriptReply, Cause>, Broken>
    requires ready { AllSeated J.bounds 1 engine.old }
    ensures goes { IfOk result (λ turned. Goes J.bounds engine.old engine.new
        (TurnedBy J.bounds (λ refused. line_turn J.bounds refused number line.now) turned engine.old engine.new)) }
    ensures early { IfOk result (λ turned. OnOk turned (number ≤ limits.MAX_LINES)) }
    ensures same { OnErr result (engine.new ≡ engine.old) }
    ensures err { IfErr result (λ why. why ≡ Broken.Memory) }
{
    let mut parts = Parts::new();
    match Line::read(alloc, number, line, &mut parts)? {
        Ok(said) => play_said(alloc, engine, number, &said),
        Err(cause) => Ok(Err(cause)),
    }
}

/// Plays the line of this number.
pub(crate) fn play_line<J: JournalId, F: Families>(
    alloc: Global,
    engine: &mut Engine<J, F>,
    number: u64,
    line: &[u8],
) -> Result<Result<ScriptReply, Cause>, Broken>
    requires ready { AllSeated J.bounds 1 engine.old }
    ensures goes { IfOk result (λ turned. Goes J.bounds engine.old engine.new
        (TurnedBy J.bounds (λ refused. line_turn J.bounds refused number line.now) turned engine.old engine.new)) }
    ensures early { IfOk result (λ turned. OnOk turned (number ≤ limits.MAX_LINES)) }
    ensures same { OnErr result (engine.new ≡ engine.old) }
    ensures err { IfErr result (λ why. why ≡ Broken.Memory) }
{
    let mut parts = Parts::new();
    if number > 1 && scanned_line(number, line, &mut parts) {
        return Ok(play_members(engine, parts.as_slice()));
    }
    play_other(alloc, engine, number, line)
}

/// Plays the line of this number, and notes of a fault how far its session is, where that is why.
#[inline(always)]
pub(crate) fn play_text<J: JournalId, F: Families>(
    alloc: Global,
    engine: &mut Engine<J, F>,
    number: u64,
    line: &[u8],
    stage: &mut Option<SessionStage>,
) -> Result<Turned, Broken>
    requires ready { AllSeated J.bounds 1 engine.old }
    ensures goes { IfOk result (λ turned. Goes J.bounds engine.old engine.new
        (FoundTurned J.bounds number Found.Line line.now turned engine.old engine.new)) }
    ensures fits { IfOk result (λ turned. FitsFound Found.Line turned) }
    ensures early { IfOk result (IsEarly number) }
    ensures notes { IfOk result (λ turned. NotesFault engine.new number line.now turned stage.new) }
    ensures same { OnErr result (engine.new ≡ engine.old) }
    ensures err { IfErr result (λ why. why ≡ Broken.Memory) }
{
    match play_line(alloc, engine, number, line)? {
        Ok(reply) => Ok(Turned::Goes(reply)),
        Err(cause) => {
            *stage = fault_stage(alloc, engine, number, line, cause);
            Ok(Turned::Stops(cause))
        }
    }
}

/// The same, by what was found of the line.
pub(crate) fn play_found<J: JournalId, F: Families>(
    alloc: Global,
    engine: &mut Engine<J, F>,
    number: u64,
    found: Found,
    line: &[u8],
    stage: &mut Option<SessionStage>,
) -> Result<Turned, Broken>
    requires ready { AllSeated J.bounds 1 engine.old }
    ensures goes { IfOk result (λ turned. Goes J.bounds engine.old engine.new
        (FoundTurned J.bounds number found line.now turned engine.old engine.new)) }
    ensures fits { IfOk result (λ turned. FitsFound found turned) }
    ensures early { IfOk result (IsEarly number) }
    ensures notes { IfOk result (λ turned. NotesFault engine.new number line.now turned stage.new) }
    ensures same { OnErr result (engine.new ≡ engine.old) }
    ensures err { IfErr result (λ why. why ≡ Broken.Memory) }
{
    match found {
        Found::End => {
            *stage = None;
            Ok(Turned::End)
        }
        Found::Long => {
            *stage = None;
            Ok(Turned::Stops(Cause::Long))
        }
        Found::Line => play_text(alloc, engine, number, line, stage),
    }
}
