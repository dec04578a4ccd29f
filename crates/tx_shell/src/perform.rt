//! What each command does with its input.
use crate::cells::{run_over, simulate_checked_over, simulate_over};
use crate::counter::Watching;
use crate::generate::generate_script;
use crate::invocation::Invocation;
use crate::more::MoreCommands;
use crate::reduce::reduce_script;
use crate::stages::Stages;
use crate::stats::stats_of;
use crate::steps::steps_over;
use std::cell::RefCell;
use std::io::{BufRead, Write};
use std::mem::swap;
use std::sync::Wait;
use std::thread::Threads;
use std::time::{Duration, Instant};
use tx_answers::{AnswerOptions, Answered, CycleForm, ImportEnd, import};
use tx_check::{check, check_all, check_with_reason};
use tx_command::{CommandEnd, CommandTask, LevelKind};
use tx_hints::escaped_lines;
use tx_recording::Orders;
use tx_run::{RunResult, Settings};
use tx_text::{Broken, End};
use tx_verdict::{Level, Question};

// Tells what was played in so much time. What cannot be told is left out.
fn report(host: HostRuntime, played: &RunResult, elapsed: Duration) {
    let stats = stats_of(played, elapsed);
    let (requests, refusals) = (played.requests, played.refusals);
    let _ = eprint!(host; "{stats}");
    let _ = eprintln!(host; "txkv: refused: {requests}");
    let end = if requests.resolves == 1 { "" } else { "s" };
    let _ = eprintln!(host; "txkv: {} lock{end} asked after", requests.resolves);
    let _ = eprintln!(host; "txkv: lines refused: {refusals}");
}

// Runs the sessions of a script side by side.
fn run<R, I, O>(
    rt: &R,
    asked: &Invocation<'_>,
    settings: Settings,
    reader: &mut I,
    writer: &mut O,
    stages: &mut Stages,
) -> Result<End, Broken>
where
    R: AllocGlobal + Threads + Wait + Sync + Send + Clone + Drop,
    I: BufRead,
    O: Write,
{
    let began = Instant::now(&asked.host);
    let gate = Watching {
        progress: asked.progress,
    };
    let (end, played) = run_over(rt, asked.job.cells, settings, &gate, reader, writer)?;
    if let (true, Some(played), Ok(began)) = (asked.job.has_stats, &played, began) {
        if let Ok(elapsed) = began.elapsed(&asked.host) {
            report(asked.host, played, elapsed);
        }
    }
    if let Some(mut played) = played {
        swap(&mut stages.lines, &mut played.stages);
    }
    Ok(end)
}

// What is asked of a history.
fn question_of(told: tx_command::ImportOptions) -> Question {
    let level = match told.level {
        LevelKind::Snapshot => Level::Snapshot,
        LevelKind::Serializable => Level::Serializable,
    };
    let orders = Orders {
        sessions: told.sessions,
        strict: told.strict,
    };
    Question { level, orders }
}

// How a cycle is told.
fn form_of(told: tx_command::ImportOptions) -> CycleForm {
    if told.html {
        CycleForm::Page
    } else if told.svg {
        CycleForm::Picture
    } else if told.dot {
        CycleForm::Graph
    } else {
        CycleForm::Line
    }
}

// Judges a history, and says on standard error why. What cannot be said there is left out.
fn judge<I: BufRead, O: Write>(
    asked: &Invocation<'_>,
    options: AnswerOptions,
    reader: &mut I,
    writer: &mut O,
) -> Result<CommandEnd, Broken> {
    let host = asked.host;
    let Answered { end, why } = import(host.alloc(), options, reader, writer)?;
    asked.progress.erase();
    if let Ok(why) = str::from_utf8(why.as_slice()) {
        if let Ok(why) = escaped_lines(host.alloc(), why) {
            let _ = eprint!(host; "{why}");
        }
    }
    Ok(match end {
        ImportEnd::Yes => CommandEnd::Well,
        ImportEnd::No => CommandEnd::No,
        ImportEnd::Open => CommandEnd::Open,
        ImportEnd::Faulted => CommandEnd::Faulted,
    })
}

// Plays or checks what is asked over these streams, but for histories.
fn play<R, M, I, O>(
    rt: &R,
    more: &M,
    asked: &Invocation<'_>,
    reader: &mut I,
    writer: &mut O,
    stages: &mut Stages,
    copy: &RefCell<Vec<u8>>,
) -> Result<End, Broken>
where
    R: AllocGlobal + Threads + Wait + Sync + Send + Clone + Drop,
    M: MoreCommands,
    I: BufRead,
    O: Write,
{
    let alloc = rt.alloc();
    let cells = asked.job.cells;
    match asked.job.task {
        CommandTask::Simulate | CommandTask::SimulateOn if asked.is_talk() => {
            more.converse(asked.host, cells, reader, writer)
        },
        CommandTask::SimulateOn => more.go_on(asked.host, cells, reader, writer),
        CommandTask::Simulate => simulate_over(alloc, cells, reader, writer, &mut stages.script),
        CommandTask::SimulateChecked => {
            simulate_checked_over(alloc, cells, reader, writer, &mut stages.script)
        }
        CommandTask::SimulateSteps => {
            steps_over(alloc, cells, false, reader, writer, stages, copy)
        }
        CommandTask::SimulateBeside => {
            steps_over(alloc, cells, true, reader, writer, stages, copy)
        }
        CommandTask::Explain(told) => {
            more.explain(
                asked.host,
                asked.job,
                told,
                reader,
                writer,
                &mut stages.stop,
            )
        }
        CommandTask::Generate(told) => generate_script(alloc, told, writer),
        CommandTask::Reduce => reduce_script(asked, reader, writer),
        CommandTask::Check | CommandTask::Import(_) => check(alloc, reader, writer),
        CommandTask::CheckWithReason => check_with_reason(alloc, reader, writer),
        CommandTask::CheckAll(has_reasons) => check_all(alloc, has_reasons, reader, writer),
        CommandTask::Run(workers, life_time) => {
            let settings = Settings { workers, life_time };
            run(rt, asked, settings, reader, writer, stages)
        }
    }
}

/// Does what is asked over these streams. Where a script stops at a step that its session may not
/// make, or sessions of a run do, `stages` says how far they are. `copy` has what was read of it so
/// far, as much as is kept.
pub(crate) fn perform<R, M, I, O>(
    rt: &R,
    more: &M,
    asked: &Invocation<'_>,
    reader: &mut I,
    writer: &mut O,
    stages: &mut Stages,
    copy: &RefCell<Vec<u8>>,
) -> Result<CommandEnd, Broken>
where
    R: AllocGlobal + Threads + Wait + Sync + Send + Clone + Drop,
    M: MoreCommands,
    I: BufRead,
    O: Write,
{
    match asked.job.task {
        CommandTask::Import(told) => {
            let options = AnswerOptions {
                question: question_of(told),
                trace: told.trace,
                form: form_of(told),
                all: told.all,
                budget: told.budget.min(0xffff_ffff) as u32,
            };
            judge(asked, options, reader, writer)
        }
        _ => Ok(CommandEnd::of(play(rt, more, asked, reader, writer, stages, copy)?)),
    }
}
