//! What is told on standard error behind what a command has written.
use crate::invocation::Invocation;
use crate::stages::Stages;
use crate::steps::is_run_before;
use std::alloc::Global;
use std::cell::RefCell;
use tx_command::CommandTask;
use tx_film::{ScriptStop, lines_of};
use tx_run::SessionStage;
use tx_sentences::{Place, note_undeclared, reason, undeclared_at};
use tx_streams::{Dropped, NotedFaults, Recent, fault_in};
use tx_text::Broken;

/// What there is to tell of, and by what.
#[derive(Clone, Copy)]
pub(crate) struct Told<'a> {
    pub faults: &'a [NotedFaults],
    /// The lines that told of a transaction that wrote nothing.
    pub read_only: &'a [u64],
    pub stages: &'a Stages,
    /// Which lines of the input were passed over.
    pub dropped: &'a RefCell<Dropped>,
    /// The first of the input.
    pub copy: &'a RefCell<Vec<u8>>,
}

// Where a line of this number stands in its file.
fn place_of<'a>(asked: &Invocation<'a>, dropped: &RefCell<Dropped>, number: u64) -> Place<'a> {
    let line = match dropped.try_borrow() {
        Ok(dropped) => dropped.place_of(number),
        Err(_) => number,
    };
    Place {
        file: asked.job.file,
        line,
    }
}

// Says on standard error why a line is a fault, where its session's stage is why by that stage.
// What cannot be said there is left out: the line of each fault is written all the same.
fn tell(
    asked: &Invocation<'_>,
    place: Place<'_>,
    fault: NotedFaults,
    line: Option<&[u8]>,
    stage: Option<SessionStage>,
) {
    let host = asked.host;
    let Some(kind) = asked.job.task.reads() else {
        return;
    };
    let state = stage.map(|stage| stage.as_str());
    if let Ok(why) = reason(host.alloc(), kind, place, fault, line, state) {
        let _ = eprintln!(host; "txkv: {why}");
    }
}

// The same of where a script stopped whose picture was drawn.
fn tell_stop(asked: &Invocation<'_>, dropped: &RefCell<Dropped>, stop: &ScriptStop) {
    if let Some(fault) = fault_in(stop.reply.as_slice()) {
        let fault = NotedFaults {
            number: stop.number,
            cause: fault.cause,
        };
        let place = place_of(asked, dropped, stop.number);
        tell(asked, place, fault, Some(stop.line.as_slice()), stop.stage);
    }
}

// Says that a checked script was a run up to its fault, where it was.
fn tell_run_before(asked: &Invocation<'_>, number: u64, copy: &RefCell<Vec<u8>>) {
    let host = asked.host;
    if let Ok(true) = is_run_before(host.alloc(), asked.job.cells, number, copy) {
        let _ = eprintln!(host;
            "txkv: the lines before it are a run of the machine; --steps writes its steps"
        );
    }
}

// Says of these lines of a script which told of a session that had entered something and never
// declared it.
fn tell_undeclared(
    alloc: Global,
    asked: &Invocation<'_>,
    told: Told<'_>,
    script: &[u8],
) -> Result<(), Broken> {
    let host = asked.host;
    let lines = lines_of(alloc, script)?;
    'ends: for number in told.read_only {
        if let Some(name) = undeclared_at(alloc, lines.as_slice(), *number)? {
            let place = place_of(asked, told.dropped, *number);
            let note = note_undeclared(alloc, place, *number, name.as_str())?;
            let _ = eprintln!(host; "txkv: {note}");
        }
    }
    Ok(())
}

/// Says why lines are faults, and what may surprise who reads what was written.
pub(crate) fn tell_all<I>(asked: &Invocation<'_>, told: Told<'_>, lines: &Recent<I>) {
    asked.progress.erase();
    if !told.read_only.is_empty() {
        if let Ok(script) = told.copy.try_borrow() {
            // What there is no memory for is left out.
            let _ = tell_undeclared(asked.host.alloc(), asked, told, script.as_slice());
        }
    }
    'faults: for fault in told.faults {
        let line = lines.line(fault.number);
        let place = place_of(asked, told.dropped, fault.number);
        tell(asked, place, *fault, line, told.stages.at(fault.number));
    }
    if let Some(stop) = &told.stages.stop {
        tell_stop(asked, told.dropped, stop);
    }
    if asked.job.task == CommandTask::SimulateChecked {
        if let [fault, ..] = told.faults {
            tell_run_before(asked, fault.number, told.copy);
        }
    }
}
