//! A script whose run is checked, up to a fault where it has one.
use crate::cells::{simulate_checked_over, simulate_numbered_over};
use crate::stages::Stages;
use std::alloc::Global;
use std::cell::RefCell;
use std::io::{BufRead, Write};
use tx_command::CellsKind;
use tx_script::SessionStage;
use tx_streams::{Steps, fault_in, first_lines};
use tx_text::{Broken, End, finish, send};

// Plays a script, and writes its replies and then its steps, each beside its number where that is
// asked for.
fn simulate_with_steps<I: BufRead, O: Write>(
    alloc: Global,
    cells: CellsKind,
    beside: bool,
    reader: &mut I,
    writer: &mut O,
    stage: &mut Option<SessionStage>,
) -> Result<End, Broken> {
    if beside {
        simulate_numbered_over(alloc, cells, reader, writer, stage)
    } else {
        simulate_checked_over(alloc, cells, reader, writer, stage)
    }
}

// Plays a script, and writes its steps: how it ended, and the line of its fault, where it has one.
fn put_steps<I: BufRead, O: Write>(
    alloc: Global,
    cells: CellsKind,
    beside: bool,
    reader: &mut I,
    writer: &mut O,
    stage: &mut Option<SessionStage>,
) -> Result<(End, Vec<u8>), Broken> {
    let mut steps = Steps::new(alloc, writer);
    let end = simulate_with_steps(alloc, cells, beside, reader, &mut steps, stage)?;
    let fault = steps.fault().to_vec(alloc)?;
    Ok((end, fault))
}

// The lines of a script before the one of this number.
fn before(alloc: Global, copy: &RefCell<Vec<u8>>, number: u64) -> Result<Vec<u8>, Broken> {
    match copy.try_borrow() {
        Ok(copy) => {
            let lines = first_lines(copy.as_slice(), number.saturating_sub(1));
            Ok(lines.to_vec(alloc)?)
        }
        Err(_) => Ok(Vec::new(alloc)),
    }
}

/// `txkv simulate --steps`, and with `--beside`: of a script at fault the steps up to that, and
/// then its line.
pub(crate) fn steps_over<I: BufRead, O: Write>(
    alloc: Global,
    cells: CellsKind,
    beside: bool,
    reader: &mut I,
    writer: &mut O,
    stages: &mut Stages,
    copy: &RefCell<Vec<u8>>,
) -> Result<End, Broken> {
    let (end, fault) = put_steps(alloc, cells, beside, reader, writer, &mut stages.script)?;
    if let Some(noted) = fault_in(fault.as_slice()) {
        let lines = before(alloc, copy, noted.number)?;
        let mut reader = lines.as_slice();
        put_steps(alloc, cells, beside, &mut reader, writer, &mut None)?;
        send(writer, fault.as_slice())?;
        finish(writer)?;
    }
    Ok(end)
}

/// Whether the lines before the one of this number are a run of the machine.
pub(crate) fn is_run_before(
    alloc: Global,
    cells: CellsKind,
    number: u64,
    copy: &RefCell<Vec<u8>>,
) -> Result<bool, Broken> {
    let lines = before(alloc, copy, number)?;
    let mut reader = lines.as_slice();
    let mut written = Vec::new(alloc);
    simulate_checked_over(alloc, cells, &mut reader, &mut written, &mut None)?;
    Ok(written.as_slice().ends_with(b"[\"check\",\"yes\"]\n"))
}
