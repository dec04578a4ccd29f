//! Each command that plays a script, over the families that the command line names.
use std::alloc::Global;
use std::io::{BufRead, Write};
use std::sync::Wait;
use std::thread::Threads;
use tx_command::CellsKind;
use tx_flat::FlatCells;
use tx_nested::NestedCells;
use tx_run::{Plain, RunResult, Settings, run_script};
use tx_sched::Gate;
use tx_script::{Broken, End, SessionStage, simulate, simulate_checked, simulate_numbered};

/// `txkv simulate`.
pub(crate) fn simulate_over<B: BufRead, W: Write>(
    alloc: Global,
    cells: CellsKind,
    reader: &mut B,
    writer: &mut W,
    stage: &mut Option<SessionStage>,
) -> Result<End, Broken> {
    match cells {
        CellsKind::Flat => simulate::<FlatCells, _, _, _>(alloc, &Plain, reader, writer, stage),
        CellsKind::Nested => simulate::<NestedCells, _, _, _>(alloc, &Plain, reader, writer, stage),
    }
}

/// `txkv simulate --check`.
pub(crate) fn simulate_checked_over<B: BufRead, W: Write>(
    alloc: Global,
    cells: CellsKind,
    reader: &mut B,
    writer: &mut W,
    stage: &mut Option<SessionStage>,
) -> Result<End, Broken> {
    match cells {
        CellsKind::Flat => simulate_checked::<FlatCells, _, _, _>(
            alloc, &Plain, reader, writer, stage,
        ),
        CellsKind::Nested => simulate_checked::<NestedCells, _, _, _>(
            alloc, &Plain, reader, writer, stage,
        ),
    }
}

/// `txkv simulate --steps --beside`.
pub(crate) fn simulate_numbered_over<B: BufRead, W: Write>(
    alloc: Global,
    cells: CellsKind,
    reader: &mut B,
    writer: &mut W,
    stage: &mut Option<SessionStage>,
) -> Result<End, Broken> {
    match cells {
        CellsKind::Flat => simulate_numbered::<FlatCells, _, _, _>(
            alloc, &Plain, reader, writer, stage,
        ),
        CellsKind::Nested => simulate_numbered::<NestedCells, _, _, _>(
            alloc, &Plain, reader, writer, stage,
        ),
    }
}

/// `txkv run`: how it ended, and what was played.
pub(crate) fn run_over<R, G, B, W>(
    rt: &R,
    cells: CellsKind,
    settings: Settings,
    gate: &G,
    reader: &mut B,
    writer: &mut W,
) -> Result<(End, Option<RunResult>), Broken>
where
    R: AllocGlobal + Threads + Wait + Sync + Send + Clone + Drop,
    G: Gate + Sync,
    B: BufRead,
    W: Write,
{
    let alloc = rt.alloc();
    match cells {
        CellsKind::Flat => run_script::<FlatCells, _, _, _, _, _>(
            rt, alloc, settings, &Plain, gate, reader, writer,
        ),
        CellsKind::Nested => run_script::<NestedCells, _, _, _, _, _>(
            rt, alloc, settings, &Plain, gate, reader, writer,
        ),
    }
}
