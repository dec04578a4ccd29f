//! Runs each example and compares what it writes with the file beside it that shows it. An example
//! is a script (`NAME.script`, played as `txkv simulate` does), a script for workers (`NAME.run`,
//! played as `txkv run --workers 2` does) or a trace (`NAME.trace`, checked as `txkv check` does);
//! what it writes is shown in the file of its name with `.out` added. Scripts and runs are played
//! over both families, and the run of a script is shown as `NAME.script.text`, of four as
//! `NAME.script.svg` too; with the machine's steps as `NAME.script.machine.text`, of one as
//! `NAME.script.machine.svg`. Many small ones stand in `scripts.rows`, `checked.rows` (played as
//! `txkv simulate --check` does), `numbered.rows` (the same, with the number of its line beside
//! each step), `traces.rows`, `histories.rows` (judged as `txkv import` does, and the trace of each
//! yes is checked), `ordered.rows` (the same with `--sessions --strict`), `serial.rows` (with
//! `--level serializable` as well) and `all.rows` (with `--all` in its place), each with what it
//! writes. The picture of a history (`NAME.history`, drawn as `txkv import --svg` does) is shown
//! as `NAME.history.svg`, a page of each no of one (as `--sessions --strict --all --html` writes
//! it) as `NAME.history.html`.
#![tactic(auto)]

mod kind;
mod rows;

use anyhow::Result;
use kind::{Kind, end_of};
use rows::count_shown;
use std::fs;
use std::rt::Files;
use std::sync::Wait;
use std::thread::Threads;
use tx_cells::Fresh;
use tx_explain::{PictureForm, PictureOptions, explain};
use tx_flat::FlatCells;
use tx_nested::NestedCells;
use tx_run::{Plain, Settings, run_script};
use tx_sched::Open;
use tx_text::End;

const SCRIPTS: [&str; 20] = [
    "abandoned_async.script",
    "collection.script",
    "commit_then_read.script",
    "delivered_twice.script",
    "falls_back.script",
    "late_prewrite_commits.script",
    "late_prewrite_is_refused.script",
    "long_values.script",
    "lost_reply.script",
    "push.script",
    "repeats_and_losses.script",
    "resolved_then_collected.script",
    "rollback_shares_a_record.script",
    "signs_of_markup.script",
    "ticks_run_out.script",
    "truncated_script.script",
    "two_inserts.script",
    "two_regions.script",
    "write_conflict.script",
    "write_skew.script",
];

const DRAWN: [&str; 4] = [
    "falls_back.script",
    "push.script",
    "repeats_and_losses.script",
    "signs_of_markup.script",
];

const DRAWN_WITH_STEPS: [&str; 1] = ["falls_back.script"];

// In which form the runs of which scripts are shown, whether with the machine's steps, and how that
// is told.
const SHOWN: &[(&[&str], PictureForm, bool, &str)] = &[
    (&SCRIPTS, PictureForm::Text, false, "explained"),
    (&SCRIPTS, PictureForm::Text, true, "explained with steps"),
    (&DRAWN, PictureForm::Drawing, false, "drawn"),
    (
        &DRAWN_WITH_STEPS,
        PictureForm::Drawing,
        true,
        "drawn with steps",
    ),
];

const HISTORIES: [&str; 2] = ["markup_in_keys.history", "read_committed.history"];

const PAGES: [&str; 1] = ["many_anomalies.history"];

const RUNS: [&str; 1] = ["transfers.run"];

const TRACES: [&str; 3] = [
    "commit_then_read.trace",
    "lost_update.trace",
    "machine_refuses_read.trace",
];

// Files of rows, how they are told, and what a row of each is.
const ROWS: &[(&str, &str, Kind)] = &[
    ("scripts.rows", ", over flat maps", Kind::Script),
    ("scripts.rows", ", over nested maps", Kind::Nested),
    ("checked.rows", ", over flat maps", Kind::Checked),
    ("checked.rows", ", over nested maps", Kind::CheckedNested),
    ("numbered.rows", "", Kind::Numbered),
    ("traces.rows", "", Kind::Trace),
    ("reasons.rows", "", Kind::Reason),
    ("histories.rows", "", Kind::History),
    ("histories.rows", ", with traces", Kind::TracedHistory),
    ("ordered.rows", "", Kind::Ordered),
    ("ordered.rows", ", with traces", Kind::TracedOrdered),
    ("serial.rows", "", Kind::Serial),
    ("serial.rows", ", with traces", Kind::TracedSerial),
    ("all.rows", "", Kind::AllOfHistory),
];

// Whether an example ends as the file beside it tells, and writes what it shows.
fn is_shown(rt: &HostRuntime, name: &str, kind: Kind) -> Result<bool> {
    let text = fs::read(rt, name)?;
    let path = format!(in rt.alloc(); "{name}.out")?;
    let shown = fs::read(rt, path)?;
    let mut written = Vec::new(rt.alloc());
    let ended = kind.run(rt, text.as_slice(), &mut written);
    Ok(ended == Some(end_of(shown.as_slice())) && written.as_slice() == shown.as_slice())
}

// The end of the name of the file that shows a picture.
fn ending_of(options: PictureOptions<'_>) -> &'static str {
    match (options.form, options.machine) {
        (PictureForm::Text, false) => "text",
        (PictureForm::Text, true) => "machine.text",
        (PictureForm::Drawing, false) => "svg",
        (PictureForm::Drawing, true) => "machine.svg",
        (PictureForm::Page, _) => "html",
    }
}

// Whether the run of a script is shown as the file beside it shows it.
fn is_explained(rt: &HostRuntime, name: &str, options: PictureOptions<'_>) -> Result<bool> {
    let script = fs::read(rt, name)?;
    let path = format!(in rt.alloc(); "{name}.{}", ending_of(options))?;
    let shown = fs::read(rt, path)?;
    let mut written = Vec::new(rt.alloc());
    let mut reader = script.as_slice();
    let ended = explain::<FlatCells, _, _, _>(
        rt.alloc(),
        &Plain,
        options,
        &mut reader,
        &mut written,
        &mut None,
    );
    Ok(ended.is_ok() && written.as_slice() == shown.as_slice())
}

// Whether what is written of a history in a form is what the file of that end beside it shows.
fn is_drawn(rt: &HostRuntime, name: &str, form: &str, kind: Kind) -> Result<bool> {
    let history = fs::read(rt, name)?;
    let path = format!(in rt.alloc(); "{name}.{form}")?;
    let shown = fs::read(rt, path)?;
    let mut written = Vec::new(rt.alloc());
    let ended = kind.run(rt, history.as_slice(), &mut written);
    Ok(ended == Some(End::No) && written.as_slice() == shown.as_slice())
}

// Whether the runs of scripts are shown as the files beside them show them.
fn tell_explained(
    rt: &HostRuntime,
    names: &[&str],
    form: PictureForm,
    machine: bool,
    how: &str,
) -> Result<()> {
    let options = PictureOptions {
        form,
        machine,
        ..PictureOptions::TEXT
    };
    for name in names {
        let shown = is_explained(rt, name, options)?;
        println!(rt; "{name}, {how}: {}", verdict(shown))?;
    }
    Ok(())
}

// Whether a script for workers, of whom there are two, writes over these families what the file
// beside it shows.
fn run_is_shown<F, R>(rt: &R, name: &str) -> Result<bool>
where
    F: Fresh + Send,
    R: Files + AllocGlobal + Threads + Wait + Sync + Send + Clone + Drop,
{
    let script = fs::read(rt, name)?;
    let path = format!(in rt.alloc(); "{name}.out")?;
    let shown = fs::read(rt, path)?;
    let mut written = Vec::new(rt.alloc());
    let ended = run_script::<F, _, _, _, _, _>(
        rt,
        rt.alloc(),
        Settings::new(2),
        &Plain,
        &Open,
        &mut script.as_slice(),
        &mut written,
    );
    let end = match ended {
        Ok((end, played)) => {
            drop(played);
            Some(end)
        }
        Err(_) => None,
    };
    Ok(end == Some(end_of(shown.as_slice())) && written.as_slice() == shown.as_slice())
}

fn verdict(is_shown: bool) -> &'static str {
    if is_shown {
        "as shown"
    } else {
        "writes something else than the file beside it shows"
    }
}

fn main(rt: HostRuntime) -> Result<()> {
    for name in SCRIPTS {
        let shown = is_shown(&rt, name, Kind::Script)? && is_shown(&rt, name, Kind::Nested)?;
        println!(rt; "{name}: {}", verdict(shown))?;
    }
    for (names, form, machine, how) in SHOWN {
        tell_explained(&rt, names, *form, *machine, how)?;
    }
    for name in HISTORIES {
        let drawn = is_drawn(&rt, name, "svg", Kind::DrawnHistory)?;
        println!(rt; "{name}, drawn: {}", verdict(drawn))?;
    }
    for name in PAGES {
        let paged = is_drawn(&rt, name, "html", Kind::PagedHistory)?;
        println!(rt; "{name}, on a page: {}", verdict(paged))?;
    }
    for name in RUNS {
        let shown = run_is_shown::<FlatCells, _>(&rt, name)?
            && run_is_shown::<NestedCells, _>(&rt, name)?;
        println!(rt; "{name}: {}", verdict(shown))?;
    }
    for name in TRACES {
        println!(rt; "{name}: {}", verdict(is_shown(&rt, name, Kind::Trace)?))?;
    }
    for (file, how, kind) in ROWS {
        let count = count_shown(&rt, file, *kind)?;
        println!(rt; "{file}{how}: {count} as shown")?;
    }
    Ok(())
}
