//! The picture of a run, as a command line asks for it.
use std::alloc::{AllocError, Global};
use std::io::{BufRead, Write};
use tx_cells::Plain;
use tx_command::{CellsKind, CommandLine, ExplainOptions};
use tx_cut::Cut;
use tx_explain::{MissingName, PictureForm, PictureOptions, explain, missing_in};
use tx_film::{ScriptStop, read_all};
use tx_flat::FlatCells;
use tx_hints::escaped;
use tx_nested::NestedCells;
use tx_text::{Broken, End};

// What a picture is asked to be.
fn form_asked(told: ExplainOptions) -> PictureForm {
    if told.html {
        PictureForm::Page
    } else if told.svg {
        PictureForm::Drawing
    } else {
        PictureForm::Text
    }
}

// Names that are parted by commas.
fn names_in<'a>(alloc: Global, text: Option<&'a str>) -> Result<Vec<&'a str>, AllocError> {
    let mut names = Vec::new(alloc);
    let Some(text) = text else {
        return Ok(names);
    };
    'names: for name in text.split(',') {
        names.push(name)?;
    }
    Ok(names)
}

// Says which name the script does not have. What cannot be said is left out.
fn tell_missing(host: HostRuntime, missing: MissingName<'_>) {
    let (kind, name) = match missing {
        MissingName::Key(name) => ("key", name),
        MissingName::Session(name) => ("session", name),
    };
    if let Ok(name) = escaped(host.alloc(), name) {
        let _ = eprintln!(host; "error: the script has no {kind} '{name}'");
    }
}

// The picture of a script, over families of this kind.
fn explain_over<I: BufRead, O: Write>(
    alloc: Global,
    cells: CellsKind,
    options: PictureOptions<'_>,
    reader: &mut I,
    writer: &mut O,
    stop: &mut Option<ScriptStop>,
) -> Result<End, Broken> {
    match cells {
        CellsKind::Flat => explain::<FlatCells, _, _, _>(
            alloc, &Plain, options, reader, writer, stop,
        ),
        CellsKind::Nested => explain::<NestedCells, _, _, _>(
            alloc, &Plain, options, reader, writer, stop,
        ),
    }
}

// The picture of a script some of whose keys or sessions are named: those it has to have.
fn explain_named<I: BufRead, O: Write>(
    host: HostRuntime,
    cells: CellsKind,
    options: PictureOptions<'_>,
    reader: &mut I,
    writer: &mut O,
    stop: &mut Option<ScriptStop>,
) -> Result<End, Broken> {
    let alloc = host.alloc();
    let script = read_all(alloc, reader)?;
    if let Some(missing) = missing_in(alloc, script.as_slice(), options.cut)? {
        tell_missing(host, missing);
        return Ok(End::Faulted);
    }
    let mut script = script.as_slice();
    explain_over(alloc, cells, options, &mut script, writer, stop)
}

/// `txkv explain`: what a command line names that the script does not have is its fault.
pub(crate) fn explain_part<I: BufRead, O: Write>(
    host: HostRuntime,
    job: CommandLine<'_>,
    told: ExplainOptions,
    reader: &mut I,
    writer: &mut O,
    stop: &mut Option<ScriptStop>,
) -> Result<End, Broken> {
    let (from, to) = (told.from, told.to.unwrap_or(u64::MAX));
    if to < from {
        let _ = eprintln!(host; "error: '--from {from}' is above '--to {to}'");
        return Ok(End::Faulted);
    }
    let keys = names_in(host.alloc(), job.keys)?;
    let sessions = names_in(host.alloc(), job.sessions)?;
    let options = PictureOptions {
        form: form_asked(told),
        machine: told.machine,
        width: told.width,
        cut: Cut {
            from,
            to,
            keys: keys.as_slice(),
            sessions: sessions.as_slice(),
        },
    };
    if options.cut.has_names() {
        return explain_named(host, job.cells, options, reader, writer, stop);
    }
    explain_over(host.alloc(), job.cells, options, reader, writer, stop)
}
