//! The pictures and the talks of the program.
use crate::explain::explain_part;
use std::alloc::Global;
use std::io::{BufRead, Write};
use tx_cells::{Fresh, Plain};
use tx_command::{CellsKind, CommandLine, ExplainOptions};
use tx_explain::{PictureOptions, explain};
use tx_film::{RunQuestion, ScriptStop};
use tx_flat::FlatCells;
use tx_nested::NestedCells;
use tx_shell::{MoreCommands, terminal_width};
use tx_terminal::{Answers, converse, go_on};
use tx_text::{Broken, End};

/// What draws runs and answers questions on them, at a terminal.
#[derive(Drop)]
struct Pictures {
    /// How many places a line has there.
    width: usize,
}

impl Answers for Pictures {
    fn picture<F: Fresh>(&self, alloc: Global, script: &[u8]) -> Result<Vec<u8>, Broken> {
        let mut out = Vec::new(alloc);
        let options = PictureOptions {
            width: Some(self.width),
            ..PictureOptions::TEXT
        };
        explain::<F, _, _, _>(alloc, &Plain, options, &mut &*script, &mut out, &mut None)?;
        Ok(out)
    }

    fn answer<F: Fresh>(
        &self,
        alloc: Global,
        question: RunQuestion,
        script: &[u8],
    ) -> Result<Vec<u8>, Broken> {
        tx_questions::answer::<F, _>(alloc, &Plain, question, script)
    }
}

/// What draws runs, answers questions on them, and plays scripts that go on.
#[derive(Drop)]
pub(crate) struct Shows;

impl MoreCommands for Shows {
    fn converse<I: BufRead, O: Write>(
        &self,
        host: HostRuntime,
        cells: CellsKind,
        reader: &mut I,
        writer: &mut O,
    ) -> Result<End, Broken> {
        let pictures = Pictures {
            width: terminal_width(&host),
        };
        match cells {
            CellsKind::Flat => converse::<FlatCells, _, _, _>(host, &pictures, reader, writer),
            CellsKind::Nested => converse::<NestedCells, _, _, _>(host, &pictures, reader, writer),
        }
    }

    fn go_on<I: BufRead, O: Write>(
        &self,
        host: HostRuntime,
        cells: CellsKind,
        reader: &mut I,
        writer: &mut O,
    ) -> Result<End, Broken> {
        match cells {
            CellsKind::Flat => go_on::<FlatCells, _, _>(host, reader, writer),
            CellsKind::Nested => go_on::<NestedCells, _, _>(host, reader, writer),
        }
    }

    fn explain<I: BufRead, O: Write>(
        &self,
        host: HostRuntime,
        job: CommandLine<'_>,
        told: ExplainOptions,
        reader: &mut I,
        writer: &mut O,
        stop: &mut Option<ScriptStop>,
    ) -> Result<End, Broken> {
        explain_part(host, job, told, reader, writer, stop)
    }
}
