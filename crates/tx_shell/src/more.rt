//! The commands that crates above do.
use std::io::{BufRead, Write};
use tx_command::{CellsKind, CommandLine, ExplainOptions};
use tx_film::ScriptStop;
use tx_text::{Broken, End};

/// What a program has beside the commands of this crate: pictures, and scripts that go on after a
/// fault. Each answers how it ended: `Input` where a read failed, `Output` where a write or the
/// flush failed, `Memory` where a growth was refused outside of a step's own calls.
pub trait MoreCommands {
    /// `txkv simulate` at a terminal.
    fn converse<I: BufRead, O: Write>(
        &self,
        host: HostRuntime,
        cells: CellsKind,
        reader: &mut I,
        writer: &mut O,
    ) -> Result<End, Broken>;

    /// `txkv simulate --go-on`.
    fn go_on<I: BufRead, O: Write>(
        &self,
        host: HostRuntime,
        cells: CellsKind,
        reader: &mut I,
        writer: &mut O,
    ) -> Result<End, Broken>;

    /// `txkv explain`. Where a line stops the script, `stop` then says where.
    fn explain<I: BufRead, O: Write>(
        &self,
        host: HostRuntime,
        job: CommandLine<'_>,
        told: ExplainOptions,
        reader: &mut I,
        writer: &mut O,
        stop: &mut Option<ScriptStop>,
    ) -> Result<End, Broken>;
}
