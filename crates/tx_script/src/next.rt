//! The next line of a script: played where it lies in what is at hand, or read first.
ghost use Rattle.std.specs.Prelude.{◌≡◌, ℕ, List, ◌∷◌, [], ◌++◌, None, Some, option_map, IfOk, IfNone, IfSome, OnErr};
ghost use Rattle.std.specs.Io.KnownBytes.{Consumes, Keeps};
ghost use Rattle.tx_text.specs.Lines.{NoNewline};
ghost use Rattle.tx_engine.specs.Slots.{AllSeated};
ghost use Rattle.tx_script.specs.Loops.{LineTurned, NextTurned};

use crate::line::{Turned, play_found, play_text};
use std::alloc::Global;
use std::io::{BufRead, ErrorKind};
use tx_cells::Families;
use tx_engine::Engine;
use tx_journal::JournalId;
use tx_ops::SessionStage;
use tx_text::{Broken, Found, read_line, whole_line};

// Plays the next line where it lies, where that is whole in what is at hand.
#[inline(always)]
fn play_at_hand<J: JournalId, F: Families, R: BufRead>(
    alloc: Global,
    engine: &mut Engine<J, F>,
    number: u64,
    reader: &mut R,
    stage: &mut Option<SessionStage>,
) -> Result<Option<Turned>, Broken>
    requires ready { AllSeated J.bounds 1 engine.old }
    ensures turned { IfOk result (λ o. IfSome o (λ turned. LineTurned J.bounds number (R.remaining reader.old)
        (R.remaining reader.new) turned engine.old engine.new stage.new)) }
    ensures none { IfOk result (λ o. IfNone o (Keeps (R.remaining reader.old) (R.remaining reader.new)
        × (engine.new ≡ engine.old))) }
    ensures same { OnErr result (engine.new ≡ engine.old) }
{
    let available = match reader.fill_buf() {
        Ok(available) => available,
        Err(e) => {
            return if e.kind() == ErrorKind::Interrupted {
                Ok(None)
            } else {
                Err(Broken::Input)
            };
        }
    };
    let Some(line) = whole_line(available) else {
        return Ok(None);
    };
    let turned = play_text(alloc, engine, number, line, stage)?;
    let len = line.len();
    reader.consume(len + 1);
    Ok(Some(turned))
}

// Plays the next line, which is read into `line` where it does not lie whole in what is at hand.
#[inline(always)]
fn play_read<J: JournalId, F: Families, R: BufRead>(
    alloc: Global,
    engine: &mut Engine<J, F>,
    number: u64,
    reader: &mut R,
    line: &mut Vec<u8>,
    stage: &mut Option<SessionStage>,
) -> Result<Turned, Broken>
    requires ready { AllSeated J.bounds 1 engine.old }
    ensures turned { IfOk result (λ turned. NextTurned J.bounds number None line.old.items (R.remaining reader.old)
        (R.remaining reader.new) turned engine.old engine.new stage.new) }
    ensures same { OnErr result (engine.new ≡ engine.old) }
{
    if let Some(turned) = play_at_hand(alloc, engine, number, reader, stage)? {
        return Ok(turned);
    }
    let found = read_line(reader, line)?;
    play_found(alloc, engine, number, found, line.as_slice(), stage)
}

/// Plays the next line: the one in `line`, as it was found, where one was found before, or else the
/// next of the reader. Of a fault it notes how far its session is, where that is why.
#[inline(always)]
pub(crate) fn play_next<J: JournalId, F: Families, R: BufRead>(
    alloc: Global,
    engine: &mut Engine<J, F>,
    number: u64,
    found: Option<Found>,
    reader: &mut R,
    line: &mut Vec<u8>,
    stage: &mut Option<SessionStage>,
) -> Result<Turned, Broken>
    requires ready { AllSeated J.bounds 1 engine.old }
    ensures turned { IfOk result (λ turned. NextTurned J.bounds number found line.old.items (R.remaining reader.old)
        (R.remaining reader.new) turned engine.old engine.new stage.new) }
    ensures same { OnErr result (engine.new ≡ engine.old) }
{
    match found {
        Some(found) => play_found(alloc, engine, number, found, line.as_slice(), stage),
        None => play_read(alloc, engine, number, reader, line, stage),
    }
}
