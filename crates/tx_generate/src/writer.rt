//! A script by its settings: it is made whole, and then written.
ghost use Rattle.std.specs.Prelude.{◌≢◌, ℕ, List, OnErr, IfOk, IfErr, IfSome};
ghost use Rattle.std.specs.Io.KnownBytes.{Keeps};
ghost use Rattle.tx_text.specs.Output.{AppendsPart};
ghost use Rattle.tx_script.specs.Players.{EndsWell};
ghost use Rattle.tx_generate.specs.Scripts.{IsScript, Generates, lines_asked};

use crate::author::Author;
use crate::script::script_over;
use crate::settings::Settings;
use std::alloc::Global;
use std::io::Write;
use std::marker::Brand;
use tx_cells::{Families, Makes, make_families};
use tx_journal::Opened;
use tx_script::bounds_in;
use tx_text::{Broken, End, finish, send};
use tx_types::limits::{MAX_LINES, MAX_LIVE_SESSIONS};

// The script by these settings, where each line could be had.
fn script_of<F: Families + Drop, M: Makes<F>>(
    alloc: Global,
    make: &M,
    settings: Settings,
) -> Result<Option<Vec<u8>>, Broken>
    ensures { IfOk result (λ found. IfSome found (λ text. IsScript (lines_asked settings) text.items)) }
{
    let steps = settings.steps.min(MAX_LINES);
    if steps == 0 {
        return Ok(Some(Vec::new(alloc)));
    }
    let mut author = Author::new(alloc, settings);
    let mut first = Vec::new(alloc);
    author.put_first(&mut first)?;
    let bounds = bounds_in(alloc, first.as_slice())?;
    let Ok(families) = make_families(alloc, make, bounds.len() + 1) else {
        return Err(Broken::Memory);
    };
    let Ok(opened) = Opened::new(alloc, bounds, MAX_LIVE_SESSIONS + 1) else {
        return Err(Broken::Memory);
    };
    script_over::<Brand, F>(
        alloc,
        opened,
        families,
        &mut author,
        first.as_slice(),
        steps,
    )
}

/// Writes a script for `simulate` by these settings. `make` gives each region of the engine that it
/// is tried on its families; the script is the same over any.
///
/// `Faulted` where even a tick was a fault for the engine. `Output` where a write or the flush
/// failed, `Memory` where a growth was refused.
pub fn generate<F: Families + Drop, M: Makes<F>, W: Write>(
    alloc: Global,
    make: &M,
    settings: Settings,
    writer: &mut W,
) -> Result<End, Broken>
    // It has written a script that ends well, with as many lines as are asked for, and nothing
    // else; or it says that it has none, and has written nothing.
    ensures ends { IfOk result (λ end. Generates (lines_asked settings) end (W.contents writer.old)
        (W.contents writer.new)) }
    // Broken off, it has written the first few bytes of a script, and none but where a write
    // failed.
    ensures breaks { OnErr result ((text : List ℕ) × EndsWell text
        × AppendsPart (W.contents writer.old) (W.contents writer.new) text) }
    ensures kept { IfErr result (λ why. why ≢ Broken.Output → Keeps (W.contents writer.old)
        (W.contents writer.new)) }
{
    let Some(text) = script_of(alloc, make, settings)? else {
        return Ok(End::Faulted);
    };
    send(writer, text.as_slice())?;
    finish(writer)?;
    Ok(End::Well)
}
