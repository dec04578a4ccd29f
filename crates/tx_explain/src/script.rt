//! A script from its first byte to the picture of its run.
ghost use Rattle.std.specs.Prelude.{◌≡◌, ◌≢◌, map, IfOk, IfErr, IfSome};
ghost use Rattle.std.specs.Io.KnownBytes.{Appends, Keeps};
ghost use Rattle.tx_text.specs.Lines.{lines_of as lines_in};
ghost use Rattle.tx_page.specs.Shown.{PageOf};
ghost use Rattle.tx_explain.specs.Explained.{Shows, Explains};

use crate::options::{PictureForm, PictureOptions};
use std::alloc::Global;
use std::io::{BufRead, Write};
use tx_cells::{Families, Makes};
use tx_cut::{part_of, sheet_of, whole_of};
use tx_drawing::svg_of;
use tx_film::{Film, ScriptStop, film_lines, keys_of, lines_of, read_all, stop_of};
use tx_page::page_of;
use tx_picture::text_of;
use tx_text::{Broken, End, finish, send};
use tx_types::Key;

// The text, or the drawing, of a script that was played, by its film.
fn drawn(
    alloc: Global,
    options: PictureOptions<'_>,
    keys: &[Key],
    lines: &[&[u8]],
    film: &Film,
) -> Result<Vec<u8>, Broken> {
    let sheet = sheet_of(alloc, keys, lines, film, options.machine)?;
    let part = part_of(alloc, &sheet, keys, options.cut)?;
    if options.form == PictureForm::Drawing {
        Ok(svg_of(alloc, &part)?.into_bytes())
    } else {
        Ok(text_of(alloc, &part, options.width)?.into_bytes())
    }
}

// The page of a script that was played, by its film: the whole run, with the machine's steps.
fn page(alloc: Global, keys: &[Key], lines: &[&[u8]], film: &Film) -> Result<Vec<u8>, Broken>
    ensures { IfOk result (λ text. PageOf (map (λ line. line.now) lines.now) film.now text.items) }
{
    let sheet = sheet_of(alloc, keys, lines, film, true)?;
    let whole = whole_of(alloc, &sheet)?;
    let drawing = svg_of(alloc, &whole)?;
    page_of(alloc, keys, lines, film, &sheet, drawing.as_str())
}

// The picture of a script that was played, by its film.
fn picture(
    alloc: Global,
    options: PictureOptions<'_>,
    keys: &[Key],
    lines: &[&[u8]],
    film: &Film,
) -> Result<Vec<u8>, Broken>
    ensures { IfOk result (λ text. Shows options.entry.form (map (λ line. line.now) lines.now) film.now text.items) }
{
    match options.form {
        PictureForm::Page => page(alloc, keys, lines, film),
        PictureForm::Text | PictureForm::Drawing => drawn(alloc, options, keys, lines, film),
    }
}

// Writes a text, and hands on what the writer still holds back.
fn write_all<W: Write>(writer: &mut W, text: &[u8]) -> Result<(), Broken>
    ensures all { IfOk result (λ _. Appends (W.contents writer.old) (W.contents writer.new) text.now) }
    ensures err { IfErr result (λ why. why ≡ Broken.Output) }
{
    send(writer, text)?;
    finish(writer)
}

/// Plays a script as `simulate` does, and writes the picture of its run. Where a line stops the
/// script, `stop` then says where and, as `simulate` does, how far its session was; else, and where
/// memory to say it was refused, it says nothing.
///
/// `Input` where a read failed, `Output` where a write or the flush failed, `Memory` where a growth
/// was refused outside of a step's own calls.
pub fn explain<F: Families + Drop, M: Makes<F>, R: BufRead, W: Write>(
    alloc: Global,
    make: &M,
    options: PictureOptions<'_>,
    reader: &mut R,
    writer: &mut W,
    stop: &mut Option<ScriptStop>,
) -> Result<End, Broken>
    // Not broken off, it has written a text of the play; a page of just its film.
    ensures ends { IfOk result (λ end. IfSome (R.remaining reader.old)
        (λ input. Explains options.entry.form (lines_in input) (W.contents writer.old) (W.contents writer.new) end)) }
    // Broken off by anything but a write, it has written nothing.
    ensures breaks { IfErr result (λ why. why ≢ Broken.Output → Keeps (W.contents writer.old) (W.contents writer.new)) }
{
    let text = read_all(alloc, reader)?;
    let lines = lines_of(alloc, text.as_slice())?;
    let keys = keys_of(alloc, lines.as_slice())?;
    let film = film_lines::<F, M>(alloc, make, keys.as_slice(), lines.as_slice())?;
    let shown = picture(alloc, options, keys.as_slice(), lines.as_slice(), &film)?;
    let end = film.end();
    if end == End::Faulted {
        *stop = stop_of(alloc, lines.as_slice(), &film).unwrap_or(None);
    }
    write_all(writer, shown.as_slice())?;
    Ok(end)
}
