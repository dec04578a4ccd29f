//! The page of a film.
ghost use Rattle.std.specs.Prelude.{◌≡◌, map, IfOk};
ghost use Rattle.tx_html.specs.declared.page.PageFrame.{PageFrame};
ghost use Rattle.tx_html.specs.Pages.{page_text};
ghost use Rattle.tx_page.specs.Shown.{PageOf};

use crate::data::data_of;
use crate::foot::{BELOW, FOOT, MIDDLE};
use crate::head::HEAD;
use crate::lines::{replies_of, script_of, steps_of};
use crate::table::rows_of;
use std::alloc::{AllocError, Global};
use tx_cut::{Sheet, whole_of};
use tx_film::Film;
use tx_html::{PageFrame, PageParts, put_page};
use tx_text::Broken;
use tx_types::Key;

// A page of these parts.
fn page_with(alloc: Global, parts: &PageParts<'_>) -> Result<Vec<u8>, AllocError>
    ensures { IfOk result (λ text. (frame : PageFrame) × (text.items ≡ page_text frame parts.now)) }
{
    let frame = PageFrame {
        head: HEAD.as_bytes(),
        middle: MIDDLE.as_bytes(),
        below: BELOW.as_bytes(),
        foot: FOOT.as_bytes(),
    };
    let mut page = Vec::new(alloc);
    put_page(&mut page, &frame, parts)?;
    Ok(page)
}

/// The page of a film of these lines, up to a fault, with these keys, which rise, whose rows are a
/// sheet and which is drawn so: the drawing, a row a line, and as data the lines, the replies, the
/// machine's steps, and what stood on keys. `Memory` where a growth was refused.
pub fn page_of(
    alloc: Global,
    keys: &[Key],
    lines: &[&[u8]],
    film: &Film,
    sheet: &Sheet,
    drawing: &str,
) -> Result<Vec<u8>, Broken>
    ensures { IfOk result (λ text. PageOf (map (λ line. line.now) lines.now) film.now text.items) }
{
    let whole = whole_of(alloc, sheet)?;
    let rows = rows_of(alloc, &whole)?;
    let script = script_of(alloc, lines)?;
    let replies = replies_of(alloc, film)?;
    let steps = steps_of(alloc, film)?;
    let rest = data_of(alloc, keys, lines, film, sheet)?;
    let parts = PageParts {
        drawing: drawing.as_bytes(),
        rows: rows.as_bytes(),
        script: script.as_slice(),
        replies: replies.as_slice(),
        steps: steps.as_slice(),
        film: rest.as_slice(),
    };
    Ok(page_with(alloc, &parts)?)
}
