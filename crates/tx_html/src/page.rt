//! The parts of a page, one after another.
ghost use Rattle.std.specs.Prelude.{◌≡◌, ◌++◌, OnOk};
ghost use Rattle.tx_html.specs.Pages.{block_text, blocks_text, view_text, page_text};

use crate::shield::put_shielded;
use std::alloc::AllocError;

/// What each page has, whatever run it shows.
#[derive(Clone, Copy, Debug)]
pub struct PageFrame<'a> {
    /// From its first byte to the drawing: how it looks, and what a reader moves about with.
    pub head: &'a [u8],
    /// From the drawing to the rows of the table.
    pub middle: &'a [u8],
    /// From the rows to the data.
    pub below: &'a [u8],
    /// From the data to the end: what it does.
    pub foot: &'a [u8],
}

/// What a page shows of a run.
#[derive(Clone, Copy, Debug)]
pub struct PageParts<'a> {
    /// The drawing, as markup.
    pub drawing: &'a [u8],
    /// The rows of the table, as markup.
    pub rows: &'a [u8],
    /// The lines of the script, each as a JSON string.
    pub script: &'a [u8],
    /// The reply to each line.
    pub replies: &'a [u8],
    /// The steps of the machine.
    pub steps: &'a [u8],
    /// What else is known of each line.
    pub film: &'a [u8],
}

// Appends an element of data, of this name.
fn put_block(out: &mut Vec<u8>, name: &[u8], text: &[u8]) -> Result<(), AllocError>
    ensures { OnOk result (out.new.items ≡ out.old.items ++ block_text name.now text.now) }
{
    out.extend_from_slice(b"<script type=\"application/json\" id=\"")?;
    out.extend_from_slice(name)?;
    out.extend_from_slice(b"\">\n")?;
    put_shielded(out, text)?;
    out.extend_from_slice(b"</script>\n")
}

// Appends the elements of data.
fn put_blocks(out: &mut Vec<u8>, parts: &PageParts<'_>) -> Result<(), AllocError>
    ensures { OnOk result (out.new.items ≡ out.old.items ++ blocks_text parts.now) }
{
    put_block(out, b"script", parts.script)?;
    put_block(out, b"replies", parts.replies)?;
    put_block(out, b"steps", parts.steps)?;
    put_block(out, b"film", parts.film)
}

// Appends what is seen of a page.
fn put_view(
    out: &mut Vec<u8>,
    frame: &PageFrame<'_>,
    parts: &PageParts<'_>,
) -> Result<(), AllocError>
    ensures { OnOk result (out.new.items ≡ out.old.items ++ view_text frame.now parts.now) }
{
    out.extend_from_slice(frame.head)?;
    out.extend_from_slice(parts.drawing)?;
    out.extend_from_slice(frame.middle)?;
    out.extend_from_slice(parts.rows)?;
    out.extend_from_slice(frame.below)
}

/// Appends a page: its parts within its frame, the data shielded. Text of a script that stands in
/// the drawing or in the rows is escaped by who makes those.
pub fn put_page(
    out: &mut Vec<u8>,
    frame: &PageFrame<'_>,
    parts: &PageParts<'_>,
) -> Result<(), AllocError>
    ensures { OnOk result (out.new.items ≡ out.old.items ++ page_text frame.now parts.now) }
{
    put_view(out, frame, parts)?;
    put_blocks(out, parts)?;
    out.extend_from_slice(frame.foot)
}
