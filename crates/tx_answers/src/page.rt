//! A page of verdicts: of each its line, why it is one, and its pictures.
ghost use Rattle.std.specs.Prelude.{◌≡◌, true, OnOk, ◌++◌, IfOk};
ghost use Rattle.tx_answers.specs.Pages.{pictures_text, section_text, IsSection, framed_text};

use crate::frame::{PAGE_FOOT, PAGE_HEAD};
use crate::sentences::sentences;
use std::alloc::{AllocError, Global};
use tx_diagram::{cycle_picture, read_picture, refuted_pictures};
use tx_import::NamedHistory;
use tx_ring::put_text;
use tx_verdict::{HistoryVerdict, Level};
use tx_verdict_text::verdict_line;

// The pictures of a no.
fn pictures(
    alloc: Global,
    history: &NamedHistory,
    verdict: &HistoryVerdict,
) -> Result<Vec<u8>, AllocError>
    ensures { IfOk result (λ text. text.items ≡ pictures_text history.now verdict.now) }
{
    match verdict {
        HistoryVerdict::No(cycle) => cycle_picture(alloc, history, cycle),
        HistoryVerdict::Refuted(refutation) => refuted_pictures(alloc, history, refutation),
        HistoryVerdict::Fact(fact) => read_picture(alloc, history, *fact),
        HistoryVerdict::Yes(_) => Ok(Vec::new(alloc)),
        HistoryVerdict::Open(_) => Ok(Vec::new(alloc)),
        HistoryVerdict::Unknown => Ok(Vec::new(alloc)),
        HistoryVerdict::Twice(..) => Ok(Vec::new(alloc)),
    }
}

// Appends a line, what is said of it, and pictures.
fn put_section(
    out: &mut Vec<u8>,
    line: &[u8],
    why: &[u8],
    pictures: &[u8],
) -> Result<(), AllocError>
    ensures { OnOk result (out.new.items ≡ out.old.items ++ section_text line.now why.now pictures.now) }
{
    out.extend_from_slice(b"<section>\n<pre>")?;
    put_text(out, line)?;
    out.extend_from_slice(b"</pre>\n<p>")?;
    put_text(out, why)?;
    out.extend_from_slice(b"</p>\n")?;
    out.extend_from_slice(pictures)?;
    out.extend_from_slice(b"</section>\n")
}

// A line, what is said of it, and pictures.
fn section_of(
    alloc: Global,
    line: &[u8],
    why: &[u8],
    pictures: &[u8],
) -> Result<Vec<u8>, AllocError>
    ensures { IfOk result (λ text. text.items ≡ section_text line.now why.now pictures.now) }
{
    let mut out = Vec::new(alloc);
    put_section(&mut out, line, why, pictures)?;
    Ok(out)
}

/// A verdict on a page.
pub(crate) fn section(
    alloc: Global,
    history: &NamedHistory,
    level: Level,
    verdict: &HistoryVerdict,
) -> Result<Vec<u8>, AllocError>
    ensures { IfOk result (λ text. IsSection history.now verdict.now text.items) }
{
    let line = verdict_line(alloc, history, verdict)?;
    let why = sentences(alloc, history, level, "", verdict)?;
    let pictures = pictures(alloc, history, verdict)?;
    let made = section_of(alloc, line.as_slice(), why.as_slice(), pictures.as_slice())?;
    Ok(made)
}

/// What stands on a page, within its frame.
pub(crate) fn framed(alloc: Global, inner: &[u8]) -> Result<Vec<u8>, AllocError>
    ensures { IfOk result (λ text. text.items ≡ framed_text true inner.now) }
{
    let mut out = Vec::new(alloc);
    out.extend_from_slice(PAGE_HEAD.as_bytes())?;
    out.extend_from_slice(inner)?;
    out.extend_from_slice(PAGE_FOOT.as_bytes())?;
    Ok(out)
}
