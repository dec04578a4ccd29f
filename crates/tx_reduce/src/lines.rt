//! Lines left out of a script, many at once and then fewer, as long as it shows what is wanted.
use memchr::memmem;
use std::alloc::{AllocError, Global};
use tx_cells::{Families, Makes};
use tx_film::lines_of;
use tx_script::{Broken, End, simulate};

// What the replies of a script are to show: a text, and how they end.
#[derive(Clone, Copy, Debug)]
struct Wanted<'a> {
    text: &'a [u8],
    end: End,
}

// Plays a script: how it ended, and the text of its replies.
fn play<F: Families + Drop, M: Makes<F>>(
    alloc: Global,
    make: &M,
    script: &[u8],
) -> Result<(End, Vec<u8>), Broken> {
    let mut written = Vec::new(alloc);
    let mut reader = script;
    let end = simulate::<F, M, _, _>(alloc, make, &mut reader, &mut written, &mut None)?;
    Ok((end, written))
}

// Whether a text has this in it.
fn has(text: &[u8], what: &[u8]) -> bool {
    memmem::find(text, what).is_some()
}

// Lines as a text, each with its newline.
fn text_of(alloc: Global, lines: &[&[u8]]) -> Result<Vec<u8>, AllocError> {
    let mut text = Vec::new(alloc);
    'lines: for line in lines {
        text.extend_from_slice(line)?;
        text.push(b'\n')?;
    }
    Ok(text)
}

// Whether these lines show what is wanted.
fn show<F: Families + Drop, M: Makes<F>>(
    alloc: Global,
    make: &M,
    wanted: Wanted<'_>,
    lines: &[&[u8]],
) -> Result<bool, Broken> {
    let script = text_of(alloc, lines)?;
    let (end, replies) = play::<F, M>(alloc, make, script.as_slice())?;
    Ok(end == wanted.end && has(replies.as_slice(), wanted.text))
}

// The lines but for those from one place up to another.
fn without<'a>(
    alloc: Global,
    lines: &[&'a [u8]],
    from: usize,
    to: usize,
) -> Result<Vec<&'a [u8]>, AllocError> {
    let mut left = Vec::new(alloc);
    left.extend_from_slice(lines.get(..from).unwrap_or_default())?;
    left.extend_from_slice(lines.get(to..).unwrap_or_default())?;
    Ok(left)
}

// Leaves out so many lines at once, from the last of them on, wherever the others still show what
// is wanted: whether any were left out.
fn leave_out<'a, F: Families + Drop, M: Makes<F>>(
    alloc: Global,
    make: &M,
    wanted: Wanted<'_>,
    lines: &mut Vec<&'a [u8]>,
    count: usize,
) -> Result<bool, Broken> {
    let mut is_shorter = false;
    let mut to = lines.len();
    'chunks: while to > 0 {
        let from = to.saturating_sub(count.max(1));
        let left = without(alloc, lines.as_slice(), from, to)?;
        if show::<F, M>(alloc, make, wanted, left.as_slice())? {
            *lines = left;
            is_shorter = true;
        }
        to = from;
    }
    Ok(is_shorter)
}

// Leaves out lines until none can be left out alone.
fn shorten<'a, F: Families + Drop, M: Makes<F>>(
    alloc: Global,
    make: &M,
    wanted: Wanted<'_>,
    lines: &mut Vec<&'a [u8]>,
) -> Result<(), Broken> {
    let mut count = lines.len() / 2;
    'passes: for _ in 0..u64::MAX {
        let is_shorter = leave_out::<F, M>(alloc, make, wanted, lines, count)?;
        if count <= 1 && !is_shorter {
            break;
        }
        if count > 1 {
            count /= 2;
        }
    }
    Ok(())
}

/// A script of lines of this one, in their order, that ends as it does and has the text in its
/// replies, and that no longer does so without any one of its lines. None where the script itself
/// does not have the text. There may be a shorter one.
///
/// `Memory` where a growth was refused.
pub fn reduce<F: Families + Drop, M: Makes<F>>(
    alloc: Global,
    make: &M,
    script: &[u8],
    text: &[u8],
) -> Result<Option<Vec<u8>>, Broken> {
    let (end, replies) = play::<F, M>(alloc, make, script)?;
    if !has(replies.as_slice(), text) {
        return Ok(None);
    }
    let mut lines = lines_of(alloc, script)?;
    shorten::<F, M>(alloc, make, Wanted { text, end }, &mut lines)?;
    Ok(Some(text_of(alloc, lines.as_slice())?))
}
