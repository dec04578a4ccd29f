//! The lines of a script, of its replies and of the machine's steps, as a page has them.
ghost use Rattle.std.specs.Prelude.{◌≡◌, ◌++◌, ℕ, map, reverse, OnOk, IfOk};
ghost use Rattle.std.specs.List.{flat_map};
ghost use Rattle.tx_check.specs.Steps.{step_text};
ghost use Rattle.tx_text.specs.Members.{reply_text};
ghost use Rattle.tx_script.specs.Play.{render};
ghost use Rattle.tx_film.specs.Films.{words_of, replies_from};
ghost use Rattle.tx_page.specs.Shown.{quoted_line, script_text};

use std::alloc::{AllocError, Global};
use tx_check::put_step;
use tx_film::{Film, Frame};
use tx_machine::Step;
use tx_reply::put_reply;
use tx_text::{put_fault, put_string};

// Appends a line as a JSON string, with a newline.
fn put_quoted(out: &mut Vec<u8>, line: &[u8]) -> Result<(), AllocError>
    ensures { OnOk result (out.new.items ≡ out.old.items ++ quoted_line line.now) }
{
    put_string(out, line)?;
    out.extend_from_slice(b"\n")
}

/// The lines of a script, each as a JSON string: `null` where it is no UTF-8.
pub(crate) fn script_of(alloc: Global, lines: &[&[u8]]) -> Result<Vec<u8>, AllocError>
    ensures { IfOk result (λ text. text.items ≡ script_text (map (λ line. line.now) lines.now)) }
{
    let mut text = Vec::new(alloc);
    for line in lines {
        put_quoted(&mut text, line)?;
    }
    Ok(text)
}

// Appends the line that tells what was replied to the line of this number, or its fault.
fn put_told(out: &mut Vec<u8>, number: u64, frame: &Frame) -> Result<(), AllocError>
    ensures { OnOk result (out.new.items ≡ out.old.items ++ reply_text (number, words_of frame.now.reply)) }
{
    match &frame.reply {
        Ok(reply) => put_reply(out, number, reply),
        Err(cause) => put_fault(out, number, *cause),
    }
}

// What was replied to each of these lines, the first of a script.
fn told_of(alloc: Global, frames: &[Frame]) -> Result<Vec<u8>, AllocError>
    ensures { IfOk result (λ text. text.items ≡ render (replies_from 0 frames.now)) }
{
    let mut text = Vec::new(alloc);
    for place in 0..frames.len() {
        put_told(&mut text, place as u64 + 1, &frames[place])?;
    }
    Ok(text)
}

/// What was replied to each line: the text that `simulate` writes.
pub(crate) fn replies_of(alloc: Global, film: &Film) -> Result<Vec<u8>, AllocError>
    ensures { IfOk result (λ text. text.items ≡ render (replies_from 0 film.now.frames)) }
{
    told_of(alloc, film.frames())
}

// The lines of steps.
fn lines_of(alloc: Global, steps: &[Step]) -> Result<Vec<u8>, AllocError>
    ensures { IfOk result (λ text. text.items ≡ flat_map step_text steps.now) }
{
    let mut text = Vec::new(alloc);
    for step in steps {
        put_step(&mut text, step)?;
    }
    Ok(text)
}

/// The machine's steps: the text that `simulate --steps` writes of them.
pub(crate) fn steps_of(alloc: Global, film: &Film) -> Result<Vec<u8>, AllocError>
    ensures { IfOk result (λ text. text.items ≡ flat_map step_text (reverse film.now.steps)) }
{
    lines_of(alloc, film.all_steps())
}
