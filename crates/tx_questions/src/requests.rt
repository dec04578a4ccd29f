//! The requests that are held under a name.
use crate::words::put_line;
use std::alloc::{AllocError, Global};
use tx_core::{Body, Target};
use tx_film::{Film, Frame, bounds_in};
use tx_steps::{Delivery, Line, Program, Step};
use tx_text::{Broken, Parts, put_digits, put_string};
use tx_types::Key;

// A request that is held and was not delivered yet: its name, the place of the line that sent it,
// and what it asks.
#[derive(Drop)]
struct HeldRequest<'f> {
    name: String,
    place: usize,
    body: &'f Body,
}

// Notes the request that a line holds, or lets the one go that it delivers.
fn note_line<'f>(
    alloc: Global,
    held: &mut Vec<HeldRequest<'f>>,
    line: &[u8],
    frame: &'f Frame,
    place: usize,
) -> Result<(), Broken> {
    let mut parts = Parts::new();
    let Ok(said) = Line::read(alloc, 1, line, &mut parts)? else {
        return Ok(());
    };
    match (said.step(Program::Simulate), &frame.held) {
        (Some(Step::Send(_, _, Delivery::Held(name))), Some(body)) => {
            let name = name.to_string(alloc)?;
            held.push(HeldRequest { name, place, body })?;
        }
        (Some(Step::Deliver(name)), _) => held.retain(|request| request.name.as_str() != name),
        _ => {}
    }
    Ok(())
}

// The requests that are held once all lines were played, in the order of their lines.
fn held_after<'f>(
    alloc: Global,
    lines: &[&[u8]],
    film: &'f Film,
) -> Result<Vec<HeldRequest<'f>>, Broken> {
    let mut held = Vec::new(alloc);
    'lines: for (place, (line, frame)) in lines.iter().zip(film.frames()).enumerate() {
        note_line(alloc, &mut held, line, frame, place)?;
    }
    Ok(held)
}

// Appends where a request goes: its key, or the keys of its range, and their region.
fn put_target(out: &mut Vec<u8>, bounds: &[Key], body: &Body) -> Result<(), AllocError> {
    let key = match body.target() {
        Target::Key(key) => key,
        Target::Range(scan) => &scan.from,
        Target::Region(_) => return Ok(()),
    };
    out.extend_from_slice(b" to ")?;
    put_string(out, key.as_bytes())?;
    if let Target::Range(scan) = body.target() {
        out.extend_from_slice(b" up to ")?;
        put_string(out, scan.to.as_bytes())?;
    }
    let region = bounds.iter().filter(|bound| **bound <= *key).count();
    out.extend_from_slice(b" in region ")?;
    put_digits(out, (region as u64).saturating_add(1))
}

// Appends a request: its name, the line that sent it, and where it goes.
fn put_request(
    out: &mut Vec<u8>,
    lines: &[&[u8]],
    bounds: &[Key],
    request: &HeldRequest<'_>,
) -> Result<(), AllocError> {
    put_string(out, request.name.as_bytes())?;
    out.extend_from_slice(b": ")?;
    put_line(out, lines, request.place)?;
    put_target(out, bounds, request.body)?;
    out.extend_from_slice(b"\n")
}

/// The requests that are held under a name and were not delivered yet, a line each: the name, the
/// line that sent it, and where it goes.
pub(crate) fn requests_held(
    alloc: Global,
    lines: &[&[u8]],
    film: &Film,
) -> Result<Vec<u8>, Broken> {
    let bounds = match lines.first() {
        Some(line) => bounds_in(alloc, line)?,
        None => Vec::new(alloc),
    };
    let held = held_after(alloc, lines, film)?;
    let mut out = Vec::new(alloc);
    'held: for request in &held {
        put_request(&mut out, lines, bounds.as_slice(), request)?;
    }
    Ok(out)
}
