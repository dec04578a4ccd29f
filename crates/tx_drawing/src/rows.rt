//! A row of a drawing: a step, and where its request went.
use crate::label::read_words;
use crate::layout::{Layout, PLACE, SMALL_PLACE};
use crate::markup::{Area, Point, at, put_arrow, put_box, put_cross, put_dot, put_line, put_words};
use std::alloc::{AllocError, Global};
use tx_cut::{Row, Sending, Target, places};

/// A request that is held: its name, in which column, and the place below its box.
#[derive(Drop)]
pub(crate) struct HeldBox {
    pub name: String,
    pub column: usize,
    pub place: Point,
}

/// How many boxes of a column have lines that stand apart.
const APART: usize = 7;

/// Appends a step's dot, and over it the words of the step, on a ground of their own.
pub(crate) fn put_dot_and_label(
    ground: &mut String,
    out: &mut String,
    row: &Row,
    place: Point,
    label: &str,
) -> Result<(), AllocError> {
    let width = places(label).saturating_mul(PLACE - 1).saturating_add(4);
    let area = Area {
        corner: place.left(width / 2).up(16),
        width,
        height: 13,
    };
    put_box(ground, "back", area)?;
    put_dot(out, "dot", place, 3)?;
    let class = if row.is_refused() { "refused" } else { "step" };
    put_words(out, class, place.up(6), label)
}

/// Appends the reason of a refusal under its step, on a ground of its own.
pub(crate) fn put_reason(
    ground: &mut String,
    out: &mut String,
    place: Point,
    reason: &str,
) -> Result<(), AllocError> {
    if reason.is_empty() {
        return Ok(());
    }
    let area = Area {
        corner: place.left(2).down(4),
        width: places(reason)
            .saturating_mul(SMALL_PLACE - 1)
            .saturating_add(8),
        height: 11,
    };
    put_box(ground, "back", area)?;
    put_words(out, "reason", place.down(13), reason)
}

/// Appends the machine's steps at a row, in their column.
pub(crate) fn put_machine(out: &mut String, mark: Point, words: &str) -> Result<(), AllocError> {
    if words.is_empty() {
        return Ok(());
    }
    put_dot(out, "dot", mark, 3)?;
    put_words(out, "seen", mark.right(10).down(3), words)
}

// Appends a request that is lost on its way.
fn put_lost(out: &mut String, place: Point) -> Result<(), AllocError> {
    let end = place.right(36);
    put_line(out, "sent", place.right(4), end)?;
    put_cross(out, end)?;
    put_words(out, "seen", end.right(8).down(4), "lost")
}

// How many boxes stand in a column.
fn count_in(boxes: &[HeldBox], column: usize) -> usize {
    boxes.iter().filter(|held| held.column == column).count()
}

// Appends a request that is held, behind so many others of its column: the place below the box,
// from where its line goes down, apart from theirs.
fn put_held(
    out: &mut String,
    place: Point,
    name: &str,
    before: usize,
) -> Result<Point, AllocError> {
    let width = places(name).saturating_mul(SMALL_PLACE).saturating_add(12);
    let line = place.right((before % APART).saturating_mul(9).saturating_add(20));
    let corner = at(line.left(width / 2).x.max(place.right(16).x), place.up(3).y);
    put_line(out, "sent", place.right(4), at(corner.x, place.y))?;
    let area = Area {
        corner,
        width,
        height: 15,
    };
    put_box(out, "held", area)?;
    put_words(out, "seen", corner.right(6).down(11), name)?;
    Ok(line.down(12))
}

// Appends the arrow of a request, twice where it was taken twice.
fn put_way(out: &mut String, row: &Row, from: Point, end: Point) -> Result<(), AllocError> {
    put_arrow(out, from, end)?;
    if row.sending == Sending::Twice {
        put_arrow(out, from.down(4), end.down(4))?;
    }
    Ok(())
}

// Appends the arrow of a request to a key, and a cross where it met a lock.
fn put_sent(
    out: &mut String,
    row: &Row,
    target: Target,
    from: Point,
    mark: Point,
) -> Result<(), AllocError> {
    put_way(out, row, from, mark.left(6))?;
    if target.meets_lock {
        put_cross(out, mark)
    } else {
        Ok(())
    }
}

/// Whether regions took requests of a row of which none went to a key that is shown.
pub(crate) fn goes_beyond(layout: &Layout, row: &Row) -> bool {
    let is_sent = row.goes_beyond || !row.targets.is_empty();
    is_sent
        && !row
            .targets
            .iter()
            .any(|target| layout.key_line(target.key).is_some())
}

// Appends the arrows of a request to its keys; a short one where it went to none of these.
fn put_arrows(out: &mut String, layout: &Layout, row: &Row, from: Point) -> Result<(), AllocError> {
    if goes_beyond(layout, row) {
        return put_way(out, row, from, from.right(24));
    }
    'targets: for target in &row.targets {
        if let Some(line) = layout.key_line(target.key) {
            put_sent(out, row, *target, from, at(line, from.y))?;
        }
    }
    Ok(())
}

/// Appends what regions read of keys, in the row that is so far down: below the arrow where that
/// goes on to another key.
pub(crate) fn put_reads(
    alloc: Global,
    out: &mut String,
    layout: &Layout,
    y: usize,
    row: &Row,
) -> Result<(), AllocError> {
    let down = if row.targets.len() > 1 { 13 } else { 3 };
    'reads: for read in &row.reads {
        if let Some(line) = layout.key_line(read.key) {
            let mark = at(line, y);
            put_dot(out, "read", mark, 4)?;
            let words = read_words(alloc, read)?;
            put_words(out, "seen", mark.right(10).down(down), words.as_str())?;
        }
    }
    Ok(())
}

// Appends the sign of a reply that is lost.
fn put_reply_lost(out: &mut String, place: Point) -> Result<(), AllocError> {
    put_cross(out, place.right(12))?;
    put_words(out, "seen", place.right(20).down(11), "reply lost")
}

// Where the box of a name stands: the last of that name.
fn box_of(boxes: &[HeldBox], name: &str) -> Option<Point> {
    let mut place = None;
    'boxes: for held in boxes {
        if held.name.as_str() == name {
            place = Some(held.place);
        }
    }
    place
}

// Appends the way of a held request that is delivered: where its arrows begin.
fn put_delivered(
    under: &mut String,
    boxes: &[HeldBox],
    row: &Row,
    place: Point,
) -> Result<Point, AllocError> {
    let Some(from) = box_of(boxes, row.held.as_str()) else {
        return Ok(place.right(4));
    };
    let bend = at(from.x, place.y);
    put_line(under, "waits", from, bend)?;
    Ok(bend)
}

/// Appends where the request of a step went.
pub(crate) fn put_sending(
    alloc: Global,
    under: &mut String,
    over: &mut String,
    layout: &Layout,
    boxes: &mut Vec<HeldBox>,
    column: usize,
    row: &Row,
    place: Point,
) -> Result<(), AllocError> {
    match row.sending {
        Sending::Lost => put_lost(over, place),
        Sending::Held => {
            let before = count_in(boxes.as_slice(), column);
            let place = put_held(over, place, row.held.as_str(), before)?;
            let name = String::from_str(alloc, row.held.as_str())?;
            Ok(boxes.push(HeldBox {
                name,
                column,
                place,
            })?)
        }
        Sending::Delivered => {
            let from = put_delivered(under, boxes.as_slice(), row, place)?;
            put_arrows(over, layout, row, from)
        }
        Sending::ReplyLost => {
            put_arrows(over, layout, row, place.right(4))?;
            put_reply_lost(over, place)
        }
        Sending::Plain | Sending::Twice => put_arrows(over, layout, row, place.right(4)),
    }
}
