//! The caption of a drawing: the signs that stand in it, and what each means.
use crate::layout::{LEFT, Layout, SMALL_PLACE};
use crate::markup::{
    Area, Point, at, put_arrow, put_box, put_cross, put_dot, put_line, put_mark, put_words,
};
use crate::rows::goes_beyond;
use std::alloc::{AllocError, Global};
use tx_cut::{Part, Row, Sending, places};

/// A sign of a drawing.
#[derive(Clone, Copy, Debug, PartialEq, Eq)]
enum Sign {
    Step,
    Refused,
    Ends,
    Arrow,
    Twice,
    Beyond,
    Lost,
    ReplyLost,
    Held,
    TwoPhase,
    Async,
    MetLock,
    Commit,
    Rollback,
    Read,
    Machine,
}

/// All signs, in the order in which a caption has them.
const SIGNS: [Sign; 16] = [
    Sign::Step,
    Sign::Refused,
    Sign::Ends,
    Sign::Arrow,
    Sign::Twice,
    Sign::Beyond,
    Sign::Lost,
    Sign::ReplyLost,
    Sign::Held,
    Sign::TwoPhase,
    Sign::Async,
    Sign::MetLock,
    Sign::Commit,
    Sign::Rollback,
    Sign::Read,
    Sign::Machine,
];

/// How far down a line of a caption is from the one before.
const LINE_HEIGHT: usize = 18;

/// How many units a sign takes before its words, and lie between it and the next.
const SIGN_WIDTH: usize = 34;

const BETWEEN_SIGNS: usize = 18;

impl Sign {
    // What it means.
    fn words(self) -> &'static str {
        match self {
            Sign::Step => "a step, and its reply",
            Sign::Refused => "refused, and why",
            Sign::Ends => "a session ends",
            Sign::Arrow => "a request that a region took",
            Sign::Twice => "taken twice",
            Sign::Beyond => "taken, but at no key of these",
            Sign::Lost => "lost on its way",
            Sign::ReplyLost => "taken, and its reply lost",
            Sign::Held => "held under that name, delivered where its line ends",
            Sign::TwoPhase => "a lock of two phases",
            Sign::Async => "a lock of an async commit",
            Sign::MetLock => "a step met that lock",
            Sign::Commit => "a commit: its start and its number",
            Sign::Rollback => "a rollback",
            Sign::Read => "a read",
            Sign::Machine => "steps of the one-step machine",
        }
    }

    // Appends it, around a place.
    fn put(self, out: &mut String, place: Point) -> Result<(), AllocError> {
        let end = place.right(26);
        match self {
            Sign::Step | Sign::Machine => put_dot(out, "dot", place.right(13), 3),
            Sign::Refused => put_words(out, "reason", place.right(9).down(4), "E1"),
            Sign::Ends => put_line(out, "ends", place.right(5), place.right(21)),
            Sign::Arrow => put_arrow(out, place, end),
            Sign::Twice => {
                put_arrow(out, place.up(2), end.up(2))?;
                put_arrow(out, place.down(2), end.down(2))
            }
            Sign::Beyond => put_arrow(out, place.right(6), place.right(20)),
            Sign::Lost => {
                put_line(out, "sent", place, place.right(20))?;
                put_cross(out, place.right(20))
            }
            Sign::ReplyLost => {
                put_arrow(out, place, end)?;
                put_cross(out, place.right(6))
            }
            Sign::Held => {
                put_box(out, "held", area(place.up(6), 14, 12))?;
                put_line(out, "waits", place.right(14), end)
            }
            Sign::TwoPhase => put_box(out, "two-phase", area(place.right(9).up(7), 8, 14)),
            Sign::Async => put_box(out, "async", area(place.right(9).up(7), 8, 14)),
            Sign::MetLock => put_cross(out, place.right(13)),
            Sign::Commit => put_mark(out, "commit", place.right(13).up(6), "l6 6l-6 6l-6 -6z"),
            Sign::Rollback => put_mark(out, "rollback", place.right(13).up(6), "l6 6l-6 6l-6 -6z"),
            Sign::Read => put_dot(out, "read", place.right(13), 4),
        }
    }
}

// A box.
fn area(corner: Point, width: usize, height: usize) -> Area {
    Area {
        corner,
        width,
        height,
    }
}

// Whether requests of a row so were taken, lost or held.
fn is_sent(part: &Part<'_>, sending: Sending) -> bool {
    part.rows.iter().any(|shown| shown.row.sending == sending)
}

// Whether requests of some row went to no key that is shown.
fn is_beyond(part: &Part<'_>, layout: &Layout) -> bool {
    part.rows.iter().any(|shown| goes_beyond(layout, shown.row))
}

// Whether a request of a row went to a key that is shown, and met a lock there, if that is asked.
fn goes_to_key(layout: &Layout, row: &Row, meets_lock: bool) -> bool {
    row.targets.iter().any(|target| {
        layout.key_line(target.key).is_some() && (target.meets_lock || !meets_lock)
    })
}

// Whether some row is so.
fn is_at_key(part: &Part<'_>, layout: &Layout, meets_lock: bool) -> bool {
    part.rows
        .iter()
        .any(|shown| goes_to_key(layout, shown.row, meets_lock))
}

// Whether a sign stands in a drawing, of which this is the markup.
fn stands(sign: Sign, part: &Part<'_>, layout: &Layout, markup: &str) -> bool {
    match sign {
        Sign::Step => markup.contains("class=\"dot\""),
        Sign::Refused => markup.contains("class=\"reason\""),
        Sign::Ends => markup.contains("class=\"ends\""),
        Sign::TwoPhase => markup.contains("class=\"two-phase\""),
        Sign::Async => markup.contains("class=\"async\""),
        Sign::Commit => markup.contains("class=\"commit\""),
        Sign::Rollback => markup.contains("class=\"rollback\""),
        Sign::Read => markup.contains("class=\"read\""),
        Sign::Arrow => is_at_key(part, layout, false),
        Sign::MetLock => is_at_key(part, layout, true),
        Sign::Beyond => is_beyond(part, layout),
        Sign::Twice => is_sent(part, Sending::Twice),
        Sign::Lost => is_sent(part, Sending::Lost),
        Sign::ReplyLost => is_sent(part, Sending::ReplyLost),
        Sign::Held => is_sent(part, Sending::Held),
        Sign::Machine => layout.machine.is_some(),
    }
}

/// A caption that is being made.
#[derive(Drop)]
pub(crate) struct Caption {
    pub markup: String,
    /// How far down its last line ends.
    pub bottom: usize,
    /// How wide it is together with the drawing.
    pub width: usize,
    // Where the next sign stands, if its line has room for it.
    right: usize,
}

impl Caption {
    // Nothing yet, below a drawing.
    fn new(alloc: Global, layout: &Layout) -> Caption {
        Caption {
            markup: String::new(alloc),
            bottom: layout.height.saturating_add(LINE_HEIGHT),
            width: layout.width,
            right: LEFT,
        }
    }

    // Appends a sign and its words, on the next line where this one has no room for them.
    fn put(&mut self, sign: Sign) -> Result<(), AllocError> {
        let words = sign.words();
        let width = places(words)
            .saturating_mul(SMALL_PLACE)
            .saturating_add(SIGN_WIDTH);
        if self.right > LEFT && self.right.saturating_add(width) > self.width {
            self.right = LEFT;
            self.bottom = self.bottom.saturating_add(LINE_HEIGHT);
        }
        let place = at(self.right, self.bottom.saturating_sub(LINE_HEIGHT / 2));
        sign.put(&mut self.markup, place)?;
        let beside = place.right(SIGN_WIDTH).down(3);
        put_words(&mut self.markup, "sign", beside, words)?;
        let end = self.right.saturating_add(width);
        self.width = self.width.max(end);
        self.right = end.saturating_add(BETWEEN_SIGNS);
        Ok(())
    }
}

/// The caption of a drawing that has this markup: its signs, each with what it means.
pub(crate) fn caption_of(
    alloc: Global,
    part: &Part<'_>,
    layout: &Layout,
    markup: &str,
) -> Result<Caption, AllocError> {
    let mut caption = Caption::new(alloc, layout);
    caption.markup.push_str("<g class=\"caption\">\n")?;
    'signs: for sign in SIGNS {
        if stands(sign, part, layout, markup) {
            caption.put(sign)?;
        }
    }
    caption.markup.push_str("</g>\n")?;
    Ok(caption)
}
