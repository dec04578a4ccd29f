//! The elements of a drawing as markup.
use std::alloc::AllocError;
use tx_html::put_text;

/// A place of a drawing, in its units: to the right, and down.
#[derive(Clone, Copy, Debug)]
pub(crate) struct Point {
    pub x: usize,
    pub y: usize,
}

/// A box of a drawing, by its corner at the top left.
#[derive(Clone, Copy, Debug)]
pub(crate) struct Area {
    pub corner: Point,
    pub width: usize,
    pub height: usize,
}

/// A place.
pub(crate) fn at(x: usize, y: usize) -> Point {
    Point { x, y }
}

impl Point {
    /// The place so far to the right.
    pub fn right(self, by: usize) -> Point {
        Point {
            x: self.x.saturating_add(by),
            y: self.y,
        }
    }

    /// The place so far to the left, at most at the edge.
    pub fn left(self, by: usize) -> Point {
        Point {
            x: self.x.saturating_sub(by),
            y: self.y,
        }
    }

    /// The place so far down.
    pub fn down(self, by: usize) -> Point {
        Point {
            x: self.x,
            y: self.y.saturating_add(by),
        }
    }

    /// The place so far up, at most at the edge.
    pub fn up(self, by: usize) -> Point {
        Point {
            x: self.x,
            y: self.y.saturating_sub(by),
        }
    }
}

/// Appends words of a class that begin at a place.
pub(crate) fn put_words(
    out: &mut String,
    class: &str,
    place: Point,
    words: &str,
) -> Result<(), AllocError> {
    let Point { x, y } = place;
    let head = format!(in *out.allocator(); "<text class=\"{class}\" x=\"{x}\" y=\"{y}\">")?;
    out.push_str(head.as_str())?;
    put_text(out, words)?;
    out.push_str("</text>\n")
}

/// Appends a box of a class.
pub(crate) fn put_box(out: &mut String, class: &str, area: Area) -> Result<(), AllocError> {
    let Area {
        corner,
        width,
        height,
    } = area;
    let Point { x, y } = corner;
    let element = format!(in *out.allocator();
        "<rect class=\"{class}\" x=\"{x}\" y=\"{y}\" width=\"{width}\" height=\"{height}\"/>\n"
    )?;
    out.push_str(element.as_str())
}

/// Appends a line of a class.
pub(crate) fn put_line(
    out: &mut String,
    class: &str,
    from: Point,
    to: Point,
) -> Result<(), AllocError> {
    let (x1, y1, x2, y2) = (from.x, from.y, to.x, to.y);
    let element = format!(in *out.allocator();
        "<line class=\"{class}\" x1=\"{x1}\" y1=\"{y1}\" x2=\"{x2}\" y2=\"{y2}\"/>\n"
    )?;
    out.push_str(element.as_str())
}

/// Appends a mark of a class: a path that begins at a place.
pub(crate) fn put_mark(
    out: &mut String,
    class: &str,
    place: Point,
    path: &str,
) -> Result<(), AllocError> {
    let Point { x, y } = place;
    let element = format!(in *out.allocator(); "<path class=\"{class}\" d=\"M{x} {y}{path}\"/>\n")?;
    out.push_str(element.as_str())
}

/// Appends a dot of a class.
pub(crate) fn put_dot(
    out: &mut String,
    class: &str,
    place: Point,
    radius: usize,
) -> Result<(), AllocError> {
    let Point { x, y } = place;
    let element = format!(in *out.allocator();
        "<circle class=\"{class}\" cx=\"{x}\" cy=\"{y}\" r=\"{radius}\"/>\n"
    )?;
    out.push_str(element.as_str())
}

/// Appends a cross whose middle is at a place.
pub(crate) fn put_cross(out: &mut String, place: Point) -> Result<(), AllocError> {
    put_mark(out, "cross", place.left(4).up(4), "l8 8m0 -8l-8 8")
}

/// Appends an arrow, whose head is at its end.
pub(crate) fn put_arrow(out: &mut String, from: Point, to: Point) -> Result<(), AllocError> {
    put_line(out, "sent", from, to)?;
    put_mark(out, "sent", to.left(6).up(3), "l6 3l-6 3")
}
