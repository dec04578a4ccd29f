//! What stands around the rows: the head of the drawing, bands of regions, heads and lines.
use crate::layout::{Column, HEAD, Layout, TOP, row_height};
use crate::markup::{Area, at, put_box, put_line, put_words};
use std::alloc::{AllocError, Global};
use tx_cut::{Life, Part, put_number, put_stamp, shown};

// How each class looks: sizes of words, colours.
static STYLE: &str = "<style>\
    text{fill:#222}\
    .number,.region{fill:#666;font-size:10px}\
    .session,.key{font-weight:bold;font-size:12px}\
    .session,.step,.refused{text-anchor:middle}\
    .seen{fill:#333;font-size:10px}\
    .refused,.reason{fill:#b00020}\
    .reason{font-size:10px}\
    .back{fill:#fff;opacity:.85}\
    .even{fill:#f4f6f9}\
    .odd{fill:#e9edf2}\
    .life{stroke:#bbb}\
    .ends{stroke:#444;stroke-width:2}\
    .line{stroke:#bbb;stroke-dasharray:2 3}\
    .dot{fill:#444}\
    .sent{stroke:#33598f;fill:none}\
    .waits{stroke:#33598f;stroke-dasharray:4 3}\
    .held{stroke:#33598f;fill:#fff}\
    .cross{stroke:#b00020;stroke-width:1.8;fill:none}\
    .two-phase{fill:#f2b134}\
    .async{fill:#4aa8b3}\
    .commit{fill:#2e7d32}\
    .rollback{fill:#b00020}\
    .read{stroke:#33598f;fill:#fff}\
    .sign{fill:#333;font-size:10px}\
    </style>\n";

// Appends what the drawing is of: the run of a script, or of some of its lines.
fn put_title(out: &mut String, part: &Part<'_>) -> Result<(), AllocError> {
    out.push_str("<title>The run of a script")?;
    if let (true, Some(first), Some(last)) = (part.is_cut, part.rows.first(), part.rows.last()) {
        put_stamp(out, ", from line ", first.number)?;
        put_stamp(out, " to line ", last.number)?;
    }
    out.push_str("</title>\n")
}

/// Appends how the drawing of a part of a sheet begins: its size, and how its parts look.
pub(crate) fn put_opening(
    out: &mut String,
    part: &Part<'_>,
    width: usize,
    height: usize,
) -> Result<(), AllocError> {
    let head = format!(in *out.allocator();
        "<svg xmlns=\"http://www.w3.org/2000/svg\" width=\"{width}\" height=\"{height}\" viewBox=\"0 0 {width} {height}\" "
    )?;
    out.push_str(head.as_str())?;
    out.push_str("font-family=\"DejaVu Sans,Helvetica,Arial,sans-serif\" font-size=\"11\">\n")?;
    put_title(out, part)?;
    out.push_str(STYLE)?;
    let page = format!(in *out.allocator();
        "<rect width=\"{width}\" height=\"{height}\" fill=\"#fff\"/>\n"
    )?;
    out.push_str(page.as_str())
}

// The keys of a region that are shown: where their columns begin and end.
#[derive(Clone, Copy, Drop)]
struct Band {
    region: usize,
    begins: usize,
    ends: usize,
}

// Puts the column of a key of a region behind bands: into the last where that is of its region.
fn put_column_in(bands: &mut Vec<Band>, region: usize, column: Column) -> Result<(), AllocError> {
    match bands.last_mut() {
        Some(band) if band.region == region => {
            band.ends = column.ends();
            Ok(())
        }
        _ => Ok(bands.push(Band {
            region,
            begins: column.begins,
            ends: column.ends(),
        })?),
    }
}

// A band for each region of which keys are shown.
fn bands_of(alloc: Global, layout: &Layout, part: &Part<'_>) -> Result<Vec<Band>, AllocError> {
    let mut bands = Vec::new(alloc);
    'keys: for (key, column) in part.keys.iter().zip(layout.keys.as_slice()) {
        if let (Some(key), Some(column)) = (key, column) {
            put_column_in(&mut bands, key.region, *column)?;
        }
    }
    Ok(bands)
}

// Appends the band of a region behind its keys.
fn put_band(out: &mut String, layout: &Layout, band: Band) -> Result<(), AllocError> {
    let class = if band.region % 2 == 0 { "even" } else { "odd" };
    let area = Area {
        corner: at(band.begins, 14),
        width: band.ends.saturating_sub(band.begins),
        height: layout.height.saturating_sub(20),
    };
    put_box(out, class, area)?;
    let mut name = String::from_str(*out.allocator(), "region ")?;
    put_number(&mut name, (band.region as u64).saturating_add(1))?;
    let place = at(band.begins.saturating_add(5), 27);
    put_words(out, "region", place, name.as_str())
}

// Appends a band for each region of which keys are shown.
fn put_bands(out: &mut String, layout: &Layout, part: &Part<'_>) -> Result<(), AllocError> {
    let bands = bands_of(*out.allocator(), layout, part)?;
    'bands: for band in &bands {
        put_band(out, layout, *band)?;
    }
    Ok(())
}

// Appends the head of a column and its line.
fn put_column(
    out: &mut String,
    layout: &Layout,
    classes: (&str, &str),
    column: Column,
    name: &str,
) -> Result<(), AllocError> {
    let (head, line) = classes;
    put_words(out, head, at(column.line, HEAD), name)?;
    let end = at(column.line, layout.bottom());
    put_line(out, line, at(column.line, TOP), end)
}

// Appends the line of a session, down to the row by which it ended; and that it ended there.
fn put_life(out: &mut String, layout: &Layout, life: Life<'_>) -> Result<(), AllocError> {
    let Some(column) = layout.sessions.get(life.column) else {
        return Ok(());
    };
    let from = at(column.line, row_height(life.begins));
    let Some(last) = life.ends else {
        return put_line(out, "life", from, at(column.line, layout.bottom()));
    };
    let end = at(column.line, row_height(last)).down(9);
    put_line(out, "life", from, end)?;
    if life.start.is_none() {
        return Ok(());
    }
    put_line(out, "ends", end.left(8), end.right(8))
}

// Appends the name of a session at the head of its column, and its line from there on.
fn put_name(out: &mut String, layout: &Layout, life: Life<'_>) -> Result<(), AllocError> {
    let Some(column) = layout.sessions.get(life.column) else {
        return Ok(());
    };
    let name = shown(*out.allocator(), life.name)?;
    put_words(out, "session", at(column.line, HEAD), name.as_str())?;
    let from = at(column.line, TOP);
    put_line(out, "life", from, at(column.line, row_height(life.begins)))
}

// Appends the columns of sessions, and of steps of none.
fn put_sessions(out: &mut String, layout: &Layout, part: &Part<'_>) -> Result<(), AllocError> {
    'sessions: for life in part.sessions.iter().flatten() {
        if life.is_head {
            put_name(out, layout, *life)?;
        }
        put_life(out, layout, *life)?;
    }
    let classes = ("session", "life");
    match layout.system {
        Some(column) => put_column(out, layout, classes, column, "(system)"),
        None => Ok(()),
    }
}

// Appends the columns of keys that are shown.
fn put_keys(out: &mut String, layout: &Layout, part: &Part<'_>) -> Result<(), AllocError> {
    let classes = ("key", "line");
    'keys: for (key, column) in part.keys.iter().zip(layout.keys.as_slice()) {
        if let (Some(key), Some(column)) = (key, column) {
            put_column(out, layout, classes, *column, key.name.as_str())?;
        }
    }
    Ok(())
}

// Appends the column of the machine's steps, where some are shown.
fn put_machine(out: &mut String, layout: &Layout) -> Result<(), AllocError> {
    match layout.machine {
        Some(column) => put_column(out, layout, ("key", "life"), column, "(machine)"),
        None => Ok(()),
    }
}

/// Appends what stands around the rows of a part of a sheet.
pub(crate) fn put_frame(
    out: &mut String,
    layout: &Layout,
    part: &Part<'_>,
) -> Result<(), AllocError> {
    put_bands(out, layout, part)?;
    put_sessions(out, layout, part)?;
    put_keys(out, layout, part)?;
    put_machine(out, layout)
}
