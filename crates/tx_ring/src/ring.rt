//! The parts of a picture of boxes, from its head to its end.
ghost use Rattle.std.specs.Prelude.{◌≡◌, ◌+◌, ◌-◌, ◌++◌, decimal, OnOk};
ghost use Rattle.tx_ring.specs.Rings.{few, high_of, top_of, height_of, width_of, reach_of, size_text, what_text, note_text, looks_text, head_text, place_text, box_text, row_top, row_text, tip_text, word_text, tie_text, box_end_text, close_text, end_text};

use crate::markup::put_text;
use std::alloc::AllocError;
use tx_text::put_digits;

/// More boxes, and longer words, are counted as so many.
const MOST: usize = 0x1_0000_0000;

/// A box has room for so many rows.
const MOST_ROWS: usize = 64;

// As many, up to the most.
fn few(count: usize) -> u64
    ensures { result ≡ few count }
{
    count.min(MOST) as u64
}

// How high a box of so many rows is.
fn high_of(rows: usize) -> u64
    ensures { result ≡ high_of rows }
{
    44 + 14 * rows.min(MOST_ROWS) as u64
}

// How far down the box at a place stands, where each has so many rows.
fn top_of(rows: usize, place: usize) -> u64
    ensures { result ≡ top_of rows place }
{
    72 + (60 + high_of(rows)) * few(place)
}

// How high a picture of so many boxes is.
fn height_of(rows: usize, count: usize) -> u64
    ensures { result ≡ height_of rows count }
{
    90 + (60 + high_of(rows)) * few(count)
}

// How wide a picture is, whose words reach so far.
fn width_of(reach: usize) -> u64
    ensures { result ≡ width_of reach }
{
    (190 + few(reach)).max(452)
}

/// How far the words at an arrow reach, in the units of a picture.
pub fn reach_of(label: &[u8], sense: &[u8]) -> usize
    ensures { result ≡ reach_of label.now sense.now }
{
    let label = 8 * few(label.len());
    let sense = 6 * few(sense.len());
    label.max(sense) as usize
}

// Appends words.
fn put(out: &mut Vec<u8>, words: &str) -> Result<(), AllocError>
    ensures { OnOk result (out.new.items ≡ out.old.items ++ words.now) }
{
    out.extend_from_slice(words.as_bytes())
}

// Appends a size: two numbers with words between.
fn put_size(
    out: &mut Vec<u8>,
    reach: usize,
    between: &str,
    rows: usize,
    count: usize,
) -> Result<(), AllocError>
    ensures { OnOk result (out.new.items ≡ out.old.items ++ size_text reach between.now rows count) }
{
    put_digits(out, width_of(reach))?;
    put(out, between)?;
    put_digits(out, height_of(rows, count))
}

/// What a picture shows.
#[derive(Clone, Copy, Debug, PartialEq, Eq)]
pub enum Subject {
    /// Transactions, each of which has to come before the next one.
    Cycle,
    /// A read, and who is told of with it.
    Read,
}

// What a picture is called.
fn what_of(subject: Subject) -> &'static str
    ensures { result.now ≡ what_text subject }
{
    match subject {
        Subject::Cycle => "A cycle of transactions",
        Subject::Read => "A read that cannot be",
    }
}

// What is said below the title.
fn note_of(subject: Subject) -> &'static str
    ensures { result.now ≡ note_text subject }
{
    match subject {
        Subject::Cycle => "Each has to come before the next one, and the last before the first",
        Subject::Read => "No order of the transactions explains what was read",
    }
}

/// Appends how a picture of so many boxes begins, each of so many rows, whose words reach so far.
pub fn put_head(
    out: &mut Vec<u8>,
    subject: Subject,
    title: &[u8],
    rows: usize,
    count: usize,
    reach: usize,
) -> Result<(), AllocError>
    ensures { OnOk result (out.new.items ≡ out.old.items ++ head_text subject title.now rows count reach) }
{
    put(
        out,
        "<svg xmlns=\"http://www.w3.org/2000/svg\" viewBox=\"0 0 ",
    )?;
    put_size(out, reach, " ", rows, count)?;
    put(out, "\" width=\"")?;
    put_size(out, reach, "\" height=\"", rows, count)?;
    put_looks(out, subject, title)
}

// Appends what a picture is called, how it looks, its title, and what is said below that.
fn put_looks(out: &mut Vec<u8>, subject: Subject, title: &[u8]) -> Result<(), AllocError>
    ensures { OnOk result (out.new.items ≡ out.old.items ++ looks_text subject title.now) }
{
    put(out, FONT)?;
    put(out, what_of(subject))?;
    put(out, LOOKS)?;
    put_text(out, title)?;
    put(out, "</text>\n<text class=\"small\" x=\"20\" y=\"48\">")?;
    put(out, note_of(subject))?;
    put(out, "</text>\n")
}

// The font of its words.
const FONT: &str = "\" font-family=\"DejaVu Sans,Helvetica,Arial,sans-serif\">\n<title>";

// How each class looks: sizes of words, colours.
const LOOKS: &str = "</title>\n\
    <style>text{fill:#222;font-size:12px;font-weight:bold}\
    .title{font-size:15px}.small{fill:#666;font-size:10px;font-weight:normal}\
    .row{fill:#333;font:10px DejaVu Sans Mono,monospace}.box{fill:#f4f6f9;stroke:#8a94a3}\
    path{stroke:#666;stroke-width:1.6;fill:none}\
    .ww path{stroke:#b00020}.wr path{stroke:#2e7d32}.rw path{stroke:#33598f}\
    .ww .kind{fill:#b00020}.wr .kind{fill:#2e7d32}.rw .kind{fill:#33598f}</style>\n\
    <rect width=\"100%\" height=\"100%\" fill=\"#fff\"/>\n\
    <text class=\"title\" x=\"20\" y=\"30\">";

// Appends how far down the box at a place stands.
fn put_top(out: &mut Vec<u8>, rows: usize, place: usize) -> Result<(), AllocError>
    ensures { OnOk result (out.new.items ≡ out.old.items ++ decimal (top_of rows place)) }
{
    put_digits(out, top_of(rows, place))
}

// Appends how high a box of so many rows is.
fn put_high(out: &mut Vec<u8>, rows: usize) -> Result<(), AllocError>
    ensures { OnOk result (out.new.items ≡ out.old.items ++ decimal (high_of rows)) }
{
    put_digits(out, high_of(rows))
}

// Appends where a box begins, and how high it is.
fn put_place(out: &mut Vec<u8>, rows: usize, place: usize, kind: &str) -> Result<(), AllocError>
    ensures { OnOk result (out.new.items ≡ out.old.items ++ place_text rows place kind.now) }
{
    put(out, "<g class=\"")?;
    put(out, kind)?;
    put(out, "\" transform=\"translate(56 ")?;
    put_top(out, rows, place)?;
    put(out, ")\">\n<rect class=\"box\" width=\"372\" height=\"")?;
    put_high(out, rows)
}

/// Appends the beginning of the box at a place, which is of a kind and has so many rows: its name,
/// and what is said of it.
pub fn put_box(
    out: &mut Vec<u8>,
    rows: usize,
    place: usize,
    kind: &str,
    name: &[u8],
    about: &[u8],
) -> Result<(), AllocError>
    ensures { OnOk result (out.new.items ≡ out.old.items ++ box_text rows place kind.now name.now about.now) }
{
    put_place(out, rows, place, kind)?;
    put(out, "\" rx=\"6\"/>\n<text x=\"12\" y=\"18\">transaction ")?;
    put_text(out, name)?;
    put(out, "</text>\n<text class=\"small\" x=\"12\" y=\"33\">")?;
    put_text(out, about)?;
    put(out, "</text>\n")
}

// How far down a row of a box stands.
fn row_top(number: usize) -> u64
    ensures { result ≡ row_top number }
{
    50 + 14 * few(number)
}

// Appends how far down a row of a box stands.
fn put_row_top(out: &mut Vec<u8>, number: usize) -> Result<(), AllocError>
    ensures { OnOk result (out.new.items ≡ out.old.items ++ decimal (row_top number)) }
{
    put_digits(out, row_top(number))
}

/// Appends a row of a box, of its number from 0 on.
pub fn put_row(out: &mut Vec<u8>, number: usize, text: &[u8]) -> Result<(), AllocError>
    ensures { OnOk result (out.new.items ≡ out.old.items ++ row_text number text.now) }
{
    put(out, "<text class=\"row\" x=\"12\" y=\"")?;
    put_row_top(out, number)?;
    put(out, "\">")?;
    put_text(out, text)?;
    put(out, "</text>\n")
}

/// What leads from a box to the next one.
#[derive(Clone, Copy, Debug, PartialEq, Eq)]
pub enum Tie {
    Arrow,
    /// Both are told of alike.
    Line,
    Nothing,
}

// What leads to the next box from the bottom of this one, behind how far down that is.
fn tip_of(tie: Tie) -> &'static str
    ensures { result.now ≡ tip_text tie }
{
    match tie {
        Tie::Arrow => "v58m-5 -8l5 8l5 -8",
        Tie::Line => "v58",
        Tie::Nothing => "",
    }
}

// Appends how far down that is which stands so many units below a box.
fn put_below(out: &mut Vec<u8>, rows: usize, below: u8) -> Result<(), AllocError>
    ensures { OnOk result (out.new.items ≡ out.old.items ++ decimal (high_of rows + below)) }
{
    put_digits(out, high_of(rows) + u64::from(below))
}

// Appends words below a box, so many units below its bottom.
fn put_word(
    out: &mut Vec<u8>,
    rows: usize,
    class: &str,
    below: u8,
    words: &[u8],
) -> Result<(), AllocError>
    ensures { OnOk result (out.new.items ≡ out.old.items ++ word_text rows class.now below words.now) }
{
    put(out, "<text class=\"")?;
    put(out, class)?;
    put(out, "\" x=\"104\" y=\"")?;
    put_below(out, rows, below)?;
    put(out, "\">")?;
    put_text(out, words)?;
    put(out, "</text>\n")
}

/// Appends what leads from a box to the next one, with its words and what shows it, and the end of
/// the box. The arrow of the last box of a ring is drawn at the end.
pub fn put_tie(
    out: &mut Vec<u8>,
    rows: usize,
    tie: Tie,
    label: &[u8],
    sense: &[u8],
    shown: &[u8],
) -> Result<(), AllocError>
    ensures { OnOk result (out.new.items ≡ out.old.items ++ tie_text rows tie label.now sense.now shown.now) }
{
    put(out, "<g><title>")?;
    put_text(out, shown)?;
    put(out, "</title>\n")?;
    put_word(out, rows, "kind", 22, label)?;
    put_word(out, rows, "small", 37, sense)?;
    put(out, "<path d=\"M88 ")?;
    put_high(out, rows)?;
    put(out, tip_of(tie))?;
    put(out, "\"/></g></g>\n")
}

/// Appends the end of a box from which nothing leads on.
pub fn put_end_of_box(out: &mut Vec<u8>) -> Result<(), AllocError>
    ensures { OnOk result (out.new.items ≡ out.old.items ++ box_end_text) }
{
    put(out, "</g>\n")
}

/// Appends the end of a picture that is no ring.
pub fn put_close(out: &mut Vec<u8>) -> Result<(), AllocError>
    ensures { OnOk result (out.new.items ≡ out.old.items ++ close_text) }
{
    put(out, "</svg>\n")
}

// Appends how far down the last of so many boxes ends.
fn put_bottom(out: &mut Vec<u8>, rows: usize, count: usize) -> Result<(), AllocError>
    ensures { OnOk result (out.new.items ≡ out.old.items ++ decimal (top_of rows (count - 1) + high_of rows)) }
{
    put_digits(out, top_of(rows, count.saturating_sub(1)) + high_of(rows))
}

/// Appends the arrow from the last of so many boxes to the first, which is of a kind, and the end.
pub fn put_end(out: &mut Vec<u8>, rows: usize, count: usize, kind: &str) -> Result<(), AllocError>
    ensures { OnOk result (out.new.items ≡ out.old.items ++ end_text rows count kind.now) }
{
    put(out, "<g class=\"")?;
    put(out, kind)?;
    put(out, "\"><path d=\"M144 ")?;
    put_bottom(out, rows, count)?;
    put(out, "v42H30V92h24m-8 -5l8 5l-8 5\"/></g>\n</svg>\n")
}
