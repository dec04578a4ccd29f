//! The lines of a run as rows of a table.
use std::alloc::{AllocError, Global};
use tx_cut::{Part, Row, ShownRow, put_number, shown};
use tx_html::put_text;
use tx_picture::{changed_words, put_sending};

// Appends a cell of these words.
fn put_cell(out: &mut String, words: &str) -> Result<(), AllocError> {
    out.push_str("<td>")?;
    put_text(out, words)?;
    out.push_str("</td>")
}

// Appends the cell of a row's session.
fn put_session(
    alloc: Global,
    out: &mut String,
    part: &Part<'_>,
    row: &Row,
) -> Result<(), AllocError> {
    match part.life_of(row) {
        Some(life) => put_cell(out, shown(alloc, life.name)?.as_str()),
        None => put_cell(out, ""),
    }
}

// Appends the cell of what was replied: of a refusal its reason as well.
fn put_reply(alloc: Global, out: &mut String, row: &Row) -> Result<(), AllocError> {
    let mut words = String::from_str(alloc, row.answer.as_str())?;
    if row.is_refused() {
        words.push_str(": ")?;
        words.push_str(row.reason.as_str())?;
    }
    put_cell(out, words.as_str())
}

// Appends the cell of the machine's steps.
fn put_machine(alloc: Global, out: &mut String, row: &Row) -> Result<(), AllocError> {
    let mut words = String::new(alloc);
    'steps: for step in &row.machine {
        if !words.is_empty() {
            words.push_str("; ")?;
        }
        words.push_str(step.as_str())?;
    }
    put_cell(out, words.as_str())
}

// Appends a row: an element with its number as its name, so that an address can name it.
fn put_row(
    alloc: Global,
    out: &mut String,
    part: &Part<'_>,
    shown: ShownRow<'_>,
) -> Result<(), AllocError> {
    let ShownRow { number, row } = shown;
    out.push_str("<tr id=\"")?;
    put_number(out, number)?;
    out.push_str(if row.is_refused() {
        "\" class=\"no\">"
    } else {
        "\">"
    })?;
    out.push_str("<th scope=\"row\">")?;
    put_number(out, number)?;
    out.push_str("</th>")?;
    put_session(alloc, out, part, row)?;
    let mut step = String::from_str(alloc, row.step.as_str())?;
    put_sending(&mut step, row)?;
    put_cell(out, step.as_str())?;
    put_reply(alloc, out, row)?;
    let changed = changed_words(alloc, part, row.changes.as_slice())?;
    put_cell(out, changed.as_str())?;
    put_machine(alloc, out, row)?;
    out.push_str("</tr>\n")
}

/// The lines of a run as rows of a table, as markup.
pub(crate) fn rows_of(alloc: Global, part: &Part<'_>) -> Result<String, AllocError> {
    let mut out = String::new(alloc);
    'rows: for shown in &part.rows {
        put_row(alloc, &mut out, part, *shown)?;
    }
    Ok(out)
}
