//! A part of a sheet as a drawing.
use crate::caption::caption_of;
use crate::frame::{put_frame, put_opening};
use crate::label::{label_of, machine_words};
use crate::layout::{LEFT, Layout, row_height};
use crate::locks::Bars;
use crate::markup::{at, put_words};
use crate::rows::{HeldBox, put_dot_and_label, put_machine, put_reads, put_reason, put_sending};
use std::alloc::{AllocError, Global};
use tx_cut::{HiddenLock, Part, Row, RowKind, ShownRow, put_number};

// A drawing that is being made: what lies under, the grounds of words, what no ground may hide, and
// what lies over all.
#[derive(Drop)]
struct Drawing {
    alloc: Global,
    layout: Layout,
    under: String,
    grounds: String,
    middle: String,
    over: String,
    bars: Bars,
    boxes: Vec<HeldBox>,
}

// The words over each step.
fn labels_of(alloc: Global, part: &Part<'_>) -> Result<Vec<String>, AllocError> {
    let mut labels = Vec::new(alloc);
    'rows: for (place, shown) in part.rows.iter().enumerate() {
        labels.push(label_of(alloc, part, place, shown.row)?)?;
    }
    Ok(labels)
}

impl Drawing {
    // The frame of a part of a sheet whose steps have these words.
    fn new(alloc: Global, part: &Part<'_>, labels: &[String]) -> Result<Drawing, AllocError> {
        let layout = Layout::of(alloc, part, labels)?;
        let mut under = String::new(alloc);
        put_frame(&mut under, &layout, part)?;
        Ok(Drawing {
            alloc,
            layout,
            under,
            grounds: String::new(alloc),
            middle: String::new(alloc),
            over: String::new(alloc),
            bars: Bars::new(alloc, part.keys.len())?,
            boxes: Vec::new(alloc),
        })
    }

    // The number of a line.
    fn put_number(&mut self, y: usize, number: u64) -> Result<(), AllocError> {
        let mut words = String::new(self.alloc);
        put_number(&mut words, number)?;
        put_words(&mut self.over, "number", at(6, y).down(4), words.as_str())
    }

    // A step, where its requests went and what changed by it.
    fn put_step(
        &mut self,
        part: &Part<'_>,
        y: usize,
        row: &Row,
        label: &str,
    ) -> Result<(), AllocError> {
        let Some(column) = self.layout.sender(part.column_of(row)) else {
            return Ok(());
        };
        let place = at(column.line, y);
        put_dot_and_label(&mut self.grounds, &mut self.over, row, place, label)?;
        put_sending(
            self.alloc,
            &mut self.middle,
            &mut self.over,
            &self.layout,
            &mut self.boxes,
            column.begins,
            row,
            place,
        )?;
        put_reads(self.alloc, &mut self.over, &self.layout, y, row)?;
        self.bars.put_changes(
            self.alloc,
            &mut self.middle,
            &mut self.over,
            &self.layout,
            y,
            row,
        )?;
        let begins = self.layout.reason_begins(part, row);
        put_reason(
            &mut self.grounds,
            &mut self.over,
            at(begins, y),
            row.reason.as_str(),
        )
    }

    // The machine's steps at a row.
    fn put_machine(&mut self, y: usize, row: &Row) -> Result<(), AllocError> {
        let Some(column) = self.layout.machine else {
            return Ok(());
        };
        let words = machine_words(self.alloc, row)?;
        put_machine(&mut self.over, at(column.line, y), words.as_str())
    }

    // A line that is no step.
    fn put_other(&mut self, y: usize, row: &Row, label: &str) -> Result<(), AllocError> {
        put_words(&mut self.over, "reason", at(LEFT, y), label)?;
        put_reason(
            &mut self.grounds,
            &mut self.over,
            at(LEFT, y),
            row.reason.as_str(),
        )
    }

    // The row at this place.
    fn put_row(
        &mut self,
        part: &Part<'_>,
        place: usize,
        shown: ShownRow<'_>,
        label: &str,
    ) -> Result<(), AllocError> {
        let (row, y) = (shown.row, row_height(place));
        self.put_number(y, shown.number)?;
        self.put_machine(y, row)?;
        match row.kind {
            RowKind::Regions => Ok(()),
            RowKind::Step => self.put_step(part, y, row, label),
            RowKind::Other => self.put_other(y, row, label),
        }
    }

    // What lines that are not shown changed of locks, before the row at this place.
    fn put_hidden(&mut self, place: usize, locks: &[HiddenLock<'_>]) -> Result<(), AllocError> {
        self.bars.put_hidden(
            self.alloc,
            &mut self.middle,
            &mut self.over,
            &self.layout,
            place,
            locks,
        )
    }

    // The rows, each behind what lines before it changed that are not shown.
    fn put_rows(&mut self, part: &Part<'_>, labels: &[String]) -> Result<(), AllocError> {
        'rows: for (place, hidden) in part.hidden.iter().enumerate() {
            self.put_hidden(place, hidden.as_slice())?;
            if let (Some(shown), Some(label)) = (part.rows.get(place), labels.get(place)) {
                self.put_row(part, place, *shown, label.as_str())?;
            }
        }
        Ok(())
    }

    // The whole drawing, with its caption.
    fn finish(mut self, part: &Part<'_>) -> Result<String, AllocError> {
        self.bars.put_rest(&mut self.middle, &self.layout)?;
        let Drawing {
            alloc,
            layout,
            under: mut body,
            grounds,
            middle,
            over,
            ..
        } = self;
        body.push_str(grounds.as_str())?;
        body.push_str(middle.as_str())?;
        body.push_str(over.as_str())?;
        let caption = caption_of(alloc, part, &layout, body.as_str())?;
        let mut whole = String::new(alloc);
        let height = caption.bottom.saturating_add(8);
        put_opening(&mut whole, part, caption.width, height)?;
        whole.push_str(body.as_str())?;
        whole.push_str(caption.markup.as_str())?;
        whole.push_str("</svg>\n")?;
        Ok(whole)
    }
}

/// The drawing of a part of a sheet: a column a session and a key, time down, and a caption below.
pub fn svg_of(alloc: Global, part: &Part<'_>) -> Result<String, AllocError> {
    let labels = labels_of(alloc, part)?;
    let mut drawing = Drawing::new(alloc, part, labels.as_slice())?;
    drawing.put_rows(part, labels.as_slice())?;
    drawing.finish(part)
}
