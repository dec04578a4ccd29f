//! Scripts in one file, one below another: a line with a title, then each step with the reply that
//! it gets, a tab between them. A trace has its verdict behind its last step, and a checked script
//! has what follows its replies on lines with no step.
use crate::kind::{Kind, end_of};
use anyhow::Result;
use std::fs;

// What is run, and what it writes.
#[derive(Drop)]
struct Row {
    input: Vec<u8>,
    shown: Vec<u8>,
}

// Adds a line, if it is not empty, and its newline.
fn put_line(text: &mut Vec<u8>, line: &str) -> Result<()> {
    if !line.is_empty() {
        text.extend_from_slice(line.as_bytes())?;
        text.push(b'\n')?;
    }
    Ok(())
}

// The row of these lines, which follow its title.
fn row_of<R: AllocGlobal>(rt: &R, lines: &str) -> Result<Row> {
    let mut input = Vec::new(rt.alloc());
    let mut shown = Vec::new(rt.alloc());
    for line in lines.split('\n') {
        let (step, reply) = line.rsplit_once('\t').unwrap_or((line, ""));
        put_line(&mut input, step)?;
        put_line(&mut shown, reply)?;
    }
    Ok(Row { input, shown })
}

// Whether the row under this title ends as what is shown tells, and writes it.
fn is_shown(rt: &HostRuntime, kind: Kind, lines: &str) -> Result<bool> {
    let row = row_of(rt, lines)?;
    let mut written = Vec::new(rt.alloc());
    let ended = kind.run(rt, row.input.as_slice(), &mut written);
    Ok(ended == Some(end_of(row.shown.as_slice())) && written.as_slice() == row.shown.as_slice())
}

/// How many rows of a file write what they show. The title of each other row is printed.
pub fn count_shown(rt: &HostRuntime, name: &str, kind: Kind) -> Result<usize> {
    let text = fs::read_to_string(rt, name)?;
    let mut count = 0_usize;
    for block in text.split("\n# ").skip(1) {
        let (title, lines) = block.split_once('\n').unwrap_or((block, ""));
        if is_shown(rt, kind, lines)? {
            count = count.wrapping_add(1);
        } else {
            println!(rt; "{name}: {title}: writes something else than is shown")?;
        }
    }
    Ok(count)
}
