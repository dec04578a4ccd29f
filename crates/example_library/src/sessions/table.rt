//! The table: who calls, the call, and what it answers.
use anyhow::Result;
use std::fmt;
use tx_client::Miss;
use tx_core::{Answer, Outcome};
use tx_types::{KeyValues, Ts};

/// The head of the table.
pub fn head<R: Print>(rt: &R) -> Result<()> {
    line(rt, "", "call", "answer")
}

/// A line of it.
pub fn line<R: Print>(rt: &R, who: &str, call: &str, said: &str) -> Result<()> {
    println!(rt; "{who:<3}{call:<21}{said}")?;
    Ok(())
}

/// A line with a timestamp.
pub fn line_at<R: Print>(rt: &R, who: &str, call: &str, at: Ts) -> Result<()> {
    println!(rt; "{who:<3}{call:<21}{at}")?;
    Ok(())
}

// A key or a value as text: each byte as the character that it is in ASCII.
fn write_text<W: fmt::Write>(bytes: &[u8], f: &mut fmt::Formatter<W>) -> fmt::Result {
    for byte in bytes {
        write!(f, "{}", char::from(*byte))?;
    }
    Ok(())
}

fn write_rows<W: fmt::Write>(rows: &KeyValues, f: &mut fmt::Formatter<W>) -> fmt::Result {
    for (place, row) in rows.as_slice().iter().enumerate() {
        if place > 0 {
            write!(f, "  ")?;
        }
        write_text(row.key.as_bytes(), f)?;
        write!(f, " = ")?;
        write_text(row.value.as_bytes(), f)?;
    }
    Ok(())
}

// An answer in words.
#[derive(Clone, Copy)]
struct Words<'a> {
    answer: &'a Answer,
}

impl fmt::Display for Words<'_> {
    fn fmt<W: fmt::Write>(&self, f: &mut fmt::Formatter<W>) -> fmt::Result {
        match self.answer {
            Answer::Found(value) => write_text(value.as_bytes(), f),
            Answer::Nothing => write!(f, "no value"),
            Answer::Rows(rows) => write_rows(rows, f),
            Answer::Prewritten(minimum) if *minimum == Ts::ZERO => write!(f, "locked"),
            Answer::Prewritten(minimum) => write!(f, "locked, commits at {minimum} or above"),
            Answer::Committed(commit) => write!(f, "committed at {commit}"),
            Answer::RolledBack => write!(f, "rolled back"),
            Answer::KeyIsLocked(info) => write!(
                f,
                "locked by the transaction of {}",
                info.facts().start
            ),
            _ => write!(f, "refused"),
        }
    }
}

fn line_answered<R: Print>(rt: &R, who: &str, call: &str, answer: &Answer) -> Result<()> {
    println!(rt; "{who:<3}{call:<21}{}", Words { answer })?;
    Ok(())
}

/// A line with what a read answers.
pub fn line_read<R: Print>(
    rt: &R,
    who: &str,
    call: &str,
    came: Result<Answer, Miss>,
) -> Result<()> {
    let written = match &came {
        Ok(answer) => line_answered(rt, who, call, answer),
        Err(_) => line(rt, who, call, "no answer"),
    };
    drop(came);
    written
}

/// A line with what a request of a commit answers.
pub fn line_sent<R: Print>(
    rt: &R,
    who: &str,
    call: &str,
    came: Result<Option<Answer>, Miss>,
) -> Result<()> {
    let written = match &came {
        Ok(Some(answer)) => line_answered(rt, who, call, answer),
        Ok(None) => line(rt, who, call, "nothing is left to send"),
        Err(_) => line(rt, who, call, "no answer"),
    };
    drop(came);
    written
}

/// A line with an outcome.
pub fn line_ended<R: Print>(rt: &R, who: &str, outcome: Outcome) -> Result<()> {
    match outcome {
        Outcome::Committed(commit) => println!(rt;
            "{who:<3}{:<21}committed at {commit}",
            "finish"
        )?,
        Outcome::Aborted => line(rt, who, "finish", "aborted")?,
        Outcome::Unknown(_) => line(rt, who, "finish", "unknown")?,
        Outcome::ReadOnly => line(rt, who, "finish", "read-only")?,
    }
    Ok(())
}
