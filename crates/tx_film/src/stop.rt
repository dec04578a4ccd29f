//! Where a script stopped that is at fault.
use crate::frame::Film;
use std::alloc::{AllocError, Global};
use tx_ops::SessionStage;
use tx_text::put_fault;

/// Where a script stopped that is at fault, for who tells why.
#[derive(Debug, Drop)]
pub struct ScriptStop {
    /// The number of its line, from 1 up.
    pub number: u64,
    /// The line, without its newline.
    pub line: Vec<u8>,
    /// The line of its fault as it was played, with its newline: it names the cause.
    pub reply: Vec<u8>,
    /// How far the session of that line was, where the line is a draw, a commit or an abort that it
    /// may not make.
    pub stage: Option<SessionStage>,
}

/// Where a script of these lines stopped, by the film of its play: at the last line that was
/// played, where that is at fault.
#[cold]
pub fn stop_of(
    alloc: Global,
    lines: &[&[u8]],
    film: &Film,
) -> Result<Option<ScriptStop>, AllocError> {
    let count = film.frames().len();
    let (Some(line), Some(frame)) = (lines.get(count.saturating_sub(1)), film.frames().last())
    else {
        return Ok(None);
    };
    let Err(cause) = &frame.reply else {
        return Ok(None);
    };
    let mut reply = Vec::new(alloc);
    put_fault(&mut reply, count as u64, *cause)?;
    Ok(Some(ScriptStop {
        number: count as u64,
        line: line.to_vec(alloc)?,
        reply,
        stage: film.stage(),
    }))
}
