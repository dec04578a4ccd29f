//! The words of the rows of a script that was played, one row after another.
use crate::reason::put_reason;
use crate::reply::{Reply, put_reply, reply_of};
use crate::row::{RowKind, Sending};
use crate::sessions::Sessions;
use crate::step::{held_as, is_last, put_step, sending_of};
use crate::words::put_shown;
use serde_json::Value;
use std::alloc::{AllocError, Global};
use tx_film::{Frame, session_named};
use tx_reply::{ScriptReply, put_reply as put_reply_line};
use tx_steps::{Line, Program, Step};
use tx_text::{Broken, Parts, put_fault, value_of};

/// What a row says of its line in words.
#[derive(Drop)]
pub(crate) struct RowWords {
    pub kind: RowKind,
    pub session: Option<usize>,
    pub step: String,
    pub sending: Sending,
    pub held: String,
    pub answer: String,
    pub reason: String,
}

// Appends the list that a line has behind its word.
fn put_list(alloc: Global, out: &mut String, value: &Value) -> Result<(), AllocError> {
    let Some(members) = value.as_array() else {
        return Ok(());
    };
    if let Some(list) = members.get(1) {
        let text = format!(in alloc; "{list}")?;
        put_shown(out, text.as_str())?;
    }
    Ok(())
}

// No words yet.
fn no_words(alloc: Global) -> RowWords {
    RowWords {
        kind: RowKind::Other,
        session: None,
        step: String::new(alloc),
        sending: Sending::Plain,
        held: String::new(alloc),
        answer: String::new(alloc),
        reason: String::new(alloc),
    }
}

// The reply to a line as a line tells it, without its newline.
fn reply_text(alloc: Global, number: u64, frame: &Frame) -> Result<Vec<u8>, AllocError> {
    let mut text = Vec::new(alloc);
    match &frame.reply {
        Ok(reply) => put_reply_line(&mut text, number, reply)?,
        Err(cause) => put_fault(&mut text, number, *cause)?,
    }
    text.pop();
    Ok(text)
}

// The words of a line that is no step.
fn other_words(words: &mut RowWords, reply: Reply<'_>) -> Result<(), AllocError> {
    words.step.push_str("(no step)")?;
    put_reason(&mut words.reason, reply, None)
}

// The words of the line that says the regions.
fn regions_words(
    alloc: Global,
    words: &mut RowWords,
    line: &[u8],
    reply: Reply<'_>,
) -> Result<(), Broken> {
    words.kind = RowKind::Regions;
    words.step.push_str("regions ")?;
    if let Ok(value) = value_of(alloc, line)? {
        put_list(alloc, &mut words.step, &value)?;
    }
    Ok(put_reply(&mut words.answer, reply)?)
}

/// A line of a script that was played, and its place.
#[derive(Clone, Copy)]
pub(crate) struct Played<'a> {
    pub place: usize,
    pub line: &'a [u8],
    pub frame: &'a Frame,
    /// Whether regions took requests by it.
    pub is_taken: bool,
}

impl Sessions {
    // The words of a step.
    fn step_words(
        &mut self,
        alloc: Global,
        words: &mut RowWords,
        played: Played<'_>,
        step: &Step<&str>,
        reply: Reply<'_>,
    ) -> Result<(), AllocError> {
        words.kind = RowKind::Step;
        put_step(&mut words.step, step)?;
        put_reply(&mut words.answer, reply)?;
        let is_lost = matches!(played.frame.reply, Ok(ScriptReply::Lost));
        words.sending = sending_of(step, played.is_taken, is_lost);
        if matches!(words.sending, Sending::Held | Sending::Delivered) {
            put_shown(&mut words.held, held_as(step))?;
        }
        let Some(name) = session_named(step) else {
            return put_reason(&mut words.reason, reply, None);
        };
        let session = self.of(alloc, name, played.place)?;
        words.session = Some(session);
        self.note(session, played.frame);
        put_reason(&mut words.reason, reply, self.start(session))?;
        if (is_last(step) && played.frame.reply.is_ok()) || !self.is_begun(session) {
            self.end(session, played.place);
        }
        Ok(())
    }

    // The words of a line and of its reply.
    fn line_words(
        &mut self,
        alloc: Global,
        words: &mut RowWords,
        played: Played<'_>,
        reply: Reply<'_>,
    ) -> Result<(), Broken> {
        if matches!(played.frame.reply, Ok(ScriptReply::Regions(_))) {
            return regions_words(alloc, words, played.line, reply);
        }
        let mut parts = Parts::new();
        let Ok(said) = Line::read(alloc, 1, played.line, &mut parts)? else {
            return Ok(other_words(words, reply)?);
        };
        match said.step(Program::Simulate) {
            Some(step) => Ok(self.step_words(alloc, words, played, &step, reply)?),
            None => Ok(other_words(words, reply)?),
        }
    }

    // Puts the words of a line.
    fn put_words(
        &mut self,
        alloc: Global,
        words: &mut RowWords,
        played: Played<'_>,
    ) -> Result<(), Broken> {
        let number = (played.place as u64).saturating_add(1);
        let text = reply_text(alloc, number, played.frame)?;
        let Ok(value) = value_of(alloc, text.as_slice())? else {
            return Ok(());
        };
        match reply_of(&value) {
            Some(reply) => self.line_words(alloc, words, played, reply),
            None => Ok(()),
        }
    }

    /// The words of a line.
    pub fn words(&mut self, alloc: Global, played: Played<'_>) -> Result<RowWords, Broken> {
        let mut words = no_words(alloc);
        match self.put_words(alloc, &mut words, played) {
            Ok(()) => Ok(words),
            Err(broken) => {
                drop(words);
                Err(broken)
            }
        }
    }
}
