//! The sessions of a script, and their columns: a column is free again when its session has ended,
//! and is used again where there are some already.
use crate::row::Session;
use std::alloc::{AllocError, Global};
use tx_film::Frame;
use tx_reply::ScriptReply;

/// So many columns there are before one that is free is used again.
const FEW_COLUMNS: usize = 4;

/// All sessions so far, and in each column the place of the one that lives.
#[derive(Drop)]
pub(crate) struct Sessions {
    all: Vec<Session>,
    live: Vec<Option<usize>>,
}

// The place of the live session of a name.
fn live_of(all: &[Session], live: &[Option<usize>], name: &str) -> Option<usize> {
    'live: for place in live.iter().flatten() {
        if let Some(session) = all.get(*place) {
            if session.name.as_str() == name {
                return Some(*place);
            }
        }
    }
    None
}

impl Sessions {
    pub fn new(alloc: Global) -> Sessions {
        Sessions {
            all: Vec::new(alloc),
            live: Vec::new(alloc),
        }
    }

    /// All sessions, and how many columns they have.
    pub fn into_parts(self) -> (Vec<Session>, usize) {
        let Sessions { all, live } = self;
        (all, live.len())
    }

    // The first column that is free, where there are some already.
    fn free_column(&self) -> Option<usize> {
        if self.live.len() < FEW_COLUMNS {
            return None;
        }
        self.live.iter().position(|live| live.is_none())
    }

    // The column of the session of this place: one that is free, or a new one.
    fn take_column(&mut self, place: usize) -> Result<usize, AllocError> {
        if let Some(column) = self.free_column() {
            if let Some(live) = self.live.get_mut(column) {
                *live = Some(place);
            }
            return Ok(column);
        }
        let column = self.live.len();
        self.live.push(Some(place))?;
        Ok(column)
    }

    /// The place of the live session of a name; where none lives, of one that this row begins.
    pub fn of(&mut self, alloc: Global, name: &str, row: usize) -> Result<usize, AllocError> {
        if let Some(place) = live_of(self.all.as_slice(), self.live.as_slice(), name) {
            return Ok(place);
        }
        let place = self.all.len();
        let name = String::from_str(alloc, name)?;
        let column = self.take_column(place)?;
        self.all.push(Session {
            name,
            column,
            start: None,
            begins: row,
            ends: None,
        })?;
        Ok(place)
    }

    /// Notes where a session starts, where the reply says that.
    pub fn note(&mut self, place: usize, frame: &Frame) {
        if let (Some(session), Ok(ScriptReply::Start(start))) = (
            self.all.get_mut(place),
            &frame.reply,
        ) {
            session.start = Some(start.get());
        }
    }

    /// Where the transaction of a session started.
    pub fn start(&self, place: usize) -> Option<u64> {
        self.all.get(place)?.start
    }

    /// Whether a session began.
    pub fn is_begun(&self, place: usize) -> bool {
        self.start(place).is_some()
    }

    /// A session ends by this row: its column is free.
    pub fn end(&mut self, place: usize, row: usize) {
        let Some(session) = self.all.get_mut(place) else {
            return;
        };
        session.ends = Some(row);
        if let Some(live) = self.live.get_mut(session.column) {
            *live = None;
        }
    }
}
