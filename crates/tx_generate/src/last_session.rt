//! The end of a script: a last session reads every key, and resolves each lock that it meets. What
//! a wrong body has left on a key is seen there, if not before.
use crate::author::Author;
use crate::word::Word;
use tx_core::Answer;
use tx_reply::ScriptReply;
use tx_steps::{Call, Delivery, Op, Step};

/// How far the last session is.
#[derive(Clone, Copy, Debug, Drop, PartialEq, Eq)]
pub(crate) struct LastSession {
    /// Its number, once it has begun.
    reader: Option<u64>,
    /// How many keys it has read.
    keys: u32,
}

impl LastSession {
    pub(crate) fn new() -> LastSession {
        LastSession {
            reader: None,
            keys: 0,
        }
    }

    /// Learns the reply to what was sent: a key is read once no lock stands in the way.
    pub(crate) fn sent(&mut self, call: &Call<Word>, reply: &ScriptReply) {
        let read = match reply {
            ScriptReply::Answered(Answer::KeyIsLocked(_)) => false,
            _ => matches!(call, Call::Get(_)),
        };
        if self.reader.is_some() && read {
            self.keys = self.keys.saturating_add(1);
        }
    }
}

impl Author {
    /// Whether the last session has begun, or is to begin: three lines for each key are left, and
    /// two before them, though not more than half of the script.
    pub(crate) fn closes(&self, left: u64) -> bool {
        let lines = u64::from(self.keys()) * 3 + 2;
        self.last_session.reader.is_some() || left <= lines.min(self.settings.steps / 2)
    }

    /// The next step of the end.
    pub(crate) fn close(&mut self) -> Step<Word> {
        match self.last_session.reader {
            Some(reader) => self.look(reader),
            None if !self.live.is_empty() && self.live.len() >= self.settings.sessions => {
                self.makes_room(0)
            }
            None => {
                let number = self.sessions.wrapping_add(1);
                self.last_session.reader = Some(number);
                Step::Begin(Word::Session(number))
            }
        }
    }

    // The next step of the last session.
    fn look(&mut self, reader: u64) -> Step<Word> {
        self.turn_to(reader);
        let name = Word::Session(reader);
        if self
            .live
            .get(self.turn)
            .is_some_and(|session| session.has_met)
        {
            return Step::Act(name, Op::Resolve(u64::MAX));
        }
        if self.last_session.keys < self.keys() {
            let key = Word::Key(self.last_session.keys as u8);
            return Step::Send(name, Call::Get(key), Delivery::Taken);
        }
        self.look_again(name)
    }

    // Where lines are left when every key is read.
    fn look_again(&mut self, name: Word) -> Step<Word> {
        let key = self.letter(self.settings.keys);
        match self.dice.below(4) {
            0 => {
                let scan = Call::Scan(Word::Key(0), Word::Key(25), 1024);
                Step::Send(name, scan, Delivery::Taken)
            }
            1 => Step::Versions(key),
            _ => Step::Read(key, self.last),
        }
    }
}
