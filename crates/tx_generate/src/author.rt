//! Who thinks of the steps of a script, and learns the replies to them.
ghost use Rattle.std.specs.Prelude.{◌<◌, ◌≤◌};

use crate::dice::Dice;
use crate::last_session::LastSession;
use crate::lines::tick;
use crate::play::Play;
use crate::session::LiveSession;
use crate::settings::{MAX_LETTERS, Settings};
use crate::word::Word;
use std::alloc::{AllocError, Global};
use tx_reply::ScriptReply;
use tx_step_text::put_bounds;
use tx_steps::{Call, Delivery, Op, Step};

/// Thinks of steps by chance, and by what the replies so far tell.
#[derive(Drop)]
pub(crate) struct Author {
    pub(crate) settings: Settings,
    pub(crate) dice: Dice,
    pub(crate) live: Vec<LiveSession>,
    /// Which of the live sessions the last thought was of.
    pub(crate) turn: usize,
    /// How many sessions, values and held requests were named.
    pub(crate) sessions: u64,
    pub(crate) values: u64,
    pub(crate) held: u64,
    /// The last timestamp that was told.
    pub(crate) last: u64,
    /// The scene that is being played.
    pub(crate) play: Option<Play>,
    /// How far the last session is.
    pub(crate) last_session: LastSession,
}

impl Author {
    pub(crate) fn new(alloc: Global, settings: Settings) -> Author {
        Author {
            settings,
            dice: Dice::new(settings.seed),
            live: Vec::new(alloc),
            turn: 0,
            sessions: 0,
            values: 0,
            held: 0,
            last: 0,
            play: None,
            last_session: LastSession::new(),
        }
    }

    /// Appends the first line: it says the keys between the regions, or is a tick, where there is
    /// one region.
    pub(crate) fn put_first(&self, line: &mut Vec<u8>) -> Result<(), AllocError> {
        let regions = self.settings.regions.clamp(1, MAX_LETTERS);
        if regions == 1 {
            return line.extend_from_slice(tick());
        }
        let letters = self.settings.keys.clamp(regions, MAX_LETTERS);
        let mut keys = Vec::new(line.allocator().clone()?);
        for region in 1..regions {
            keys.push(Word::Key((region * letters / regions) as u8))?;
        }
        put_bounds(line, keys.as_slice())
    }

    /// How many keys there are.
    pub(crate) fn keys(&self) -> u32
        ensures { (0 < result) × (result ≤ 26) }
    {
        self.settings.keys.clamp(1, MAX_LETTERS)
    }

    /// The next thought is of the live session of this number, or of none.
    pub(crate) fn turn_to(&mut self, number: u64) {
        let at = self
            .live
            .iter()
            .position(|session| session.number == number);
        self.turn = at.unwrap_or(self.live.len());
    }

    /// The place of a live session by chance.
    pub(crate) fn any_turn(&mut self) -> usize {
        self.dice.below(self.live.len().clamp(1, 256) as u32) as usize
    }

    /// The start of the live session of this number, or else the last timestamp.
    pub(crate) fn start_of(&self, number: u64) -> u64 {
        match self.live.iter().find(|session| session.number == number) {
            Some(session) => session.start,
            None => self.last,
        }
    }

    /// The start of a live session by chance.
    pub(crate) fn any_start(&mut self) -> u64 {
        let turn = self.any_turn();
        match self.live.get(turn) {
            Some(session) => session.start,
            None => self.last,
        }
    }

    // A session is gone.
    fn leave(&mut self) {
        if self.turn < self.live.len() {
            self.live.swap_remove(self.turn);
        }
    }

    // Learns what a session did by itself.
    fn did(&mut self, op: &Op<Word>, reply: &ScriptReply) {
        if let Op::Finish | Op::Stop = op {
            return self.leave();
        }
        if let Some(session) = self.live.get_mut(self.turn) {
            session.did(op, reply);
        }
    }

    // Learns what a session sent. A request is held where no answer came of one that was to be.
    fn sent(&mut self, call: &Call<Word>, delivery: &Delivery<Word>, reply: &ScriptReply) {
        if let (Delivery::Held(_), ScriptReply::Lost) = (delivery, reply) {
            self.held = self.held.saturating_add(1);
        }
        self.last_session.sent(call, reply);
        if let Some(session) = self.live.get_mut(self.turn) {
            session.sent(call, reply);
        }
    }

    /// Sees a reply, which may tell the last timestamp.
    pub(crate) fn sees(&mut self, reply: &ScriptReply) {
        if let ScriptReply::Start(at) | ScriptReply::Drawn(at) | ScriptReply::Last(at) = reply {
            self.last = at.get();
        }
    }

    /// Learns the reply to the step that it thought of last.
    pub(crate) fn learn(
        &mut self,
        step: &Step<Word>,
        reply: &ScriptReply,
    ) -> Result<(), AllocError> {
        self.sees(reply);
        match step {
            Step::Begin(_) => {
                self.sessions = self.sessions.wrapping_add(1);
                self.live.push(LiveSession::new(self.sessions, self.last))?;
            }
            Step::Act(_, op) => self.did(op, reply),
            Step::Send(_, call, delivery) => self.sent(call, delivery, reply),
            _ => {}
        }
        Ok(())
    }
}
