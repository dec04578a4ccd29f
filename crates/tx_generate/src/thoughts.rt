//! Steps that are thought of by chance.
use crate::author::Author;
use crate::session::{LiveSession, Stage};
use crate::settings::{MAX_LETTERS, ModeChoice};
use crate::word::Word;
use tx_steps::{Call, Delivery, Op, Step};
use tx_types::Mode;
use tx_types::limits::MAX_HELD_REQUESTS;

impl Author {
    // A letter below this number.
    pub(crate) fn letter(&mut self, bound: u32) -> Word {
        let bound = bound.clamp(1, MAX_LETTERS);
        Word::Key(self.dice.below(bound) as u8)
    }

    // A key, seldom one of no bytes.
    fn key(&mut self) -> Word {
        if self.dice.below(300) == 0 {
            Word::Empty
        } else {
            self.letter(self.settings.keys)
        }
    }

    // A new value, seldom one of too many bytes.
    pub(crate) fn value(&mut self) -> Word {
        self.values = self.values.wrapping_add(1);
        match self.dice.below(1000) {
            0 => Word::TooLong(self.values),
            1..=40 => Word::Long(self.values),
            _ => Word::Value(self.values),
        }
    }

    // A timestamp that was drawn lately, or one not drawn yet.
    fn near(&mut self) -> u64 {
        if self.dice.hits(85) {
            self.last.saturating_sub(u64::from(self.dice.below(8)))
        } else {
            self.last.saturating_add(u64::from(self.dice.below(3)))
        }
    }

    // Where old versions are collected: below most of the live sessions, at the start of one, or
    // too high.
    fn safe_point(&mut self) -> u64 {
        match self.dice.below(8) {
            0 => self.last.saturating_add(1),
            1 | 2 => self.any_start(),
            _ => self.last.saturating_sub(u64::from(self.dice.below(60))),
        }
    }

    // The time at which a lock is asked after.
    fn now(&mut self) -> u64 {
        match self.dice.below(6) {
            0 | 1 => 0,
            2 => self.last,
            3 => self.last.saturating_add(u64::from(self.dice.below(12))),
            4 => self.last.saturating_add(100),
            _ => u64::MAX,
        }
    }

    // What becomes of a request.
    fn delivery(&mut self) -> Delivery<Word> {
        if !self.dice.hits(self.settings.faults) {
            return Delivery::Taken;
        }
        match self.dice.below(6) {
            0 => Delivery::Lost,
            1 => Delivery::Unanswered,
            2 => Delivery::Repeated,
            _ if self.held >= MAX_HELD_REQUESTS as u64 => Delivery::Lost,
            _ => Delivery::Held(Word::Held(self.held.wrapping_add(1))),
        }
    }

    fn edit(&mut self) -> Op<Word> {
        let key = self.key();
        match self.dice.below(9) {
            0 => Op::Delete(key),
            1 => Op::Lock(key),
            2 | 3 => Op::Insert(key, self.value()),
            _ => Op::Put(key, self.value()),
        }
    }

    pub(crate) fn mode(&mut self) -> Mode {
        match self.settings.modes {
            ModeChoice::Only(mode) => mode,
            ModeChoice::Both if self.dice.hits(50) => Mode::Async,
            ModeChoice::Both => Mode::TwoPhase,
        }
    }

    fn declare(&mut self) -> Op<Word> {
        let mode = self.mode();
        let ttl = self.dice.pick(&[0, 1, 3, 5, 10, 10, 50, 50]);
        let max_commit = if mode == Mode::Async && self.dice.hits(25) {
            Some(self.last.saturating_add(u64::from(self.dice.below(8))))
        } else {
            None
        };
        Op::Declare(mode, ttl, max_commit)
    }

    fn read(&mut self) -> Call<Word> {
        if self.dice.hits(75) {
            return Call::Get(self.key());
        }
        let limit = self.dice.pick(&[1, 1, 2, 3, 10, 1024]);
        Call::Scan(self.key(), self.letter(MAX_LETTERS), limit)
    }

    // What a session sends at this stage once it has declared.
    fn due(&mut self, stage: Stage) -> Call<Word> {
        match stage {
            Stage::Open | Stage::Declared => Call::Prewrite,
            Stage::Locked | Stage::Drawn | Stage::Decided => Call::Commit,
            Stage::Refused => Call::Abort,
        }
    }

    // A step of a session that has declared nothing.
    fn open_step(&mut self, session: LiveSession) -> Step<Word> {
        let name = Word::Session(session.number);
        match self.dice.below(100) {
            0..=34 => Step::Send(name, self.read(), self.delivery()),
            35..=74 => Step::Act(name, self.edit()),
            75..=97 if session.has_edits => Step::Act(name, self.declare()),
            75..=97 => Step::Act(name, self.edit()),
            98 => Step::Act(name, Op::Finish),
            _ => Step::Act(name, Op::Stop),
        }
    }

    // A step of a session that has declared.
    fn declared_step(&mut self, session: LiveSession) -> Step<Word> {
        let name = Word::Session(session.number);
        match self.dice.below(100) {
            0..=59 if session.stage == Stage::Locked => Step::Act(name, Op::Draw),
            0..=49 if session.stage == Stage::Decided => Step::Act(name, Op::Finish),
            0..=77 => Step::Send(name, self.due(session.stage), self.delivery()),
            78..=85 => Step::Send(name, self.read(), self.delivery()),
            86..=90 => {
                let ttl = self.dice.pick(&[0, 5, 20, 100]);
                Step::Send(name, Call::Heartbeat(ttl), self.delivery())
            }
            91..=93 => Step::Send(name, Call::Abort, self.delivery()),
            94 | 95 => Step::Send(name, Call::Prewrite, self.delivery()),
            96 | 97 => Step::Act(name, Op::Finish),
            _ => Step::Act(name, Op::Stop),
        }
    }

    // A step of no session.
    fn world_step(&mut self) -> Step<Word> {
        match self.dice.below(100) {
            0..=44 if self.held > 0 => Step::Deliver(self.held_name()),
            0..=59 => Step::Read(self.key(), self.near()),
            60..=69 => Step::Versions(self.key()),
            70..=95 => Step::Tick(self.dice.pick(&[1, 1, 2, 5])),
            _ => Step::Gc(self.safe_point()),
        }
    }

    // The name of a held request: mostly one of the last.
    fn held_name(&mut self) -> Word {
        let held = self.held.clamp(1, MAX_HELD_REQUESTS as u64) as u32;
        let among = if self.dice.hits(75) {
            held.min(6)
        } else {
            held
        };
        Word::Held(self.held.saturating_sub(u64::from(self.dice.below(among))))
    }

    // A step of a live session, by chance.
    fn session_step(&mut self) -> Step<Word> {
        self.turn = self.any_turn();
        let session = match self.live.get(self.turn) {
            Some(session) => *session,
            None => LiveSession::new(0, 0),
        };
        if session.has_met && self.dice.hits(40) {
            return Step::Act(Word::Session(session.number), Op::Resolve(self.now()));
        }
        match session.stage {
            Stage::Open => self.open_step(session),
            _ => self.declared_step(session),
        }
    }

    // A step by chance.
    fn any_step(&mut self, left: u64) -> Step<Word> {
        let chance = self.dice.below(100);
        let few = self.live.len() < self.settings.sessions;
        if self.live.is_empty() || (few && chance < 12) {
            return Step::Begin(Word::Session(self.sessions.wrapping_add(1)));
        }
        if chance < 16 {
            self.set_scene(left);
        }
        if chance < 30 {
            return self.world_step();
        }
        self.session_step()
    }

    /// Thinks of the next step, where so many lines are left.
    pub(crate) fn think(&mut self, left: u64) -> Step<Word> {
        if self.closes(left) {
            return self.close();
        }
        let acts = if self.dice.hits(85) { self.act() } else { None };
        match acts {
            Some(step) => step,
            None => self.any_step(left),
        }
    }
}
