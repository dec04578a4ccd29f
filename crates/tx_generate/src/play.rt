//! How scenes are played: each move becomes a step of a session.
use crate::author::Author;
use crate::scene::{Cue, Move, Role, Scene};
use crate::settings::ModeChoice;
use crate::word::Word;
use tx_steps::{Call, Delivery, Op, Step};
use tx_types::Mode;
use tx_types::limits::{MAX_ASYNC_KEYS, MAX_HELD_REQUESTS, MAX_TICK};

/// How many keys are too many for an async transaction.
const CROWD: u64 = MAX_ASYNC_KEYS as u64 + 1;

/// How many lines at least are left where a scene of so many keys begins.
const CROWD_LINES: u64 = CROWD + 20;

/// A scene that is being played.
#[derive(Clone, Copy, Debug, Drop, PartialEq, Eq)]
pub(crate) struct Play {
    scene: Scene,
    /// How many of its moves were made.
    made: usize,
    /// How many keys are still to be put of too many.
    crowd: u64,
    /// The numbers of its sessions, 0 before they begin.
    first: u64,
    second: u64,
    /// Its key, and what it holds.
    key: Word,
    held: Word,
}

impl Play {
    pub(crate) fn new(scene: Scene, key: Word) -> Play {
        Play {
            scene,
            made: 0,
            crowd: CROWD,
            first: 0,
            second: 0,
            key,
            held: Word::Held(0),
        }
    }

    // The next move, where one is left.
    fn cue(&self) -> Option<Cue> {
        self.scene.cues().get(self.made).copied()
    }

    // The number of a session of the scene.
    fn number(&self, role: Role) -> u64 {
        match role {
            Role::First => self.first,
            Role::Second => self.second,
        }
    }

    // The session of a role has this number.
    fn cast(&mut self, role: Role, number: u64) {
        match role {
            Role::First => self.first = number,
            Role::Second => self.second = number,
        }
    }

    // A move was made: the next one is due, unless more keys are to be put.
    fn goes_on(&mut self, what: Move) {
        if what == Move::Crowd && self.crowd > 1 {
            self.crowd -= 1;
        } else {
            self.made = self.made.saturating_add(1);
        }
    }
}

impl Author {
    // A scene by chance. Where no request is to be lost, none is of one that is.
    fn scene(&mut self, left: u64) -> Scene {
        if self.settings.faults == 0 {
            return self
                .dice
                .pick(&[Scene::Pushed, Scene::Pushed, Scene::ResolvedTooLate]);
        }
        match self.dice.below(17) {
            0..=2 => Scene::Pushed,
            3 | 4 => Scene::MarkedByCommit,
            5 | 6 => Scene::MarkedByRollback,
            7 | 8 => Scene::RolledBack,
            9 | 10 => Scene::CollectedAtRollback,
            11 => Scene::ResolvedTooLate,
            12 => Scene::DecidedByAnother,
            13 => Scene::RollsBackTooLate,
            14 => Scene::CommittedUnheard,
            _ if left > CROWD_LINES => Scene::Crowded,
            _ if self.dice.hits(10) => Scene::Spent,
            _ => Scene::Pushed,
        }
    }

    /// Begins to play a scene, where two sessions may live and none is being played.
    pub(crate) fn set_scene(&mut self, left: u64) {
        if self.play.is_none() && self.settings.sessions > 1 {
            let scene = self.scene(left);
            let key = self.letter(self.settings.keys);
            self.play = Some(Play::new(scene, key));
        }
    }

    /// The next step of the scene that is being played, if one is.
    pub(crate) fn act(&mut self) -> Option<Step<Word>> {
        let mut play = self.play?;
        let Some((role, what)) = play.cue() else {
            self.play = None;
            return None;
        };
        if what == Move::Begin && self.live.len() >= self.settings.sessions {
            return Some(self.makes_room(play.first));
        }
        let step = self.step_of(&mut play, role, what);
        play.goes_on(what);
        self.play = Some(play);
        Some(step)
    }

    /// A step that stops a session, though not the one of this number.
    pub(crate) fn makes_room(&mut self, number: u64) -> Step<Word> {
        let other = self
            .live
            .iter()
            .position(|session| session.number != number);
        self.turn = other.unwrap_or(self.live.len());
        let gone = match self.live.get(self.turn) {
            Some(session) => session.number,
            None => 0,
        };
        Step::Act(Word::Session(gone), Op::Stop)
    }

    // The step of a move.
    fn step_of(&mut self, play: &mut Play, role: Role, what: Move) -> Step<Word> {
        self.turn_to(play.number(role));
        let name = Word::Session(play.number(role));
        match what {
            Move::Begin => {
                play.cast(role, self.sessions.wrapping_add(1));
                Step::Begin(Word::Session(self.sessions.wrapping_add(1)))
            }
            Move::Crowd => Step::Act(name, Op::Put(Word::Many(play.crowd), self.value())),
            Move::Edit => Step::Act(name, self.change(play.key)),
            Move::DeclareLate => Step::Act(name, self.late()),
            Move::DeclareAsync => Step::Act(name, self.early()),
            Move::Draw => Step::Act(name, Op::Draw),
            Move::Push => Step::Act(name, Op::Resolve(0)),
            Move::Resolve => Step::Act(name, Op::Resolve(u64::MAX)),
            Move::Finish => Step::Act(name, Op::Finish),
            Move::Deliver => Step::Deliver(play.held),
            Move::CollectAtStart => Step::Gc(self.start_of(play.number(role))),
            Move::CollectAll => Step::Gc(self.last),
            Move::TickLong => Step::Tick(MAX_TICK),
            Move::PrewriteHeld => Step::Send(name, Call::Prewrite, self.holds(play)),
            _ => sends(name, play.key, what),
        }
    }

    // A change of a key that a reader sees.
    fn change(&mut self, key: Word) -> Op<Word> {
        match self.dice.below(6) {
            0 => Op::Delete(key),
            1 => Op::Insert(key, self.value()),
            _ => Op::Put(key, self.value()),
        }
    }

    // Declares so that the primary alone decides: in two phases, or asynchronously with a greatest
    // commit timestamp that is too low.
    fn late(&mut self) -> Op<Word> {
        match self.mode() {
            Mode::TwoPhase => Op::Declare(Mode::TwoPhase, 50, None),
            Mode::Async => Op::Declare(Mode::Async, 50, Some(self.last)),
        }
    }

    // Declares to commit asynchronously, where that is allowed.
    fn early(&self) -> Op<Word> {
        match self.settings.modes {
            ModeChoice::Only(mode) => Op::Declare(mode, 50, None),
            ModeChoice::Both => Op::Declare(Mode::Async, 50, None),
        }
    }

    // What a scene holds gets a name.
    fn holds(&mut self, play: &mut Play) -> Delivery<Word> {
        if self.held >= MAX_HELD_REQUESTS as u64 {
            return Delivery::Lost;
        }
        play.held = Word::Held(self.held.wrapping_add(1));
        Delivery::Held(play.held)
    }
}

// What a session sends in a scene of this key.
fn sends(name: Word, key: Word, what: Move) -> Step<Word> {
    match what {
        Move::Prewrite => Step::Send(name, Call::Prewrite, Delivery::Taken),
        Move::PrewriteUnheard => Step::Send(name, Call::Prewrite, Delivery::Unanswered),
        Move::Commit => Step::Send(name, Call::Commit, Delivery::Taken),
        Move::CommitUnheard => Step::Send(name, Call::Commit, Delivery::Unanswered),
        Move::Abort => Step::Send(name, Call::Abort, Delivery::Taken),
        Move::Heartbeat => Step::Send(name, Call::Heartbeat(100), Delivery::Taken),
        _ => Step::Send(name, Call::Get(key), Delivery::Taken),
    }
}
