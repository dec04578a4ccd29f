//! Seats of a journal. Who makes events has a seat: it draws timestamps and records events with it,
//! each by one atomic add, and the event of a read by one atomic maximum; and it knows a
//! beginning of the one history that has all of its own events. None of a seat's calls waits,
//! allocates or loops.
ghost use Rattle.std.specs.Prelude.{◌≡◌, ℕ, ◌+◌, ◌<◌, ◌≤◌, ◌⊎◌, ◌∷◌, max, IfOk, IfErr};
ghost use Rattle.std.specs.Arc.{arc_value};
ghost use mathlib.Core.Option.{none};
ghost use Rattle.atomic_table.specs.Table.{step};
ghost use Rattle.tx_types.specs.declared.fault.Fault.TheVariants as fault;
ghost use Rattle.tx_core.specs.Histories.{last, Begins};
ghost use Rattle.tx_core.specs.ReadMarks.{max_ts};
ghost use Rattle.tx_core.specs.Recording.{MayRecord, part, AllOfSeats};
ghost use Rattle.tx_core.specs.Worlds.{IsWorldRun};
ghost use Rattle.tx_journal.specs.Known.{known, greatest_ts, DrawsNothing, HasSeen, HasRecorded, HasDrawn};
ghost use Rattle.tx_journal.specs.Rules.{Belongs, Owns, Adds, IsSeatsToken};

use crate::told::Told;
use crate::view::{
    APART, Add, Advance, COUNTS, Hear, Home, JournalId, LAST, Learn, Look, LookRead, MAX_TS,
    StepEvent, Tell, Token, WORDS, Words,
};
use std::marker::{Brand, Model, PhantomData};
use std::sync::Arc;
use tx_core::{Event, SeatNo};
use tx_types::{Fault, Ts};

/// A seat of the journal `J`. Contracts see its number, the ticks that it may still draw, and the
/// events that it knows: these are a world run, newest first, and have just the events of this seat
/// that it has recorded. No list is kept.
#[derive(Drop)]
pub struct Seat<J: JournalId> {
    number: SeatNo,
    left: u64,
    words: Arc<Home>,
    token: Token,
    of: PhantomData<J>,
}

impl<J: JournalId> Model for Seat<J> {
    ghost use Rattle.std.specs.Arc.{arc_value};
    ghost use Rattle.tx_journal.specs.Known.{Known, known};
    ghost use Rattle.tx_journal.specs.Rules.{Belongs, IsSeatsToken};

    ghost Value = { Known };

    ghost view = { λ s. known s.number s.left s.token.me.0.seen };

    ghost invariant = { λ s. Belongs J.table J.bounds (arc_value s.words).shared.table_id
        (arc_value s.words).shared.key s.token.table_id × IsSeatsToken J.bounds J.seats s.number s.left s.token.me };
}

// The word that counts the events of a seat.
fn count_of(seat: SeatNo) -> usize
    ensures { (0 < result) × (result < MAX_TS) }
{
    APART * (1 + seat.get() as usize % COUNTS)
}

// Adds the event that the call picks, by an add on this word.
fn add<E: StepEvent>(words: &Words, token: &mut Token, count: usize)
    requires table { (token.old.table_id ≡ words.now.table_id) × (words.now.table_id.words ≡ WORDS) }
    requires count { (0 < count) × (count < MAX_TS) }
    requires owns { Owns token.old.me.0 token.old.me.0.from }
    requires right { DrawsNothing E.event × MayRecord words.now.key.bounds.items token.old.me.0.from token.old.me.0.seen
        E.event }
    requires unread { max_ts (E.event ∷ token.old.me.0.seen) ≡ max_ts token.old.me.0.seen }
    ensures { (token.new.table_id ≡ token.old.table_id)
        × ((n : ℕ) × Adds E.event (step words.now.table_id.slots count 1 0 none) token.old.me n token.new.me) }
{
    words.fetch_add::<Add<E>>(token, count, 1);
}

// Adds the event that the call picks, which reads up to `at`, by a raise of the greatest timestamp
// read.
fn raise<E: StepEvent>(words: &Words, token: &mut Token, at: Ts)
    requires table { (token.old.table_id ≡ words.now.table_id) × (words.now.table_id.words ≡ WORDS) }
    requires owns { Owns token.old.me.0 token.old.me.0.from }
    requires right { DrawsNothing E.event × MayRecord words.now.key.bounds.items token.old.me.0.from token.old.me.0.seen
        E.event }
    requires read { max_ts (E.event ∷ token.old.me.0.seen) ≡ max (max_ts token.old.me.0.seen) at }
    ensures { (token.new.table_id ≡ token.old.table_id)
        × ((n : ℕ) × Adds E.event (step words.now.table_id.slots MAX_TS at 0 none) token.old.me n token.new.me) }
{
    words.fetch_max::<Add<E>>(token, MAX_TS, at.get());
}

// Records this event, which the call picks.
fn record_this<J: JournalId, E: StepEvent>(seat: &mut Seat<J>, event: &Event)
    requires is { event.now ≡ E.event }
    requires quiet { DrawsNothing E.event }
    requires right { MayRecord J.bounds seat.old.seat seat.old.events E.event }
    requires unread { max_ts (E.event ∷ seat.old.events) ≡ max_ts seat.old.events }
    ensures same { (seat.new.seat ≡ seat.old.seat) × (seat.new.ticks ≡ seat.old.ticks) }
    ensures added { HasRecorded J.bounds seat.old.seat seat.old.events E.event seat.new.events }
{
    let _ = event;
    seat.record_as::<E>();
}

// Records this event, which the call picks, and raises the greatest timestamp read to `at`.
fn raise_by_this<J: JournalId, E: StepEvent>(seat: &mut Seat<J>, event: &Event, at: Ts)
    requires is { event.now ≡ E.event }
    requires quiet { DrawsNothing E.event }
    requires right { MayRecord J.bounds seat.old.seat seat.old.events E.event }
    requires read { max_ts (E.event ∷ seat.old.events) ≡ max (max_ts seat.old.events) at }
    ensures same { (seat.new.seat ≡ seat.old.seat) × (seat.new.ticks ≡ seat.old.ticks) }
    ensures added { HasRecorded J.bounds seat.old.seat seat.old.events E.event seat.new.events }
    ensures raised { at ≤ max_ts seat.new.events }
{
    let _ = event;
    seat.raise_read_as::<E>(at);
}

impl<J: JournalId> Seat<J> {
    // The seat of a token.
    pub(crate) fn of(number: SeatNo, left: u64, words: Arc<Home>, token: Token) -> Seat<J>
        requires table { Belongs J.table J.bounds (arc_value words).shared.table_id
            (arc_value words).shared.key token.table_id }
        requires token { IsSeatsToken J.bounds J.seats number left token.me }
        ensures { result ≡ known number left token.me.0.seen }
    {
        Seat {
            number,
            left,
            words,
            token,
            of: PhantomData,
        }
    }

    /// Its number.
    pub fn number(&self) -> SeatNo
        ensures number { result ≡ self.now.seat }
        ensures run { IsWorldRun J.bounds self.now.events × AllOfSeats J.seats self.now.events }
    {
        self.number
    }

    /// Draws a timestamp, so many ticks above the last one of the whole history, by one atomic add.
    /// `OracleSpent` where this seat would then have drawn more than 2^32 ticks: nothing is drawn
    /// then, and the seat is as it was.
    pub fn draw(&mut self, ticks: u32) -> Result<Ts, Fault>
        requires { 0 < ticks }
        ensures seat { self.new.seat ≡ self.old.seat }
        ensures drawn { IfOk result (λ ts. HasDrawn J.bounds self.old.seat self.old.events ticks ts self.new.events) }
        ensures ticks { IfOk result (λ ts. self.old.ticks ≡ self.new.ticks + ticks) }
        ensures last { IfOk result (λ ts. (last self.new.events ≡ ts) × (ts ≤ greatest_ts)) }
        ensures spent { IfErr result (λ e. (e ≡ fault.OracleSpent) × (self.old.ticks < ticks) × (self.new ≡ self.old)) }
    {
        let ticks = u64::from(ticks);
        if self.left < ticks {
            return Err(Fault::OracleSpent);
        }
        let found = self
            .words
            .shared
            .fetch_add::<Advance>(&mut self.token, LAST, ticks);
        self.left -= ticks;
        Ok(Ts::new(found + ticks))
    }

    /// The last timestamp that was drawn, by one load: this seat then knows the whole history.
    pub fn last(&mut self) -> Ts
        ensures same { (self.new.seat ≡ self.old.seat) × (self.new.ticks ≡ self.old.ticks) }
        ensures seen { HasSeen J.bounds self.old.seat self.old.events self.new.events }
        ensures last { (result ≡ last self.new.events) × (result ≤ greatest_ts) }
    {
        Ts::new(self.words.shared.load::<Look>(&mut self.token, LAST))
    }

    /// The greatest timestamp that was read, by one load: this seat then knows the whole history.
    pub fn max_ts(&mut self) -> Ts
        ensures same { (self.new.seat ≡ self.old.seat) × (self.new.ticks ≡ self.old.ticks) }
        ensures seen { HasSeen J.bounds self.old.seat self.old.events self.new.events }
        ensures read { result ≡ max_ts self.new.events }
        ensures least { max_ts self.old.events ≤ result }
        ensures last { (result ≤ last self.new.events) × (last self.new.events ≤ greatest_ts) }
    {
        Ts::new(self.words.shared.load::<LookRead>(&mut self.token, MAX_TS))
    }

    /// Records event `E`, which exists in proofs only, by one atomic maximum. It has to be one of
    /// this seat that may follow whatever other seats did since, and that reads at `at`, or nothing
    /// above what was read. The greatest timestamp that was read rises with the event, so that it
    /// is what the events of the history say whenever it is loaded.
    pub fn raise_read_as<E: StepEvent>(&mut self, at: Ts)
        requires quiet { DrawsNothing E.event }
        requires right { MayRecord J.bounds self.old.seat self.old.events E.event }
        requires read { max_ts (E.event ∷ self.old.events) ≡ max (max_ts self.old.events) at }
        ensures same { (self.new.seat ≡ self.old.seat) × (self.new.ticks ≡ self.old.ticks) }
        ensures added { HasRecorded J.bounds self.old.seat self.old.events E.event self.new.events }
        ensures raised { at ≤ max_ts self.new.events }
    {
        raise::<E>(&self.words.shared, &mut self.token, at);
    }

    /// Raises the greatest timestamp that was read to `at`, with the event that reads there, by one
    /// atomic maximum. The event is one of this seat that is right after whatever other seats may
    /// have done since. There is no raise without an event.
    pub fn raise_read(&mut self, event: &Event, at: Ts)
        requires quiet { DrawsNothing event.now }
        requires right { MayRecord J.bounds self.old.seat self.old.events event.now }
        requires read { max_ts (event.now ∷ self.old.events) ≡ max (max_ts self.old.events) at }
        ensures same { (self.new.seat ≡ self.old.seat) × (self.new.ticks ≡ self.old.ticks) }
        ensures added { HasRecorded J.bounds self.old.seat self.old.events event.now self.new.events }
        ensures raised { at ≤ max_ts self.new.events }
    {
        raise_by_this::<J, Brand>(self, event, at);
    }

    /// Records event `E`, which exists in proofs only, by one atomic add. It has to be one of this
    /// seat that may follow whatever other seats did since, and that reads nothing above what was
    /// read.
    pub fn record_as<E: StepEvent>(&mut self)
        requires quiet { DrawsNothing E.event }
        requires right { MayRecord J.bounds self.old.seat self.old.events E.event }
        requires unread { max_ts (E.event ∷ self.old.events) ≡ max_ts self.old.events }
        ensures same { (self.new.seat ≡ self.old.seat) × (self.new.ticks ≡ self.old.ticks) }
        ensures added { HasRecorded J.bounds self.old.seat self.old.events E.event self.new.events }
    {
        let count = count_of(self.number);
        add::<E>(&self.words.shared, &mut self.token, count);
    }

    /// Records an event of this seat that is right after whatever other seats may have done since,
    /// and that reads nothing above what was read, by one atomic add.
    pub fn record(&mut self, event: &Event)
        requires quiet { DrawsNothing event.now }
        requires right { MayRecord J.bounds self.old.seat self.old.events event.now }
        requires unread { max_ts (event.now ∷ self.old.events) ≡ max_ts self.old.events }
        ensures same { (self.new.seat ≡ self.old.seat) × (self.new.ticks ≡ self.old.ticks) }
        ensures added { HasRecorded J.bounds self.old.seat self.old.events event.now self.new.events }
    {
        record_this::<J, Brand>(self, event);
    }

    // The words of its journal.
    pub(crate) fn into_words(self) -> Arc<Home>
        ensures { (arc_value result).shared.key.bounds.items ≡ J.bounds }
    {
        let Seat {
            number: _,
            left: _,
            words,
            token: _,
            of: _,
        } = self;
        words
    }

    /// What this seat knows, to be handed to others.
    pub fn tell(&mut self) -> Told<J>
        ensures same { self.new ≡ self.old }
        ensures told { result ≡ self.old.events }
        ensures run { IsWorldRun J.bounds self.old.events × AllOfSeats J.seats self.old.events }
    {
        let token = self.words.shared.split_seat::<Tell>(&mut self.token);
        Told::of(token)
    }

    /// A copy of what was told.
    pub fn copy(&self, told: &mut Told<J>) -> Told<J>
        ensures same { told.new ≡ told.old }
        ensures copy { result ≡ told.old }
        ensures run { IsWorldRun J.bounds told.old × AllOfSeats J.seats told.old }
    {
        told.again(&self.words.shared)
    }

    /// Knows the longer of two lists, what this seat knows and what was told, one of which is a
    /// beginning of the other. Its own events stay what they are.
    pub fn learn(&mut self, told: Told<J>)
        ensures same { (self.new.seat ≡ self.old.seat) × (self.new.ticks ≡ self.old.ticks) }
        ensures seen { HasSeen J.bounds self.old.seat self.old.events self.new.events }
        ensures told { Begins told self.new.events }
        ensures which { (self.new.events ≡ self.old.events) ⊎ (self.new.events ≡ told) }
        ensures own { part self.old.seat self.new.events ≡ part self.old.seat self.old.events }
    {
        let token = told.into_token();
        self.words.shared.join_seat::<Hear>(&mut self.token, token);
        self.words.shared.load::<Learn>(&mut self.token, 0);
    }
}
