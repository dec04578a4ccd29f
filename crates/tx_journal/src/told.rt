//! What was seen of a journal's history, to be handed from seat to seat.
ghost use Rattle.std.specs.Prelude.{◌≡◌, ◌⊎◌, []};
ghost use Rattle.std.specs.Arc.{arc_value};
ghost use Rattle.tx_core.specs.Histories.{Begins};
ghost use Rattle.tx_core.specs.Recording.{AllOfSeats};
ghost use Rattle.tx_core.specs.Worlds.{IsWorldRun};
ghost use Rattle.tx_journal.specs.Known.{HasSeen};
ghost use Rattle.tx_journal.specs.Rules.{IsToldsToken};

use crate::seat::Seat;
use crate::view::{Home, JournalId, Tell, Token, Words};
use std::marker::{Model, PhantomData};
use std::sync::Arc;

/// Stands for a list of events of the journal `J` that its holder has seen, a world run. It stores
/// none of them, and no memory. Any seat of the journal makes a copy of it (`Seat::copy`).
#[derive(Drop)]
pub struct Told<J: JournalId> {
    token: Token,
    of: PhantomData<J>,
}

impl<J: JournalId> Model for Told<J> {
    ghost use Rattle.tx_core.specs.Histories.{History};
    ghost use Rattle.tx_journal.specs.Rules.{IsToldsToken};

    ghost Value = { History };

    ghost view = { λ t. t.token.me.0.seen };

    ghost invariant = { λ t. IsToldsToken J.table J.bounds J.seats t.token.table_id t.token.me };
}

impl<J: JournalId> Told<J> {
    // The `Told` of a token.
    pub(crate) fn of(token: Token) -> Told<J>
        requires { IsToldsToken J.table J.bounds J.seats token.table_id token.me }
        ensures { result ≡ token.me.0.seen }
    {
        Told {
            token,
            of: PhantomData,
        }
    }

    // Its token.
    pub(crate) fn into_token(self) -> Token
        ensures { (result.table_id ≡ J.table) × (result.me.1 ≡ []) × (result.me.0.seen ≡ self) }
    {
        let Told { token, of: _ } = self;
        token
    }

    /// For proofs: it is a world run of the journal's seats. It does nothing when it runs.
    pub fn show(&self)
        ensures { IsWorldRun J.bounds self.now × AllOfSeats J.seats self.now }
    {
        let _ = &self.token;
    }

    // A copy, made by the journal's words.
    pub(crate) fn again(&mut self, words: &Words) -> Told<J>
        requires table { words.now.table_id ≡ J.table }
        ensures same { self.new ≡ self.old }
        ensures copy { result ≡ self.old }
        ensures run { IsWorldRun J.bounds self.old × AllOfSeats J.seats self.old }
    {
        let token = words.split_seat::<Tell>(&mut self.token);
        Told::of(token)
    }

    /// What it stands for, of a journal that has no name here, by a seat of the journal.
    pub fn unnamed(self, by: Seat<J>) -> Unnamed
        ensures { (result.bounds ≡ J.bounds) × (result.events ≡ self) }
    {
        let words = by.into_words();
        let Told { token, of: _ } = self;
        Unnamed { words, token }
    }
}

/// The law of one history: of two things that were told in one journal, one begins with the other,
/// whoever told them. A seat that learns both tells so; it makes no event.
pub fn one_history<J: JournalId>(by: &mut Seat<J>, one: &mut Told<J>, other: &mut Told<J>)
    ensures same { (by.new.seat ≡ by.old.seat) × (by.new.ticks ≡ by.old.ticks) }
    ensures seen { HasSeen J.bounds by.old.seat by.old.events by.new.events }
    ensures told { (one.new ≡ one.old) × (other.new ≡ other.old) }
    ensures either { Begins one.old other.old ⊎ Begins other.old one.old }
{
    let first = by.copy(one);
    let second = by.copy(other);
    by.learn(first);
    by.learn(second);
}

/// What a `Told` stands for, of a journal that has no name here. Who names a journal gives out
/// nothing that bears the name; what was seen in it leaves the place in this form.
#[derive(Drop)]
pub struct Unnamed {
    words: Arc<Home>,
    token: Token,
}

impl Model for Unnamed {
    ghost use Rattle.std.specs.Arc.{arc_value};
    ghost use Rattle.tx_core.specs.Worlds.{IsWorldRun};
    ghost use Rattle.tx_journal.specs.Known.{Seen};

    ghost Value = { Seen };

    ghost view = { λ u. record { bounds = (arc_value u.words).shared.key.bounds.items; events = u.token.me.0.seen } };

    ghost invariant = { λ u. IsWorldRun (arc_value u.words).shared.key.bounds.items u.token.me.0.seen };
}

impl Unnamed {
    /// For proofs: it is a world run. It does nothing when it runs.
    pub fn show(&self)
        ensures { IsWorldRun self.now.bounds self.now.events }
    {
        let _ = &self.token;
    }
}
