//! The journal's table: what a token of it knows, the rule that every step keeps, and what each
//! step tells. One word is the last number drawn, one the greatest timestamp read. The seats are
//! spread over the words before these two, each of which counts events of its seats; which events
//! these were, proofs alone know. The first word is never written: a step that changes what tokens
//! know, and nothing else, loads it, so that it finds the line where it left it.
use atomic_table::{Join, Play, Seat as TableSeat, Shared, Split, Table, TableRule};
use std::alloc::Global;
use std::collections::LinkedList;
use std::marker::{Brand, PhantomData};
use tx_core::Event;
use tx_types::Key;

/// How far apart two words lie that threads write: in different lines of memory, also where a
/// processor fetches lines by twos.
pub const APART: usize = 16;

/// How many words count events. So seats that work side by side mostly write different lines.
pub const COUNTS: usize = 64;

/// The word that is the greatest timestamp read.
pub const MAX_TS: usize = 1_040;

/// The word that is the last number drawn.
pub const LAST: usize = 1_056;

/// How many words the table has, of which those are used whose numbers are multiples of `APART`.
pub const WORDS: usize = 1_072;

/// What is fixed when a journal is opened: the keys between its regions, and how many seats it has.
#[derive(Drop)]
pub struct Layout {
    pub bounds: Vec<Key>,
    pub seats: u32,
}

/// What a token knows: the journal's bounds and number of seats, its own seats (from `from` on and
/// before `to`), the ticks that these may still draw, and the beginnings of the history that it has
/// seen and heard. No value of it is made.
pub struct View {
    pub bounds: LinkedList<Key>,
    pub seats: u64,
    pub from: u64,
    pub to: u64,
    pub ticks: u64,
    pub seen: LinkedList<Event>,
    pub heard: LinkedList<Event>,
}

/// A token of the table. A seat has one that owns the seat, a `Told` one that owns none.
pub type Token = TableSeat<u8, View>;

/// The journal's table, which the seats own together.
pub type Home = Table<u8, View, Layout, Law, Global>;

/// The words that all threads share.
pub type Words = Shared<u8, View, Layout, Law>;

/// Which journal it is, the keys between its regions, and how many seats it has. The seats,
/// `Told`s, requests and replies of one journal have one such parameter. A program picks it once,
/// where it names the journal that it has opened.
pub trait JournalId {
    ghost use Rattle.std.specs.Prelude.{List, ℕ};
    ghost use Rattle.atomic_table.specs.Seated.{TableId};
    ghost use Rattle.tx_types.specs.declared.key.Key.{Key};

    ghost table: { TableId };

    ghost bounds: { List Key };

    ghost seats: { ℕ };
}

impl JournalId for Brand {
    ghost use Rattle.std.specs.Prelude.{[]};
    ghost use Rattle.tx_journal.specs.Rules.{no_table};

    ghost table = { no_table };

    ghost bounds = { [] };

    ghost seats = { 0 };
}

/// The rule of the table: there is one world run, each seat has seen a beginning of it that has all
/// of the seat's own events, the word `LAST` is its last number, and the word `MAX_TS` the greatest
/// timestamp that was read in it.
pub struct Law;

impl TableRule<u8, View, Layout> for Law {
    ghost use Rattle.tx_journal.specs.Rules.{Kept, founder};

    ghost holds = { λ key s. Kept key s };

    ghost first = { founder };
}

/// The event of one step, which the step's call picks.
pub trait StepEvent {
    ghost use Rattle.tx_core.specs.declared.event.Event.{Event};

    ghost event: { Event };
}

impl StepEvent for Brand {
    ghost use Rattle.tx_core.specs.declared.event.Event.TheVariants.{Stopped};

    ghost event = { Stopped 0 };
}

/// An add on a word that counts events, or a raise of the greatest timestamp read: an event is
/// recorded.
pub struct Add<E>(PhantomData<E>);

impl<E: StepEvent> Play<u8, View> for Add<E> {
    ghost use Rattle.tx_journal.specs.Rules.{Adds};

    ghost then = { Adds E.event };
}

/// An add on the word `LAST`: a number is drawn.
pub struct Advance;

impl Play<u8, View> for Advance {
    ghost use Rattle.tx_journal.specs.Rules.{Advances};

    ghost then = { Advances };
}

/// A load of the word `LAST`: the whole history is seen.
pub struct Look;

impl Play<u8, View> for Look {
    ghost use Rattle.tx_journal.specs.Rules.{Looks};

    ghost then = { Looks };
}

/// A load of the word `MAX_TS`: the whole history is seen.
pub struct LookRead;

impl Play<u8, View> for LookRead {
    ghost use Rattle.tx_journal.specs.Rules.{LooksRead};

    ghost then = { LooksRead };
}

/// A load of the first word, which nobody writes: of what was seen and heard the longer is seen.
pub struct Learn;

impl Play<u8, View> for Learn {
    ghost use Rattle.tx_journal.specs.Rules.{Learns};

    ghost then = { Learns };
}

/// A second token that has seen the same and owns no seat.
pub struct Tell;

impl Split<View> for Tell {
    ghost use Rattle.tx_journal.specs.Rules.{telling};

    ghost left = { λ v. v };

    ghost right = { telling };
}

/// A token for the first of the seats that are left.
pub struct Deal;

impl Split<View> for Deal {
    ghost use Rattle.tx_journal.specs.Rules.{first_seat, other_seats};

    ghost left = { other_seats };

    ghost right = { first_seat };
}

/// A token that has heard what another has seen, which is taken in.
pub struct Hear;

impl Join<View> for Hear {
    ghost use Rattle.tx_journal.specs.Rules.{hearing, spent};

    ghost both = { hearing };

    ghost spent = { spent };
}
