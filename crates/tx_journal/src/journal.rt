//! A journal is made in two calls: the first opens it, the second gives it the name that all its
//! seats have in their type, and deals the seats.
ghost use Rattle.std.specs.Prelude.{◌≡◌, ℕ, ◌+◌, ◌<◌, ◌≤◌, [], IfOk, IfErr, OnOk, vec_len, slice_get, Some, length};
ghost use Rattle.tx_types.specs.declared.fault.Fault.TheVariants as fault;
ghost use Rattle.tx_journal.specs.Known.{known};
ghost use Rattle.tx_types.specs.Keys.{AreRising};

use crate::seat::Seat;
use crate::view::{Deal, Home, JournalId, Law, Layout, Token, View, WORDS};
use atomic_table::Table;
use std::alloc::Global;
use std::marker::{Model, PhantomData};
use std::sync::Arc;
use tx_core::SeatNo;
use tx_types::{Fault, Key};

/// A journal with no event, which has no name yet. Contracts see its table, the keys between its
/// regions, and how many seats it has.
#[derive(Drop)]
pub struct Opened {
    bounds: Arc<Vec<Key>>,
    seats: u32,
    words: Arc<Home>,
    token: Token,
}

impl Model for Opened {
    ghost use Rattle.std.specs.Arc.{arc_value};
    ghost use Rattle.tx_journal.specs.Known.{Opening};
    ghost use Rattle.tx_journal.specs.Rules.{IsFirstToken};

    ghost Value = { Opening };

    ghost view = { λ o. record {
      table = (arc_value o.words).shared.table_id;
      bounds = (arc_value o.bounds).items;
      seats = o.seats;
    } };

    ghost invariant = { λ o. IsFirstToken (arc_value o.bounds).items o.seats (arc_value o.words).shared.table_id
        (arc_value o.words).shared.key o.token.table_id o.token.me };
}

impl Opened {
    /// Opens a journal over regions with these keys between them: it has a seat for each region,
    /// and so many for sessions. `OutOfMemory` drops what was handed in.
    pub fn new(alloc: Global, bounds: Vec<Key>, sessions: usize) -> Result<Opened, Fault>
        requires rising { AreRising bounds.items }
        requires few { length bounds.items + 1 + sessions ≤ 1024 }
        ensures ok { IfOk result (λ o. (o.bounds ≡ bounds.items) × (o.seats ≡ length bounds.items + 1 + sessions)) }
        ensures err { IfErr result (λ e. e ≡ fault.OutOfMemory) }
    {
        let seats = (bounds.len() + 1 + sessions) as u32;
        let layout = Layout { bounds, seats };
        let (table, token) = Table::<u8, View, Layout, Law, Global>::of_words(
            alloc,
            &[0; WORDS],
            &layout,
        )?;
        let words = Arc::new(alloc, table)?;
        let Layout { bounds, seats } = layout;
        let bounds = Arc::new(alloc, bounds)?;
        Ok(Opened {
            bounds,
            seats,
            words,
            token,
        })
    }
}

// The seats that nobody has taken yet, from `next` on.
#[derive(Drop)]
struct Dealer<J: JournalId> {
    next: u32,
    words: Arc<Home>,
    token: Token,
    of: PhantomData<J>,
}

impl<J: JournalId> Model for Dealer<J> {
    ghost use Rattle.std.specs.Prelude.{ℕ};
    ghost use Rattle.std.specs.Arc.{arc_value};
    ghost use Rattle.tx_journal.specs.Rules.{Belongs, IsDealersToken};

    ghost Value = { ℕ };

    ghost view = { λ d. d.next };

    ghost invariant = { λ d. Belongs J.table J.bounds (arc_value d.words).shared.table_id
        (arc_value d.words).shared.key d.token.table_id × IsDealersToken J.bounds J.seats d.next d.token.me };
}

impl<J: JournalId> Dealer<J> {
    // The next seat.
    fn seat(&mut self) -> Result<Seat<J>, Fault>
        requires { self.old < J.seats }
        ensures seat { IfOk result (λ s. s ≡ known self.old 4294967296 []) }
        ensures next { OnOk result (self.new ≡ self.old + 1) }
        ensures err { IfErr result (λ e. e ≡ fault.OutOfMemory) }
    {
        let number = SeatNo::new(self.next);
        let words = self.words.clone()?;
        let token = self.words.shared.split_seat::<Deal>(&mut self.token);
        self.next += 1;
        Ok(Seat::of(number, 1 << 32, words, token))
    }

    // All seats.
    fn seats(mut self, alloc: Global, count: u32) -> Result<Vec<Seat<J>>, Fault>
        requires { (self ≡ 0) × (count ≡ J.seats) }
        ensures count { IfOk result (λ seats. vec_len seats ≡ count) }
        ensures seats { IfOk result (λ seats. (k : ℕ) → k < count
            → slice_get seats.items k ≡ Some (known k 4294967296 [])) }
        ensures err { IfErr result (λ e. e ≡ fault.OutOfMemory) }
    {
        let mut seats = Vec::with_capacity(alloc, count as usize)?;
        for _i in 0..count {
            seats.push(self.seat()?)?;
        }
        Ok(seats)
    }
}

/// The journal `J`, whose seats are dealt. Contracts see the keys between its regions. Its copies
/// share these keys.
#[derive(Drop)]
pub struct Journal<J: JournalId> {
    bounds: Arc<Vec<Key>>,
    of: PhantomData<J>,
}

impl<J: JournalId> Model for Journal<J> {
    ghost use Rattle.std.specs.Prelude.{◌≡◌, ◌<◌, List, length};
    ghost use Rattle.std.specs.Arc.{arc_value};
    ghost use Rattle.tx_types.specs.declared.key.Key.{Key};
    ghost use Rattle.tx_types.specs.Keys.{AreRising};

    ghost Value = { List Key };

    ghost view = { λ j. (arc_value j.bounds).items };

    ghost invariant = { λ j. ((arc_value j.bounds).items ≡ J.bounds) × AreRising J.bounds × (length J.bounds < 1024) };
}

impl<J: JournalId> Journal<J> {
    /// The keys between its regions: fewer than 1,024, rising.
    pub fn bounds(&self) -> &[Key]
        ensures value { result.now ≡ J.bounds }
        ensures rising { AreRising J.bounds }
        ensures few { length J.bounds < 1024 }
    {
        self.bounds.as_slice()
    }

    /// Another handle of this journal.
    pub fn clone(&self) -> Result<Journal<J>, Fault>
        ensures ok { IfOk result (λ copy. copy ≡ self.now) }
        ensures err { IfErr result (λ e. e ≡ fault.OutOfMemory) }
    {
        let bounds = self.bounds.clone()?;
        Ok(Journal {
            bounds,
            of: PhantomData,
        })
    }
}

impl Opened {
    /// The journal under its name, and its seats: those of the regions first, in their order, then
    /// those for sessions. Each knows of no event, and may draw 2^32 ticks. There is a seat for
    /// each region at least.
    pub fn named<J: JournalId>(self, alloc: Global) -> Result<(Journal<J>, Vec<Seat<J>>), Fault>
        requires { (self.table ≡ J.table) × (self.bounds ≡ J.bounds) × (self.seats ≡ J.seats) }
        ensures room { length J.bounds < J.seats }
        ensures count { IfOk result (λ r. vec_len r.1 ≡ J.seats) }
        ensures seats { IfOk result (λ r. (k : ℕ) → k < J.seats
            → slice_get r.1.items k ≡ Some (known k 4294967296 [])) }
        ensures err { IfErr result (λ e. e ≡ fault.OutOfMemory) }
    {
        let Opened {
            bounds,
            seats,
            words,
            token,
        } = self;
        let dealer: Dealer<J> = Dealer {
            next: 0,
            words,
            token,
            of: PhantomData,
        };
        let seats = dealer.seats(alloc, seats)?;
        let journal = Journal {
            bounds,
            of: PhantomData,
        };
        Ok((journal, seats))
    }
}
