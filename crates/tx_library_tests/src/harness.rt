//! A harness of scenarios: two sessions, a resolver and a collector over a store of three regions,
//! with the keys 4 and 7 between them. A scenario is a list of steps, each with who acts, what it
//! does, how the request that it sends is delivered, and what comes of it.
ghost use Rattle.std.specs.Prelude.{◌≡◌, IfSome, length, vec_len};
ghost use Rattle.tx_types.specs.Keys.{AreRising};

use crate::calls::{Op, keys_of, perform};
use crate::orphan::leave_orphan;
use crate::others;
use crate::stores::pair;
use crate::words::{OK, ORDER, Short, by_call, by_collection, by_outcome};
use std::alloc::Global;
use std::marker::Brand;
use std::mem::replace;
use std::sync::Wait;
use tx_cells::{Families, Fresh, Plain};
use tx_client::Session;
use tx_harness::{Delivery, Faulty, open};
use tx_journal::{JournalId, Opened, Seat};
use tx_nested::NestedCells;
use tx_store::{Store, Wire};
use tx_types::{Key, Ts};

/// The two sessions of a scenario.
#[derive(Clone, Copy)]
pub enum Who {
    A,
    B,
}

/// A step: who acts, what it does, how its request is delivered, and the word and the number that
/// come of it.
pub type Step = (Who, Op<'static>, Delivery, &'static str, u64);

// A seat with so few ticks left, where that is said.
fn shortened<J: JournalId>(mut seat: Seat<J>, left: Option<u32>) -> Seat<J> {
    let Some(left) = left else {
        return seat;
    };
    let _ = seat.draw(u32::MAX - 1);
    for _ in left..2 {
        let _ = seat.draw(1);
    }
    seat
}

/// How many steps came out as they say, up to the first that did not, and whether no session was
/// refused memory of its own once all that a step sends was answered.
pub type Tally = (usize, bool);

/// How requests reach the regions, the seats that are free, the seat of the resolver and of the
/// collector, and the sessions.
#[derive(Drop)]
struct Harness<'a, J: JournalId, F: Families + Drop, R: Wait> {
    alloc: Global,
    sender: Faulty<'a, J, F, R>,
    seats: Vec<Seat<J>>,
    resolver: Seat<J>,
    a: Option<Session<J>>,
    b: Option<Session<J>>,
}

impl<'a, J: JournalId, F: Families + Drop, R: Wait> Harness<'a, J, F, R> {
    // A session is there from now on.
    fn keep(&mut self, who: Who, session: Option<Session<J>>) {
        match who {
            Who::A => drop(replace(&mut self.a, session)),
            Who::B => drop(replace(&mut self.b, session)),
        }
    }

    // A session is there no more.
    fn take(&mut self, who: Who) -> Option<Session<J>> {
        match who {
            Who::A => replace(&mut self.a, None),
            Who::B => replace(&mut self.b, None),
        }
    }

    // Begins on the next seat, which may draw so few ticks where that is said.
    fn begin(&mut self, who: Who, left: Option<u32>) -> Short {
        let Some(seat) = self.seats.pop() else {
            return ORDER;
        };
        match Session::begin(self.alloc, shortened(seat, left)) {
            Ok(session) => {
                let start = session.start().get();
                self.keep(who, Some(session));
                ("start", start)
            }
            Err(seat) => {
                drop(seat);
                ("E11", 0)
            }
        }
    }

    fn finish(&mut self, who: Who) -> Short {
        let Some(session) = self.take(who) else {
            return ORDER;
        };
        match session.finish() {
            Ok((outcome, seat)) => {
                drop(seat);
                by_outcome(outcome)
            }
            Err(session) => {
                self.keep(who, Some(session));
                ("not yet", 0)
            }
        }
    }

    // A session learns what the other one knows of its fate.
    fn learn(&mut self, who: Who) -> Short {
        match (&mut self.a, &mut self.b, who) {
            (Some(a), Some(b), Who::A) => others::learn(a, b),
            (Some(a), Some(b), Who::B) => others::learn(b, a),
            _ => ORDER,
        }
    }

    // A session learns what the resolver finds of the transaction whose lock it met.
    fn resolve(&mut self, who: Who, now: u64) -> Short {
        let Some(mut session) = self.take(who) else {
            return ORDER;
        };
        self.sender.show();
        let short = others::resolve(&mut self.resolver, &mut session, now, &mut self.sender);
        self.keep(who, Some(session));
        short
    }

    fn orphan(&mut self, first: &[u8], second: &[u8]) -> Short {
        let Some(mut seat) = self.seats.pop() else {
            return ORDER;
        };
        self.sender.show();
        let short = leave_orphan(self.alloc, &mut seat, first, second, &mut self.sender);
        drop(seat);
        short
    }

    fn perform(&mut self, who: Who, op: Op<'static>) -> Short {
        let Some(mut session) = self.take(who) else {
            return ORDER;
        };
        self.sender.show();
        let short = by_call(perform(self.alloc, &mut session, op, &mut self.sender));
        self.keep(who, Some(session));
        short
    }

    // What comes of a step.
    fn step(&mut self, who: Who, op: Op<'static>, delivery: Delivery) -> Short {
        self.sender.set_delivery(delivery);
        match op {
            Op::Begin => self.begin(who, None),
            Op::BeginShort(left) => self.begin(who, Some(left)),
            Op::Learn => self.learn(who),
            Op::Resolve(now) => self.resolve(who, now),
            Op::Collect(safe) => {
                by_collection(self.sender.collect(&mut self.resolver, Ts::new(safe)))
            }
            Op::Orphan(first, second) => self.orphan(first, second),
            Op::Skip(count) => {
                self.sender.skip(count);
                OK
            }
            Op::Finish => self.finish(who),
            op => self.perform(who, op),
        }
    }

    fn play(&mut self, steps: &[Step]) -> Tally {
        let mut right: usize = 0;
        let mut refuses_first = true;
        let mut goes_on = true;
        for (who, op, delivery, word, number) in steps {
            let short = self.step(*who, *op, *delivery);
            goes_on = goes_on && short.0 == *word && short.1 == *number;
            if goes_on {
                right = right.wrapping_add(1);
            }
            if short.0 == "E12" && self.sender.is_answered(most(*op)) {
                refuses_first = false;
            }
        }
        (right, refuses_first)
    }
}

// Whether the keys of a range lie on both sides of a bound between regions.
fn crosses(from: &[u8], to: &[u8], bound: &[u8]) -> bool {
    from < bound && bound < to
}

// How many requests a session sends at most: for a scan one to each region of its range.
fn most(op: Op<'static>) -> u32 {
    match op {
        Op::Scan(from, to, _) => match (crosses(from, to, b"4"), crosses(from, to, b"7")) {
            (true, true) => 3,
            (false, false) => 1,
            _ => 2,
        },
        _ => 1,
    }
}

fn play_over<J: JournalId, F: Families + Drop, R: Wait>(
    rt: &R,
    alloc: Global,
    store: &Store<J, F>,
    mut seats: Vec<Seat<J>>,
    steps: &[Step],
) -> Option<Tally> {
    let (resolver, seat) = pair(&mut seats)?;
    let mut harness = Harness {
        alloc,
        sender: Faulty::new(Wire::new(rt, store), seat),
        seats,
        resolver,
        a: None,
        b: None,
    };
    let played = harness.play(steps);
    drop(harness);
    Some(played)
}

fn play<J: JournalId, F: Fresh, R: Wait>(
    rt: &R,
    alloc: Global,
    opened: Opened,
    steps: &[Step],
) -> Option<Tally>
    requires name { (opened.table ≡ J.table) × (opened.bounds ≡ J.bounds) × (opened.seats ≡ J.seats) }
    requires three { length J.bounds ≡ 2 }
{
    let (store, seats) = open::<J, F, Plain>(alloc, opened, &Plain, 3)?;
    let played = play_over(rt, alloc, &store, seats, steps);
    drop(store);
    played
}

// The keys between the regions.
fn bounds(alloc: Global) -> Option<Vec<Key>>
    ensures { IfSome result (λ keys. (vec_len keys ≡ 2) × AreRising keys.items) }
{
    let (low, high) = keys_of(alloc, b"4", b"7")?;
    if low >= high {
        return None;
    }
    let mut keys = Vec::new(alloc);
    keys.push(low).ok()?;
    keys.push(high).ok()?;
    Some(keys)
}

/// What comes of the steps. None where memory was refused before the first.
pub fn run<R: Wait>(rt: &R, alloc: Global, steps: &[Step]) -> Option<Tally> {
    let bounds = bounds(alloc)?;
    let opened = Opened::new(alloc, bounds, 6).ok()?;
    play::<Brand, NestedCells, R>(rt, alloc, opened, steps)
}
