//! Sessions whose requests may be planned outside a region, of a copy, while others are taken.
ghost use Rattle.std.specs.Prelude.{◌≡◌};

use crate::calls::{Came, Op, perform};
use crate::others::met_by;
use crate::planning_tests::planner::{Handling, Planner};
use crate::table_tests::short::{Short, Word, answered, is};
use std::alloc::Global;
use tx_cells::{Families, Makes};
use tx_client::{Miss, Session};
use tx_journal::{JournalId, Opened, Seat};
use tx_types::Ts;
use tx_update::resolve_met;

/// Which session, how its request is handled, what it does, and what it hears. Sessions have their
/// numbers by the order in which they begin. What the region collects, and that its safe point is
/// raised, is held.
pub type Step = (usize, Handling, Op<'static>, Short);

/// Nothing is heard.
pub const SILENT: Short = (Word::Silent, 0, 0);

/// What came of steps: whether each was heard so, what the last request that was held was answered,
/// how many plans were stale, and how often a copy was refused memory.
pub type Played = (bool, Short, u32, u32);

// The seat of the resolver, the seats of sessions before they begin, and the sessions.
#[derive(Drop)]
struct Seats<J: JournalId> {
    resolver: Seat<J>,
    free: Vec<Seat<J>>,
    sessions: Vec<Session<J>>,
}

// What is heard of a call.
fn heard(came: Came) -> Short {
    match came {
        Came::Answered(Ok(Some(answer))) => answered(Ok(answer)),
        Came::Answered(Err(Miss::Fault)) => (Word::Refused, 0, 0),
        other => {
            drop(other);
            SILENT
        }
    }
}

// The lock that a session met is resolved for its reads, at a time.
fn resolve<J: JournalId, F: Families + Drop>(
    resolver: &mut Seat<J>,
    session: &mut Session<J>,
    now: u64,
    planner: &mut Planner<J, F>,
) {
    planner.show();
    if let Some(met) = met_by(session) {
        let now = Ts::new(now);
        drop(resolve_met(resolver, met, session.start(), now, planner));
    }
}

fn begin<J: JournalId>(alloc: Global, seats: &mut Seats<J>) -> bool {
    let Some(seat) = seats.free.pop() else {
        return false;
    };
    match Session::begin(alloc, seat) {
        Ok(session) => seats.sessions.push(session).is_ok(),
        Err(seat) => {
            drop(seat);
            false
        }
    }
}

// What a session that began does.
fn acts<J: JournalId, F: Families + Drop>(
    alloc: Global,
    planner: &mut Planner<J, F>,
    seats: &mut Seats<J>,
    number: usize,
    op: Op<'static>,
) -> Short {
    let Some(session) = seats.sessions.get_mut(number) else {
        return SILENT;
    };
    if let Op::Resolve(now) = op {
        resolve(&mut seats.resolver, session, now, planner);
        return SILENT;
    }
    planner.show();
    heard(perform(alloc, session, op, planner))
}

// What is heard of a step.
fn step<J: JournalId, F: Families + Drop>(
    alloc: Global,
    planner: &mut Planner<J, F>,
    seats: &mut Seats<J>,
    step: &Step,
) -> Short {
    planner.handling = step.1;
    match step.2 {
        Op::Begin => {
            let _ = begin(alloc, seats);
            SILENT
        }
        Op::Raise(safe) => {
            let _ = planner.hold(false, safe);
            SILENT
        }
        Op::Collect(safe) => {
            let _ = planner.hold(true, safe);
            SILENT
        }
        op => acts(alloc, planner, seats, step.0, op),
    }
}

// Whether each step is heard so.
fn plays<J: JournalId, F: Families + Drop>(
    alloc: Global,
    planner: &mut Planner<J, F>,
    seats: &mut Seats<J>,
    steps: &[Step],
) -> bool {
    for one in steps {
        if !is(step(alloc, planner, seats, one), one.3) {
            return false;
        }
    }
    true
}

// What comes of the first steps, and then of the others, in a region.
fn played_in<J: JournalId, F: Families + Drop>(
    alloc: Global,
    mut planner: Planner<J, F>,
    mut seats: Seats<J>,
    (first, then): (&[Step], &[Step]),
) -> Played {
    let right = plays(alloc, &mut planner, &mut seats, first)
        && plays(alloc, &mut planner, &mut seats, then);
    drop(seats);
    let played = (right, planner.between, planner.stales, planner.refused);
    drop(planner);
    played
}

/// What comes of the first steps, and then of the others, in a region in which nothing happened,
/// over families that are made so.
pub fn played<J: JournalId, F: Families + Drop, M: Makes<F>>(
    alloc: Global,
    opened: Opened,
    make: &M,
    steps: (&[Step], &[Step]),
) -> Option<Played>
    requires name { (opened.table ≡ J.table) × (opened.bounds ≡ J.bounds) × (opened.seats ≡ J.seats) }
    requires six { J.seats ≡ 6 }
{
    let families = make.make(alloc).ok()?;
    let Ok((journal, mut seats)) = opened.named::<J>(alloc) else {
        return None;
    };
    let of = seats.swap_remove(0);
    let seat = seats.swap_remove(0);
    let free = Seats {
        resolver: seats.swap_remove(0),
        free: seats,
        sessions: Vec::new(alloc),
    };
    let planner: Planner<J, F> = Planner::new(alloc, journal, of, seat, families)?;
    Some(played_in(alloc, planner, free, steps))
}
