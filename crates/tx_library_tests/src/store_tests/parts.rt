//! What threads do at one store, again and again.
use crate::calls::Op::{Commit, Declare, Draw, Get, Prewrite, Put};
use crate::clients::{Call, Client, Site};
use crate::store_tests::chase::key_chase::Chase;
use crate::stores::pair;
use std::alloc::Global;
use std::sync::Wait;
use std::thread::{Threads, map_vec};
use tx_cells::Families;
use tx_journal::{JournalId, Seat};
use tx_resolve::gc;
use tx_store::Wire;
use tx_types::Fault;
use tx_types::Mode::{Async, TwoPhase};

/// What a thread does in each round, mostly in a transaction of its own.
#[derive(Clone, Copy)]
pub enum Task<'a> {
    /// It plays these calls.
    Play(&'a [Call<'a>]),
    /// It puts one more on `a`.
    Add,
    /// It reads on `a` how often all went well before.
    ReadSum,
    /// It reads 5 on `a` and 6 on `z`.
    ReadBoth,
    /// It reads 5 on `a`, or hears that a safe point lies above.
    ReadSeed,
    /// It collects at the last timestamp that it loads: with counts, or up to a lock that came
    /// between.
    Collect,
    /// It reads a key of the other region, until the prewrite is answered.
    ReadOn(&'a Chase),
    /// It prewrites `a` asynchronously, with a minimum.
    Prewrite(&'a Chase),
}

/// What a thread does, how often, and how often that is to go well at least.
pub type Part<'a> = (Task<'a>, u64, u64);

// Puts one more on `a`.
fn adds<J: JournalId, F: Families + Drop, R: Wait>(client: &mut Client<'_, J, F, R>) -> bool {
    let (word, number) = client.act(Get(b"a"));
    if word != "value" && word != "none" {
        return false;
    }
    let bytes = number.wrapping_add(1).to_be_bytes();
    let digits = [bytes[6].wrapping_add(b'0'), bytes[7].wrapping_add(b'0')];
    let calls: &[Call<'_>] = &[
        (Put(b"a", &digits), "ok"),
        (Declare(TwoPhase, None), "ok"),
        (Prewrite, "prewritten"),
        (Draw, "drawn"),
        (Commit, "committed"),
    ];
    client.play(calls).is_some()
}

// Whether a read of the seeded key is answered as it may be.
fn reads_seed<J: JournalId, F: Families + Drop, R: Wait>(client: &mut Client<'_, J, F, R>) -> bool {
    match client.act(Get(b"a")) {
        ("value", number) => number == 5,
        ("E7", safe) => client.is_below(safe),
        _ => false,
    }
}

// An async put.
const PROMISE: &[Call<'static>] = &[
    (Put(b"a", b"1"), "ok"),
    (Declare(Async, None), "ok"),
    (Prewrite, "prewritten"),
];

// Whether what a session does goes well.
fn does<J: JournalId, F: Families + Drop, R: Wait>(
    client: &mut Client<'_, J, F, R>,
    task: Task<'_>,
    sum: u64,
) -> bool {
    match task {
        Task::Play(calls) => client.play(calls).is_some(),
        Task::Add => adds(client),
        Task::ReadSum => client.act(Get(b"a")) == ("value", sum),
        Task::ReadBoth => {
            client.act(Get(b"a")) == ("value", 5) && client.act(Get(b"z")) == ("value", 6)
        }
        Task::ReadSeed => reads_seed(client),
        Task::ReadOn(chase) => {
            let _ = client.act(Get(b"z"));
            chase.note_read();
            true
        }
        Task::Prewrite(chase) => {
            let minimum = client.play(PROMISE);
            chase.end();
            minimum.unwrap_or(0) > 0
        }
        Task::Collect => false,
    }
}

// Collects: whether that ended as it may.
fn collects<J: JournalId, F: Families + Drop, R: Wait>(
    site: &Site<'_, J, F, R>,
    seat: &mut Seat<J>,
) -> bool {
    let mut wire = Wire::new(site.rt, site.store);
    let safe = seat.last();
    let collected = gc(seat, safe, &mut wire);
    let may_end = match &collected {
        Ok(_) => true,
        Err(Fault::LocksRemain(info)) => info.facts().start < safe,
        Err(_) => false,
    };
    drop(collected);
    may_end
}

// One round: whether it goes well, and the seat. None where the seat is spent.
fn round<J: JournalId, F: Families + Drop, R: Wait>(
    site: &Site<'_, J, F, R>,
    mut seat: Seat<J>,
    task: Task<'_>,
    sum: u64,
) -> Option<(bool, Seat<J>)> {
    if let Task::Collect = task {
        let is_well = collects(site, &mut seat);
        return Some((is_well, seat));
    }
    let mut client = Client::begin(site, seat)?;
    let is_well = does(&mut client, task, sum);
    Some((is_well, client.stop()))
}

// All rounds: how often they went well, whether that is enough, and the seat.
fn rounds<J: JournalId, F: Families + Drop, R: Wait>(
    site: &Site<'_, J, F, R>,
    (mut seat, part, sum): (Seat<J>, Part<'_>, u64),
) -> Option<(u64, bool, Seat<J>)> {
    let (task, times, least) = part;
    let mut count: u64 = 0;
    for _ in 0..times {
        if matches!(task, Task::ReadOn(chase) if chase.is_done()) {
            break;
        }
        let (is_well, back) = round(site, seat, task, sum)?;
        seat = back;
        count = count.saturating_add(u64::from(is_well));
    }
    Some((count, count >= least, seat))
}

// The next seats, each with a part.
fn dealt<'a, J: JournalId>(
    alloc: Global,
    seats: &mut Vec<Seat<J>>,
    parts: &[Part<'a>],
    sum: u64,
) -> Option<Vec<(Seat<J>, Part<'a>, u64)>> {
    let mut turns = Vec::new(alloc);
    for part in parts {
        turns.push((seats.pop()?, *part, sum)).ok()?;
    }
    Some(turns)
}

/// Each part on a thread of its own: how often all went well, and whether each did so often enough.
/// The seats come back, in order.
pub fn at_once<J, F, R>(
    site: &Site<'_, J, F, R>,
    seats: &mut Vec<Seat<J>>,
    parts: &[Part<'_>],
    sum: u64,
) -> Option<(u64, bool)>
where
    J: JournalId + Send + Sync,
    F: Families + Drop + Send,
    R: Threads + Wait + Sync,
{
    let turns = dealt(site.alloc, seats, parts, sum)?;
    let came = map_vec(site.rt, turns, &|turn| rounds(site, turn)).ok()?;
    let mut all: u64 = 0;
    let mut is_well = true;
    for one in came {
        let (count, is_enough, seat) = one?;
        seats.push(seat).ok()?;
        all = all.saturating_add(count);
        is_well = is_well && is_enough;
    }
    Some((all, is_well))
}

/// The last seat but one tells the last what it knows, and is the next that is dealt.
pub fn pass_on<J: JournalId>(seats: &mut Vec<Seat<J>>) -> Option<()> {
    let (mut last, mut other) = pair(seats)?;
    last.learn(other.tell());
    seats.push(last).ok()?;
    seats.push(other).ok()
}
