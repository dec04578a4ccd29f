//! Threads at one journal, and each call once.
ghost use Rattle.std.specs.Prelude.{◌≡◌, ◌<◌, [], true, IfSome, vec_len};
ghost use Rattle.tx_plan.specs.declared.body.Body.TheVariants as asks;
ghost use Rattle.tx_core.specs.declared.event.Event.TheVariants.{Began};
ghost use Rattle.tx_core.specs.Histories.{began};
ghost use Rattle.tx_core.specs.Recording.{MayRecord};
ghost use Rattle.tx_journal.specs.Known.{HasRecorded};
ghost use Rattle.tx_types.specs.Keys.{AreRising};

use std::alloc::Global;
use std::marker::Brand;
use std::process::Abort;
use std::test::Fail;
use std::thread::{Threads, join, map_vec};
use tx_core::{Answer, Body, Event, Get, RaiseSafe, RegionNo, Starts, Taken};
use tx_journal::{AnswerWithLock, Journal, JournalId, Opened, Reply, Request, Seat, Told, Unnamed};
use tx_types::{Key, Ts};

mod senders;

// The number that a seat draws, and 0 where it is spent.
fn draw<J: JournalId>(seat: &mut Seat<J>, ticks: u32) -> u64
    requires { 0 < ticks }
{
    match seat.draw(ticks).ok() {
        Some(ts) => ts.get(),
        None => 0,
    }
}

// The seats of a journal.
fn seats_of<J: JournalId>(alloc: Global, opened: Opened) -> Option<Vec<Seat<J>>>
    requires { (opened.table ≡ J.table) × (opened.bounds ≡ J.bounds) × (opened.seats ≡ J.seats) }
{
    let (journal, seats) = opened.named::<J>(alloc).ok()?;
    drop(journal);
    Some(seats)
}

// Records that a transaction begins at a number.
fn record_begin<J: JournalId>(seat: &mut Seat<J>, start: Ts)
    requires { MayRecord J.bounds seat.old.seat seat.old.events (Began start) }
    ensures { HasRecorded J.bounds seat.old.seat seat.old.events (Began start) seat.new.events }
{
    let event = Event::Began(start);
    seat.record(&event);
    drop(event);
}

// Begins a transaction, and tells of it.
fn begin<J: JournalId>(mut seat: Seat<J>) -> Option<(Ts, Told<J>)>
    ensures { IfSome result (λ r. began r.1 r.0 ≡ true) }
{
    match seat.draw(1) {
        Ok(start) => {
            record_begin(&mut seat, start);
            Some((start, seat.tell()))
        }
        Err(_) => None,
    }
}

// Learns what was told, and draws.
fn draw_after<J: JournalId>(mut seat: Seat<J>, told: Told<J>) -> u64 {
    seat.learn(told);
    draw(&mut seat, 1)
}

// One thread begins and hands what it has seen by its join to another: whether that one draws
// a greater number.
fn tell_across<J: JournalId + Send + Sync, R: Threads + Sync>(
    rt: &R,
    first: Seat<J>,
    second: Seat<J>,
) -> bool {
    let (begun, ()) = join(rt, || begin(first), || ());
    match begun {
        Some((start, told)) => {
            let ((), later) = join(rt, || (), || draw_after(second, told));
            start.get() < later
        }
        None => false,
    }
}

fn tells_across<J: JournalId + Send + Sync, R: Threads + Sync>(
    rt: &R,
    alloc: Global,
    opened: Opened,
) -> bool
    requires { (opened.table ≡ J.table) × (opened.bounds ≡ J.bounds) × (opened.seats ≡ J.seats) }
{
    match seats_of::<J>(alloc, opened) {
        Some(mut seats) => match (seats.pop(), seats.pop()) {
            (Some(second), Some(first)) => tell_across(rt, first, second),
            _ => false,
        },
        None => false,
    }
}

#[test]
fn told_by_another_thread(rt: HostRuntime) -> Result<(), Fail> {
    let opened = Opened::new(rt.alloc(), Vec::new(rt.alloc()), 1)?;
    assert!(rt; tells_across::<Brand, _>(&rt, rt.alloc(), opened));
    Ok(())
}

// What a seat draws, again and again, by 1, 2 or 3 ticks.
fn draw_often<J: JournalId>(alloc: Global, mut seat: Seat<J>) -> Vec<(u64, u64)> {
    let mut drawn = Vec::new(alloc);
    for i in 0..10_000_u32 {
        let ticks = i % 3 + 1;
        let number = draw(&mut seat, ticks);
        if drawn.push((number, u64::from(ticks))).is_err() {
            break;
        }
    }
    drawn
}

// All numbers with their ticks, in order.
fn gather(alloc: Global, parts: &[Vec<(u64, u64)>]) -> Vec<(u64, u64)> {
    let mut all = Vec::new(alloc);
    for part in parts {
        if all.extend_from_slice(part).is_err() {
            break;
        }
    }
    let _ = all.sort();
    all
}

// Whether each number lies above the one before it by its ticks, from 0 on.
fn is_exact(drawn: &[(u64, u64)]) -> bool {
    let mut last = 0;
    for (number, ticks) in drawn {
        if number.checked_sub(*ticks) != Some(last) {
            return false;
        }
        last = *number;
    }
    true
}

// Eight threads draw, each from its own seat. How many numbers it were, if those of all, in order,
// follow each other by just their ticks.
fn draw_at_once<J: JournalId + Send + Sync, R: Threads + Sync>(
    rt: &R,
    alloc: Global,
    opened: Opened,
) -> usize
    requires { (opened.table ≡ J.table) × (opened.bounds ≡ J.bounds) × (opened.seats ≡ J.seats) }
{
    let Some(seats) = seats_of::<J>(alloc, opened) else {
        return 0;
    };
    let Ok(drawn) = map_vec(rt, seats, &|seat| draw_often(alloc, seat)) else {
        return 0;
    };
    let all = gather(alloc, &drawn);
    if is_exact(&all) { all.len() } else { 0 }
}

#[test]
fn eight_threads_draw(rt: HostRuntime) -> Result<(), Fail> {
    let opened = Opened::new(rt.alloc(), Vec::new(rt.alloc()), 7)?;
    let drawn = draw_at_once::<Brand, _>(&rt, rt.alloc(), opened);
    assert_eq!(rt; drawn, 80_000);
    Ok(())
}

// What the only seat of a journal answers, which may draw 2^32 ticks.
fn spend<J: JournalId>(alloc: Global, opened: Opened) -> [u64; 6]
    requires { (opened.table ≡ J.table) × (opened.bounds ≡ J.bounds) × (opened.seats ≡ J.seats) }
{
    let Some(mut seats) = seats_of::<J>(alloc, opened) else {
        return [0; 6];
    };
    let Some(mut seat) = seats.pop() else {
        return [0; 6];
    };
    let first = seat.last().get();
    let most = draw(&mut seat, u32::MAX);
    let too_many = draw(&mut seat, 2);
    let then = seat.last().get();
    let last = draw(&mut seat, 1);
    let spent = draw(&mut seat, 1);
    [first, most, too_many, then, last, spent]
}

#[test]
fn spent_seat_draws_nothing(rt: HostRuntime) -> Result<(), Fail> {
    let opened = Opened::new(rt.alloc(), Vec::new(rt.alloc()), 0)?;
    let found = spend::<Brand>(rt.alloc(), opened);
    let most = u64::from(u32::MAX);
    assert!(rt; found == [0, most, 0, most, most + 1, 0]);
    Ok(())
}

// A region that has taken nothing raises its safe point to 0.
fn raise<J: JournalId>(region: &mut Seat<J>, request: Request<J>, copy: Request<J>) -> Reply<J>
    requires region { (region.old.seat ≡ 0) × (region.old.events ≡ []) }
    requires body { request.body ≡ asks.RaiseSafe (record { region = 0; safe = 0 }) }
    requires copy { copy ≡ request }
{
    let (by, body) = copy.into_parts();
    region.learn(by);
    let loaded = region.last();
    let number = RegionNo::new(0);
    let event = Event::Took(Taken {
        region: number,
        body,
        loaded,
        answer: Answer::Raised,
    });
    region.record(&event);
    drop(event);
    let answer = AnswerWithLock::unlocked(Answer::Raised);
    Reply::new(request, Some(answer), region.tell())
}

// A session hears a reply: whether it has an answer.
fn hear<J: JournalId>(session: &mut Seat<J>, mut reply: Reply<J>) -> bool {
    session.learn(reply.tell(session));
    let heard = reply.answer().is_some();
    drop(reply);
    heard
}

// What a session knows, where the journal has no name.
fn leave<J: JournalId>(mut session: Seat<J>) -> Unnamed {
    let told = session.tell();
    let seen = told.unnamed(session);
    seen.show();
    seen
}

// A session asks the first region: whether it has an answer.
fn ask<J: JournalId>(session: &mut Seat<J>, region: &mut Seat<J>) -> bool
    requires { (region.old.seat ≡ 0) × (region.old.events ≡ []) }
{
    let raise_safe = RaiseSafe {
        region: RegionNo::new(0),
        safe: Ts::ZERO,
    };
    let mut request = Request::new(session.tell(), Body::RaiseSafe(raise_safe));
    match request.clone(session).ok() {
        Some(copy) => hear(session, raise(region, request, copy)),
        None => {
            drop(request);
            false
        }
    }
}

// How many keys a copy of the journal has between its regions.
fn bounds_of<J: JournalId>(journal: &Journal<J>) -> usize {
    match journal.clone().ok() {
        Some(copy) => {
            let count = copy.bounds().len();
            drop(copy);
            count
        }
        None => 0,
    }
}

// Of the seats the first is a region's, and the next a session's: whether it has an answer, and
// what it then knows.
fn reply_to_one<J: JournalId>(alloc: Global, opened: Opened) -> Option<(bool, Unnamed)>
    requires name { (opened.table ≡ J.table) × (opened.bounds ≡ J.bounds) × (opened.seats ≡ J.seats) }
    requires three { J.seats ≡ 3 }
{
    let Ok((journal, mut seats)) = opened.named::<J>(alloc) else {
        return None;
    };
    let bounds = bounds_of(&journal);
    drop(journal);
    let mut region = seats.swap_remove(0);
    let mut session = seats.swap_remove(0);
    let heard = ask(&mut session, &mut region);
    drop(region);
    drop(seats);
    Some((heard && bounds == 1, leave(session)))
}

// The keys between two regions.
fn one_bound(alloc: Global) -> Option<Vec<Key>>
    ensures { IfSome result (λ keys. (vec_len keys ≡ 1) × AreRising keys.items) }
{
    let Ok(key) = Key::new(alloc, b"m") else {
        return None;
    };
    let mut keys = Vec::new(alloc);
    match keys.push(key) {
        Ok(()) => Some(keys),
        Err(_) => None,
    }
}

#[test]
fn region_replies(rt: HostRuntime) -> Result<(), Fail> {
    let bounds = one_bound(rt.alloc()).ok_or("a key")?;
    let opened = Opened::new(rt.alloc(), bounds, 1)?;
    let seen = reply_to_one::<Brand>(rt.alloc(), opened);
    assert!(rt; matches!(seen, Some((true, _))));
    Ok(())
}

// A region that has taken nothing reads a key, of which it has nothing, at the last number drawn.
fn read<J: JournalId>(region: &mut Seat<J>, alloc: Global, key: Key)
    requires region { (region.old.seat ≡ 0) × (region.old.events ≡ []) }
    requires one { J.bounds ≡ [] }
{
    let loaded = region.last();
    let number = RegionNo::new(0);
    let body = Body::Get(Get {
        key,
        at: loaded,
        bypass: Starts::new(alloc),
    });
    let event = Event::Took(Taken {
        region: number,
        body,
        loaded,
        answer: Answer::Nothing,
    });
    region.raise_read(&event, loaded);
    drop(event);
}

// What the first region and a session load of the greatest timestamp read, before and after the
// region reads at 3.
fn read_once<J: JournalId>(alloc: Global, opened: Opened, key: Key) -> [u64; 3]
    requires name { (opened.table ≡ J.table) × (opened.bounds ≡ J.bounds) × (opened.seats ≡ J.seats) }
    requires two { J.seats ≡ 2 }
    requires one { J.bounds ≡ [] }
{
    let Ok((journal, mut seats)) = opened.named::<J>(alloc) else {
        return [0; 3];
    };
    drop(journal);
    let mut region = seats.swap_remove(0);
    let mut session = seats.swap_remove(0);
    draw(&mut session, 3);
    let before = session.max_ts().get();
    read(&mut region, alloc, key);
    let after = session.max_ts().get();
    [before, after, region.max_ts().get()]
}

#[test]
fn read_raises_the_mark_of_all_seats(rt: HostRuntime) -> Result<(), Fail> {
    let key = Key::new(rt.alloc(), b"a")?;
    let opened = Opened::new(rt.alloc(), Vec::new(rt.alloc()), 1)?;
    let marks = read_once::<Brand>(rt.alloc(), opened, key);
    assert!(rt; marks == [0, 3, 3]);
    Ok(())
}
