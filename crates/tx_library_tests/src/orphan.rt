//! A transaction of no session: it prewrites its second key and not its primary, which is allowed,
//! but which no session does.
ghost use Rattle.std.specs.Prelude.{◌≡◌, ◌∷◌, IfSome};
ghost use Rattle.tx_core.specs.ReadMarks.{max_ts};
ghost use Rattle.tx_core.specs.Recording.{MayRecord};
ghost use Rattle.tx_journal.specs.Known.{DrawsNothing};
ghost use Rattle.tx_journal.specs.Senders.{IsSender};
ghost use Rattle.tx_client.specs.Calls.{Records};
ghost use Rattle.tx_library_tests.specs.Orphan.{both_of, second_of};

use crate::calls::{Came, keys_of};
use crate::words::{Short, by_call};
use std::alloc::Global;
use tx_client::ask;
use tx_core::{Body, Boxed, Declaration, Event, Prewrite};
use tx_journal::{JournalId, Reply, Request, Seat, Sender};
use tx_types::{Change, Changes, Key, Mode, Mutation, Secondaries, Ts};

// That a key is deleted.
fn deleted(key: &Key) -> Option<Change>
    ensures { IfSome result (λ c. c ≡ record { key = key.now; mutation = Mutation.Delete }) }
{
    let key = key.clone().ok()?;
    let mutation = Mutation::Delete;
    Some(Change { key, mutation })
}

// What is declared, with a number that was drawn for it.
fn both_of(alloc: Global, start: Ts, placed: Ts, first: &Key, second: &Key) -> Option<Declaration>
    ensures { IfSome result (λ d. d ≡ both_of start placed first.now second.now) }
{
    let mut changes = Changes::new(alloc);
    changes.push(deleted(first)?).ok()?;
    changes.push(deleted(second)?).ok()?;
    Some(Declaration {
        start,
        changes,
        mode: Mode::TwoPhase,
        ttl: 10,
        max_commit: None,
        drawn: placed,
    })
}

// The prewrite of the second key.
fn second_of(alloc: Global, start: Ts, first: &Key, second: &Key) -> Option<Body>
    ensures { IfSome result (λ body. body ≡ second_of start first.now second.now) }
{
    let body = Prewrite {
        key: second.clone().ok()?,
        mutation: Mutation::Delete,
        start,
        primary: first.clone().ok()?,
        mode: Mode::TwoPhase,
        max_commit: None,
        floor: Ts::ZERO,
        ttl: 10,
        others: Secondaries::new(alloc),
    };
    Some(Body::Prewrite(Boxed::new(alloc, body).ok()?))
}

// Records the event, and lets it go.
fn add<J: JournalId>(seat: &mut Seat<J>, event: Event)
    requires quiet { DrawsNothing event }
    requires right { MayRecord J.bounds seat.old.seat seat.old.events event }
    requires unread { max_ts (event ∷ seat.old.events) ≡ max_ts seat.old.events }
    ensures { Records J.bounds seat.old event seat.new }
{
    seat.record(&event);
}

// Begins, declares these two keys in two phases, and prewrites the second.
fn orphan<J: JournalId, S: Sender<Request<J>, Reply<J>>>(
    alloc: Global,
    seat: &mut Seat<J>,
    first: &Key,
    second: &Key,
    sender: &mut S,
) -> Short
    requires way { IsSender J.bounds S.fits S.sends S.keys_between }
{
    if second == first {
        return ("none", 0);
    }
    let Ok(start) = seat.draw(1) else {
        return ("E11", 0);
    };
    add(seat, Event::Began(start));
    let Ok(placed) = seat.draw(1) else {
        return ("E11", 0);
    };
    let Some(declaration) = both_of(alloc, start, placed, first, second) else {
        return ("E12", 0);
    };
    add(seat, Event::Declared(declaration));
    match second_of(alloc, start, first, second) {
        Some(body) => by_call(Came::Answered(ask(seat, body, sender).map(Some))),
        None => ("E12", 0),
    }
}

/// Begins, declares these two keys in two phases, and prewrites the second.
pub fn leave_orphan<J: JournalId, S: Sender<Request<J>, Reply<J>>>(
    alloc: Global,
    seat: &mut Seat<J>,
    first: &[u8],
    second: &[u8],
    sender: &mut S,
) -> Short
    requires way { IsSender J.bounds S.fits S.sends S.keys_between }
{
    let Some((first, second)) = keys_of(alloc, first, second) else {
        return ("E12", 0);
    };
    let short = orphan(alloc, seat, &first, &second, sender);
    drop(first);
    drop(second);
    short
}
