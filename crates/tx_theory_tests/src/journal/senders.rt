//! A generic call takes a sender that owns a seat, a `Told` and a request.
ghost use Rattle.std.specs.Prelude.{◌≡◌};

use super::seats_of;
use std::alloc::Global;
use std::marker::Brand;
use std::mem::replace;
use std::test::Fail;
use tx_core::{Body, RaiseSafe, RegionNo};
use tx_journal::{JournalId, Opened, Reply, Request, Seat, Told};
use tx_types::Ts;

// A way from requests to replies.
trait Sender<Q, R> {
    fn send(&mut self, request: Q) -> Option<R>;
}

// A region that is refused memory for each answer, what it last replied, and the last request.
#[derive(Drop)]
struct Refuser<J: JournalId> {
    region: Seat<J>,
    newest: Told<J>,
    held: Option<Request<J>>,
}

impl<J: JournalId> Sender<Request<J>, Reply<J>> for Refuser<J> {
    fn send(&mut self, mut request: Request<J>) -> Option<Reply<J>> {
        let copy = request.clone(&self.region).ok();
        drop(replace(&mut self.held, copy));
        let told = self.region.tell();
        drop(replace(&mut self.newest, told));
        let told = self.region.copy(&mut self.newest);
        Some(Reply::new(request, None, told))
    }
}

// Who asks.
#[derive(Drop)]
struct Session<J: JournalId> {
    seat: Seat<J>,
}

impl<J: JournalId> Session<J> {
    // Asks a region, and learns its reply.
    fn get<S: Sender<Request<J>, Reply<J>>>(&mut self, sender: &mut S) -> bool {
        let raise_safe = RaiseSafe {
            region: RegionNo::new(0),
            safe: Ts::ZERO,
        };
        let request = Request::new(self.seat.tell(), Body::RaiseSafe(raise_safe));
        match sender.send(request) {
            Some(reply) => {
                self.seat.learn(told_of(reply));
                true
            }
            None => false,
        }
    }
}

// The history of a reply.
fn told_of<J: JournalId>(reply: Reply<J>) -> Told<J> {
    let (request, answer, told) = reply.into_parts();
    drop(request);
    drop(answer);
    told
}

// A session and its way.
#[derive(Drop)]
struct Engine<J: JournalId> {
    session: Session<J>,
    refuser: Refuser<J>,
}

impl<J: JournalId> Engine<J> {
    fn new(session: Seat<J>, mut region: Seat<J>) -> Engine<J> {
        let newest = region.tell();
        Engine {
            session: Session { seat: session },
            refuser: Refuser {
                region,
                newest,
                held: None,
            },
        }
    }

    fn get(&mut self) -> bool {
        self.session.get::<Refuser<J>>(&mut self.refuser) && self.refuser.held.is_some()
    }
}

fn ask<J: JournalId>(session: Seat<J>, region: Seat<J>) -> bool {
    let mut engine = Engine::new(session, region);
    let came = engine.get();
    drop(engine);
    came
}

fn asks<J: JournalId>(alloc: Global, opened: Opened) -> bool
    requires { (opened.table ≡ J.table) × (opened.bounds ≡ J.bounds) × (opened.seats ≡ J.seats) }
{
    let Some(mut seats) = seats_of::<J>(alloc, opened) else {
        return false;
    };
    match (seats.pop(), seats.pop()) {
        (Some(session), Some(region)) => ask(session, region),
        _ => false,
    }
}

#[test]
fn sender_with_a_seat(rt: HostRuntime) -> Result<(), Fail> {
    let opened = Opened::new(rt.alloc(), Vec::new(rt.alloc()), 1)?;
    let came = asks::<Brand>(rt.alloc(), opened);
    assert!(rt; came);
    Ok(())
}
