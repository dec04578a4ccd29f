//! A work in one transaction: one try of an update.
ghost use Rattle.std.specs.Prelude.{◌≡◌, ◌⊎◌, false, None, [], OnOk, IfOk, IfErr};
ghost use Rattle.tx_core.specs.Histories.{declared};
ghost use Rattle.tx_transaction.specs.Sessions.{is_declared, has_primary};
ghost use Rattle.tx_journal.specs.Senders.{IsSender};
ghost use Rattle.tx_update.specs.Reads.{HasSeenStart};
ghost use Rattle.tx_update.specs.Stops.{IsOwnRefusal};
ghost use Rattle.tx_update.specs.Failures.{IsOpenStop};
ghost use Rattle.tx_update.specs.Updates.{HasOutcome, SeatGoesOn, Follows, MayHaveDeclared, Wrote, Works};
ghost use Rattle.tx_update.specs.Endings.{EndsOver, IsUnended};

use crate::ended::{Ended, Seats, Unended, finished};
use crate::failure::{Failure, failed_by};
use crate::lent::Lent;
use crate::session::{Begun, Running};
use crate::stops::Stop;
use crate::updates::Work;
use std::alloc::Global;
use std::marker::Brand;
use tx_client::{Session, Terms};
use tx_journal::{JournalId, Reply, Request, Seat, Sender};

// A session after what was done in it, the seat that resolved for it, and how that went.
type Done<J> = (Session<J>, Seat<J>, Result<(), Stop>);

// A session after a work was done in it, the seat that resolved for it, and what the work answered.
type Applied<J, O, E> = (Session<J>, Seat<J>, Result<O, Failure<E>>);

// A session after a work was done and written, the seat that resolved for it, what the work
// answered, and why it went no further.
type Ran<J, O, E> = (Session<J>, Seat<J>, Option<O>, Option<Failure<E>>);

// Has a work read, and enter what it writes, from where the call picks.
fn applied<J: JournalId, S: Sender<Request<J>, Reply<J>>, W: Work, B: Begun>(
    alloc: Global,
    session: Session<J>,
    resolver: Seat<J>,
    work: &mut W,
    sender: &mut S,
) -> Applied<J, W::Out, W::Err>
    requires way { IsSender J.bounds S.fits S.sends S.keys_between }
    requires open { is_declared session.state ≡ false }
    requires drawn { HasSeenStart session }
    requires session { session ≡ B.session }
    requires resolver { resolver ≡ B.resolver }
    ensures session { Follows B.session result.0 }
    ensures resolver { SeatGoesOn B.resolver result.1 }
    ensures did { W.does work.old session.state.buffer result.2 result.0.state.buffer work.new }
{
    let running = Running::<'_, J, S, B>::new(alloc, session, resolver, sender);
    let mut lent = Lent::new(running);
    let done = work.apply(&mut lent);
    let (session, resolver) = lent.into_running().into_parts();
    (session, resolver, done)
}

// Has a work read, and enter what it writes.
fn apply<J: JournalId, S: Sender<Request<J>, Reply<J>>, W: Work>(
    alloc: Global,
    session: Session<J>,
    resolver: Seat<J>,
    work: &mut W,
    sender: &mut S,
) -> Applied<J, W::Out, W::Err>
    requires way { IsSender J.bounds S.fits S.sends S.keys_between }
    requires open { is_declared session.state ≡ false }
    requires drawn { HasSeenStart session }
    ensures session { Follows session result.0 }
    ensures resolver { SeatGoesOn resolver result.1 }
    ensures did { W.does work.old session.state.buffer result.2 result.0.state.buffer work.new }
{
    applied::<J, S, W, Brand>(alloc, session, resolver, work, sender)
}

// Carries what is declared to its end, from where the call picks.
fn carried<J: JournalId, S: Sender<Request<J>, Reply<J>>, B: Begun>(
    alloc: Global,
    session: Session<J>,
    resolver: Seat<J>,
    sender: &mut S,
) -> Done<J>
    requires way { IsSender J.bounds S.fits S.sends S.keys_between }
    requires session { session ≡ B.session }
    requires resolver { resolver ≡ B.resolver }
    ensures session { Follows B.session result.0 }
    ensures resolver { SeatGoesOn B.resolver result.1 }
    ensures ended { OnOk result.2 (HasOutcome result.0) }
    ensures stopped { IfErr result.2 (λ stop. IsOwnRefusal stop ⊎ HasOutcome result.0) }
{
    let mut running = Running::<'_, J, S, B>::new(alloc, session, resolver, sender);
    let done = running.carry_or_take_back();
    let (session, resolver) = running.into_parts();
    (session, resolver, done)
}

// Carries what is declared to its end.
fn carry<J: JournalId, S: Sender<Request<J>, Reply<J>>>(
    alloc: Global,
    session: Session<J>,
    resolver: Seat<J>,
    sender: &mut S,
) -> Done<J>
    requires way { IsSender J.bounds S.fits S.sends S.keys_between }
    ensures session { Follows session result.0 }
    ensures resolver { SeatGoesOn resolver result.1 }
    ensures ended { OnOk result.2 (HasOutcome result.0) }
    ensures stopped { IfErr result.2 (λ stop. IsOwnRefusal stop ⊎ HasOutcome result.0) }
{
    carried::<J, S, Brand>(alloc, session, resolver, sender)
}

// Declares what is entered, if anything is, and carries it to its end.
fn write<J: JournalId, S: Sender<Request<J>, Reply<J>>>(
    alloc: Global,
    mut session: Session<J>,
    resolver: Seat<J>,
    terms: &Terms,
    sender: &mut S,
) -> Done<J>
    requires way { IsSender J.bounds S.fits S.sends S.keys_between }
    requires open { is_declared session.state ≡ false }
    ensures session { MayHaveDeclared session result.0 }
    ensures resolver { SeatGoesOn resolver result.1 }
    ensures wrote { OnOk result.2
        (Wrote J.bounds terms.now session.state.start session.state.buffer session.seat result.0.seat) }
    ensures at_most { Wrote J.bounds terms.now session.state.start session.state.buffer session.seat result.0.seat
        ⊎ (declared result.0.seat.events session.state.start ≡ None) }
    ensures ended { OnOk result.2 (HasOutcome result.0) }
    ensures stopped { IfErr result.2 (λ stop. IsOwnRefusal stop ⊎ HasOutcome result.0) }
{
    if let Err(fault) = session.declare(*terms) {
        // For proofs: what its seat has seen declared.
        session.show();
        return (session, resolver, Err(Stop::from(fault)));
    }
    // For proofs: what its seat has seen declared.
    session.show();
    if !session.has_primary() {
        return (session, resolver, Ok(()));
    }
    let (session, resolver, done) = carry(alloc, session, resolver, sender);
    // For proofs: what its seat has seen is a world run.
    session.show();
    (session, resolver, done)
}

// Does a work in a session that has just begun, as far as it goes.
fn run<J: JournalId, S: Sender<Request<J>, Reply<J>>, W: Work>(
    alloc: Global,
    session: Session<J>,
    resolver: Seat<J>,
    terms: &Terms,
    work: &mut W,
    sender: &mut S,
) -> Ran<J, W::Out, W::Err>
    requires way { IsSender J.bounds S.fits S.sends S.keys_between }
    requires open { is_declared session.state ≡ false }
    requires empty { session.state.buffer ≡ [] }
    requires drawn { HasSeenStart session }
    ensures session { MayHaveDeclared session result.0 }
    ensures resolver { SeatGoesOn resolver result.1 }
    ensures works { Works W.does J.bounds terms.now session result.0 result.2 result.3 work.old work.new }
    ensures ended { IsOpenStop result.3 ⊎ HasOutcome result.0 }
{
    let (session, resolver, answered) = apply(alloc, session, resolver, work, sender);
    match answered {
        Err(failure) => {
            // For proofs: what its seat has seen declared.
            session.show();
            (session, resolver, None, Some(failure))
        }
        Ok(value) => {
            let (session, resolver, done) = write(alloc, session, resolver, terms, sender);
            (session, resolver, Some(value), failed_by(done))
        }
    }
}

/// Does a work in one transaction, after so many tries that came to nothing.
pub(crate) fn try_once<J: JournalId, S: Sender<Request<J>, Reply<J>>, W: Work>(
    alloc: Global,
    seats: Seats<J>,
    terms: &Terms,
    work: &mut W,
    retries: u32,
    sender: &mut S,
) -> Result<Ended<J, W::Out, W::Err>, Unended<J, W::Err>>
    requires way { IsSender J.bounds S.fits S.sends S.keys_between }
    ensures ended { IfOk result (λ e. EndsOver W.does J.bounds terms.now seats work.old 0 e work.new) }
    ensures unended { IfErr result (λ u. IsUnended W.does J.bounds terms.now seats work.old 0 u work.new) }
    ensures retries { IfOk result (λ e. e.retries ≡ retries) }
{
    let Seats { begins, resolves } = seats;
    match Session::begin(alloc, begins) {
        Ok(session) => {
            let (session, resolves, value, stop) = run(
                alloc, session, resolves, terms, work, sender,
            );
            finished(session, resolves, value, stop, retries)
        }
        Err(begins) => Err(Unended::Spent(Seats { begins, resolves })),
    }
}
