//! How an update ends.
ghost use Rattle.std.specs.Prelude.{◌≡◌, true, IfOk, IfErr};
ghost use Rattle.tx_client.specs.Calls.{Seated};
ghost use Rattle.tx_update.specs.Failures.{may_go_further};
ghost use Rattle.tx_update.specs.Updates.{IsWithoutEffect, MayHaveDeclared};
ghost use Rattle.tx_update.specs.Endings.{EndsFrom, IsOpen};

use crate::failure::Failure;
use tx_client::Session;
use tx_core::Outcome;
use tx_journal::{JournalId, Seat};
use tx_types::Ts;

/// The seats of who runs updates: one begins their transactions, the other resolves the locks in
/// their way.
#[derive(Drop)]
pub struct Seats<J: JournalId> {
    pub begins: Seat<J>,
    pub resolves: Seat<J>,
}

/// How the transaction ended that ran last.
#[derive(Drop)]
pub struct Ended<J: JournalId, O, E> {
    /// Its start timestamp.
    pub start: Ts,
    /// What `finish` answered.
    pub outcome: Outcome,
    /// What the work answered, where it went well.
    pub value: Option<O>,
    /// Why it went no further; none where it did all that it was to do.
    pub stop: Option<Failure<E>>,
    /// How many tries before it came to nothing.
    pub retries: u32,
    pub seats: Seats<J>,
}

/// There is no outcome.
#[derive(Drop)]
pub enum Unended<J: JournalId, E> {
    /// The ticks of the seat that begins are spent: no transaction began.
    Spent(Seats<J>),
    /// Nothing is decided, and no answer is missing: something, as memory, was refused to the
    /// session itself, which `stop` tells. The session goes on, and may be asked again, aborted or
    /// stopped.
    Open {
        session: Session<J>,
        resolves: Seat<J>,
        stop: Option<Failure<E>>,
    },
}

impl<J: JournalId, O: Drop, E: Drop> Ended<J, O, E> {
    /// Whether the transaction changed nothing, for good, and one that begins later may go further.
    pub fn may_pass(&self) -> bool
        ensures passes { result ≡ may_go_further self.now.outcome self.now.stop }
        ensures effect { result ≡ true → IsWithoutEffect self.now.outcome }
    {
        match (&self.outcome, &self.stop) {
            (Outcome::Aborted | Outcome::ReadOnly, Some(stop)) => stop.may_pass(),
            _ => false,
        }
    }

    /// The seats.
    pub fn into_seats(self) -> Seats<J>
        ensures { result ≡ self.seats }
    {
        let Ended {
            start: _,
            outcome: _,
            value: _,
            stop: _,
            retries: _,
            seats,
        } = self;
        seats
    }
}

// Finishes a transaction that has gone as far as it goes.
#[inline(always)]
pub(crate) fn finished<J: JournalId, O: Drop, E: Drop>(
    session: Session<J>,
    resolves: Seat<J>,
    value: Option<O>,
    stop: Option<Failure<E>>,
    retries: u32,
) -> Result<Ended<J, O, E>, Unended<J, E>>
    ensures ended { (begun : Seated) → MayHaveDeclared begun session
        → IfOk result (λ e. EndsFrom J.bounds begun.seat session resolves value stop e) }
    ensures retries { IfOk result (λ e. e.retries ≡ retries) }
    ensures open_yet { IfErr result (λ u. IsOpen session resolves stop u) }
{
    // For proofs: what its seat has seen declared.
    session.show();
    let start = session.start();
    match session.finish() {
        Ok((outcome, begins)) => Ok(Ended {
            start,
            outcome,
            value,
            stop,
            retries,
            seats: Seats { begins, resolves },
        }),
        Err(session) => Err(Unended::Open {
            session,
            resolves,
            stop,
        }),
    }
}
