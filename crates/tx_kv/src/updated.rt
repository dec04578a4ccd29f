//! What is told of an update.
ghost use Rattle.std.specs.Prelude.{◌≡◌, IfOk, IfErr};
ghost use Rattle.tx_kv.specs.Clients.{HasValue, TellsEnd, TellsNoEnd};
ghost use Rattle.tx_kv.specs.UpdateResults.{told_stop, told_commit, told_reads, told_end};

use thiserror::Error;
use tx_core::Outcome;
use tx_journal::JournalId;
use tx_types::Ts;
use tx_update::{Ended, Failure, Seats, Stop, Unended};

/// An update that went well.
#[derive(Debug, Drop)]
pub struct Updated<O> {
    /// The start timestamp of its transaction, at which it read.
    pub start: Ts,
    /// Its commit timestamp; none where it wrote nothing.
    pub commit: Option<Ts>,
    /// How many tries before it came to nothing.
    pub retries: u32,
    /// What the work answered.
    pub value: O,
}

/// Why an update did not go well.
#[derive(Debug, Drop, Error)]
pub enum NotUpdated<E> {
    /// The work refused, for a reason of its own. Nothing is written.
    #[error("the work refused: nothing is written")]
    Own(E),
    /// The transaction was stopped. Nothing is written.
    #[error("{0}: nothing is written")]
    Stopped(Stop),
    /// What becomes of the transaction that began at this timestamp is not known: a reply or memory
    /// is missing.
    #[error("what becomes of the transaction that started at {0} is not known")]
    Unknown(Ts),
    /// The ticks of the client are spent: no transaction began.
    #[error("the ticks of this client are spent: no transaction began")]
    Spent,
}

/// What an update answers, and the seats that it hands back.
pub(crate) type Told<J, O, E> = (Result<Updated<O>, NotUpdated<E>>, Seats<J>);

// Why a transaction without effect was stopped.
fn stopped<E>(stop: Option<Failure<E>>) -> NotUpdated<E>
    ensures { result ≡ told_stop stop }
{
    match stop {
        Some(Failure::Own(own)) => NotUpdated::Own(own),
        Some(Failure::Stopped(stop)) => NotUpdated::Stopped(stop),
        None => NotUpdated::Stopped(Stop::RolledBack),
    }
}

// What is told of a transaction that is committed.
fn by_commit<O: Drop, E: Drop>(
    start: Ts,
    at: Ts,
    retries: u32,
    value: Option<O>,
) -> Result<Updated<O>, NotUpdated<E>>
    ensures { result ≡ told_commit start at retries value }
{
    match value {
        Some(value) => Ok(Updated {
            start,
            commit: Some(at),
            retries,
            value,
        }),
        None => Err(NotUpdated::Unknown(start)),
    }
}

// What is told of a transaction that wrote nothing.
fn by_reads<O: Drop, E: Drop>(
    start: Ts,
    retries: u32,
    value: Option<O>,
    stop: Option<Failure<E>>,
) -> Result<Updated<O>, NotUpdated<E>>
    ensures { result ≡ told_reads start retries value stop }
{
    match (value, stop) {
        (Some(value), None) => Ok(Updated {
            start,
            commit: None,
            retries,
            value,
        }),
        (_, stop) => Err(stopped(stop)),
    }
}

// What is told of how a transaction ended.
fn by_outcome<O: Drop, E: Drop>(
    start: Ts,
    outcome: Outcome,
    retries: u32,
    value: Option<O>,
    stop: Option<Failure<E>>,
) -> Result<Updated<O>, NotUpdated<E>>
    ensures { result ≡ told_end start outcome retries value stop }
{
    match outcome {
        Outcome::Committed(at) => by_commit(start, at, retries, value),
        Outcome::ReadOnly => by_reads(start, retries, value, stop),
        Outcome::Aborted => Err(stopped(stop)),
        Outcome::Unknown(_) => Err(NotUpdated::Unknown(start)),
    }
}

// What is told of how an update ended.
fn by_ended<J: JournalId, O: Drop, E: Drop>(ended: Ended<J, O, E>) -> Told<J, O, E>
    requires value { HasValue ended }
    ensures tells { TellsEnd ended result.0 }
    ensures seats { result.1 ≡ ended.seats }
{
    let Ended {
        start,
        outcome,
        value,
        stop,
        retries,
        seats,
    } = ended;
    (by_outcome(start, outcome, retries, value, stop), seats)
}

// What is told of an update without an outcome. A session that goes on is left as it is.
fn by_unended<J: JournalId, O: Drop, E: Drop>(unended: Unended<J, E>) -> Told<J, O, E>
    ensures { TellsNoEnd J.bounds unended result.0 result.1 }
{
    match unended {
        Unended::Spent(seats) => (Err(NotUpdated::Spent), seats),
        Unended::Open {
            session,
            resolves,
            stop: _,
        } => {
            let start = session.start();
            let begins = session.stop();
            (Err(NotUpdated::Unknown(start)), Seats { begins, resolves })
        }
    }
}

/// What is told of an update, however it came out.
pub(crate) fn told_of<J: JournalId, O: Drop, E: Drop>(
    came: Result<Ended<J, O, E>, Unended<J, E>>,
) -> Told<J, O, E>
    requires value { IfOk came HasValue }
    ensures ended { IfOk came (λ e. TellsEnd e result.0 × (result.1 ≡ e.seats)) }
    ensures unended { IfErr came (λ u. TellsNoEnd J.bounds u result.0 result.1) }
{
    match came {
        Ok(ended) => by_ended(ended),
        Err(unended) => by_unended(unended),
    }
}
