//! Reads of a transaction that is open, at its start.
ghost use Rattle.std.specs.Prelude.{◌≡◌, ℕ, Option, IfOk, IfErr};
ghost use Rattle.tx_types.specs.declared.key.Key.{Key as Bytes};
ghost use Rattle.tx_types.specs.declared.mutation.Mutation.{Mutation};
ghost use Rattle.tx_plan.specs.declared.answer.Answer.TheVariants.{KeyIsLocked};
ghost use Rattle.tx_core.specs.Histories.{History};
ghost use Rattle.tx_journal.specs.Senders.{IsSender};
ghost use Rattle.tx_update.specs.Reads.{Finds, AnswersRead, AnswersScan, IsGetAnswer, IsScanAnswer, LosesRead, HasSeenStart};
ghost use Rattle.tx_update.specs.Stops.{IsReadStop, NamesKey};
ghost use Rattle.tx_update.specs.Updates.{SeatGoesOn};
ghost use Rattle.tx_embed.specs.Reads.{LooksAt, Gets, LooksFrom, Nexts, FindsFirst, LocksWithin, NamesWithin};

use crate::locks::clear;
use std::alloc::Global;
use tx_client::{Miss, Session, Status, WaitCause};
use tx_core::Answer;
use tx_journal::{JournalId, Reply, Request, Seat, Sender};
use tx_types::{Key, KeyValue, LockInfo, Value};
use tx_update::{Stop, stop_by};

// Reads a key, once.
fn look<J: JournalId, S: Sender<Request<J>, Reply<J>>>(
    session: &mut Session<J>,
    key: &Key,
    sender: &mut S,
) -> Result<Answer, Miss>
    requires way { IsSender J.bounds S.fits S.sends S.keys_between }
    requires drawn { HasSeenStart session.old }
    ensures { LooksAt (LosesRead S.sends) session.old key.now result session.new }
{
    let answer = session.get(key, sender);
    // For proofs: what its seat has seen is a run.
    session.show();
    answer
}

// The value that a read of a key found.
fn value_in(key: &Key, answer: Answer) -> Result<Option<Value>, Stop>
    ensures finds { IfOk result (λ found. (entered : Option Mutation) (h : History) (start : ℕ) (k : Bytes)
        → AnswersRead entered h start k answer → Finds entered h start k found) }
    ensures err { IfErr result (λ s. (h : History) (start : ℕ) → IsGetAnswer h start key.now answer
        → IsReadStop (λ _. ⊥) h start s) }
    ensures names { IfErr result (NamesKey key.now) }
{
    match answer {
        Answer::Found(value) => Ok(Some(value)),
        Answer::Nothing => Ok(None),
        Answer::KeyIsLocked(_) => Err(Stop::Waits(key.clone()?, WaitCause::Live)),
        refusal => Err(stop_by(refusal)),
    }
}

// Reads a key, past no lock.
fn get_now<J: JournalId, S: Sender<Request<J>, Reply<J>>>(
    session: &mut Session<J>,
    key: &Key,
    sender: &mut S,
) -> Result<Option<Value>, Stop>
    requires way { IsSender J.bounds S.fits S.sends S.keys_between }
    requires drawn { HasSeenStart session.old }
    ensures { Gets (LosesRead S.sends) session.old key.now result session.new }
{
    let answer = look(session, key, sender)?;
    value_in(key, answer)
}

// Resolves the lock that stood in the way of a read of a key, and reads it again.
fn get_past<J: JournalId, S: Sender<Request<J>, Reply<J>>>(
    session: &mut Session<J>,
    key: &Key,
    lock: &LockInfo,
    resolver: &mut Seat<J>,
    sender: &mut S,
) -> Result<Option<Value>, Stop>
    requires way { IsSender J.bounds S.fits S.sends S.keys_between }
    requires drawn { HasSeenStart session.old }
    requires met { IsGetAnswer session.old.seat.events session.old.state.start key.now (KeyIsLocked lock.now) }
    ensures gets { Gets (LosesRead S.sends) session.old key.now result session.new }
    ensures resolver { SeatGoesOn resolver.old resolver.new }
{
    let _ = lock;
    if let Status::Waiting(why) = clear(session, resolver, sender)? {
        return Err(Stop::Waits(key.clone()?, why));
    }
    // For proofs: what its seat has seen is a run.
    session.show();
    get_now(session, key, sender)
}

/// The value of a key at the start, or what was entered of it. A lock in its way is resolved.
pub(crate) fn get<J: JournalId, S: Sender<Request<J>, Reply<J>>>(
    session: &mut Session<J>,
    key: &Key,
    resolver: &mut Seat<J>,
    sender: &mut S,
) -> Result<Option<Value>, Stop>
    requires way { IsSender J.bounds S.fits S.sends S.keys_between }
    requires drawn { HasSeenStart session.old }
    ensures gets { Gets (LosesRead S.sends) session.old key.now result session.new }
    ensures resolver { SeatGoesOn resolver.old resolver.new }
{
    let answer = look(session, key, sender)?;
    // For proofs: what its seat has seen is a run.
    session.show();
    match answer {
        Answer::KeyIsLocked(lock) => get_past(session, key, &lock, resolver, sender),
        answer => value_in(key, answer),
    }
}

// Reads the first row of a range, once.
fn look_from<J: JournalId, S: Sender<Request<J>, Reply<J>>>(
    session: &mut Session<J>,
    alloc: Global,
    from: &Key,
    to: &Key,
    sender: &mut S,
) -> Result<Answer, Miss>
    requires way { IsSender J.bounds S.fits S.sends S.keys_between }
    requires drawn { HasSeenStart session.old }
    ensures { LooksFrom (LosesRead S.sends) session.old from.now to.now result session.new }
{
    // For proofs: the keys between the regions rise.
    let _bounds = sender.bounds();
    let answer = session.scan(alloc, from, to, 1, sender);
    // For proofs: what its seat has seen is a run.
    session.show();
    answer
}

// The row that the read of a range found.
fn row_in(answer: Answer) -> Result<Option<KeyValue>, Stop>
    ensures finds { IfOk result (λ found. (h : History) (start : ℕ) (from to : Bytes)
        → AnswersScan h start from to 1 answer → FindsFirst h start from to found) }
    ensures err { IfErr result (λ s. (h : History) (start : ℕ) → IsScanAnswer h start answer
        → IsReadStop (λ _. ⊥) h start s) }
    ensures within { IfErr result
        (λ s. (from to : Bytes) → LocksWithin from to answer → NamesWithin from to s) }
{
    match answer {
        Answer::Rows(rows) => Ok(rows.into_vec().pop()),
        refusal => Err(stop_by(refusal)),
    }
}

// Reads the first row of a range, past no lock.
fn first_now<J: JournalId, S: Sender<Request<J>, Reply<J>>>(
    session: &mut Session<J>,
    alloc: Global,
    from: &Key,
    to: &Key,
    sender: &mut S,
) -> Result<Option<KeyValue>, Stop>
    requires way { IsSender J.bounds S.fits S.sends S.keys_between }
    requires drawn { HasSeenStart session.old }
    ensures { Nexts (LosesRead S.sends) session.old from.now to.now result session.new }
{
    let answer = look_from(session, alloc, from, to, sender)?;
    row_in(answer)
}

// Resolves the lock that stood in the way of a read of a range, and reads it again.
fn first_past<J: JournalId, S: Sender<Request<J>, Reply<J>>>(
    session: &mut Session<J>,
    alloc: Global,
    from: &Key,
    to: &Key,
    lock: &LockInfo,
    resolver: &mut Seat<J>,
    sender: &mut S,
) -> Result<Option<KeyValue>, Stop>
    requires way { IsSender J.bounds S.fits S.sends S.keys_between }
    requires drawn { HasSeenStart session.old }
    requires met { IsScanAnswer session.old.seat.events session.old.state.start (KeyIsLocked lock.now) }
    requires within { LocksWithin from.now to.now (KeyIsLocked lock.now) }
    ensures nexts { Nexts (LosesRead S.sends) session.old from.now to.now result session.new }
    ensures resolver { SeatGoesOn resolver.old resolver.new }
{
    if let Status::Waiting(why) = clear(session, resolver, sender)? {
        return Err(Stop::Waits(lock.facts().key.clone()?, why));
    }
    // For proofs: what its seat has seen is a run.
    session.show();
    first_now(session, alloc, from, to, sender)
}

/// The first row of a range at the start. A lock in its way is resolved.
pub(crate) fn first<J: JournalId, S: Sender<Request<J>, Reply<J>>>(
    session: &mut Session<J>,
    alloc: Global,
    from: &Key,
    to: &Key,
    resolver: &mut Seat<J>,
    sender: &mut S,
) -> Result<Option<KeyValue>, Stop>
    requires way { IsSender J.bounds S.fits S.sends S.keys_between }
    requires drawn { HasSeenStart session.old }
    ensures nexts { Nexts (LosesRead S.sends) session.old from.now to.now result session.new }
    ensures resolver { SeatGoesOn resolver.old resolver.new }
{
    let answer = look_from(session, alloc, from, to, sender)?;
    // For proofs: what its seat has seen is a run.
    session.show();
    match answer {
        Answer::KeyIsLocked(lock) => first_past(session, alloc, from, to, &lock, resolver, sender),
        answer => row_in(answer),
    }
}
