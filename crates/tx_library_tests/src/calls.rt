//! What sessions do, and what comes of it where a call leaves the session there.
ghost use Rattle.std.specs.Prelude.{◌≡◌, false};
ghost use Rattle.tx_transaction.specs.Sessions.{is_declared};
ghost use Rattle.tx_journal.specs.Senders.{IsSender};

use std::alloc::Global;
use tx_client::{Miss, Session, Terms};
use tx_core::Answer;
use tx_journal::{JournalId, Reply, Request, Sender};
use tx_types::{Fault, Key, Mode, Ts, Value};

/// What is done, with keys and values.
#[derive(Clone, Copy)]
pub enum Op<'a> {
    Begin,
    /// Begins on a seat that may draw so few ticks, 0, 1 or 2.
    BeginShort(u32),
    Put(&'a [u8], &'a [u8]),
    Insert(&'a [u8], &'a [u8]),
    Delete(&'a [u8]),
    Lock(&'a [u8]),
    /// In this mode, where no async lock may promise more than this.
    Declare(Mode, Option<u64>),
    /// In two phases, with locks that live so many ticks.
    DeclareFor(u32),
    Prewrite,
    Draw,
    Commit,
    Abort,
    HeartBeat(u32),
    Get(&'a [u8]),
    Scan(&'a [u8], &'a [u8], u32),
    /// The resolver finds, at this time, what became of the transaction whose lock it met.
    Resolve(u64),
    /// Learns the fate of the other session's transaction.
    Learn,
    Finish,
    /// The collector collects at this safe point.
    Collect(u64),
    /// The safe point of a region is raised.
    Raise(u64),
    /// A transaction of no session begins, declares these two keys in two phases, and prewrites
    /// the second alone.
    Orphan(&'a [u8], &'a [u8]),
    /// So many requests are delivered plainly, before the one whose delivery the next step says.
    Skip(u32),
}

/// What comes of a call.
#[derive(Drop)]
pub enum Came {
    /// It may not be made.
    Order,
    /// It gives nothing.
    Changed(Result<(), Fault>),
    /// A timestamp was drawn.
    Drawn(Result<Ts, Fault>),
    /// What was answered; nothing where there is nothing left to ask.
    Answered(Result<Option<Answer>, Miss>),
}

/// Two keys of these bytes.
pub fn keys_of(alloc: Global, first: &[u8], second: &[u8]) -> Option<(Key, Key)> {
    let first = Key::new(alloc, first).ok()?;
    let second = Key::new(alloc, second).ok()?;
    Some((first, second))
}

/// A key and a value of these bytes.
pub fn pair_of(alloc: Global, key: &[u8], value: &[u8]) -> Result<(Key, Value), Fault> {
    let key = Key::new(alloc, key)?;
    let value = Value::new(alloc, value)?;
    Ok((key, value))
}

fn terms(mode: Mode, ttl: u32, most: Option<u64>) -> Terms {
    Terms {
        mode,
        ttl,
        max_commit: most.map(Ts::new),
    }
}

// Changes the buffer, or fixes the write set. Any other call changes nothing.
fn prepare<J: JournalId>(alloc: Global, session: &mut Session<J>, op: Op<'_>) -> Result<(), Fault>
    requires { is_declared session.old.state ≡ false }
{
    match op {
        Op::Put(key, value) => {
            let (key, value) = pair_of(alloc, key, value)?;
            session.put(key, value)
        }
        Op::Insert(key, value) => {
            let (key, value) = pair_of(alloc, key, value)?;
            session.insert(key, value)
        }
        Op::Delete(key) => session.delete(Key::new(alloc, key)?),
        Op::Lock(key) => session.lock(Key::new(alloc, key)?),
        Op::Declare(mode, most) => session.declare(terms(mode, 10, most)),
        Op::DeclareFor(ttl) => session.declare(terms(Mode::TwoPhase, ttl, None)),
        _ => Ok(()),
    }
}

fn get<J: JournalId, S: Sender<Request<J>, Reply<J>>>(
    alloc: Global,
    session: &mut Session<J>,
    key: &[u8],
    sender: &mut S,
) -> Result<Answer, Miss>
    requires way { IsSender J.bounds S.fits S.sends S.keys_between }
{
    let Ok(key) = Key::new(alloc, key) else {
        return Err(Miss::Fault);
    };
    let came = session.get(&key, sender);
    drop(key);
    came
}

fn scan<J: JournalId, S: Sender<Request<J>, Reply<J>>>(
    alloc: Global,
    session: &mut Session<J>,
    from: &[u8],
    to: &[u8],
    limit: u32,
    sender: &mut S,
) -> Result<Answer, Miss>
    requires way { IsSender J.bounds S.fits S.sends S.keys_between }
{
    let Some((from, to)) = keys_of(alloc, from, to) else {
        return Err(Miss::Fault);
    };
    let came = session.scan(alloc, &from, &to, limit, sender);
    drop(from);
    drop(to);
    came
}

/// What comes of it.
pub fn perform<J: JournalId, S: Sender<Request<J>, Reply<J>>>(
    alloc: Global,
    session: &mut Session<J>,
    op: Op<'_>,
    sender: &mut S,
) -> Came
    requires way { IsSender J.bounds S.fits S.sends S.keys_between }
{
    match op {
        Op::Prewrite if session.is_declared() => {
            Came::Answered(session.prewrite_next(alloc, sender))
        }
        Op::Draw if session.can_draw() => Came::Drawn(session.draw_commit()),
        Op::Commit if session.can_commit() => Came::Answered(session.commit_next(sender)),
        Op::Abort if session.can_abort() => Came::Answered(session.abort_next(sender)),
        Op::HeartBeat(ttl) if session.has_primary() => {
            Came::Answered(session.heartbeat(ttl, sender))
        }
        Op::Get(key) => Came::Answered(get(alloc, session, key, sender).map(Some)),
        Op::Scan(from, to, limit) => {
            Came::Answered(scan(alloc, session, from, to, limit, sender).map(Some))
        }
        Op::Put(..)
        | Op::Insert(..)
        | Op::Delete(_)
        | Op::Lock(_)
        | Op::Declare(..)
        | Op::DeclareFor(_)
            if !session.is_declared() => { Came::Changed(prepare(alloc, session, op)) }
        _ => Came::Order,
    }
}
