//! What the updates of these tests do.
ghost use Rattle.tx_journal.specs.Senders.{IsSender};

use crate::calls::{Op, pair_of};
use crate::clients::{Call, Site, transact};
use std::alloc::Global;
use std::sync::Wait;
use tx_cells::Families;
use tx_client::Terms;
use tx_core::Outcome;
use tx_journal::{JournalId, Reply, Request, Seat, Sender};
use tx_types::{Key, Mode};
use tx_update::{Failure, Seats, Stop, Tx, Work, update};

/// What it does with the key `a`, or to it.
#[derive(Clone, Copy)]
pub enum Deed {
    /// It puts this byte there.
    Put(u8),
    /// It inserts this byte there.
    Insert(u8),
    /// It puts this byte there, and on the key `z` of the other region.
    PutBoth(u8),
    /// It reads it.
    Read,
    /// It gives up.
    GiveUp,
    /// It puts this byte there, and gives up.
    PutAndGiveUp(u8),
    /// It puts this byte there, and does not go on after the first try.
    PutOnce(u8),
}

/// It gave up.
#[derive(Drop)]
pub struct GaveUp;

/// One deed, and how often it was done. The first time it lets a rival put 9 on the key `a`, and
/// commit that, before it is done.
#[derive(Drop)]
pub struct Doing<'a, J: JournalId, F: Families + Drop, R: Wait> {
    pub site: Site<'a, J, F, R>,
    pub rival: Option<Seat<J>>,
    pub deed: Deed,
    pub calls: u32,
    /// What was read: 0 for no value.
    pub read: u8,
}

impl<'a, J: JournalId, F: Families + Drop, R: Wait> Doing<'a, J, F, R> {
    pub fn new(site: &Site<'a, J, F, R>, rival: Option<Seat<J>>, deed: Deed) -> Doing<'a, J, F, R> {
        Doing {
            site: Site {
                rt: site.rt,
                store: site.store,
                alloc: site.alloc,
            },
            rival,
            deed,
            calls: 0,
            read: 0,
        }
    }
}

const PUT_9: &[Call<'_>] = &[
    (Op::Put(b"a", &[9]), "ok"),
    (Op::Declare(Mode::TwoPhase, None), "ok"),
    (Op::Prewrite, "prewritten"),
    (Op::Draw, "drawn"),
    (Op::Commit, "committed"),
];

fn put<T: Tx>(tx: &mut T, key: &[u8], byte: u8) -> Result<(), Stop> {
    let (key, value) = pair_of(tx.alloc(), key, &[byte])?;
    tx.put(key, value)
}

fn insert<T: Tx>(tx: &mut T, byte: u8) -> Result<(), Stop> {
    let (key, value) = pair_of(tx.alloc(), b"a", &[byte])?;
    tx.insert(key, value)
}

fn read<T: Tx>(tx: &mut T) -> Result<u8, Stop> {
    let key = Key::new(tx.alloc(), b"a")?;
    match tx.get(&key)? {
        Some(value) => Ok(value.as_bytes().first().copied().unwrap_or(0)),
        None => Ok(0),
    }
}

impl<'a, J: JournalId, F: Families + Drop, R: Wait> Work for Doing<'a, J, F, R> {
    type Out = ();

    type Err = GaveUp;

    fn apply<T: Tx>(&mut self, tx: &mut T) -> Result<(), Failure<GaveUp>> {
        if let Some(seat) = self.rival.take() {
            let _ = transact(&self.site, seat, PUT_9);
        }
        self.calls = self.calls.saturating_add(1);
        match self.deed {
            Deed::Put(byte) | Deed::PutOnce(byte) => put(tx, b"a", byte)?,
            Deed::Insert(byte) => insert(tx, byte)?,
            Deed::PutBoth(byte) => {
                put(tx, b"a", byte)?;
                put(tx, b"z", byte)?;
            }
            Deed::Read => self.read = read(tx)?,
            Deed::GiveUp => return Err(Failure::Own(GaveUp)),
            Deed::PutAndGiveUp(byte) => {
                put(tx, b"a", byte)?;
                return Err(Failure::Own(GaveUp));
            }
        }
        Ok(())
    }

    fn may_go_on(&self, tries: u32, _last: &Stop) -> bool {
        tries < 1 || !matches!(self.deed, Deed::PutOnce(_))
    }
}

// An outcome, and why it went no further, in words.
fn words<E>(outcome: &Outcome, stop: Option<&Failure<E>>) -> (&'static str, &'static str) {
    let outcome = match outcome {
        Outcome::Committed(_) => "committed",
        Outcome::Aborted => "aborted",
        Outcome::Unknown(_) => "unknown",
        Outcome::ReadOnly => "read-only",
    };
    let stop = match stop {
        None => "done",
        Some(Failure::Own(_)) => "gave up",
        Some(Failure::Stopped(stop)) => word(stop),
    };
    (outcome, stop)
}

// Why a transaction was stopped, in a word.
fn word(stop: &Stop) -> &'static str {
    match stop {
        Stop::Waits(..) => "waits",
        Stop::Conflict(_) | Stop::RolledBack => "conflict",
        Stop::AlreadyExists(_) => "exists",
        Stop::BelowSafePoint => "below",
        Stop::Lost => "lost",
        Stop::Refused(_) => "refused",
    }
}

/// Runs an update in this mode, and tries it again so often: how the last try ended, in words, and
/// the seats.
pub fn run<J: JournalId, S: Sender<Request<J>, Reply<J>>, W: Work>(
    alloc: Global,
    seats: Seats<J>,
    mode: Mode,
    again: u32,
    work: &mut W,
    sender: &mut S,
) -> Option<((&'static str, &'static str), Seats<J>)>
    requires way { IsSender J.bounds S.fits S.sends S.keys_between }
{
    let terms = Terms {
        mode,
        ttl: 10,
        max_commit: None,
    };
    let ended = update(alloc, seats, terms, again, work, sender).ok()?;
    let words = words(&ended.outcome, ended.stop.as_ref());
    Some((words, ended.into_seats()))
}
