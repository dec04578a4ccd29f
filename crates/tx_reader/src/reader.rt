//! Who reads at a timestamp.
ghost use Rattle.std.specs.Prelude.{◌≡◌, IfOk, IfErr};
ghost use Rattle.tx_plan.specs.declared.body.Body.{Body as Sent};
ghost use Rattle.tx_core.specs.Allowed.{Allowed};
ghost use Rattle.tx_core.specs.Histories.{Begins, last};
ghost use Rattle.tx_core.specs.Laws.{WasToldOf};
ghost use Rattle.tx_core.specs.Worlds.{IsWorldRun};
ghost use Rattle.tx_journal.specs.Senders.{IsSender, LosesNothing};
ghost use Rattle.tx_transaction.specs.declared.state.Miss.TheVariants.{Fault as Short};
ghost use Rattle.tx_client.specs.Facts.{WasAnswered};
ghost use Rattle.tx_reader.specs.Readers.{AreTogether, IsAnswerTo, IsKeyAnswer, IsOfOneRegion, IsPartAnswer, IsReadOf, FindsAt, LoadedFrom, OnlySees, ReadsOn, ScansAt};

use crate::read::Read;
use std::alloc::Global;
use std::marker::Model;
use tx_client::{Miss, Resolved, Status, ask};
use tx_core::{Answer, Body, Get, Starts};
use tx_journal::{JournalId, Reply, Request, Seat, Sender};
use tx_plan::{Boxed, Scan};
use tx_resolve::resolve;
use tx_types::{Fault, Key, LockInfo, Ts};

/// How many locks a read resolves at most.
const LOCKS: u32 = 1_024;

/// Who reads at a timestamp, which need not be fresh. It is no transaction: its seat records
/// nothing. Contracts see what the seat knows, and the timestamp.
#[derive(Drop)]
pub struct Reader<J: JournalId> {
    alloc: Global,
    seat: Seat<J>,
    at: Ts,
    /// The transactions whose locks its reads pass by.
    passed: Starts,
}

impl<J: JournalId> Model for Reader<J> {
    ghost use Rattle.tx_core.specs.Allowed.{AllowsRead};
    ghost use Rattle.tx_core.specs.Worlds.{IsWorldRun};
    ghost use Rattle.tx_reader.specs.Readers.{Reading};

    ghost Value = { Reading };

    ghost view = { λ r. record { seat = r.seat; at = r.at } };

    ghost invariant = { λ r. IsWorldRun J.bounds r.seat.events × AllowsRead r.seat.events r.at r.passed };
}

impl<J: JournalId> Reader<J> {
    /// Who reads at this timestamp, by this seat.
    pub fn new(alloc: Global, seat: Seat<J>, at: Ts) -> Reader<J>
        ensures { result ≡ record { seat = seat; at = at } }
    {
        // For proofs: what the seat has seen is a world run.
        let _number = seat.number();
        Reader {
            alloc,
            seat,
            at,
            passed: Starts::new(alloc),
        }
    }

    /// Its seat.
    pub fn into_seat(self) -> Seat<J>
        ensures { result ≡ self.seat }
    {
        let Reader {
            alloc: _,
            seat,
            at: _,
            passed: _,
        } = self;
        seat
    }

    /// For proofs: what its seat has seen is a world run. It does nothing when it runs.
    pub fn know_run(&self)
        ensures { IsWorldRun J.bounds self.now.seat.events }
    {
        let _number = self.seat.number();
    }

    // The request of a read.
    fn body_of(&self, read: &Read) -> Result<Body, Fault>
        ensures { IfOk result (λ b. IsReadOf read.now self.now.at b × Allowed self.now.seat.events b) }
    {
        let bypass = self.passed.clone()?;
        match read {
            Read::Key(key) => Ok(Body::Get(Get {
                key: key.clone()?,
                at: self.at,
                bypass,
            })),
            Read::Part(from, to, limit) => {
                let scan = Scan {
                    from: from.clone()?,
                    to: to.clone()?,
                    at: self.at,
                    limit: *limit,
                    bypass,
                };
                Ok(Body::Scan(Boxed::new(self.alloc, scan)?))
            }
        }
    }

    // Sends a read, once.
    fn look<S: Sender<Request<J>, Reply<J>>>(
        &mut self,
        read: &Read,
        sender: &mut S,
    ) -> Result<Answer, Miss>
        requires way { IsSender J.bounds S.fits S.sends S.keys_between }
        requires held { IsOfOneRegion J.bounds read.now }
        ensures at { self.new.at ≡ self.old.at }
        ensures seat { OnlySees self.old.seat self.new.seat }
        ensures run { IsWorldRun J.bounds self.new.seat.events }
        ensures told { IfOk result (λ a. (b : Sent) × IsReadOf read.now self.old.at b
            × WasAnswered self.new.seat.events b a) }
        ensures loaded { IfOk result (LoadedFrom (last self.old.seat.events)) }
        ensures lossless { LosesNothing S.sends → IfErr result (λ m. m ≡ Short) }
    {
        let Ok(body) = self.body_of(read) else {
            return Err(Miss::Fault);
        };
        ask(&mut self.seat, body, sender)
    }

    // Its reads pass by a transaction that leaves them alone, as a resolver found.
    fn note(&mut self, found: Resolved<J>) -> Result<(), Miss>
        requires told { Begins found.events self.old.seat.events }
        ensures same { self.new ≡ self.old }
        ensures err { IfErr result (λ m. m ≡ Short) }
    {
        let (start, status, told) = found.into_parts();
        drop(told);
        if !status.lies_above(self.at) {
            return Ok(());
        }
        match self.passed.push(start) {
            Ok(()) => Ok(()),
            Err(_) => Err(Miss::Fault),
        }
    }

    // Has a lock resolved, as at this time: whether it is gone, or may be passed by.
    fn pass<S: Sender<Request<J>, Reply<J>>>(
        &mut self,
        info: &LockInfo,
        now: Ts,
        sender: &mut S,
    ) -> Result<bool, Miss>
        requires way { IsSender J.bounds S.fits S.sends S.keys_between }
        requires told { WasToldOf self.old.seat.events info.now }
        ensures at { self.new.at ≡ self.old.at }
        ensures seat { OnlySees self.old.seat self.new.seat }
        ensures err { IfErr result (λ m. m ≡ Short) }
    {
        let found = resolve(&mut self.seat, info, self.at, now, sender);
        let waits = matches!(found.status(), Status::Waiting(_));
        self.note(found)?;
        Ok(!waits)
    }

    // Sends a read, until no lock is in its way that it may pass by.
    fn look_past<S: Sender<Request<J>, Reply<J>>>(
        &mut self,
        read: &Read,
        sender: &mut S,
    ) -> Result<Answer, Miss>
        requires way { IsSender J.bounds S.fits S.sends S.keys_between }
        requires held { IsOfOneRegion J.bounds read.now }
        ensures at { self.new.at ≡ self.old.at }
        ensures seat { OnlySees self.old.seat self.new.seat }
        ensures finds { IfOk result (FindsAt J.bounds self.new.seat.events self.old.at read.now) }
        ensures may { IfOk result
            (IsAnswerTo self.new.seat.events (last self.old.seat.events) self.old.at read.now) }
        ensures lossless { LosesNothing S.sends → IfErr result (λ m. m ≡ Short) }
    {
        let now = self.seat.last();
        for _ in 0..LOCKS {
            match self.look(read, sender)? {
                Answer::KeyIsLocked(info) => {
                    if !self.pass(&info, now, sender)? {
                        return Ok(Answer::KeyIsLocked(info));
                    }
                }
                answer => return Ok(answer),
            }
        }
        self.look(read, sender)
    }

    /// Reads a key. A lock in the way is resolved, as at the last timestamp that was drawn;
    /// `KeyIsLocked` where it still stands there. It finds what the one-step machine sees. It is
    /// answered `BelowSafePoint` where its timestamp lies below the safe point, `FutureTimestamp`
    /// where that lies above the last number that the region knows to be drawn, and so never one
    /// that the seat has seen drawn, and nothing else; each as a read at its timestamp was
    /// answered. Where the sender loses nothing it goes without an answer for want of memory
    /// alone.
    pub fn get<S: Sender<Request<J>, Reply<J>>>(
        &mut self,
        key: &Key,
        sender: &mut S,
    ) -> Result<Answer, Miss>
        requires way { IsSender J.bounds S.fits S.sends S.keys_between }
        ensures at { self.new.at ≡ self.old.at }
        ensures seat { OnlySees self.old.seat self.new.seat }
        ensures finds { IfOk result (ReadsOn J.bounds self.new.seat.events self.old.at key.now) }
        ensures may { IfOk result
            (IsKeyAnswer self.new.seat.events (last self.old.seat.events) self.old.at key.now) }
        ensures lossless { LosesNothing S.sends → IfErr result (λ m. m ≡ Short) }
    {
        let Ok(key) = key.clone() else {
            return Err(Miss::Fault);
        };
        self.look_past(&Read::Key(key), sender)
    }

    /// Reads the first `limit` rows from `from` up to but not including `to`, all keys of one
    /// region: `end_of_part` tells how far that goes. Locks in the way are resolved as those of
    /// `get` are. It finds what the one-step machine sees, and is refused only as `get` is.
    pub fn scan<S: Sender<Request<J>, Reply<J>>>(
        &mut self,
        from: &Key,
        to: &Key,
        limit: u32,
        sender: &mut S,
    ) -> Result<Answer, Miss>
        requires way { IsSender J.bounds S.fits S.sends S.keys_between }
        requires held { AreTogether J.bounds from.now to.now }
        ensures at { self.new.at ≡ self.old.at }
        ensures seat { OnlySees self.old.seat self.new.seat }
        ensures finds { IfOk result (ScansAt J.bounds self.new.seat.events self.old.at from.now to.now limit) }
        ensures may { IfOk result (IsPartAnswer self.new.seat.events (last self.old.seat.events) self.old.at) }
        ensures lossless { LosesNothing S.sends → IfErr result (λ m. m ≡ Short) }
    {
        let (Ok(from), Ok(to)) = (from.clone(), to.clone()) else {
            return Err(Miss::Fault);
        };
        self.look_past(&Read::Part(from, to, limit), sender)
    }
}
