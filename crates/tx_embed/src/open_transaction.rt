//! A transaction that is open: it reads at its start, and enters what it is to write.
ghost use Rattle.std.specs.Prelude.{◌≡◌, ◌⊎◌, ◌<◌, Some, None, IfOk, IfErr, OnOk, OnErr};
ghost use Rattle.tx_types.specs.declared.mutation.Mutation.TheVariants as mutation;
ghost use Rattle.tx_core.specs.Histories.{declared};
ghost use Rattle.tx_core.specs.declared.event.Event.TheVariants.{Stopped};
ghost use Rattle.tx_transaction.specs.Buffers.{touched, put_over, inserted, locked, buffered, is_full};
ghost use Rattle.tx_transaction.specs.Sessions.{begun};
ghost use Rattle.tx_transaction.specs.declared.state.Terms.{Terms as Given};
ghost use Rattle.tx_client.specs.Calls.{Seated, BeganAt, Records};
ghost use Rattle.tx_journal.specs.Senders.{IsSender};
ghost use Rattle.tx_update.specs.declared.stops.Stop.TheVariants as stop;
ghost use Rattle.tx_update.specs.Reads.{LosesRead};
ghost use Rattle.tx_update.specs.Stops.{IsEntryStop, IsOwnRefusal};
ghost use Rattle.tx_update.specs.Updates.{SeatGoesOn, MayHaveDeclared};
ghost use Rattle.tx_embed.specs.Transactions.{Enters, Commits, NamesEntered, TellsOf, WroteBy, told_why};
ghost use Rattle.tx_embed.specs.Reads.{Gets, Nexts};

use crate::commit::write;
use crate::reads;
use std::alloc::Global;
use std::marker::Model;
use tx_client::{Session, Terms};
use tx_core::Outcome;
use tx_journal::{JournalId, Reply, Request, Seat, Sender};
use tx_types::{Key, KeyValue, Ts, Value};
use tx_update::Stop;

/// A transaction that is open: nothing of it is declared, and its seat has seen its start drawn.
#[derive(Drop)]
pub struct OpenTransaction<J: JournalId> {
    session: Session<J>,
}

impl<J: JournalId> Model for OpenTransaction<J> {
    ghost use Rattle.std.specs.Prelude.{◌≡◌, false};
    ghost use Rattle.tx_transaction.specs.Sessions.{is_declared};
    ghost use Rattle.tx_client.specs.Calls.{Seated};
    ghost use Rattle.tx_update.specs.Reads.{HasSeenStart};

    ghost Value = { Seated };

    ghost view = { λ t. t.session };

    ghost invariant = { λ t. (is_declared t.session.state ≡ false) × HasSeenStart t.session };
}

/// Why a transaction is not committed.
#[derive(Debug, Drop)]
pub enum NotCommitted {
    /// It is without effect, for this reason.
    Stopped(Stop),
    /// What becomes of it is not known.
    Unknown,
}

/// What is told of a commit: when it was, or none where nothing was written; or why there is none.
pub type Ending = Result<Option<Ts>, NotCommitted>;

// Why a transaction without effect was stopped.
fn stopped(done: Result<(), Stop>) -> Stop
    ensures { result ≡ told_why done }
{
    match done {
        Err(stop) => stop,
        Ok(()) => Stop::RolledBack,
    }
}

// What is told of how a transaction ended, by what it did.
fn told_of(outcome: Outcome, done: Result<(), Stop>) -> Ending
    ensures { TellsOf outcome done result }
{
    match (outcome, done) {
        (Outcome::Committed(at), _) => Ok(Some(at)),
        (Outcome::ReadOnly, Ok(())) => Ok(None),
        (Outcome::Unknown(_), _) => Err(NotCommitted::Unknown),
        (_, done) => Err(NotCommitted::Stopped(stopped(done))),
    }
}

// Ends a transaction that has gone as far as it goes.
fn ended<J: JournalId>(session: Session<J>, done: Result<(), Stop>) -> (Ending, Seat<J>)
    ensures { (terms : Given) (old : Seated) → MayHaveDeclared old session
        → OnOk done (WroteBy J.bounds terms old session)
        → IfErr done (NamesEntered old.state.buffer)
        → IfErr done (λ stop. IsOwnRefusal stop ⊎ WroteBy J.bounds terms old session)
        → (WroteBy J.bounds terms old session ⊎ (declared session.seat.events old.state.start ≡ None))
        → Commits J.bounds terms old result.0 result.1 }
{
    // For proofs: what its seat has seen declared.
    session.show();
    match session.finish() {
        Ok((outcome, seat)) => (told_of(outcome, done), seat),
        Err(session) => (Err(NotCommitted::Unknown), session.stop()),
    }
}

impl<J: JournalId> OpenTransaction<J> {
    /// Begins a transaction by a seat, which comes back where its ticks are spent.
    pub fn begin(alloc: Global, seat: Seat<J>) -> Result<OpenTransaction<J>, Seat<J>>
        ensures ok { IfOk result (λ t. (t.state ≡ begun t.state.start) × BeganAt J.bounds seat t.state.start t.seat) }
        ensures spent { IfErr result (λ s. (s ≡ seat) × (seat.ticks < 1)) }
    {
        let session = Session::begin(alloc, seat)?;
        Ok(OpenTransaction { session })
    }

    /// The value of a key at the start, or what was entered of it: what the one-step machine sees.
    /// A lock in the way is resolved. It stops by `Waits` of the key where the transaction of a
    /// lock lives or cannot be asked, `BelowSafePoint`, `Refused` for want of memory, and `Lost`
    /// where the sender may lose a read; by nothing else.
    pub fn get<S: Sender<Request<J>, Reply<J>>>(
        &mut self,
        key: &Key,
        resolver: &mut Seat<J>,
        sender: &mut S,
    ) -> Result<Option<Value>, Stop>
        requires way { IsSender J.bounds S.fits S.sends S.keys_between }
        ensures gets { Gets (LosesRead S.sends) self.old key.now result self.new }
        ensures resolver { SeatGoesOn resolver.old resolver.new }
    {
        let found = reads::get(&mut self.session, key, resolver, sender);
        // For proofs: what its seat has seen is a run.
        self.session.show();
        found
    }

    /// The first row from a key up to but not including another, as the one-step machine sees them
    /// at the start; what was entered is not looked at. None where there is none. A lock in the way
    /// is resolved, once. It stops by what `get` does.
    pub fn next<S: Sender<Request<J>, Reply<J>>>(
        &mut self,
        alloc: Global,
        from: &Key,
        to: &Key,
        resolver: &mut Seat<J>,
        sender: &mut S,
    ) -> Result<Option<KeyValue>, Stop>
        requires way { IsSender J.bounds S.fits S.sends S.keys_between }
        ensures nexts { Nexts (LosesRead S.sends) self.old from.now to.now result self.new }
        ensures resolver { SeatGoesOn resolver.old resolver.new }
    {
        let found = reads::first(&mut self.session, alloc, from, to, resolver, sender);
        // For proofs: what its seat has seen is a run.
        self.session.show();
        found
    }

    /// Enters a put. `Refused` for more than 1,024 keys, or for want of memory: nothing is entered
    /// then.
    pub fn put(&mut self, key: Key, value: Value) -> Result<(), Stop>
        ensures ok { OnOk result (Enters (touched self.old.state.buffer key
            (put_over (buffered self.old.state.buffer key) value)) self.old self.new) }
        ensures same { OnErr result (self.new ≡ self.old) }
        ensures err { IfErr result (IsEntryStop (is_full self.old.state.buffer key)) }
    {
        Ok(self.session.put(key, value)?)
    }

    /// Enters an insert: a put of a key that is to have no value. `AlreadyExists` where a put or an
    /// insert of it was entered; where the key has a value at the start, the commit stops by that.
    /// `Refused` as for a put.
    pub fn insert(&mut self, key: Key, value: Value) -> Result<(), Stop>
        ensures ok { OnOk result ((inserted self.old.state.buffer key value ≡ Some self.new.state.buffer)
            × Enters self.new.state.buffer self.old self.new) }
        ensures same { OnErr result (self.new ≡ self.old) }
        ensures err { IfErr result (λ s. IsEntryStop (is_full self.old.state.buffer key) s
            ⊎ ((s ≡ stop.AlreadyExists key) × (inserted self.old.state.buffer key value ≡ None))) }
    {
        if !self.session.transaction().can_insert(key.as_bytes()) {
            return Err(Stop::AlreadyExists(key));
        }
        Ok(self.session.insert(key, value)?)
    }

    /// Enters a delete. `Refused` as for a put.
    pub fn delete(&mut self, key: Key) -> Result<(), Stop>
        ensures ok { OnOk result (Enters (touched self.old.state.buffer key mutation.Delete) self.old self.new) }
        ensures same { OnErr result (self.new ≡ self.old) }
        ensures err { IfErr result (IsEntryStop (is_full self.old.state.buffer key)) }
    {
        Ok(self.session.delete(key)?)
    }

    /// Enters a lock, where the key is not entered: it is not to change before the transaction
    /// commits. `Refused` as for a put.
    pub fn lock(&mut self, key: Key) -> Result<(), Stop>
        ensures ok { OnOk result (Enters (locked self.old.state.buffer key) self.old self.new) }
        ensures same { OnErr result (self.new ≡ self.old) }
        ensures err { IfErr result (IsEntryStop (is_full self.old.state.buffer key)) }
    {
        Ok(self.session.lock(key)?)
    }

    /// Declares what is entered under these terms and commits it: when that was. None where nothing
    /// was entered. It has then ended: what is told of it is decided, but where that is `Unknown`.
    pub fn commit<S: Sender<Request<J>, Reply<J>>>(
        self,
        alloc: Global,
        terms: &Terms,
        resolver: Seat<J>,
        sender: &mut S,
    ) -> (Ending, Seat<J>, Seat<J>)
        requires way { IsSender J.bounds S.fits S.sends S.keys_between }
        ensures commits { Commits J.bounds terms.now self result.0 result.1 }
        ensures resolver { SeatGoesOn resolver result.2 }
    {
        let OpenTransaction { session } = self;
        let (session, resolver, done) = write(alloc, session, resolver, terms, sender);
        let (ending, seat) = ended(session, done);
        (ending, seat, resolver)
    }

    /// Leaves it: nothing of it was declared, and nothing of what was entered is written.
    pub fn abort(self) -> Seat<J>
        ensures stopped { Records J.bounds self.seat (Stopped self.seat.seat) result }
        ensures nothing { declared self.seat.events self.state.start ≡ None }
    {
        let OpenTransaction { session } = self;
        // For proofs: what its seat has seen declared.
        session.show();
        session.stop()
    }
}
