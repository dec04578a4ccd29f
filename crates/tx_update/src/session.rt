//! A session under way, with what it sends by and the seat that resolves locks in its way.
ghost use Rattle.std.specs.Prelude.{◌≡◌, ◌⊎◌, true, false, is_some, Some, None, Ok, OnOk, OnErr, IfOk, IfErr};
ghost use Rattle.tx_types.specs.declared.value.Value.{Value as Given};
ghost use Rattle.tx_types.specs.declared.fault.Fault.TheVariants as fault;
ghost use Rattle.tx_types.specs.declared.mutation.Mutation.TheVariants as mutation;
ghost use Rattle.tx_transaction.specs.Buffers.{touched, put_over, inserted, locked, buffered, is_full};
ghost use Rattle.tx_transaction.specs.Sessions.{is_declared, can_commit, can_abort};
ghost use Rattle.tx_core.specs.Histories.{Begins};
ghost use Rattle.tx_core.specs.Worlds.{IsWorldRun};
ghost use Rattle.tx_transaction.specs.Buffers.{changes_of};
ghost use Rattle.tx_journal.specs.Senders.{IsSender};
ghost use Rattle.tx_update.specs.declared.stops.Stop.TheVariants as stop;
ghost use Rattle.tx_update.specs.Reads.{AnswersReadOn, AnswersScan, TellsPage, IsGetAnswer, IsScanAnswer, IsReadMiss, LosesRead, HasSeenStart};
ghost use Rattle.tx_update.specs.Updates.{HasOutcome, Follows, SeatGoesOn};

use crate::met_lock::clear_met;
use crate::stops::Stop;
use std::alloc::Global;
use std::marker::{Brand, Model, PhantomData};
use tx_client::{Miss, Session, Status, Terms};
use tx_core::Answer;
use tx_journal::{JournalId, Reply, Request, Seat, Sender};
use tx_types::{Changes, Fault, Key, Mode, Ts, Value};

/// Where a session sets out. The call that runs it picks this.
pub(crate) trait Begun {
    ghost use Rattle.tx_client.specs.Calls.{Seated};
    ghost use Rattle.tx_journal.specs.Known.{Known};

    /// The session.
    ghost session: { Seated };

    /// The seat that resolves.
    ghost resolver: { Known };
}

impl Begun for Brand {
    ghost use Rattle.std.specs.Prelude.{[]};
    ghost use Rattle.tx_journal.specs.Known.{known};
    ghost use Rattle.tx_transaction.specs.Sessions.{begun};

    ghost session = { record { state = begun 0; seat = known 0 0 [] } };

    ghost resolver = { known 0 0 [] };
}

/// A session under way. Contracts see the session. It goes on from where it set out: what it has
/// declared there, it declares.
#[derive(Drop)]
pub(crate) struct Running<'a, J: JournalId, S: Sender<Request<J>, Reply<J>>, B: Begun> {
    alloc: Global,
    session: Session<J>,
    resolver: Seat<J>,
    sender: &'a mut S,
    of: PhantomData<B>,
}

impl<'a, J: JournalId, S: Sender<Request<J>, Reply<J>>, B: Begun> Model for Running<'a, J, S, B> {
    ghost use Rattle.tx_client.specs.Calls.{Seated};
    ghost use Rattle.tx_journal.specs.Senders.{IsSender};
    ghost use Rattle.tx_update.specs.Updates.{Follows, SeatGoesOn};

    ghost Value = { Seated };

    ghost view = { λ t. t.session };

    ghost invariant = { λ t. IsSender J.bounds S.fits S.sends S.keys_between
        × Follows B.session t.session × SeatGoesOn B.resolver t.resolver };
}

// Draws the commit timestamp, where it may be drawn.
fn draw_commit<J: JournalId>(session: &mut Session<J>) -> Result<(), Fault>
    ensures { Follows session.old session.new }
{
    if !session.can_draw() {
        return Ok(());
    }
    session.draw_commit()?;
    Ok(())
}

impl<'a, J: JournalId, S: Sender<Request<J>, Reply<J>>, B: Begun> Running<'a, J, S, B> {
    /// It sets out here.
    pub(crate) fn new(
        alloc: Global,
        session: Session<J>,
        resolver: Seat<J>,
        sender: &'a mut S,
    ) -> Running<'a, J, S, B>
        requires way { IsSender J.bounds S.fits S.sends S.keys_between }
        requires session { session ≡ B.session }
        requires resolver { resolver ≡ B.resolver }
        ensures { result ≡ session }
    {
        Running {
            alloc,
            session,
            resolver,
            sender,
            of: PhantomData,
        }
    }

    /// The session, and the seat that resolves.
    pub(crate) fn into_parts(self) -> (Session<J>, Seat<J>)
        ensures session { Follows B.session result.0 }
        ensures resolver { SeatGoesOn B.resolver result.1 }
        ensures same { result.0 ≡ self.entry }
    {
        let Running {
            alloc: _,
            session,
            resolver,
            sender: _,
            of: _,
        } = self;
        (session, resolver)
    }

    /// Where it takes memory.
    pub(crate) fn alloc(&self) -> Global {
        self.alloc
    }

    /// Its start timestamp.
    pub(crate) fn start(&self) -> Ts
        ensures { result ≡ B.session.state.start }
    {
        self.session.start()
    }

    /// The session, to be asked what may be done.
    pub(crate) fn session(&self) -> &Session<J>
        ensures { result.now ≡ self.now }
    {
        &self.session
    }

    /// For proofs: what its seat has seen is a world run. It does nothing when it runs.
    pub(crate) fn know_run(&self)
        ensures { IsWorldRun J.bounds self.now.seat.events }
    {
        self.session.show();
    }

    /// Reads a key.
    pub(crate) fn get(&mut self, key: &Key) -> Result<Answer, Miss>
        ensures same { self.new.state.buffer ≡ self.old.state.buffer }
        ensures more { Begins self.old.seat.events self.new.seat.events }
        ensures reads { IfOk result (AnswersReadOn J.bounds (buffered self.old.state.buffer key.now)
            self.new.seat.events B.session.state.start key.now) }
        ensures may { HasSeenStart B.session
            → IfOk result (IsGetAnswer self.new.seat.events B.session.state.start key.now) }
        ensures misses { HasSeenStart B.session
            → IfErr result (IsReadMiss (LosesRead S.sends) B.session.state.start) }
    {
        self.session.get(key, self.sender)
    }

    /// Reads a range.
    pub(crate) fn scan(&mut self, from: &Key, to: &Key, limit: u32) -> Result<Answer, Miss>
        ensures same { self.new.state.buffer ≡ self.old.state.buffer }
        ensures more { Begins self.old.seat.events self.new.seat.events }
        ensures reads { IfOk result
            (AnswersScan self.new.seat.events B.session.state.start from.now to.now limit) }
        ensures tells { IfOk result
            (TellsPage J.bounds self.new.seat.events B.session.state.start from.now to.now limit) }
        ensures may { HasSeenStart B.session
            → IfOk result (IsScanAnswer self.new.seat.events B.session.state.start) }
        ensures misses { HasSeenStart B.session
            → IfErr result (IsReadMiss (LosesRead S.sends) B.session.state.start) }
    {
        // For proofs: the keys between the regions rise.
        let _bounds = self.sender.bounds();
        let result = self.session.scan(self.alloc, from, to, limit, self.sender);
        // For proofs: what its seat has seen is a run.
        self.session.show();
        result
    }

    /// What was entered, in the order in which its keys were first entered.
    pub(crate) fn entered(&self) -> Result<Changes, Fault>
        ensures ok { IfOk result (λ changes. changes ≡ changes_of self.now.state.buffer) }
        ensures err { IfErr result (λ e. e ≡ fault.OutOfMemory) }
    {
        let terms = Terms {
            mode: Mode::Async,
            ttl: 0,
            max_commit: None,
        };
        match self
            .session
            .transaction()
            .declaration(self.alloc, Ts::ZERO, &terms)?
        {
            Some(declaration) => Ok(declaration.changes),
            None => Ok(Changes::new(self.alloc)),
        }
    }

    /// Resolves the lock that last stood in its way, at the last timestamp that was drawn, and
    /// learns what was found.
    pub(crate) fn clear(&mut self) -> Result<Status, Stop>
        ensures same { self.new.state.buffer ≡ self.old.state.buffer }
        ensures more { Begins self.old.seat.events self.new.seat.events }
        ensures err { IfErr result (λ s. s ≡ stop.Refused fault.OutOfMemory) }
    {
        clear_met(&mut self.session, &mut self.resolver, self.sender)
    }

    /// Sends the prewrite that is due.
    pub(crate) fn prewrite(&mut self) -> Result<Option<Answer>, Miss>
        requires { is_declared self.old.state ≡ true }
    {
        self.session.prewrite_next(self.alloc, self.sender)
    }

    /// Draws the commit timestamp, where it may be drawn.
    pub(crate) fn draw(&mut self) -> Result<(), Fault> {
        draw_commit(&mut self.session)
    }

    /// Sends the commit that is due.
    pub(crate) fn commit(&mut self) -> Result<Option<Answer>, Miss>
        requires { can_commit self.old.state ≡ true }
        ensures { result ≡ Ok None → HasOutcome self.new }
    {
        self.session.commit_next(self.sender)
    }

    /// Sends what an abort has due.
    pub(crate) fn abort(&mut self) -> Result<Option<Answer>, Miss>
        requires { can_abort self.old.state ≡ true }
    {
        self.session.abort_next(self.sender)
    }
}

impl<'a, J: JournalId, S: Sender<Request<J>, Reply<J>>, B: Begun> Running<'a, J, S, B> {
    /// Whether no value of a key is entered, so that it may be inserted.
    pub(crate) fn can_insert(&self, key: &Key) -> bool
        ensures { (value : Given) → result ≡ is_some (inserted self.now.state.buffer key.now value) }
    {
        self.session.transaction().can_insert(key.as_bytes())
    }

    /// Enters a put.
    pub(crate) fn put(&mut self, key: Key, value: Value) -> Result<(), Fault>
        requires { is_declared B.session.state ≡ false }
        ensures ok { OnOk result (self.new.state.buffer
            ≡ touched self.old.state.buffer key (put_over (buffered self.old.state.buffer key) value)) }
        ensures same { OnErr result (self.new.state.buffer ≡ self.old.state.buffer) }
        ensures seat { self.new.seat ≡ self.old.seat }
        ensures err { IfErr result (λ e. ((e ≡ fault.OutOfMemory) × (is_full self.old.state.buffer key ≡ false))
            ⊎ ((e ≡ fault.TooManyKeys) × (is_full self.old.state.buffer key ≡ true))) }
    {
        self.session.put(key, value)
    }

    /// Enters an insert.
    pub(crate) fn insert(&mut self, key: Key, value: Value) -> Result<(), Fault>
        requires { is_declared B.session.state ≡ false }
        ensures ok { OnOk result (inserted self.old.state.buffer key value ≡ Some self.new.state.buffer) }
        ensures same { OnErr result (self.new.state.buffer ≡ self.old.state.buffer) }
        ensures seat { self.new.seat ≡ self.old.seat }
        ensures err { IfErr result (λ e. ((e ≡ fault.OutOfMemory) × (is_full self.old.state.buffer key ≡ false))
            ⊎ ((e ≡ fault.TooManyKeys) × (is_full self.old.state.buffer key ≡ true))
            ⊎ ((e ≡ fault.AlreadyExists) × (inserted self.old.state.buffer key value ≡ None))) }
    {
        self.session.insert(key, value)
    }

    /// Enters a delete.
    pub(crate) fn delete(&mut self, key: Key) -> Result<(), Fault>
        requires { is_declared B.session.state ≡ false }
        ensures ok { OnOk result (self.new.state.buffer ≡ touched self.old.state.buffer key mutation.Delete) }
        ensures same { OnErr result (self.new.state.buffer ≡ self.old.state.buffer) }
        ensures seat { self.new.seat ≡ self.old.seat }
        ensures err { IfErr result (λ e. ((e ≡ fault.OutOfMemory) × (is_full self.old.state.buffer key ≡ false))
            ⊎ ((e ≡ fault.TooManyKeys) × (is_full self.old.state.buffer key ≡ true))) }
    {
        self.session.delete(key)
    }

    /// Enters a lock.
    pub(crate) fn lock(&mut self, key: Key) -> Result<(), Fault>
        requires { is_declared B.session.state ≡ false }
        ensures ok { OnOk result (self.new.state.buffer ≡ locked self.old.state.buffer key) }
        ensures same { OnErr result (self.new.state.buffer ≡ self.old.state.buffer) }
        ensures seat { self.new.seat ≡ self.old.seat }
        ensures err { IfErr result (λ e. ((e ≡ fault.OutOfMemory) × (is_full self.old.state.buffer key ≡ false))
            ⊎ ((e ≡ fault.TooManyKeys) × (is_full self.old.state.buffer key ≡ true))) }
    {
        self.session.lock(key)
    }
}
