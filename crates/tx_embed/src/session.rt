//! A session that commits, with what it sends by and the seat that resolves locks in its way.
ghost use Rattle.std.specs.Prelude.{◌≡◌, true, None, Ok, IfErr};
ghost use Rattle.tx_types.specs.declared.fault.Fault.TheVariants as fault;
ghost use Rattle.tx_transaction.specs.Sessions.{is_declared, can_commit, can_abort};
ghost use Rattle.tx_journal.specs.Senders.{IsSender};
ghost use Rattle.tx_update.specs.declared.stops.Stop.TheVariants as stop;
ghost use Rattle.tx_update.specs.Updates.{HasOutcome, Follows, SeatGoesOn};
ghost use Rattle.tx_embed.specs.Transactions.{KeepsKeys};

use crate::locks::clear;
use std::alloc::Global;
use std::marker::{Brand, Model, PhantomData};
use tx_client::{Miss, Session, Status};
use tx_core::Answer;
use tx_journal::{JournalId, Reply, Request, Seat, Sender};
use tx_types::Fault;
use tx_update::Stop;

/// Where a session sets out. The call that runs it picks this.
pub(crate) trait Begun {
    ghost use Rattle.tx_client.specs.Calls.{Seated};
    ghost use Rattle.tx_journal.specs.Known.{Known};

    /// The session.
    ghost session: { Seated };

    /// The seat that resolves.
    ghost resolver: { Known };
}

impl Begun for Brand {
    ghost use Rattle.std.specs.Prelude.{[]};
    ghost use Rattle.tx_journal.specs.Known.{known};
    ghost use Rattle.tx_transaction.specs.Sessions.{begun};

    ghost session = { record { state = begun 0; seat = known 0 0 [] } };

    ghost resolver = { known 0 0 [] };
}

/// A session under way. Contracts see the session. It goes on from where it set out: what it has
/// declared there, it declares.
#[derive(Drop)]
pub(crate) struct Running<'a, J: JournalId, S: Sender<Request<J>, Reply<J>>, B: Begun> {
    alloc: Global,
    session: Session<J>,
    resolver: Seat<J>,
    sender: &'a mut S,
    of: PhantomData<B>,
}

impl<'a, J: JournalId, S: Sender<Request<J>, Reply<J>>, B: Begun> Model for Running<'a, J, S, B> {
    ghost use Rattle.tx_client.specs.Calls.{Seated};
    ghost use Rattle.tx_journal.specs.Senders.{IsSender};
    ghost use Rattle.tx_update.specs.Updates.{Follows, SeatGoesOn};
    ghost use Rattle.tx_embed.specs.Transactions.{KeepsKeys};

    ghost Value = { Seated };

    ghost view = { λ t. t.session };

    ghost invariant = { λ t. IsSender J.bounds S.fits S.sends S.keys_between
        × Follows B.session t.session × SeatGoesOn B.resolver t.resolver
        × KeepsKeys B.session.state.buffer t.session.state.buffer };
}

// Draws the commit timestamp, where it may be drawn.
fn draw_commit<J: JournalId>(session: &mut Session<J>) -> Result<(), Fault>
    ensures session { Follows session.old session.new }
    ensures buffer { session.new.state.buffer ≡ session.old.state.buffer }
{
    if !session.can_draw() {
        return Ok(());
    }
    session.draw_commit()?;
    Ok(())
}

impl<'a, J: JournalId, S: Sender<Request<J>, Reply<J>>, B: Begun> Running<'a, J, S, B> {
    /// It sets out here.
    pub(crate) fn new(
        alloc: Global,
        session: Session<J>,
        resolver: Seat<J>,
        sender: &'a mut S,
    ) -> Running<'a, J, S, B>
        requires way { IsSender J.bounds S.fits S.sends S.keys_between }
        requires session { session ≡ B.session }
        requires resolver { resolver ≡ B.resolver }
        ensures { result ≡ session }
    {
        Running {
            alloc,
            session,
            resolver,
            sender,
            of: PhantomData,
        }
    }

    /// The session, and the seat that resolves.
    pub(crate) fn into_parts(self) -> (Session<J>, Seat<J>)
        ensures session { Follows B.session result.0 }
        ensures resolver { SeatGoesOn B.resolver result.1 }
        ensures same { result.0 ≡ self.entry }
    {
        let Running {
            alloc: _,
            session,
            resolver,
            sender: _,
            of: _,
        } = self;
        (session, resolver)
    }

    /// The session, to be asked what may be done.
    pub(crate) fn session(&self) -> &Session<J>
        ensures { result.now ≡ self.now }
    {
        &self.session
    }

    /// For proofs: its keys are those that were entered. It does nothing when it runs.
    pub(crate) fn know_keys(&self)
        ensures { KeepsKeys B.session.state.buffer self.now.state.buffer }
    {
        let _ = &self.alloc;
    }

    /// Resolves the lock that last stood in its way, at the last timestamp that was drawn, and
    /// learns what was found.
    pub(crate) fn clear(&mut self) -> Result<Status, Stop>
        ensures { IfErr result (λ s. s ≡ stop.Refused fault.OutOfMemory) }
    {
        clear(&mut self.session, &mut self.resolver, self.sender)
    }

    /// Sends the prewrite that is due.
    pub(crate) fn prewrite(&mut self) -> Result<Option<Answer>, Miss>
        requires { is_declared self.old.state ≡ true }
    {
        self.session.prewrite_next(self.alloc, self.sender)
    }

    /// Draws the commit timestamp, where it may be drawn.
    pub(crate) fn draw(&mut self) -> Result<(), Fault> {
        draw_commit(&mut self.session)
    }

    /// Sends the commit that is due.
    pub(crate) fn commit(&mut self) -> Result<Option<Answer>, Miss>
        requires { can_commit self.old.state ≡ true }
        ensures { result ≡ Ok None → HasOutcome self.new }
    {
        self.session.commit_next(self.sender)
    }

    /// Sends what an abort has due.
    pub(crate) fn abort(&mut self) -> Result<Option<Answer>, Miss>
        requires { can_abort self.old.state ≡ true }
    {
        self.session.abort_next(self.sender)
    }
}
