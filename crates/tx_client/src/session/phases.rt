//! What a session sends for its transaction, and the commit timestamp that it draws.
ghost use Rattle.std.specs.Prelude.{◌≡◌, ◌<◌, length, true, Some, IfOk, IfErr};
ghost use Rattle.tx_types.specs.declared.fault.Fault.TheVariants as fault;
ghost use Rattle.tx_core.specs.Allowed.{Allowed};
ghost use Rattle.tx_transaction.specs.declared.state.Phase.TheVariants as phase;
ghost use Rattle.tx_transaction.specs.Sessions.{is_declared, has_primary, due_prewrite, due_commit, due_abort, can_draw, can_commit, can_abort};
ghost use Rattle.tx_transaction.specs.Next.{due};
ghost use Rattle.tx_journal.specs.Senders.{IsHeld, IsSender};
ghost use Rattle.tx_client.specs.Walks.{Sends, due_walk, heartbeat_walk};
ghost use Rattle.tx_client.specs.Facts.{RespondsSo, IsFor};
ghost use Rattle.tx_client.specs.Calls.{Draws, Asks};

use super::Session;
use crate::requests::ask_with_lock;
use std::alloc::Global;
use tx_core::{Answer, Body};
use tx_journal::{AnswerWithLock, JournalId, Reply, Request, Sender};
use tx_transaction::{Due, Miss, Phase};
use tx_types::{Fault, Ts};

impl<J: JournalId> Session<J> {
    // Sends a request, once, and learns what is told. What comes of it takes no memory of the
    // session's.
    pub(crate) fn ask<S: Sender<Request<J>, Reply<J>>>(
        &mut self,
        body: Body,
        sender: &mut S,
    ) -> Result<AnswerWithLock, Miss>
        requires way { IsSender J.bounds S.fits S.sends S.keys_between }
        requires held { IsHeld J.bounds body }
        requires allowed { Allowed self.old.seat.events body }
        ensures state { self.new.state ≡ self.old.state }
        ensures asked { Asks S.sends J.bounds self.old.seat body sender.old sender.new result self.new.seat }
        ensures told { RespondsSo self.new.seat.events body result }
    {
        ask_with_lock(&mut self.seat, body, sender)
    }

    // Sends the request of a phase that is due.
    fn pursue<S: Sender<Request<J>, Reply<J>>>(
        &mut self,
        phase: Phase,
        due: Due,
        sender: &mut S,
    ) -> Result<Option<Answer>, Miss>
        requires way { IsSender J.bounds S.fits S.sends S.keys_between }
        requires within { due.index < length self.old.state.buffer }
        requires allowed { Allowed self.old.seat.events due.body }
        requires right { IsFor self.old.state phase due }
        ensures { Sends S.sends J.bounds self.old.seat sender.old (due_walk self.old.state phase (Some due))
            (self.new.state, result) sender.new self.new.seat }
    {
        let Due { index, body } = due;
        match self.ask(body, sender) {
            Ok(answer) => {
                let (answer, lock) = answer.into_parts();
                self.transaction.after_answer(phase, index, &answer, lock);
                Ok(Some(answer))
            }
            Err(miss) => {
                self.transaction.after_miss(phase, index, miss);
                Err(miss)
            }
        }
    }

    // Sends the request of a phase that is due, where one is.
    fn send_next<S: Sender<Request<J>, Reply<J>>>(
        &mut self,
        alloc: Global,
        phase: Phase,
        sender: &mut S,
    ) -> Result<Option<Answer>, Miss>
        requires way { IsSender J.bounds S.fits S.sends S.keys_between }
        ensures { Sends S.sends J.bounds self.old.seat sender.old
            (due_walk self.old.state phase (due self.old.state phase)) (self.new.state, result)
            sender.new self.new.seat }
    {
        match self.transaction.next(alloc, phase) {
            Err(_) => Err(Miss::Fault),
            Ok(None) => Ok(None),
            Ok(Some(due)) => self.pursue(phase, due, sender),
        }
    }

    /// Sends the prewrite that is due: of the first key in buffer order that has no accepted lock.
    /// None where there is none. Memory that is refused to the session itself sends nothing, and
    /// leaves all as it was.
    pub fn prewrite_next<S: Sender<Request<J>, Reply<J>>>(
        &mut self,
        alloc: Global,
        sender: &mut S,
    ) -> Result<Option<Answer>, Miss>
        requires way { IsSender J.bounds S.fits S.sends S.keys_between }
        requires can { is_declared self.old.state ≡ true }
        ensures { Sends S.sends J.bounds self.old.seat sender.old
            (due_walk self.old.state phase.Prewrite (due_prewrite self.old.state)) (
              self.new.state,
              result,
            ) sender.new self.new.seat }
    {
        self.send_next(alloc, Phase::Prewrite, sender)
    }

    /// Draws the commit timestamp. `OracleSpent` where the seat's ticks are spent; the session
    /// is then as it was.
    pub fn draw_commit(&mut self) -> Result<Ts, Fault>
        requires { can_draw self.old.state ≡ true }
        ensures ok { IfOk result (λ c. (self.new.state ≡ record self.old.state { drawn = Some c })
            × Draws J.bounds self.old.seat c self.new.seat) }
        ensures spent { IfErr result (λ e. (e ≡ fault.OracleSpent) × (self.old.seat.ticks < 1)
            × (self.new ≡ self.old)) }
    {
        let commit = self.seat.draw(1)?;
        self.transaction.drew(commit);
        Ok(commit)
    }

    /// Sends the commit that is due: of the primary at the drawn timestamp, and once the
    /// transaction is committed of each key in buffer order. None where there is none. Memory that
    /// is refused to the session itself sends nothing, and leaves all as it was.
    pub fn commit_next<S: Sender<Request<J>, Reply<J>>>(
        &mut self,
        sender: &mut S,
    ) -> Result<Option<Answer>, Miss>
        requires way { IsSender J.bounds S.fits S.sends S.keys_between }
        requires can { can_commit self.old.state ≡ true }
        ensures { Sends S.sends J.bounds self.old.seat sender.old
            (due_walk self.old.state phase.Commit (due_commit self.old.state)) (
              self.new.state,
              result,
            ) sender.new self.new.seat }
    {
        let alloc = self.transaction.allocator();
        self.send_next(alloc, Phase::Commit, sender)
    }

    /// Sends the request of an abort that is due: what may decide, and once the transaction is
    /// aborted a rollback of each key that was sent a prewrite. None where there is none. Memory
    /// that is refused to the session itself sends nothing, and leaves all as it was.
    pub fn abort_next<S: Sender<Request<J>, Reply<J>>>(
        &mut self,
        sender: &mut S,
    ) -> Result<Option<Answer>, Miss>
        requires way { IsSender J.bounds S.fits S.sends S.keys_between }
        requires can { can_abort self.old.state ≡ true }
        ensures { Sends S.sends J.bounds self.old.seat sender.old
            (due_walk self.old.state phase.Abort (due_abort self.old.state)) (
              self.new.state,
              result,
            ) sender.new self.new.seat }
    {
        let alloc = self.transaction.allocator();
        self.send_next(alloc, Phase::Abort, sender)
    }

    /// Asks that the primary's lock live so long after the start, in ticks. It changes nothing of
    /// the session. Memory that is refused to the session itself sends nothing.
    pub fn heartbeat<S: Sender<Request<J>, Reply<J>>>(
        &mut self,
        ttl: u32,
        sender: &mut S,
    ) -> Result<Option<Answer>, Miss>
        requires way { IsSender J.bounds S.fits S.sends S.keys_between }
        requires can { has_primary self.old.state ≡ true }
        ensures { Sends S.sends J.bounds self.old.seat sender.old (heartbeat_walk self.old.state ttl) (
          self.new.state,
          result,
        ) sender.new self.new.seat }
    {
        let Ok(body) = self.transaction.heartbeat(ttl) else {
            return Err(Miss::Fault);
        };
        Ok(Some(self.ask(body, sender)?.into_answer()))
    }
}
