//! How a transfer commits what it wrote, or takes it back.
ghost use Rattle.std.specs.Prelude.{◌≡◌, true, is_some};
ghost use Rattle.tx_transaction.specs.declared.state.Phase.TheVariants as phase;
ghost use Rattle.tx_transaction.specs.Next.{due};
ghost use Rattle.tx_transaction.specs.Sessions.{can_abort, can_commit, is_declared};
ghost use Rattle.tx_client.specs.Walks.{due_walk};
ghost use Rattle.tx_transfer.specs.TransferSteps.{AbortComes, Aborts, AfterAbort, AfterCommit, AfterPrewrite, Asks};
ghost use Rattle.tx_transfer.specs.TransferSteps.{ComesLate, CommitComes, Commits, CommitsNext, DrawsNext, PrewriteComes, Prewrites, gives_up, is_ready, later};

use super::TransferState;
use crate::context::Context;
use crate::progress::{TRIES, TransferPhase, TransferProgress};
use crate::requests;
use crate::source::Source;
use std::alloc::Global;
use std::sync::Wait;
use tx_cells::Families;
use tx_client::{Miss, Phase};
use tx_core::Answer;
use tx_journal::JournalId;
use tx_types::Fault;

impl<J: JournalId, L: Source> TransferState<J, L> {
    // Whether a commit may be asked, or a timestamp be drawn for one.
    fn is_ready(&self) -> bool
        ensures { result ≡ is_ready self.now.session.state }
    {
        self.session.can_commit() || self.session.can_draw()
    }

    fn may_commit(&self) -> bool
        ensures { result ≡ can_commit self.now.session.state }
    {
        self.session.can_commit()
    }

    fn may_abort(&self) -> bool
        ensures { result ≡ can_abort self.now.session.state }
    {
        self.session.can_abort()
    }

    // What comes of a prewrite that is answered.
    fn on_prewritten(&mut self, alloc: Global, answer: Answer) -> TransferProgress
        ensures { AfterPrewrite answer self.old result self.new }
    {
        match answer {
            Answer::Prewritten(_) | Answer::AlreadyCommitted { .. } => TransferProgress::More,
            Answer::KeyIsLocked(info) => {
                if self.met_enough() {
                    self.turn_to(TransferPhase::Abort)
                } else {
                    self.meet(alloc, &info)
                }
            }
            Answer::BelowSafePoint { .. } => TransferProgress::Over,
            _ => self.turn_to(TransferPhase::Abort),
        }
    }

    // What comes of a prewrite.
    fn on_prewrite(
        &mut self,
        alloc: Global,
        answered: Result<Option<Answer>, Miss>,
    ) -> TransferProgress
        ensures { PrewriteComes answered self.old result self.new }
    {
        match answered {
            Ok(Some(answer)) => self.on_prewritten(alloc, answer),
            Ok(None) => self.turn_to(TransferPhase::Abort),
            Err(_) => TransferProgress::Over,
        }
    }

    // Sends the prewrite that is due.
    fn send_prewrite<F: Families + Drop, R: Wait + Drop>(
        &mut self,
        context: &mut Context<J, F, R>,
    ) -> Result<Option<Answer>, Miss>
        requires { is_declared self.old.session.state ≡ true }
        ensures { Asks J.bounds self.old (λ s. due_walk s phase.Prewrite (due s phase.Prewrite)) result self.new }
    {
        context.show();
        requests::prewrite(context.alloc, &mut self.session, context)
    }

    // Locks the next key, until the commit is due.
    pub(super) fn prewrite<F: Families + Drop, R: Wait + Drop>(
        &mut self,
        context: &mut Context<J, F, R>,
    ) -> TransferProgress
        ensures { Prewrites J.bounds (is_ready self.old.session.state) self.old result self.new }
    {
        if self.is_ready() {
            self.turn_to(TransferPhase::Commit);
            return self.commit(context);
        }
        if !self.has_declared() {
            return TransferProgress::Over;
        }
        let answered = self.send_prewrite(context);
        self.on_prewrite(context.alloc, answered)
    }

    // One more commit was not answered as one.
    fn note_late(&mut self)
        ensures { self.new ≡ later self.old }
    {
        self.late = self.late.saturating_add(1);
    }

    // Whether it is taken back since its commits came too late.
    fn gives_up(&self) -> bool
        ensures { result ≡ gives_up self.now }
    {
        self.late > TRIES && self.session.can_abort()
    }

    // Its commit was not answered as one: it is asked again, or taken back.
    fn on_late(&mut self) -> TransferProgress
        ensures { ComesLate self.old result self.new }
    {
        self.note_late();
        if self.gives_up() {
            self.turn_to(TransferPhase::Abort)
        } else {
            TransferProgress::More
        }
    }

    // Whether another commit is due.
    fn has_more(&self) -> bool
        ensures { result ≡ is_some (due self.now.session.state phase.Commit) }
    {
        self.session.transaction().is_due(Phase::Commit)
    }

    // What comes of a commit that is answered.
    fn on_committed(&mut self, answer: Answer) -> TransferProgress
        ensures { AfterCommit answer self.old result self.new }
    {
        match answer {
            Answer::Committed(_) => {
                if self.has_more() {
                    TransferProgress::More
                } else {
                    TransferProgress::Over
                }
            }
            Answer::BelowSafePoint { .. } => TransferProgress::Over,
            _ => self.on_late(),
        }
    }

    // What comes of a commit.
    fn on_commit(&mut self, answered: Result<Option<Answer>, Miss>) -> TransferProgress
        ensures { CommitComes answered self.old result self.new }
    {
        match answered {
            Ok(Some(answer)) => self.on_committed(answer),
            Ok(None) => TransferProgress::Over,
            Err(_) => TransferProgress::Over,
        }
    }

    // Draws a timestamp for its commit, where one may be drawn.
    fn draw(&mut self) -> Result<(), Fault>
        ensures { DrawsNext J.bounds self.old result self.new }
    {
        requests::draw(&mut self.session)
    }

    // Sends the commit that is due.
    fn send_commit<F: Families + Drop, R: Wait + Drop>(
        &mut self,
        context: &mut Context<J, F, R>,
    ) -> Result<Option<Answer>, Miss>
        requires { can_commit self.old.session.state ≡ true }
        ensures { Asks J.bounds self.old (λ s. due_walk s phase.Commit (due s phase.Commit)) result self.new }
    {
        context.show();
        requests::commit(&mut self.session, context)
    }

    // Commits the next key, where a commit may be asked.
    fn commit_next<F: Families + Drop, R: Wait + Drop>(
        &mut self,
        context: &mut Context<J, F, R>,
    ) -> TransferProgress
        ensures { CommitsNext J.bounds (can_commit self.old.session.state) self.old result self.new }
    {
        if !self.may_commit() {
            return self.turn_to(TransferPhase::Abort);
        }
        let answered = self.send_commit(context);
        self.on_commit(answered)
    }

    // Commits the next key, at a timestamp that is drawn where none is.
    pub(super) fn commit<F: Families + Drop, R: Wait + Drop>(
        &mut self,
        context: &mut Context<J, F, R>,
    ) -> TransferProgress
        ensures { Commits J.bounds self.old result self.new }
    {
        match self.draw() {
            Ok(()) => self.commit_next(context),
            Err(_) => TransferProgress::Spent,
        }
    }

    // What comes of taking it back.
    fn on_aborted(&mut self, answer: Answer) -> TransferProgress
        ensures { AfterAbort answer self.old result self.new }
    {
        match answer {
            Answer::BelowSafePoint { .. } => TransferProgress::Over,
            _ => TransferProgress::More,
        }
    }

    fn on_abort(&mut self, answered: Result<Option<Answer>, Miss>) -> TransferProgress
        ensures { AbortComes answered self.old result self.new }
    {
        match answered {
            Ok(Some(answer)) => self.on_aborted(answer),
            Ok(None) => TransferProgress::Over,
            Err(_) => TransferProgress::Over,
        }
    }

    // Sends what an abort has due.
    fn send_abort<F: Families + Drop, R: Wait + Drop>(
        &mut self,
        context: &mut Context<J, F, R>,
    ) -> Result<Option<Answer>, Miss>
        requires { can_abort self.old.session.state ≡ true }
        ensures { Asks J.bounds self.old (λ s. due_walk s phase.Abort (due s phase.Abort)) result self.new }
    {
        context.show();
        requests::abort(&mut self.session, context)
    }

    // Takes it back, as far as that is open.
    pub(super) fn abort<F: Families + Drop, R: Wait + Drop>(
        &mut self,
        context: &mut Context<J, F, R>,
    ) -> TransferProgress
        ensures { Aborts J.bounds (can_abort self.old.session.state) self.old result self.new }
    {
        if self.may_abort() {
            let answered = self.send_abort(context);
            return self.on_abort(answered);
        }
        if self.is_ready() {
            self.turn_to(TransferPhase::Commit);
            self.commit(context)
        } else {
            TransferProgress::Over
        }
    }
}
