//! A declared transaction, carried to its end.
ghost use Rattle.std.specs.Prelude.{◌≡◌, ◌⊎◌, None, Ok, OnOk, IfOk, IfErr};
ghost use Rattle.tx_embed.specs.declared.completion.ToDo.TheVariants as to_do;
ghost use Rattle.tx_transaction.specs.Buffers.{Entries};
ghost use Rattle.tx_update.specs.Stops.{IsOwnRefusal};
ghost use Rattle.tx_update.specs.Updates.{HasOutcome};
ghost use Rattle.tx_embed.specs.Transactions.{IsEntered, NamesEntered};

use crate::session::{Begun, Running};
use tx_client::{Miss, Phase, Status, WaitCause};
use tx_core::Answer;
use tx_journal::{JournalId, Reply, Request, Sender};
use tx_types::limits::MAX_KEYS;
use tx_types::{Fault, Key};
use tx_update::Stop;

/// How many requests of one kind a transaction sends at most: one of each key, and as many again.
const REQUESTS: usize = 2 * MAX_KEYS;

/// How often an abort is asked for again that had no reply.
const LOST: u32 = 16;

// What is left to do.
#[derive(Clone, Copy, Debug, PartialEq, Eq)]
enum ToDo {
    /// Nothing.
    Nothing,
    /// More requests.
    More,
}

// Why a prewrite of a key was refused.
fn refused(key: Key, refusal: Answer) -> Stop
    ensures { (entered : Entries) → IsEntered entered key → NamesEntered entered result }
{
    match refusal {
        Answer::WriteConflict { .. } => Stop::Conflict(key),
        Answer::AlreadyExists => Stop::AlreadyExists(key),
        Answer::BelowSafePoint { .. } => Stop::BelowSafePoint,
        Answer::FutureTimestamp { last } => Stop::Refused(Fault::FutureTimestamp { last }),
        _ => Stop::RolledBack,
    }
}

// What a commit leaves to do.
fn committed(response: Result<Option<Answer>, Miss>) -> Result<ToDo, Stop>
    ensures left { IfOk result (λ left. left ≡ to_do.Nothing → response ≡ Ok None) }
    ensures names { IfErr result (λ stop. (entered : Entries) → NamesEntered entered stop) }
{
    match response? {
        None => Ok(ToDo::Nothing),
        Some(Answer::Committed(_) | Answer::CommitTsExpired { .. }) => Ok(ToDo::More),
        Some(_) => Err(Stop::RolledBack),
    }
}

impl<'a, J: JournalId, S: Sender<Request<J>, Reply<J>>, B: Begun> Running<'a, J, S, B> {
    // The key that the next prewrite is of. `RolledBack` where none is due.
    fn due_key(&self) -> Result<Key, Stop>
        ensures ok { IfOk result (IsEntered B.session.state.buffer) }
        ensures err { IfErr result (NamesEntered B.session.state.buffer) }
    {
        // For proofs: its keys are those that were entered.
        self.know_keys();
        match self.session().transaction().due_key(Phase::Prewrite) {
            Some(key) => Ok(key.clone()?),
            None => Err(Stop::RolledBack),
        }
    }

    // Resolves the lock in the way of a prewrite: it goes on where the lock is gone.
    fn unlock(&mut self) -> Result<(), Stop>
        ensures { IfErr result (NamesEntered B.session.state.buffer) }
    {
        match self.clear()? {
            Status::Committed(_) | Status::Aborted => Ok(()),
            Status::Pushed(_) => Err(Stop::Waits(self.due_key()?, WaitCause::Live)),
            Status::Waiting(why) => Err(Stop::Waits(self.due_key()?, why)),
        }
    }

    // Makes the next prewrite.
    fn prewrite_step(&mut self) -> Result<ToDo, Stop>
        ensures { IfErr result (NamesEntered B.session.state.buffer) }
    {
        if !self.session().is_declared() {
            return Ok(ToDo::Nothing);
        }
        match self.prewrite()? {
            None => return Ok(ToDo::Nothing),
            Some(Answer::Prewritten(_) | Answer::AlreadyCommitted { .. }) => {}
            Some(Answer::KeyIsLocked(_)) => self.unlock()?,
            Some(refusal) => return Err(refused(self.due_key()?, refusal)),
        }
        Ok(ToDo::More)
    }

    // Locks each key.
    fn prewrite_all(&mut self) -> Result<(), Stop>
        ensures { IfErr result (NamesEntered B.session.state.buffer) }
    {
        for _ in 0..REQUESTS {
            if self.prewrite_step()? == ToDo::Nothing {
                return Ok(());
            }
        }
        Err(Stop::Waits(self.due_key()?, WaitCause::Live))
    }

    // Makes the next commit, at a timestamp that is drawn where none is.
    fn commit_step(&mut self) -> Result<ToDo, Stop>
        ensures left { IfOk result (λ left. left ≡ to_do.Nothing → HasOutcome self.new) }
        ensures names { IfErr result (NamesEntered B.session.state.buffer) }
    {
        self.draw()?;
        if !self.session().can_commit() {
            return Err(Stop::RolledBack);
        }
        committed(self.commit())
    }

    // Commits each key, the primary first.
    fn commit_all(&mut self) -> Result<(), Stop>
        ensures ok { OnOk result (HasOutcome self.new) }
        ensures names { IfErr result (NamesEntered B.session.state.buffer) }
    {
        for _ in 0..REQUESTS {
            if let ToDo::Nothing = self.commit_step()? {
                return Ok(());
            }
        }
        Err(Stop::RolledBack)
    }

    // Locks each key, and commits each.
    fn carry(&mut self) -> Result<(), Stop>
        ensures ok { OnOk result (HasOutcome self.new) }
        ensures names { IfErr result (NamesEntered B.session.state.buffer) }
    {
        self.prewrite_all()?;
        self.commit_all()
    }

    // Asks for what an abort has due, where it may be asked. None where it ends; else whether a
    // reply came.
    fn abort_step(&mut self) -> Option<bool> {
        if !self.session().can_abort() {
            return None;
        }
        match self.abort() {
            Ok(None) | Ok(Some(Answer::BelowSafePoint { .. })) | Err(Miss::Fault) => None,
            Ok(Some(_)) => Some(true),
            Err(Miss::Lost) => Some(false),
        }
    }

    // Takes it back, as far as that is open: it is aborted where it was not committed.
    fn take_back(&mut self) {
        let mut lost: u32 = 0;
        for _ in 0..REQUESTS {
            match self.abort_step() {
                Some(true) => {}
                Some(false) if lost < LOST => lost += 1,
                _ => return,
            }
        }
    }

    // Why it went no further: where it has no outcome, it was itself refused something.
    fn stopped_by(&self, stop: Stop) -> Stop
        ensures why { IsOwnRefusal result ⊎ HasOutcome self.now }
        ensures names { (entered : Entries) → NamesEntered entered stop → NamesEntered entered result }
    {
        match stop {
            Stop::Refused(fault) => Stop::Refused(fault),
            other => match self.session().transaction().outcome() {
                Some(_) => other,
                None => Stop::Refused(Fault::OutOfMemory),
            },
        }
    }

    /// Carries it to its end, and takes it back where it went no further; where it is committed
    /// all the same, that is written down.
    pub(crate) fn carry_or_take_back(&mut self) -> Result<(), Stop>
        ensures ok { OnOk result (HasOutcome self.new) }
        ensures err { IfErr result (λ stop. IsOwnRefusal stop ⊎ HasOutcome self.new) }
        ensures names { IfErr result (NamesEntered B.session.state.buffer) }
    {
        match self.carry() {
            Ok(()) => Ok(()),
            Err(stop) => {
                self.take_back();
                drop(self.commit_all());
                Err(self.stopped_by(stop))
            }
        }
    }
}
