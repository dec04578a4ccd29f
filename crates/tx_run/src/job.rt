//! A session of a run, as a job of the workers: each line is a step. A transfer is mostly two: its
//! reads, and then its writes.
ghost use Rattle.std.specs.Prelude.{◌≡◌, ◌∷◌, map, is_some, [], None, Some, Ok, Err, true, false, IfErr, IfNone, IfOk, IfSome, OnErr, OnOk};
ghost use Rattle.tx_run.specs.Jobs.{JobGoesOn, MayAnswer, Promises, WillPlay, job_lines, with_line};
ghost use Rattle.tx_run.specs.Played.{IsStageOf, Leads, Standing, WasMade, at, away, buffer_at, free, is_away, is_moving, known_at};
ghost use Rattle.tx_client.specs.Calls.{HasHeard};
ghost use Rattle.tx_core.specs.declared.event.Outcome.{Outcome};
ghost use Rattle.tx_transaction.specs.Sessions.{finish_of};
ghost use Rattle.tx_workload.specs.Logs.{HasFinished, KeepsAnswer};
ghost use Rattle.tx_transfer.specs.Replies.{said_of};
ghost use Rattle.tx_workload.specs.LineNumbers.{number_of};
ghost use Rattle.tx_workload.specs.Logs.{answer_to};
ghost use Rattle.tx_run.specs.States.{going_of, where_of};
ghost use Rattle.tx_workload.specs.Readers.{HasSession};
ghost use Rattle.tx_workload.specs.Tells.{AreEntered, AreOf, ComeLater, EnteredBy, TellsLine, is_refusal, session_name};
ghost use Rattle.tx_workload.specs.Steps.{SaysStep};
ghost use Rattle.tx_workload.specs.declared.reply.LineAnswer.TheVariants.{Plain, Ended};
ghost use Rattle.tx_core.specs.Histories.{Begins};
ghost use Rattle.tx_evidence.specs.Buffers.{AllBy};
ghost use Rattle.tx_transfer.specs.Sources.{HasPair};
ghost use Rattle.tx_transfer.specs.Transfers.{MovesSome};

mod latches;
mod lines;
mod transfer;

use crate::output::JobOutput;
use crate::state::JobState;
use std::marker::Model;
use std::mem::replace;
use std::sync::Wait;
use tx_cells::Families;
use tx_client::Session;
use tx_core::Answer;
use tx_journal::{JournalId, Seat, Told};
use tx_latch::Slot;
use tx_ops::{SessionStage, ending_name};
use tx_reply::ScriptReply;
use tx_sched::{Job, Turn};
use tx_steps::Step;
use tx_transfer::{
    Collector, Context, PlainReply, Source, TransferProgress, TransferState, slots_of,
};
use tx_types::{Cause, Fault};
use tx_workload::{KeyPair, RunLog, SessionLine};

/// A session, the lines that are left of it, and what was answered. Contracts see its number, its
/// log, which lines are left, whether a transfer is on its way, where it stands, and whether a
/// fault ended it.
#[derive(Drop)]
pub(crate) struct ScriptJob<J: JournalId, L: Source, F: Families + Drop, R: Wait + Drop> {
    number: u32,
    context: Context<J, F, R>,
    state: JobState<Seat<J>, Box<Session<J>>, Box<TransferState<J, L>>>,
    log: RunLog<J, L>,
    /// The last line first.
    lines: Vec<SessionLine<L>>,
    /// The slots of the lock that last stood in its way.
    met: Vec<Slot>,
    collector: Collector,
    faulted: bool,
    /// Whether its last line was to draw, commit or abort, and was out of order.
    ends_early: bool,
}

impl<J: JournalId, L: Source, F: Families + Drop, R: Wait + Drop> Model for ScriptJob<J, L, F, R> {
    ghost use Rattle.std.specs.Prelude.{map, reverse};
    ghost use Rattle.tx_run.specs.Jobs.{IsSound, Working};
    ghost use Rattle.tx_workload.specs.LineNumbers.{number_of};
    ghost use Rattle.tx_run.specs.States.{going_of, where_of};
    ghost use Rattle.tx_run.specs.Played.{buffer_at};
    ghost use Rattle.tx_workload.specs.Tells.{Owns};

    ghost Value = { Working };

    ghost view = { λ j. record {
      number = j.number;
      log = j.log;
      going = going_of j.state (λ transfer. transfer.value.number);
      left = map number_of (reverse j.lines.items);
      stands = where_of j.state (λ session. session.value) (λ transfer. transfer.value);
      faulted = j.faulted;
    } };

    ghost invariant = { λ j. IsSound (record {
      number = j.number;
      log = j.log;
      going = going_of j.state (λ transfer. transfer.value.number);
      left = map number_of (reverse j.lines.items);
      stands = where_of j.state (λ session. session.value) (λ transfer. transfer.value);
      faulted = j.faulted;
    }) × Owns L.text j.number (map number_of (reverse j.lines.items))
        (buffer_at (where_of j.state (λ session. session.value) (λ transfer. transfer.value))) };
}

impl<J: JournalId, L: Source, F: Families + Drop, R: Wait + Drop> ScriptJob<J, L, F, R> {
    /// A job of these lines, which come in the order of the script.
    pub fn new(
        number: u32,
        context: Context<J, F, R>,
        seat: Seat<J>,
        mut lines: Vec<SessionLine<L>>,
        collector: Collector,
    ) -> Result<ScriptJob<J, L, F, R>, Fault>
        requires { AreOf L.text number (map number_of lines.items) }
        ensures job { IfOk result (λ job. (job.number ≡ number) × (job.log.seat ≡ seat.seat)) }
        ensures lines { IfOk result (λ job. job_lines job ≡ map number_of lines.items) }
        ensures stands { IfOk result (λ job. job.stands ≡ at (free seat)) }
        ensures none { IfOk result (λ job. job.log.replies ≡ []) }
        ensures err { IfErr result (λ e. e ≡ Fault.OutOfMemory) }
    {
        let alloc = context.alloc;
        let mut seat = seat;
        let log = RunLog::new(&mut seat, Vec::with_capacity(alloc, lines.len())?);
        lines.reverse();
        Ok(ScriptJob {
            number,
            context,
            state: JobState::Free(seat),
            log,
            lines,
            met: Vec::new(alloc),
            collector,
            faulted: false,
            ends_early: false,
        })
    }

    // Is in this state from now on.
    fn set_state(&mut self, state: JobState<Seat<J>, Box<Session<J>>, Box<TransferState<J, L>>>)
        requires over { self.old.faulted ≡ true → going_of state (λ transfer. transfer.value.number) ≡ None }
        requires own { AreEntered L.text self.old.number self.old.left
            (buffer_at (where_of state (λ session. session.value) (λ transfer. transfer.value))) }
        ensures { self.new ≡ record self.old {
          going = going_of state (λ transfer. transfer.value.number);
          stands = where_of state (λ session. session.value) (λ transfer. transfer.value);
        } }
    {
        drop(replace(&mut self.state, state));
    }

    // Takes the state, while it acts.
    fn take_state(&mut self) -> JobState<Seat<J>, Box<Session<J>>, Box<TransferState<J, L>>>
        ensures state { going_of result (λ transfer. transfer.value.number) ≡ self.old.going }
        ensures entered { where_of result (λ session. session.value) (λ transfer. transfer.value) ≡ self.old.stands }
        ensures own { AreEntered L.text self.old.number self.old.left
            (buffer_at (where_of result (λ session. session.value) (λ transfer. transfer.value))) }
        ensures over { self.old.faulted ≡ true → self.old.going ≡ None }
        ensures taken { self.new ≡ record self.old { going = None; stands = away } }
    {
        replace(&mut self.state, JobState::Taken)
    }

    // Keeps the slots of the lock that this reply tells of, if it tells of one.
    fn meet(&mut self, plain: &PlainReply)
        ensures { self.new ≡ self.old }
    {
        if let ScriptReply::Answered(Answer::KeyIsLocked(info)) = plain.reply() {
            if let Ok(slots) = slots_of(self.context.alloc, info) {
                self.met = slots;
            }
        }
    }

    // The log knows what a session has seen.
    fn hear(&mut self, session: &mut Session<J>)
        ensures job { self.new ≡ record self.old { log = record self.old.log { told = self.new.log.told } } }
        ensures knows { Begins session.old.seat.events self.new.log.told }
        ensures state { session.new.state ≡ session.old.state }
        ensures heard { HasHeard J.bounds session.old.seat self.old.log.told session.new.seat }
    {
        self.log.hear(self.context.resolver(), session);
    }

    // Keeps the answer of a line, which tells of what the log was told.
    fn report(&mut self, number: u64, plain: PlainReply)
        requires may { MayAnswer self.old }
        requires tells { TellsLine L.text J.bounds self.old.log.told (answer_to number (Plain (Ok plain))) }
        ensures goes { JobGoesOn (with_line number self.old) self.new }
        ensures kept { KeepsAnswer self.old.log number (Plain (Ok plain)) self.new.log }
        ensures stands { self.new.stands ≡ self.old.stands }
    {
        self.meet(&plain);
        self.log.keep(number, Ok(plain));
    }

    // Keeps the answer of a line that says a step: why it was not done.
    fn report_refusal(&mut self, number: u64, plain: PlainReply)
        requires may { MayAnswer self.old }
        requires says { SaysStep L.text number }
        requires refusal { is_refusal plain.reply ≡ true }
        ensures goes { JobGoesOn (with_line number self.old) self.new }
        ensures answered { KeepsAnswer self.old.log number (Plain (Ok plain)) self.new.log }
        ensures stands { self.new.stands ≡ self.old.stands }
    {
        self.report(number, plain);
    }

    // Notes whether a line is out of order that draws, commits or aborts.
    fn note_end(&mut self, step: &Step<&str>, answer: &Result<PlainReply, Cause>)
        ensures { self.new ≡ self.old }
    {
        self.ends_early = matches!(answer, Err(Cause::Order)) && ending_name(step).is_some();
    }

    // How far the session is, with the number of its last line, where that was out of order and
    // drew, committed or aborted.
    fn stage(&self) -> Option<(u64, SessionStage)>
        ensures { (s : Standing) → self.now.stands ≡ at s → IsStageOf s self.now.log.replies result }
    {
        let JobState::Live(session) = &self.state else {
            return None;
        };
        if !self.ends_early {
            return None;
        }
        let number = self.log.out_of_order()?;
        Some((number, SessionStage::of(session.transaction())))
    }

    // A fault of the script ends the session.
    fn fail(&mut self, number: u64, cause: Cause)
        requires { MayAnswer self.old }
        ensures goes { JobGoesOn (with_line number self.old) self.new }
        ensures kept { KeepsAnswer self.old.log number (Plain (Err cause)) self.new.log }
        ensures stands { self.new.stands ≡ self.old.stands }
    {
        self.faulted = true;
        self.lines.clear();
        self.log.keep(number, Err(cause));
    }

    // Keeps what came of a line.
    fn on_answer(&mut self, number: u64, answer: Result<PlainReply, Cause>)
        requires may { MayAnswer self.old }
        requires tells { TellsLine L.text J.bounds self.old.log.told (answer_to number (Plain answer)) }
        requires made { WasMade J.bounds L.text self.old.log.told number (said_of answer) }
        ensures goes { JobGoesOn (with_line number self.old) self.new }
        ensures kept { KeepsAnswer self.old.log number (Plain answer) self.new.log }
        ensures stands { self.new.stands ≡ self.old.stands }
    {
        match answer {
            Ok(plain) => self.report(number, plain),
            Err(cause) => self.fail(number, cause),
        }
    }

    // Ends a transaction, and keeps its outcome. Where it has none, the session comes back.
    fn conclude(
        &mut self,
        number: u64,
        session: Session<J>,
        keys: Option<KeyPair>,
    ) -> Result<Seat<J>, Session<J>>
        requires may { MayAnswer self.old }
        requires moves { MovesSome keys session.state }
        requires pair { HasPair L.text number keys }
        requires says { SaysStep L.text number }
        ensures kept { OnOk result (JobGoesOn (with_line number self.old) self.new × MayAnswer self.new) }
        ensures none { OnErr result (self.new ≡ self.old) }
        ensures finished { IfOk result (λ seat. (o : Outcome) × HasFinished J.bounds session self.old.log.told o seat
            × KeepsAnswer self.old.log number (Ended session.state.start o keys) self.new.log) }
        ensures open_yet { IfErr result (λ s. (finish_of session.state ≡ None) × (s.state ≡ session.state)
            × HasHeard J.bounds session.seat self.old.log.told s.seat) }
    {
        self.log
            .finish(self.context.resolver(), number, session, keys)
    }

    // What the session's seat knows at last. The session is then over.
    fn tell_last(&mut self) -> Option<Told<J>>
        ensures job { self.new ≡ record self.old { going = None; stands = away } }
        ensures knows { (s : Standing) → self.old.stands ≡ at s → result ≡ Some (known_at s).events }
    {
        match self.take_state() {
            JobState::Free(mut seat) => Some(seat.tell()),
            JobState::Live(mut session) => Some(session.tell()),
            JobState::Transfer(..) | JobState::Taken => None,
        }
    }

    // What it came to. Out of line: a step that is not the last has no room for it.
    #[inline(never)]
    fn output(&mut self) -> JobOutput<J, L>
        requires over { (self.old.left ≡ []) × (self.old.going ≡ None) }
        requires still { is_moving self.old.stands ≡ false }
        ensures number { result.number ≡ self.old.number }
        ensures promised { Promises self.old result }
        ensures plays { WillPlay J.bounds L.text self.old result }
    {
        let stage = self.stage();
        let last = self.tell_last();
        self.hand_out(stage, last)
    }

    // Hands out its log, how far its session was, and what its seat knew at last.
    fn hand_out(
        &mut self,
        stage: Option<(u64, SessionStage)>,
        last: Option<Told<J>>,
    ) -> JobOutput<J, L>
        requires { (self.old.left ≡ []) × (self.old.going ≡ None) }
        ensures number { result.number ≡ self.old.number }
        ensures log { result.log ≡ self.old.log }
        ensures stage { result.stage ≡ stage }
        ensures last { result.last ≡ last }
        ensures promised { Promises self.old result }
    {
        let empty = Vec::new(self.context.alloc);
        let log = self.log.take(self.context.resolver(), empty);
        JobOutput {
            number: self.number,
            log,
            faulted: self.faulted,
            stage,
            collected: self.collector.dropped(),
            requests: self.context.refusals(),
            last,
        }
    }

    // The first of the lines that are left.
    fn next_line(&mut self) -> Option<SessionLine<L>>
        ensures some { IfSome result (λ line. (self.old ≡ record self.new { left = number_of line ∷ self.new.left })
            × (self.new.faulted ≡ false)) }
        ensures own { IfSome result
            (λ line. HasSession L.text (number_of line) (session_name L.text self.new.number)) }
        ensures later { IfSome result (λ line. ComeLater L.text (number_of line) self.new.left) }
        ensures entered { IfSome result
            (λ line. AllBy (EnteredBy L.text self.new.number (number_of line)) (buffer_at self.new.stands)) }
        ensures none { IfNone result (self.new ≡ self.old) }
    {
        self.lines.pop()
    }

    // Makes a line, unless a transfer is on its way.
    fn begin_line(&mut self)
        ensures goes { JobGoesOn self.old self.new }
        ensures plays { is_some L.text ≡ true → is_away self.old.stands ≡ false
            → Leads J.bounds L.text self.old.stands self.old.log self.new.log self.new.stands }
    {
        if self.is_transferring() {
            return;
        }
        if let Some(line) = self.next_line() {
            self.enter(line);
        }
    }

    // Makes a line, unless a transfer is on its way, and the next requests of a transfer: where it
    // has just begun, these ask for no latch.
    fn advance(&mut self)
        ensures goes { JobGoesOn self.old self.new }
        ensures plays { is_some L.text ≡ true → is_away self.old.stands ≡ false
            → Leads J.bounds L.text self.old.stands self.old.log self.new.log self.new.stands }
    {
        self.begin_line();
        match self.advance_transfer() {
            TransferProgress::More => {}
            progress => self.finish_transfer(progress),
        }
    }

    // Collects, if it is its turn to and no transaction of its own is open.
    fn collect(&mut self)
        ensures { self.new ≡ self.old }
    {
        if matches!(&self.state, JobState::Free(_)) {
            self.collector.collect(&mut self.context);
        }
    }

    fn is_transferring(&self) -> bool
        ensures going { result ≡ is_some self.now.going }
        ensures stands { result ≡ is_moving self.now.stands }
    {
        self.state.is_transfer()
    }

    // Whether it has nothing left to do.
    fn is_done(&self) -> bool
        ensures over { result ≡ true → (self.now.left ≡ []) × (self.now.going ≡ None) }
        ensures still { result ≡ true → is_moving self.now.stands ≡ false }
    {
        self.lines.is_empty() && !self.is_transferring()
    }
}

impl<J: JournalId, L: Source, F: Families + Drop, R: Wait + Drop> Job for ScriptJob<J, L, F, R> {
    ghost use Rattle.tx_run.specs.Jobs.{Promises, WillPlay};

    type Out = JobOutput<J, L>;

    ghost numbered = { λ j. j.number };

    ghost tells = { λ o. o.number };

    ghost promised = { λ j o. Promises j o × WillPlay J.bounds L.text j o };

    fn number(&self) -> u32 {
        self.number
    }

    fn slots(&self, slots: &mut Vec<Slot>) -> Result<(), Fault> {
        match &self.state {
            JobState::Transfer(transfer) => transfer.slots(slots),
            JobState::Live(session) => self.line_slots(session, slots),
            JobState::Free(_) | JobState::Taken => Ok(()),
        }
    }

    fn step(&mut self) -> Turn<JobOutput<J, L>> {
        self.collect();
        self.advance();
        if self.is_done() {
            Turn::Done(self.output())
        } else {
            Turn::More
        }
    }
}
