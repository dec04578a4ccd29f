//! What a session of a run does by its lines.
ghost use Rattle.std.specs.Prelude.{◌≡◌, ◌+◌, true, None, Some, is_some};
ghost use Rattle.tx_steps.specs.Steps.{asked, IsApart};
ghost use Rattle.tx_run.specs.Jobs.{JobGoesOn, MayAnswer, with_line};
ghost use Rattle.tx_transfer.specs.Steps.{Begun};
ghost use Rattle.tx_run.specs.Played.{IsPlayed, Leads, Makes, PlaysOne, SaysBegin, SaysFinish, SaysStop, Standing, StopsSo, at, buffer_at, free, live, stays};
ghost use Rattle.tx_journal.specs.Known.{Known};
ghost use Rattle.tx_workload.specs.LineNumbers.{number_of};
ghost use Rattle.tx_workload.specs.Readers.{HasSession};
ghost use Rattle.tx_workload.specs.Steps.{Says, SaysStep};
ghost use Rattle.tx_workload.specs.Tells.{ComeLater, EnteredBy, EnteredBefore, IsBegun, SaidTells, SaysOfSession, SaysOwn, is_refusal, session_name};
ghost use Rattle.tx_evidence.specs.Buffers.{AllBy};
ghost use Rattle.tx_transfer.specs.Replies.{said_of};
ghost use Rattle.tx_transfer.specs.Sources.{HasPair, pair_of};

use super::ScriptJob;
use crate::state::JobState;
use std::sync::Wait;
use tx_cells::Families;
use tx_client::Session;
use tx_journal::{JournalId, Seat};
use tx_reply::ScriptReply;
use tx_steps::{Line, Op, Program, Step};
use tx_text::Parts;
use tx_transfer::{PlainReply, Source, act, send};
use tx_types::{Cause, is_name};
use tx_workload::{ScriptLine, SessionLine};

impl<J: JournalId, L: Source, F: Families + Drop, R: Wait + Drop> ScriptJob<J, L, F, R> {
    fn begin(&mut self, number: u64, seat: Seat<J>)
        requires may { MayAnswer self.old }
        requires says { SaysOfSession L.text number }
        requires begins { SaysBegin L.text number }
        ensures goes { JobGoesOn (with_line number self.old) self.new }
        ensures plays { PlaysOne J.bounds L.text (free seat) number self.old.log self.new.log self.new.stands }
    {
        match Session::begin(self.context.alloc, seat) {
            Ok(session) => self.on_begun(number, session),
            Err(seat) => {
                self.set_state(JobState::Free(seat));
                self.report_refusal(number, PlainReply::new(ScriptReply::OracleSpent));
            }
        }
    }

    // Keeps a session that has just begun.
    pub(super) fn on_begun(&mut self, number: u64, mut session: Session<J>)
        requires may { MayAnswer self.old }
        requires says { SaysOfSession L.text number }
        requires begun { IsBegun J.bounds session }
        requires begins { SaysBegin L.text number }
        ensures goes { JobGoesOn (with_line number self.old) self.new }
        ensures plays { (k : Known) → Begun J.bounds k session
            → PlaysOne J.bounds L.text (free k) number self.old.log self.new.log self.new.stands }
    {
        let start = session.start();
        self.hear(&mut session);
        match Box::new(self.context.alloc, session) {
            Ok(session) => {
                self.set_state(JobState::Live(session));
                self.report(number, PlainReply::new(ScriptReply::Start(start)));
            }
            Err(refused) => {
                self.stop(
                    number,
                    refused.value,
                    PlainReply::new(ScriptReply::OutOfMemory),
                );
            }
        }
    }

    fn finish(&mut self, number: u64, session: Session<J>)
        requires may { MayAnswer self.old }
        requires pair { HasPair L.text number None }
        requires says { SaysStep L.text number }
        requires finishes { SaysFinish L.text number }
        ensures goes { JobGoesOn (with_line number self.old) self.new }
        ensures plays { PlaysOne J.bounds L.text (live session) number self.old.log self.new.log self.new.stands }
    {
        match self.conclude(number, session, None) {
            Ok(seat) => self.set_state(JobState::Free(seat)),
            Err(session) => {
                self.set_state(JobState::Free(session.stop()));
                self.fail(number, Cause::Order);
            }
        }
    }

    pub(super) fn stop(&mut self, number: u64, session: Session<J>, plain: PlainReply)
        requires may { MayAnswer self.old }
        requires says { SaysStep L.text number }
        requires refusal { is_refusal plain.reply ≡ true }
        ensures goes { JobGoesOn (with_line number self.old) self.new }
        ensures stopped { StopsSo J.bounds session number plain self.old.log self.new.log self.new.stands }
    {
        self.set_state(JobState::Free(session.stop()));
        self.report_refusal(number, plain);
    }

    // Leaves the transaction as it is, as its line says.
    fn leave(&mut self, number: u64, session: Session<J>)
        requires may { MayAnswer self.old }
        requires says { SaysOfSession L.text number }
        requires stops { SaysStop L.text number }
        ensures goes { JobGoesOn (with_line number self.old) self.new }
        ensures plays { PlaysOne J.bounds L.text (live session) number self.old.log self.new.log self.new.stands }
    {
        self.set_state(JobState::Free(session.stop()));
        self.report(number, PlainReply::new(ScriptReply::Fine));
    }

    // What the step of this line comes to, of a session that is live. For proofs: `number` names
    // the line in the clauses.
    fn result_of(
        &mut self,
        number: u64,
        session: &mut Session<J>,
        step: Step<&str>,
    ) -> Result<PlainReply, Cause>
        requires own { AllBy (EnteredBy L.text self.old.number number) session.old.state.buffer }
        requires says { SaysOwn L.text self.old.number number (asked step) }
        ensures job { self.new ≡ self.old }
        ensures own { AllBy (EnteredBy L.text self.old.number (number + 1)) session.new.state.buffer }
        ensures tells { SaidTells J.bounds (EnteredBefore L.text number) session.new.seat.events (asked step.entry)
            (said_of result) }
        ensures made { Makes J.bounds (asked step.entry) session.old (said_of result) session.new }
    {
        let _ = number;
        match step {
            Step::Act(_, action) => act(session, &mut self.context, action),
            Step::Send(_, request, _) => send(session, &mut self.context, request),
            Step::Begin(_) => Err(Cause::Name),
            _ => Err(Cause::Order),
        }
    }

    // A step of a session that is live.
    fn operate(&mut self, number: u64, mut session: Box<Session<J>>, step: Step<&str>)
        requires may { MayAnswer self.old }
        requires own { AllBy (EnteredBy L.text self.old.number number) session.value.state.buffer }
        requires later { ComeLater L.text number self.old.left }
        requires says { Says L.text number (Some (asked step)) }
        requires named { HasSession L.text number (session_name L.text self.old.number) }
        requires still { stays (asked step) ≡ true }
        ensures goes { JobGoesOn (with_line number self.old) self.new }
        ensures plays { PlaysOne J.bounds L.text (live session.value) number self.old.log self.new.log self.new.stands }
    {
        let result = self.result_of(number, &mut session, step);
        self.note_end(&step, &result);
        self.hear(&mut session);
        self.set_state(JobState::Live(session));
        self.on_answer(number, result);
    }

    // Makes the step of a line.
    fn make(&mut self, number: u64, step: Step<&str>)
        requires may { MayAnswer self.old }
        requires apart { IsApart (asked step) }
        requires pair { HasPair L.text number (pair_of (asked step)) }
        requires says { Says L.text number (Some (asked step)) }
        requires step { SaysStep L.text number }
        requires named { HasSession L.text number (session_name L.text self.old.number) }
        requires later { ComeLater L.text number self.old.left }
        requires entered { AllBy (EnteredBy L.text self.old.number number) (buffer_at self.old.stands) }
        ensures goes { JobGoesOn (with_line number self.old) self.new }
        ensures plays { is_some L.text ≡ true → (from : Standing) → self.old.stands ≡ at from
            → IsPlayed J.bounds L.text from number self.old.log self.new.log self.new.stands }
    {
        match self.take_state() {
            JobState::Free(seat) => match step {
                Step::Begin(name) if is_name(name) => self.begin(number, seat),
                Step::Transfer(name, transfer) if is_name(name) => {
                    self.order_transfer(number, seat, transfer);
                }
                _ => {
                    self.set_state(JobState::Free(seat));
                    self.fail(number, Cause::Name);
                }
            },
            JobState::Live(session) => match step {
                Step::Act(_, Op::Finish) => self.finish(number, Box::into_inner(session)),
                Step::Act(_, Op::Stop) => self.leave(number, Box::into_inner(session)),
                other => self.operate(number, session, other),
            },
            JobState::Transfer(..) | JobState::Taken => self.fail(number, Cause::Order),
        }
    }

    // Makes the step that a line says. Out of line: most lines are transfers.
    #[inline(never)]
    fn play(&mut self, script_line: &ScriptLine<L>)
        requires may { MayAnswer self.old }
        requires named { HasSession L.text script_line.now.number (session_name L.text self.old.number) }
        requires later { ComeLater L.text script_line.now.number self.old.left }
        requires entered { AllBy (EnteredBy L.text self.old.number script_line.now.number) (buffer_at self.old.stands) }
        ensures goes { JobGoesOn (with_line script_line.now.number self.old) self.new }
        ensures plays { is_some L.text ≡ true → (from : Standing) → self.old.stands ≡ at from
            → IsPlayed J.bounds L.text from script_line.now.number self.old.log self.new.log self.new.stands }
    {
        let mut parts = Parts::new();
        match Line::read(
            self.context.alloc,
            script_line.number,
            script_line.text.as_slice(),
            &mut parts,
        ) {
            Ok(Ok(line)) => match line.step(Program::Run) {
                Some(step) => self.make(script_line.number, step),
                None => self.fail(script_line.number, Cause::Form),
            },
            Ok(Err(cause)) => self.fail(script_line.number, cause),
            Err(_) => self.report_refusal(
                script_line.number,
                PlainReply::new(ScriptReply::OutOfMemory),
            ),
        }
    }

    // Makes the step that a line of the session says.
    pub(super) fn enter(&mut self, line: SessionLine<L>)
        requires may { MayAnswer self.old }
        requires named { HasSession L.text (number_of line) (session_name L.text self.old.number) }
        requires later { ComeLater L.text (number_of line) self.old.left }
        requires entered { AllBy (EnteredBy L.text self.old.number (number_of line)) (buffer_at self.old.stands) }
        ensures goes { JobGoesOn (with_line (number_of line) self.old) self.new }
        ensures plays { is_some L.text ≡ true → (from : Standing) → self.old.stands ≡ at from
            → Leads J.bounds L.text (at from) self.old.log self.new.log self.new.stands }
    {
        match line {
            SessionLine::Transfer(order) => self.on_order(order),
            SessionLine::Line(line) => self.play(&line),
        }
    }
}
