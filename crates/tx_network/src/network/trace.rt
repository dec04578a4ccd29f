//! The machine's steps of what happens, where they are kept. Where memory for one is refused, they
//! are kept no more.
ghost use Rattle.std.specs.Prelude.{◌≡◌, [], Option, Some, None, is_some, option_map, length};
ghost use Rattle.tx_core.specs.declared.event.Event.TheVariants as events;
ghost use Rattle.tx_network.specs.Networks.{GoesOnWith, NotesDrawn, NotesTaken, takings_in};
ghost use Rattle.tx_trace.specs.Traces.{Noted, Traces};

use super::Network;
use std::alloc::Global;
use tx_cells::Families;
use tx_core::{Answer, Body, Declaration, Outcome};
use tx_journal::{JournalId, Reply};
use tx_trace::{Taking, Trace};
use tx_types::Ts;

fn note_drawn(trace: &mut Option<Trace>, ts: Ts)
    ensures { NotesDrawn ts trace.old trace.new }
{
    if let Some(steps) = trace {
        if steps.drew(ts).is_err() {
            *trace = None;
        }
    }
}

fn note_began(trace: &mut Option<Trace>, start: Ts)
    ensures { GoesOnWith trace.old (events.Began start) trace.new }
{
    if let Some(steps) = trace {
        if steps.began(start).is_err() {
            *trace = None;
        }
    }
}

fn note_declared(trace: &mut Option<Trace>, of: &Declaration)
    ensures { GoesOnWith trace.old (events.Declared of.now) trace.new }
{
    if let Some(steps) = trace {
        if steps.declared(of).is_err() {
            *trace = None;
        }
    }
}

fn note_answered(trace: &mut Option<Trace>, start: Ts, outcome: &Outcome)
    ensures { GoesOnWith trace.old (events.Answered start outcome.now) trace.new }
{
    if let Some(steps) = trace {
        if steps.answered(start, *outcome).is_err() {
            *trace = None;
        }
    }
}

fn note_taken(trace: &mut Option<Trace>, body: &Body, answer: &Answer)
    ensures { NotesTaken body.now (Some answer.now) trace.old trace.new }
{
    if let Some(steps) = trace {
        if steps.took(body, answer).is_err() {
            *trace = None;
        }
    }
}

/// Notes what a region answered, if it did.
pub(crate) fn note_reply<J: JournalId>(trace: &mut Option<Trace>, reply: &Reply<J>)
    ensures { NotesTaken reply.now.request.body reply.now.answer trace.old trace.new }
{
    if let Some(answer) = reply.answer() {
        note_taken(trace, reply.request().body(), answer);
    }
}

impl<J: JournalId, F: Families> Network<J, F> {
    /// Keeps the steps from now on: nothing has happened yet.
    pub fn keep_trace(&mut self, alloc: Global)
        ensures { (t : Noted) × Traces [] t × (self.new ≡ record self.old { trace = Some t }) }
    {
        self.trace = Some(Trace::new(alloc));
    }

    /// Whether they are kept.
    pub fn is_traced(&self) -> bool
        ensures { result ≡ is_some self.now.trace }
    {
        self.trace.is_some()
    }

    /// How many are kept so far.
    pub fn count_steps(&self) -> Option<usize>
        ensures { result ≡ option_map (λ (t : Noted). length t.steps) self.now.trace }
    {
        match &self.trace {
            Some(trace) => Some(trace.steps().len()),
            None => None,
        }
    }

    /// Keeps, from now on, what regions take as well: nothing has happened yet.
    pub fn keep_takings(&mut self, alloc: Global)
        ensures { (t : Noted) × Traces [] t × (self.new ≡ record self.old { trace = Some t }) }
    {
        self.trace = Some(Trace::with_takings(alloc));
    }

    /// What regions took so far, oldest first: none where that is not kept, or no more.
    pub fn takings(&self) -> Option<&[Taking]>
        ensures { option_map (λ ts. ts.now) result ≡ takings_in self.now.trace }
    {
        match &self.trace {
            Some(trace) => trace.takings(),
            None => None,
        }
    }

    /// The steps, which are kept no more.
    pub fn take_trace(&mut self) -> Option<Trace>
        ensures value { result ≡ self.old.trace }
        ensures after { self.new ≡ record self.old { trace = None } }
    {
        self.trace.take()
    }

    /// Keeps no more steps.
    pub fn lose_trace(&mut self)
        ensures { self.new ≡ record self.old { trace = None } }
    {
        self.trace = None;
    }

    /// A number was drawn.
    pub fn drew(&mut self, ts: Ts)
        ensures same { self.new ≡ record self.old { trace = self.new.trace } }
        ensures notes { NotesDrawn ts self.old.trace self.new.trace }
    {
        note_drawn(&mut self.trace, ts);
    }

    /// A transaction began.
    pub fn began(&mut self, start: Ts)
        ensures same { self.new ≡ record self.old { trace = self.new.trace } }
        ensures notes { GoesOnWith self.old.trace (events.Began start) self.new.trace }
    {
        note_began(&mut self.trace, start);
    }

    /// A transaction declared this.
    pub fn declared(&mut self, of: &Declaration)
        ensures same { self.new ≡ record self.old { trace = self.new.trace } }
        ensures notes { GoesOnWith self.old.trace (events.Declared of.now) self.new.trace }
    {
        note_declared(&mut self.trace, of);
    }

    /// A session answered this of its transaction.
    pub fn answered(&mut self, start: Ts, outcome: &Outcome)
        ensures same { self.new ≡ record self.old { trace = self.new.trace } }
        ensures notes { GoesOnWith self.old.trace (events.Answered start outcome.now) self.new.trace }
    {
        note_answered(&mut self.trace, start, outcome);
    }
}
