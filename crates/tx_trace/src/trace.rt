//! The machine's steps of the events so far.
ghost use Rattle.std.specs.Prelude.{◌≡◌, ℕ, [], reverse, OnOk, OnErr, IfErr, option_map};
ghost use Rattle.tx_core.specs.declared.event.Event.TheVariants as event;
ghost use Rattle.tx_core.specs.declared.event.Taken.{Taken};
ghost use Rattle.tx_trace.specs.Traces.{Traces, Adds, Stays};

use crate::log::TraceLog;
use crate::taken_log::{TakenLog, Taking, note_took};
use std::alloc::Global;
use std::marker::Model;
use tx_core::{Answer, Body, Declaration, Event, Outcome};
use tx_machine::Step;
use tx_types::{Fault, Ts};

/// The machine's steps of a run so far, as its events come. Where memory is refused for one, the
/// trace is that of the events before it. An event costs about the logarithm of what is kept.
/// Contracts see the steps, newest first, and what each transaction waits for that is declared
/// and not decided.
#[derive(Drop)]
pub struct Trace {
    log: TraceLog,
    /// What regions took; None where that is not kept, or no more.
    taken: Option<TakenLog>,
}

impl Model for Trace {
    ghost use Rattle.tx_trace.specs.Traces.{Noted, noted};

    ghost Value = { Noted };

    ghost view = { λ t. noted t.log t.taken };
}

impl Trace {
    /// The trace of no event.
    pub fn new(alloc: Global) -> Trace
        ensures { Traces [] result }
    {
        Trace {
            log: TraceLog::new(alloc),
            taken: None,
        }
    }

    /// The trace of no event, which keeps what regions take as well.
    pub fn with_takings(alloc: Global) -> Trace
        ensures { Traces [] result }
    {
        Trace {
            log: TraceLog::new(alloc),
            taken: Some(TakenLog::new(alloc)),
        }
    }

    /// The steps, oldest first: by `Traces` those of the machine that are read off the history that
    /// this is the trace of.
    pub fn steps(&self) -> &[Step]
        ensures { reverse result.now ≡ self.now.steps }
    {
        self.log.steps()
    }

    /// What regions took, oldest first, each request with its answer: by `Traces` all that they
    /// took in the history that this is the trace of. None where it is not kept, or no more, since
    /// memory for it was refused.
    pub fn takings(&self) -> Option<&[Taking]>
        ensures { option_map (λ ts. ts.now) result ≡ option_map (λ t. t.takings.items) self.now.taken }
    {
        match &self.taken {
            Some(taken) => Some(taken.as_slice()),
            None => None,
        }
    }

    /// Goes on with a request that a region took, and its answer.
    #[inline(never)]
    pub fn took(&mut self, body: &Body, answer: &Answer) -> Result<(), Fault>
        ensures ok { OnOk result ((x : Taken) → x.body ≡ body.now → x.answer ≡ answer.now
            → Adds self.old (event.Took x) self.new) }
        ensures same { OnErr result (Stays self.old self.new) }
        ensures err { IfErr result (λ e. e ≡ Fault.OutOfMemory) }
    {
        self.log.took(body, answer)?;
        note_took(&mut self.taken, body, answer);
        Ok(())
    }

    /// Goes on with a number that a seat drew.
    #[inline(never)]
    pub fn drew(&mut self, ts: Ts) -> Result<(), Fault>
        ensures ok { OnOk result ((seat : ℕ) → Adds self.old (event.Drawn seat ts) self.new) }
        ensures same { OnErr result (Stays self.old self.new) }
        ensures err { IfErr result (λ e. e ≡ Fault.OutOfMemory) }
    {
        self.log.drew(ts)
    }

    /// Goes on with a transaction that began.
    #[inline(never)]
    pub fn began(&mut self, start: Ts) -> Result<(), Fault>
        ensures ok { OnOk result (Adds self.old (event.Began start) self.new) }
        ensures same { OnErr result (Stays self.old self.new) }
        ensures err { IfErr result (λ e. e ≡ Fault.OutOfMemory) }
    {
        self.log.began(start)
    }

    /// Goes on with what a transaction declared.
    #[inline(never)]
    pub fn declared(&mut self, of: &Declaration) -> Result<(), Fault>
        ensures ok { OnOk result (Adds self.old (event.Declared of.now) self.new) }
        ensures same { OnErr result (Stays self.old self.new) }
        ensures err { IfErr result (λ e. e ≡ Fault.OutOfMemory) }
    {
        self.log.declared(of)
    }

    /// Goes on with what a session answered of its transaction.
    #[inline(never)]
    pub fn answered(&mut self, start: Ts, outcome: Outcome) -> Result<(), Fault>
        ensures ok { OnOk result (Adds self.old (event.Answered start outcome) self.new) }
        ensures same { OnErr result (Stays self.old self.new) }
        ensures err { IfErr result (λ e. e ≡ Fault.OutOfMemory) }
    {
        self.log.answered(start, outcome)
    }

    /// Goes on with an event.
    pub fn push(&mut self, event: &Event) -> Result<(), Fault>
        ensures ok { OnOk result (Adds self.old event.now self.new) }
        ensures same { OnErr result (Stays self.old self.new) }
        ensures err { IfErr result (λ e. e ≡ Fault.OutOfMemory) }
    {
        match event {
            Event::Drawn { seat: _, ts } => self.drew(*ts),
            Event::Began(start) => self.began(*start),
            Event::Declared(of) => self.declared(of),
            Event::Answered(start, outcome) => self.answered(*start, *outcome),
            Event::Stopped(_) => Ok(()),
            Event::Took(taken) => self.took(&taken.body, &taken.answer),
        }
    }
}
