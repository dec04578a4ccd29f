//! What is kept of the events so far: the steps, and what each open transaction waits for.
ghost use Rattle.std.specs.Prelude.{◌≡◌, ◌∷◌, ◌+◌, ◌<◌, ℕ, [], Some, reverse, vec_len, vec_capacity, OnOk, OnErr, IfOk, IfErr};
ghost use Rattle.tx_types.specs.declared.key.Key.{Key};
ghost use Rattle.tx_plan.specs.declared.body.Body.TheVariants as request;
ghost use Rattle.tx_machine.specs.declared.step.Step.TheVariants as steps;
ghost use Rattle.tx_core.specs.declared.event.Event.TheVariants as event;
ghost use Rattle.tx_core.specs.declared.event.Taken.{Taken};
ghost use Rattle.tx_plan.specs.cases.Prewrite.{check_by};
ghost use Rattle.tx_core.specs.Decisions.{fate_in};
ghost use Rattle.tx_core.specs.EventSteps.{reading};
ghost use Rattle.tx_trace.specs.Logs.{IsLogOf, LogGoesOn, Stays, steps_of, kept_in, checked_in, AddsSteps, DecidesKept, TellsFate, Locked, Checks, Prewrites, Enters, ended};

use crate::pending::{Pending, accept_in};
use std::alloc::Global;
use std::collections::{BTreeMap, BTreeSet};
use tx_core::{Answer, Body, Declaration, Get, Outcome, Prewrite, Scan, fate_in};
use tx_machine::{ScanRead, Step};
use tx_types::{Fate, Fault, Key, Mutation, Ts};

/// The machine's steps of the events so far, oldest first, what each transaction that is declared
/// and not decided waits for, and which keys were checked that a transaction inserts.
#[derive(Drop)]
pub(crate) struct TraceLog {
    alloc: Global,
    steps: Vec<Step>,
    pending: BTreeMap<Ts, Pending>,
    checked: BTreeSet<(Ts, Key)>,
}

// The step at which a transaction is decided.
fn decided(start: Ts, fate: Fate) -> Step
    ensures { result ≡ ended start fate }
{
    match fate {
        Fate::Committed(commit) => Step::Commit(start, commit),
        Fate::Aborted => Step::Abort(start),
    }
}

// The step of a declaration.
fn declaring(of: &Declaration) -> Result<Step, Fault>
    ensures ok { IfOk result (λ step. step ≡ steps.Declare of.now.start of.now.changes) }
    ensures err { IfErr result (λ e. e ≡ Fault.OutOfMemory) }
{
    Ok(Step::Declare(of.start, of.changes.clone()?))
}

impl TraceLog {
    /// The log of no event.
    pub fn new(alloc: Global) -> TraceLog
        ensures { IsLogOf [] result }
    {
        TraceLog {
            alloc,
            steps: Vec::new(alloc),
            pending: BTreeMap::new(alloc),
            checked: BTreeSet::new(alloc),
        }
    }

    /// The steps, oldest first.
    pub fn steps(&self) -> &[Step]
        ensures { reverse result.now ≡ steps_of self.now }
    {
        self.steps.as_slice()
    }

    // Adds a step.
    fn write(&mut self, step: Step) -> Result<(), Fault>
        ensures ok { OnOk result (AddsSteps (step ∷ []) self.old self.new) }
        ensures same { OnErr result (Stays self.old self.new) }
        ensures err { IfErr result (λ e. e ≡ Fault.OutOfMemory) }
    {
        self.steps.push(step)?;
        Ok(())
    }

    // A transaction is kept from its declaration on.
    fn enter(&mut self, of: &Declaration) -> Result<(), Fault>
        ensures ok { OnOk result (Enters of.now self.old self.new) }
        ensures same { OnErr result (Stays self.old self.new) }
        ensures err { IfErr result (λ e. e ≡ Fault.OutOfMemory) }
    {
        let first = Pending::new(self.alloc, of)?;
        let step = declaring(of)?;
        self.steps.reserve(1)?;
        self.pending.insert(of.start, first)?;
        self.steps.push_reserved(step);
        Ok(())
    }

    // A transaction is decided, if it is kept.
    fn end(&mut self, start: Ts, fate: Fate) -> Result<(), Fault>
        ensures ok { OnOk result (DecidesKept start fate self.old self.new) }
        ensures same { OnErr result (Stays self.old self.new) }
        ensures err { IfErr result (λ e. e ≡ Fault.OutOfMemory) }
    {
        if self.pending.contains_key(&start) {
            self.steps.push(decided(start, fate))?;
            self.pending.remove(&start);
        }
        Ok(())
    }

    // A transaction is decided where an answer tells its fate.
    fn tell(&mut self, start: Ts, answer: &Answer) -> Result<(), Fault>
        ensures ok { OnOk result (TellsFate start (fate_in answer.now) self.old self.new) }
        ensures same { OnErr result (Stays self.old self.new) }
        ensures err { IfErr result (λ e. e ≡ Fault.OutOfMemory) }
    {
        match fate_in(answer) {
            Some(fate) => self.end(start, fate),
            None => Ok(()),
        }
    }

    // A prewrite was accepted: an insert read its key at its start, where that is its first
    // acceptance. Room is left for one step.
    fn check(&mut self, body: &Prewrite) -> Result<(), Fault>
        ensures ok { OnOk result (Checks body.now self.old self.new) }
        ensures room { OnOk result (vec_len self.new.steps < vec_capacity self.new.steps) }
        ensures same { OnErr result (Stays self.old self.new) }
        ensures err { IfErr result (λ e. e ≡ Fault.OutOfMemory) }
    {
        self.steps.reserve(2)?;
        match body.mutation {
            Mutation::Insert(_) => self.read_first(body),
            Mutation::Put(_) | Mutation::Delete | Mutation::Lock => Ok(()),
        }
    }

    // An insert was accepted: it read its key at its start, if this is its first acceptance.
    fn read_first(&mut self, body: &Prewrite) -> Result<(), Fault>
        requires room { vec_len self.old.steps + 1 < vec_capacity self.old.steps }
        requires inserts { check_by body.now.mutation body.now.start ≡ Some body.now.start }
        ensures ok { OnOk result (Checks body.now self.old self.new) }
        ensures room { OnOk result (vec_len self.new.steps < vec_capacity self.new.steps) }
        ensures same { OnErr result (Stays self.old self.new) }
        ensures err { IfErr result (λ e. e ≡ Fault.OutOfMemory) }
    {
        let read = Step::Read(body.key.clone()?, body.start, None);
        let first = self.checked.insert((body.start, body.key.clone()?))?;
        if !first {
            return Ok(());
        }
        self.steps.push_reserved(read);
        Ok(())
    }

    // A key of a transaction is locked with a minimum, 0 of a two-phase lock.
    fn lock(&mut self, start: Ts, key: &Key, min: Ts)
        requires room { vec_len self.old.steps < vec_capacity self.old.steps }
        ensures locks { Locked start key.now min (steps_of self.old) (kept_in self.old) self.new }
        ensures still { (q : ℕ) (k : Key) → checked_in self.new q k ≡ checked_in self.old q k }
    {
        if let Some(commit) = accept_in(&mut self.pending, start, key, min) {
            self.steps.push_reserved(Step::Commit(start, commit));
            self.pending.remove(&start);
        }
    }

    // A read of one key is answered.
    fn read(&mut self, body: &Get, answer: &Answer) -> Result<(), Fault>
        ensures ok { OnOk result (AddsSteps (reading (request.Get body.now) answer.now) self.old self.new) }
        ensures same { OnErr result (Stays self.old self.new) }
        ensures err { IfErr result (λ e. e ≡ Fault.OutOfMemory) }
    {
        let found = match answer {
            Answer::Found(value) => Some(value.clone()?),
            Answer::Nothing => None,
            _ => return Ok(()),
        };
        self.write(Step::Read(body.key.clone()?, body.at, found))
    }

    // A read of a range is answered.
    fn scan(&mut self, body: &Scan, answer: &Answer) -> Result<(), Fault>
        ensures ok { OnOk result (AddsSteps (reading (request.Scan body.now) answer.now) self.old self.new) }
        ensures same { OnErr result (Stays self.old self.new) }
        ensures err { IfErr result (λ e. e ≡ Fault.OutOfMemory) }
    {
        let Answer::Rows(rows) = answer else {
            return Ok(());
        };
        let step = ScanRead {
            from: body.from.clone()?,
            to: body.to.clone()?,
            at: body.at,
            limit: body.limit,
            rows: rows.clone()?,
        };
        self.write(Step::Scan(step))
    }

    // A prewrite is answered.
    fn prewrite(&mut self, body: &Prewrite, answer: &Answer) -> Result<(), Fault>
        ensures ok { OnOk result (Prewrites body.now answer.now self.old self.new) }
        ensures same { OnErr result (Stays self.old self.new) }
        ensures err { IfErr result (λ e. e ≡ Fault.OutOfMemory) }
    {
        match answer {
            Answer::Prewritten(min) => {
                self.check(body)?;
                self.lock(body.start, &body.key, *min);
                Ok(())
            }
            _ => self.tell(body.start, answer),
        }
    }

    /// Goes on with a request that a region took, and its answer.
    pub fn took(&mut self, body: &Body, answer: &Answer) -> Result<(), Fault>
        ensures ok { OnOk result ((x : Taken) → x.body ≡ body.now → x.answer ≡ answer.now
            → LogGoesOn self.old (event.Took x) self.new) }
        ensures same { OnErr result (Stays self.old self.new) }
        ensures err { IfErr result (λ e. e ≡ Fault.OutOfMemory) }
    {
        match body {
            Body::Get(body) => self.read(body, answer),
            Body::Scan(body) => self.scan(body.asked(), answer),
            Body::Prewrite(body) => self.prewrite(body.asked(), answer),
            Body::Commit(body) => self.tell(body.start, answer),
            Body::BatchRollback(body) => self.tell(body.start, answer),
            Body::TxnHeartBeat(body) => self.tell(body.start, answer),
            Body::CheckTxnStatus(body) => self.tell(body.start, answer),
            Body::CheckSecondaryLocks(body) => self.tell(body.start, answer),
            Body::ResolveLock(body) => self.tell(body.start, answer),
            Body::RaiseSafe(_) | Body::LocksBelow(_) | Body::Collect(_) => Ok(()),
        }
    }

    /// Goes on with a number that a seat drew.
    pub fn drew(&mut self, ts: Ts) -> Result<(), Fault>
        ensures ok { OnOk result ((seat : ℕ) → LogGoesOn self.old (event.Drawn seat ts) self.new) }
        ensures same { OnErr result (Stays self.old self.new) }
        ensures err { IfErr result (λ e. e ≡ Fault.OutOfMemory) }
    {
        self.write(Step::Draw(ts))
    }

    /// Goes on with a transaction that began.
    pub fn began(&mut self, start: Ts) -> Result<(), Fault>
        ensures ok { OnOk result (LogGoesOn self.old (event.Began start) self.new) }
        ensures same { OnErr result (Stays self.old self.new) }
        ensures err { IfErr result (λ e. e ≡ Fault.OutOfMemory) }
    {
        self.write(Step::Begin(start))
    }

    /// Goes on with what a transaction declared.
    pub fn declared(&mut self, of: &Declaration) -> Result<(), Fault>
        ensures ok { OnOk result (LogGoesOn self.old (event.Declared of.now) self.new) }
        ensures same { OnErr result (Stays self.old self.new) }
        ensures err { IfErr result (λ e. e ≡ Fault.OutOfMemory) }
    {
        self.enter(of)
    }

    /// Goes on with what a session answered of its transaction.
    pub fn answered(&mut self, start: Ts, outcome: Outcome) -> Result<(), Fault>
        ensures ok { OnOk result (LogGoesOn self.old (event.Answered start outcome) self.new) }
        ensures same { OnErr result (Stays self.old self.new) }
        ensures err { IfErr result (λ e. e ≡ Fault.OutOfMemory) }
    {
        match outcome {
            Outcome::Committed(commit) => self.write(Step::Answer(start, Fate::Committed(commit))),
            Outcome::Aborted => self.write(Step::Answer(start, Fate::Aborted)),
            Outcome::Unknown(_) | Outcome::ReadOnly => Ok(()),
        }
    }
}
