//! What regions took, each request with its answer.
ghost use Rattle.std.specs.Prelude.{◌≡◌, [], OnOk, IfOk, IfErr, reverse};
ghost use Rattle.tx_core.specs.declared.event.Event.TheVariants as event;
ghost use Rattle.tx_core.specs.declared.event.Taken.{Taken};
ghost use Rattle.tx_trace.specs.Takings.{AreTakings, TakingsGoOn, MayGoOn};

use std::alloc::Global;
use tx_core::{Answer, Body, Infos};
use tx_types::Fault;

/// A request that a region took, and what it answered.
#[derive(Drop)]
pub struct Taking {
    pub body: Body,
    pub answer: Answer,
}

/// What regions took so far, oldest first.
#[derive(Drop)]
pub(crate) struct TakenLog {
    takings: Vec<Taking>,
}

// A copy of what is told of locks. `OutOfMemory` is its only fault.
fn infos_of(alloc: Global, infos: &Infos) -> Result<Infos, Fault>
    ensures ok { IfOk result (λ copy. copy ≡ infos.now) }
    ensures err { IfErr result (λ e. e ≡ Fault.OutOfMemory) }
{
    let mut copy = Infos::new(alloc);
    'infos: for info in infos.as_slice() {
        copy.push(info.clone()?)?;
    }
    Ok(copy)
}

// A copy of an answer. `OutOfMemory` is its only fault.
fn copy_of(alloc: Global, answer: &Answer) -> Result<Answer, Fault>
    ensures ok { IfOk result (λ copy. copy ≡ answer.now) }
    ensures err { IfErr result (λ e. e ≡ Fault.OutOfMemory) }
{
    match answer {
        Answer::Found(value) => Ok(Answer::Found(value.clone()?)),
        Answer::Nothing => Ok(Answer::Nothing),
        Answer::Rows(rows) => Ok(Answer::Rows(rows.clone()?)),
        Answer::Prewritten(min) => Ok(Answer::Prewritten(*min)),
        Answer::Committed(commit) => Ok(Answer::Committed(*commit)),
        Answer::RolledBack => Ok(Answer::RolledBack),
        Answer::Ttl(ttl) => Ok(Answer::Ttl(*ttl)),
        Answer::Missing => Ok(Answer::Missing),
        Answer::Locked(info) => Ok(Answer::Locked(info.clone()?)),
        Answer::Resolved => Ok(Answer::Resolved),
        Answer::Raised => Ok(Answer::Raised),
        Answer::Locks(infos) => Ok(Answer::Locks(infos_of(alloc, infos)?)),
        Answer::Collected { records, values } => Ok(Answer::Collected {
            records: *records,
            values: *values,
        }),
        Answer::KeyIsLocked(info) => Ok(Answer::KeyIsLocked(info.clone()?)),
        Answer::WriteConflict { start, commit } => Ok(Answer::WriteConflict {
            start: *start,
            commit: *commit,
        }),
        Answer::AlreadyRolledBack => Ok(Answer::AlreadyRolledBack),
        Answer::AlreadyCommitted { commit } => Ok(Answer::AlreadyCommitted { commit: *commit }),
        Answer::CommitTsExpired { min } => Ok(Answer::CommitTsExpired { min: *min }),
        Answer::TxnLockNotFound => Ok(Answer::TxnLockNotFound),
        Answer::BelowSafePoint { safe } => Ok(Answer::BelowSafePoint { safe: *safe }),
        Answer::FutureTimestamp { last } => Ok(Answer::FutureTimestamp { last: *last }),
        Answer::LocksRemain(info) => Ok(Answer::LocksRemain(info.clone()?)),
        Answer::TxnNotFound => Ok(Answer::TxnNotFound),
        Answer::AlreadyExists => Ok(Answer::AlreadyExists),
    }
}

impl TakenLog {
    /// Nothing was taken yet.
    pub fn new(alloc: Global) -> TakenLog
        ensures { AreTakings [] result }
    {
        TakenLog {
            takings: Vec::new(alloc),
        }
    }

    /// What was taken, oldest first.
    pub fn as_slice(&self) -> &[Taking]
        ensures { result.now ≡ self.now.takings.items }
    {
        self.takings.as_slice()
    }

    /// A region took a request.
    pub fn took(&mut self, body: &Body, answer: &Answer) -> Result<(), Fault>
        ensures ok { OnOk result ((x : Taken) → x.body ≡ body.now → x.answer ≡ answer.now
            → TakingsGoOn self.old (event.Took x) self.new) }
        ensures err { IfErr result (λ e. e ≡ Fault.OutOfMemory) }
    {
        let body = body.clone()?;
        let answer = copy_of(*self.takings.allocator(), answer)?;
        self.takings.push(Taking { body, answer })?;
        Ok(())
    }
}

/// A region took a request, where that is kept; it is kept no more where memory for it is refused.
pub(crate) fn note_took(taken: &mut Option<TakenLog>, body: &Body, answer: &Answer)
    ensures { (x : Taken) → x.body ≡ body.now → x.answer ≡ answer.now
        → MayGoOn taken.old (event.Took x) taken.new }
{
    if let Some(kept) = taken {
        if kept.took(body, answer).is_err() {
            *taken = None;
        }
    }
}
