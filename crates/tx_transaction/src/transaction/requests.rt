//! What a transaction sends: the requests that are due, and its reads.
ghost use Rattle.std.specs.Prelude.{◌≡◌, ◌<◌, length, true, false, IfOk, IfErr, OnErr, IfSome, is_some};
ghost use Rattle.tx_core.specs.Allowed.{floor_of};
ghost use Rattle.tx_plan.specs.declared.body.Body.TheVariants as request;
ghost use Rattle.tx_transaction.specs.Buffers.{not_empty};
ghost use Rattle.tx_transaction.specs.Next.{due};
ghost use Rattle.tx_transaction.specs.Sessions.{has_primary, declaration_of, exceeds, others_at, prewrite_of, due_prewrite, due_commit, due_abort, keyed_at, heartbeat_of, read_of, scan_of, abort_open};

use super::Transaction;
use crate::buffer::{has_keys, index_of, key_of, mutation_of, other_keys};
use crate::state::{Due, KeyRequest, Phase, Terms};
use std::alloc::Global;
use tx_core::{
    BatchRollback, Body, Boxed, CheckSecondaryLocks, Commit, Get, Prewrite, Scan, TxnHeartBeat,
};
use tx_types::{Fate, Fault, Key, Mode, Secondaries, Ts};

impl Transaction {
    // The other keys that the prewrite of an index lists.
    fn others_at(&self, alloc: Global, terms: &Terms, index: usize) -> Result<Secondaries, Fault>
        requires { exceeds self.now.buffer terms.now ≡ false }
        ensures ok { IfOk result (λ keys. keys ≡ others_at terms.now.mode self.now.buffer index) }
        ensures err { IfErr result (λ e. e ≡ Fault.OutOfMemory) }
    {
        if terms.mode == Mode::Async && index == 0 {
            return other_keys(alloc, &self.buffer);
        }
        Ok(Secondaries::new(alloc))
    }

    // The floor that a prewrite carries.
    fn floor(&self, terms: &Terms) -> Ts
        ensures { result ≡ floor_of (declaration_of self.now.start self.now.placed self.now.buffer terms.now) }
    {
        match terms.mode {
            Mode::TwoPhase => Ts::ZERO,
            Mode::Async => Ts::new(self.placed.get() + 1),
        }
    }

    // The prewrite of the key at an index.
    fn prewrite_at(&self, alloc: Global, terms: &Terms, index: usize) -> Result<Prewrite, Fault>
        requires within { index < length self.now.buffer }
        requires few { exceeds self.now.buffer terms.now ≡ false }
        ensures ok { IfOk result (λ body. request.Prewrite body ≡ (prewrite_of self.now terms.now index).body) }
        ensures err { IfErr result (λ e. e ≡ Fault.OutOfMemory) }
    {
        let key = key_of(&self.buffer, index)?;
        let mutation = mutation_of(&self.buffer, index)?;
        let primary = key_of(&self.buffer, 0)?;
        let others = self.others_at(alloc, terms, index)?;
        Ok(Prewrite {
            key,
            mutation,
            start: self.start,
            primary,
            mode: terms.mode,
            max_commit: terms.max_commit,
            floor: self.floor(terms),
            ttl: terms.ttl,
            others,
        })
    }

    // The prewrite that is due: of the first key in buffer order that has no accepted lock.
    fn due_prewrite(&self, alloc: Global) -> Result<Option<Due>, Fault>
        ensures ok { IfOk result (λ due. due ≡ due_prewrite self.now) }
        ensures within { IfOk result (λ due. IfSome due (λ d. d.index < length self.now.buffer)) }
        ensures err { IfErr result (λ e. e ≡ Fault.OutOfMemory) }
        ensures some { OnErr result (is_some (due_prewrite self.now) ≡ true) }
    {
        let Some(terms) = &self.declared else {
            return Ok(None);
        };
        let Some(index) = index_of(&self.buffer, Phase::Prewrite) else {
            return Ok(None);
        };
        let body = self.prewrite_at(alloc, terms, index)?;
        let body = Body::Prewrite(Boxed::new(alloc, body)?);
        Ok(Some(Due { index, body }))
    }

    // What is asked of the key at an index, if there is one.
    fn keyed_at(&self, index: Option<usize>, asked: KeyRequest) -> Result<Option<Due>, Fault>
        requires { IfSome index (λ i. i < length self.now.buffer) }
        ensures ok { IfOk result (λ due. due ≡ keyed_at self.now asked index) }
        ensures within { IfOk result (λ due. IfSome due (λ d. d.index < length self.now.buffer)) }
        ensures err { IfErr result (λ e. e ≡ Fault.OutOfMemory) }
        ensures some { OnErr result (is_some index ≡ true) }
    {
        let Some(index) = index else {
            return Ok(None);
        };
        let key = key_of(&self.buffer, index)?;
        let start = self.start;
        let body = match asked {
            KeyRequest::Commit(commit) => Body::Commit(Commit { key, start, commit }),
            KeyRequest::Rollback => Body::BatchRollback(BatchRollback { key, start }),
            KeyRequest::Check => Body::CheckSecondaryLocks(CheckSecondaryLocks { key, start }),
        };
        Ok(Some(Due { index, body }))
    }

    // The commit that is due: of the primary at the drawn timestamp, and once the transaction is
    // committed of each key in buffer order.
    fn due_commit(&self) -> Result<Option<Due>, Fault>
        ensures ok { IfOk result (λ due. due ≡ due_commit self.now) }
        ensures within { IfOk result (λ due. IfSome due (λ d. d.index < length self.now.buffer)) }
        ensures err { IfErr result (λ e. e ≡ Fault.OutOfMemory) }
        ensures some { OnErr result (is_some (due_commit self.now) ≡ true) }
    {
        if !self.has_primary() {
            return Ok(None);
        }
        match self.decision {
            None => match self.drawn {
                Some(commit) => self.keyed_at(Some(0), KeyRequest::Commit(commit)),
                None => Ok(None),
            },
            Some(Fate::Committed(commit)) => {
                let index = index_of(&self.buffer, Phase::Commit);
                self.keyed_at(index, KeyRequest::Commit(commit))
            }
            Some(Fate::Aborted) => Ok(None),
        }
    }

    // What may decide.
    fn abort_open(&self) -> Result<Option<Due>, Fault>
        ensures ok { IfOk result (λ due. due ≡ abort_open self.now self.now.declared (not_empty self.now.buffer)) }
        ensures within { IfOk result (λ due. IfSome due (λ d. d.index < length self.now.buffer)) }
        ensures err { IfErr result (λ e. e ≡ Fault.OutOfMemory) }
        ensures some { OnErr result (is_some (abort_open self.now self.now.declared (not_empty self.now.buffer))
            ≡ true) }
    {
        let Some(terms) = self.declared else {
            return Ok(None);
        };
        if !has_keys(&self.buffer) {
            return Ok(None);
        }
        match terms.mode {
            Mode::TwoPhase => self.keyed_at(Some(0), KeyRequest::Rollback),
            Mode::Async => {
                let index = index_of(&self.buffer, Phase::Prewrite);
                self.keyed_at(index, KeyRequest::Check)
            }
        }
    }

    // The request of an abort that is due: what may decide, and once the transaction is aborted a
    // rollback of each key that was sent.
    fn due_abort(&self) -> Result<Option<Due>, Fault>
        ensures ok { IfOk result (λ due. due ≡ due_abort self.now) }
        ensures within { IfOk result (λ due. IfSome due (λ d. d.index < length self.now.buffer)) }
        ensures err { IfErr result (λ e. e ≡ Fault.OutOfMemory) }
        ensures some { OnErr result (is_some (due_abort self.now) ≡ true) }
    {
        match self.decision {
            None => self.abort_open(),
            Some(Fate::Committed(_)) => Ok(None),
            Some(Fate::Aborted) => {
                let index = index_of(&self.buffer, Phase::Abort);
                self.keyed_at(index, KeyRequest::Rollback)
            }
        }
    }

    /// The request of a phase that is due, where one is.
    pub fn next(&self, alloc: Global, phase: Phase) -> Result<Option<Due>, Fault>
        ensures ok { IfOk result (λ next. next ≡ due self.now phase) }
        ensures within { IfOk result (λ next. IfSome next (λ d. d.index < length self.now.buffer)) }
        ensures err { IfErr result (λ e. e ≡ Fault.OutOfMemory) }
        ensures some { OnErr result (is_some (due self.now phase) ≡ true) }
    {
        match phase {
            Phase::Prewrite => self.due_prewrite(alloc),
            Phase::Commit => self.due_commit(),
            Phase::Abort => self.due_abort(),
        }
    }

    /// The heartbeat of the primary.
    pub fn heartbeat(&self, ttl: u32) -> Result<Body, Fault>
        requires { has_primary self.now ≡ true }
        ensures ok { IfOk result (λ body. body ≡ heartbeat_of self.now ttl) }
        ensures err { IfErr result (λ e. e ≡ Fault.OutOfMemory) }
    {
        let key = key_of(&self.buffer, 0)?;
        let start = self.start;
        Ok(Body::TxnHeartBeat(TxnHeartBeat { key, start, ttl }))
    }

    /// The read of a key.
    pub fn read(&self, key: &Key) -> Result<Body, Fault>
        ensures ok { IfOk result (λ body. body ≡ read_of self.now key.now) }
        ensures err { IfErr result (λ e. e ≡ Fault.OutOfMemory) }
    {
        let key = key.clone()?;
        let bypass = self.bypass.clone()?;
        let at = self.start;
        Ok(Body::Get(Get { key, at, bypass }))
    }

    /// The read of a range.
    pub fn scan(&self, alloc: Global, from: Key, to: Key, limit: u32) -> Result<Body, Fault>
        ensures ok { IfOk result (λ body. body ≡ scan_of self.now from to limit) }
        ensures err { IfErr result (λ e. e ≡ Fault.OutOfMemory) }
    {
        let bypass = self.bypass.clone()?;
        let body = Scan {
            from,
            to,
            at: self.start,
            limit,
            bypass,
        };
        Ok(Body::Scan(Boxed::new(alloc, body)?))
    }
}
