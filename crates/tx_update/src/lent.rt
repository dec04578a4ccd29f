//! A session that declares nothing yet, as it is lent to an update.
ghost use Rattle.std.specs.Prelude.{◌≡◌, ℕ, false, Option, option_map, Ok, IfOk, IfErr, IfSome};
ghost use Rattle.tx_types.specs.declared.key.Key.{Key};
ghost use Rattle.tx_types.specs.declared.mutation.Mutation.{Mutation};
ghost use Rattle.tx_plan.specs.declared.answer.Answer.TheVariants.{Rows};
ghost use Rattle.tx_types.specs.Keys.{is_scanned};
ghost use Rattle.tx_core.specs.Histories.{History, Begins};
ghost use Rattle.tx_transaction.specs.Buffers.{buffered};
ghost use Rattle.tx_transaction.specs.Sessions.{is_declared};
ghost use Rattle.tx_laws.specs.Rows.{AreRowsOf};
ghost use Rattle.tx_update.specs.Reads.{Finds, FindsRows, AnswersRead, AnswersReadOn, AnswersScan, FindsOn, SeesOn, TellsPage, TellsLock, IsGetAnswer, IsScanAnswer, IsReadMiss, LosesRead, HasSeenStart};
ghost use Rattle.tx_update.specs.Stops.{IsReadStop, NamesKey};

use crate::rows::{KeyRange, Page};
use crate::session::{Begun, Running};
use crate::stops::{Stop, stop_by};
use crate::tx::Tx;
use std::alloc::Global;
use tx_client::{Miss, Status, WaitCause};
use tx_core::Answer;
use tx_journal::{JournalId, Reply, Request, Sender};
use tx_types::limits::MAX_SCAN_ROWS;
use tx_types::{Key, KeyValue, KeyValues, Ts, Value};

/// A running session that declares nothing yet.
#[derive(Drop)]
pub(crate) struct Lent<'a, J: JournalId, S: Sender<Request<J>, Reply<J>>, B: Begun> {
    pub(crate) running: Running<'a, J, S, B>,
    ghost open: { is_declared B.session.state ≡ false },
    ghost drawn: { HasSeenStart B.session },
}

// The value that a read of a key found.
fn value_in(key: &Key, answer: Answer) -> Result<Option<Value>, Stop>
    ensures finds { IfOk result (λ found. (entered : Option Mutation) (h : History) (start : ℕ) (k : Key)
        → AnswersRead entered h start k answer → Finds entered h start k found) }
    ensures err { IfErr result (λ s. (h : History) (start : ℕ) → IsGetAnswer h start key.now answer
        → IsReadStop (λ _. ⊥) h start s) }
    ensures names { IfErr result (NamesKey key.now) }
{
    match answer {
        Answer::Found(value) => Ok(Some(value)),
        Answer::Nothing => Ok(None),
        Answer::KeyIsLocked(_) => Err(Stop::Waits(key.clone()?, WaitCause::Live)),
        refusal => Err(stop_by(refusal)),
    }
}

// The rows that a scan found.
fn rows_in(answer: Answer) -> Result<KeyValues, Stop>
    ensures rows { IfOk result (λ rows. answer ≡ Rows rows) }
    ensures err { IfErr result (λ s. (h : History) (start : ℕ) → IsScanAnswer h start answer
        → IsReadStop (λ _. ⊥) h start s) }
{
    match answer {
        Answer::Rows(rows) => Ok(rows),
        refusal => Err(stop_by(refusal)),
    }
}

impl<'a, J: JournalId, S: Sender<Request<J>, Reply<J>>, B: Begun> Lent<'a, J, S, B> {
    /// Lends what sets out here.
    pub(crate) fn new(running: Running<'a, J, S, B>) -> Lent<'a, J, S, B>
        requires open { is_declared B.session.state ≡ false }
        requires drawn { HasSeenStart B.session }
        ensures { result.running ≡ running.entry }
    {
        Lent { running }
    }

    /// What runs.
    pub(crate) fn into_running(self) -> Running<'a, J, S, B>
        ensures { result ≡ self.entry.running }
    {
        let Lent { running } = self;
        running
    }

    // What a read answered, of this key where one is named; none where a lock was in its way that
    // it may pass by now.
    fn passed(
        &mut self,
        response: Result<Answer, Miss>,
        named: Option<&Key>,
    ) -> Result<Option<Answer>, Stop>
        ensures same { self.new.running.state.buffer ≡ self.old.running.state.buffer }
        ensures more { Begins self.old.running.seat.events self.new.running.seat.events }
        ensures answers { IfOk result
            (λ found. IfSome found (λ a. (response ≡ Ok a) × (self.new.running ≡ self.old.running))) }
        ensures err { IfOk response (TellsLock self.old.running.seat.events B.session.state.start
            (option_map (λ k. k.now) named.entry))
            → IfErr response (IsReadMiss (LosesRead S.sends) B.session.state.start)
            → IfErr result (IsReadStop (LosesRead S.sends) self.new.running.seat.events B.session.state.start) }
        ensures names { IfErr result (λ s. IfSome (option_map (λ k. k.now) named.entry) (λ k. NamesKey k s)) }
    {
        match response? {
            Answer::KeyIsLocked(info) => match self.running.clear()? {
                Status::Waiting(why) => {
                    let key = named.unwrap_or(&info.facts().key);
                    Err(Stop::Waits(key.clone()?, why))
                }
                _ => Ok(None),
            },
            answer => Ok(Some(answer)),
        }
    }

    // Reads a key, once.
    fn look(&mut self, key: &Key) -> Result<Option<Answer>, Stop>
        ensures same { self.new.running.state.buffer ≡ self.old.running.state.buffer }
        ensures more { Begins self.old.running.seat.events self.new.running.seat.events }
        ensures reads { IfOk result (λ found. IfSome found
            (AnswersReadOn J.bounds (buffered self.old.running.state.buffer key.now)
            self.new.running.seat.events B.session.state.start key.now)) }
        ensures may { IfOk result (λ found. IfSome found
            (IsGetAnswer self.new.running.seat.events B.session.state.start key.now)) }
        ensures err { IfErr result (IsReadStop (LosesRead S.sends) self.new.running.seat.events B.session.state.start) }
        ensures names { IfErr result (NamesKey key.now) }
    {
        let response = self.running.get(key);
        self.passed(response, Some(key))
    }

    // Reads a range, once.
    fn look_over(&mut self, from: &Key, to: &Key, limit: u32) -> Result<Option<Answer>, Stop>
        ensures same { self.new.running.state.buffer ≡ self.old.running.state.buffer }
        ensures more { Begins self.old.running.seat.events self.new.running.seat.events }
        ensures reads { IfOk result (λ found. IfSome found
            (AnswersScan self.new.running.seat.events B.session.state.start from.now to.now limit)) }
        ensures tells { IfOk result (λ found. IfSome found
            (TellsPage J.bounds self.new.running.seat.events B.session.state.start from.now to.now limit)) }
        ensures may { IfOk result (λ found. IfSome found
            (IsScanAnswer self.new.running.seat.events B.session.state.start)) }
        ensures err { IfErr result (IsReadStop (LosesRead S.sends) self.new.running.seat.events B.session.state.start) }
    {
        let response = self.running.scan(from, to, limit);
        self.passed(response, None)
    }

    /// The value of a key at the start, or what was entered of it, in each world run from then on.
    /// Locks in its way are resolved.
    pub(crate) fn find_on(&mut self, key: &Key) -> Result<Option<Value>, Stop>
        ensures same { self.new.running.state.buffer ≡ self.old.running.state.buffer }
        ensures more { Begins self.old.running.seat.events self.new.running.seat.events }
        ensures finds { IfOk result (FindsOn J.bounds (buffered self.old.running.state.buffer key.now)
            self.new.running.seat.events B.session.state.start key.now) }
        ensures err { IfErr result (IsReadStop (LosesRead S.sends) self.new.running.seat.events B.session.state.start) }
        ensures names { IfErr result (NamesKey key.now) }
    {
        for _ in 0..MAX_SCAN_ROWS {
            if let Some(answer) = self.look(key)? {
                return value_in(key, answer);
            }
        }
        let answer = self.running.get(key)?;
        value_in(key, answer)
    }

    /// The value of a key at the start, or what was entered of it.
    pub(crate) fn find(&mut self, key: &Key) -> Result<Option<Value>, Stop>
        ensures same { self.new.running.state.buffer ≡ self.old.running.state.buffer }
        ensures more { Begins self.old.running.seat.events self.new.running.seat.events }
        ensures finds { IfOk result (λ found. Finds (buffered self.old.running.state.buffer key.now)
            self.new.running.seat.events B.session.state.start key.now found) }
        ensures err { IfErr result (IsReadStop (LosesRead S.sends) self.new.running.seat.events B.session.state.start) }
        ensures names { IfErr result (NamesKey key.now) }
    {
        let found = self.find_on(key);
        self.running.know_run();
        found
    }

    /// The first rows of a range at the start. Locks in its way are resolved.
    pub(crate) fn look_for(&mut self, from: &Key, to: &Key, limit: u32) -> Result<KeyValues, Stop>
        ensures same { self.new.running.state.buffer ≡ self.old.running.state.buffer }
        ensures more { Begins self.old.running.seat.events self.new.running.seat.events }
        ensures finds { IfOk result
            (λ rows. FindsRows self.new.running.seat.events B.session.state.start from.now to.now limit rows) }
        ensures tells { IfOk result (λ rows. AreRowsOf (is_scanned from.now to.now limit rows)
            (SeesOn J.bounds self.new.running.seat.events B.session.state.start) rows) }
        ensures err { IfErr result (IsReadStop (LosesRead S.sends) self.new.running.seat.events B.session.state.start) }
    {
        for _ in 0..MAX_SCAN_ROWS {
            if let Some(answer) = self.look_over(from, to, limit)? {
                return rows_in(answer);
            }
        }
        let answer = self.running.scan(from, to, limit)?;
        rows_in(answer)
    }
}

impl<'a, J: JournalId, S: Sender<Request<J>, Reply<J>>, B: Begun> Tx for Lent<'a, J, S, B> {
    ghost buffer = { λ t. t.running.state.buffer };

    ghost begins = { λ t. B.session.state.start };

    ghost seen = { λ t. t.running.seat.events };

    ghost loses = { LosesRead S.sends };

    fn alloc(&self) -> Global {
        self.running.alloc()
    }

    fn start(&self) -> Ts {
        self.running.start()
    }

    fn get(&mut self, key: &Key) -> Result<Option<Value>, Stop> {
        self.find(key)
    }

    fn get_many(&mut self, keys: &[Key]) -> Result<Vec<Option<Value>>, Stop> {
        self.find_all(keys)
    }

    fn scan(&mut self, from: &Key, to: &Key, limit: u32) -> Result<Vec<KeyValue>, Stop> {
        Ok(self.look_for(from, to, limit)?.into_vec())
    }

    fn range(&mut self, from: Option<Key>, to: Option<Key>) -> Result<Vec<KeyValue>, Stop> {
        let range = KeyRange::new(self.running.alloc(), from, to)?;
        let rows = self.rows_in(&range)?;
        self.with_entered(rows, &range)
    }

    fn range_prefix(&mut self, bytes: &[u8]) -> Result<Vec<KeyValue>, Stop> {
        let range = KeyRange::prefix(self.running.alloc(), bytes)?;
        let rows = self.rows_in(&range)?;
        self.with_entered(rows, &range)
    }

    fn page(&mut self, range: KeyRange, limit: u32) -> Result<Page, Stop> {
        self.page_of(range, limit)
    }

    fn put(&mut self, key: Key, value: Value) -> Result<(), Stop> {
        Ok(self.running.put(key, value)?)
    }

    fn insert(&mut self, key: Key, value: Value) -> Result<(), Stop> {
        if !self.running.can_insert(&key) {
            return Err(Stop::AlreadyExists(key));
        }
        Ok(self.running.insert(key, value)?)
    }

    fn delete(&mut self, key: Key) -> Result<(), Stop> {
        Ok(self.running.delete(key)?)
    }

    fn lock(&mut self, key: Key) -> Result<(), Stop> {
        Ok(self.running.lock(key)?)
    }
}
