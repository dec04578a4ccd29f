//! What is known of a session's transaction, what it learns of others, and how it ends.
ghost use Rattle.std.specs.Prelude.{◌≡◌, Some, None, IfOk, IfErr, OnOk, OnErr, IfSome, true, option_map};
ghost use Rattle.tx_types.specs.declared.fault.Fault.TheVariants as fault;
ghost use Rattle.tx_core.specs.declared.event.Event.TheVariants.{Answered, Stopped};
ghost use Rattle.tx_core.specs.Histories.{declared};
ghost use Rattle.tx_core.specs.Laws.{WasToldOf};
ghost use Rattle.tx_core.specs.Recording.{MayRecord};
ghost use Rattle.tx_core.specs.Worlds.{IsWorldRun};
ghost use Rattle.tx_transaction.specs.Sessions.{notes_one, with_passed, finish_of};
ghost use Rattle.tx_client.specs.Statuses.{lies_above};
ghost use Rattle.tx_client.specs.Calls.{HasHeard, Records, IsDecidedSo};
ghost use Rattle.tx_client.specs.Facts.{WasMet, standing};
ghost use Rattle.tx_client.specs.Order.{CommitsAbove};

use super::Session;
use crate::resolved::{Decision, Met, Resolved};
use std::marker::Brand;
use tx_core::Outcome;
use tx_journal::{JournalId, Seat, StepEvent};
use tx_types::{Fault, LockInfo, Ts};

// Records the event that the call picks: a session answered this outcome.
fn record_outcome<J: JournalId, E: StepEvent>(seat: &mut Seat<J>, start: Ts, outcome: &Outcome)
    requires is { E.event ≡ Answered start outcome.now }
    requires right { MayRecord J.bounds seat.old.seat seat.old.events E.event }
    ensures { Records J.bounds seat.old E.event seat.new }
{
    let _ = start;
    let _ = outcome;
    seat.record_as::<E>();
}

// Records the event that the call picks: the session of this seat stopped.
fn record_end<J: JournalId, E: StepEvent>(seat: &mut Seat<J>)
    requires is { E.event ≡ Stopped seat.old.seat }
    requires right { MayRecord J.bounds seat.old.seat seat.old.events E.event }
    ensures { Records J.bounds seat.old E.event seat.new }
{
    seat.record_as::<E>();
}

// Records what was answered.
fn record_answered<J: JournalId>(seat: &mut Seat<J>, start: Ts, outcome: &Outcome)
    requires { MayRecord J.bounds seat.old.seat seat.old.events (Answered start outcome.now) }
    ensures { Records J.bounds seat.old (Answered start outcome.now) seat.new }
{
    record_outcome::<J, Brand>(seat, start, outcome);
}

// Records that a session stopped.
fn record_stopped<J: JournalId>(seat: &mut Seat<J>)
    requires { MayRecord J.bounds seat.old.seat seat.old.events (Stopped seat.old.seat) }
    ensures { Records J.bounds seat.old (Stopped seat.old.seat) seat.new }
{
    record_end::<J, Brand>(seat);
}

impl<J: JournalId> Session<J> {
    /// What is known of its transaction's fate, with what proves it.
    pub fn decision(&mut self) -> Option<Decision<J>>
        ensures same { self.new ≡ self.old }
        ensures decision { result ≡ option_map (λ fate. record {
          start = self.old.state.start;
          fate = fate;
          events = self.old.seat.events;
        }) self.old.state.decision }
    {
        let fate = self.transaction.decision()?;
        let told = self.seat.tell();
        Some(Decision::new(self.transaction.start(), fate, told))
    }

    /// For proofs: what its seat has seen declared of its transaction is its buffer under its
    /// terms, once it has declared, and else nothing. It does nothing when it runs.
    pub fn show(&self)
        ensures run { IsWorldRun J.bounds self.now.seat.events }
        ensures stands { declared self.now.seat.events self.now.state.start
            ≡ standing self.now.state.start self.now.state.placed self.now.state.buffer self.now.state.declared }
    {
        let _ = &self.transaction;
    }

    /// The lock that last stood in its way, if one did: an answer that its seat has seen said so.
    pub fn met_lock(&self) -> Option<&LockInfo>
        ensures lock { option_map (λ info. info.now) result ≡ self.now.state.met }
        ensures met { IfSome self.now.state.met (λ info. WasMet self.now.seat.events info) }
        ensures told { IfSome self.now.state.met (λ info. WasToldOf self.now.seat.events info) }
    {
        self.transaction.met_lock()
    }

    /// A copy of that lock, with what proves that it stood there.
    pub fn met(&mut self) -> Result<Option<Met<J>>, Fault>
        ensures same { self.new ≡ self.old }
        ensures ok { IfOk result (λ met. met ≡ option_map (λ info. record {
          info = info;
          events = self.old.seat.events;
        }) self.old.state.met) }
        ensures err { IfErr result (λ e. e ≡ fault.OutOfMemory) }
    {
        let Some(info) = self.transaction.met()? else {
            return Ok(None);
        };
        let told = self.seat.tell();
        Ok(Some(Met::new(info, told)))
    }

    /// Learns what a resolver found: its reads may then pass by a transaction that is aborted, or
    /// commits above its start. Only where that is one more it takes memory. `OutOfMemory` leaves
    /// the session as it was.
    pub fn learn(&mut self, resolved: Resolved<J>) -> Result<(), Fault>
        ensures ok { OnOk result ((self.new.state ≡ with_passed self.old.state resolved.start
            (lies_above resolved.status self.old.state.start))
            × HasHeard J.bounds self.old.seat resolved.events self.new.seat) }
        ensures same { OnErr result (self.new ≡ self.old) }
        ensures err { IfErr result (λ e. (e ≡ fault.OutOfMemory)
            × (notes_one self.old.state resolved.start (lies_above resolved.status self.old.state.start) ≡ true)) }
    {
        let (start, status, told) = resolved.into_parts();
        let may = status.lies_above(self.transaction.start());
        self.transaction.pass(start, may)?;
        self.seat.learn(told);
        Ok(())
    }

    // Its seat.
    fn into_seat(self) -> Seat<J>
        ensures { result ≡ self.seat }
    {
        let Session {
            seat,
            transaction: _,
        } = self;
        seat
    }

    /// Ends the transaction with its outcome: the fate where it is known, read-only where
    /// nothing was declared, unknown where there is a cause. A commit lies above each that was
    /// decided before the number of its declaration was drawn. Where there is no outcome, the
    /// session comes back.
    #[inline(always)]
    pub fn finish(self) -> Result<(Outcome, Seat<J>), Session<J>>
        ensures ended { IfOk result (λ r. (finish_of self.state ≡ Some r.0)
            × Records J.bounds self.seat (Answered self.state.start r.0) r.1
            × IsDecidedSo self.seat.events self.state.start r.0) }
        ensures in_order { IfOk result (λ r. CommitsAbove self.seat.events self.state.placed r.0) }
        ensures open_yet { IfErr result (λ s. (finish_of self.state ≡ None) × (s ≡ self)) }
    {
        match self.transaction.outcome() {
            None => Err(self),
            Some(outcome) => {
                let start = self.transaction.start();
                let Session {
                    mut seat,
                    transaction: _,
                } = self;
                record_answered(&mut seat, start, &outcome);
                Ok((outcome, seat))
            }
        }
    }

    /// Leaves the transaction as it is.
    pub fn stop(self) -> Seat<J>
        ensures { Records J.bounds self.seat (Stopped self.seat.seat) result }
    {
        let mut seat = self.into_seat();
        record_stopped(&mut seat);
        seat
    }
}
