//! A transfer: a transaction that reads the balances of two keys and moves an amount from the first
//! to the second. Its reads are one step, which asks for no latch, and its writes another, which
//! asks for those of both keys. A lock in its way is resolved in a step of its own.
ghost use Rattle.std.specs.Prelude.{◌≡◌, ◌⊎◌, ◌≤◌, ◌<◌, ◌+◌, ℕ, List, ◌++◌, true, false, Some, IfErr, OnOk};
ghost use Rattle.tx_types.specs.declared.fault.Fault.TheVariants as fault;
ghost use Rattle.tx_transaction.specs.Sessions.{begun};
ghost use Rattle.tx_transfer.specs.Sources.{HasPair};
ghost use Rattle.tx_transfer.specs.TransferSteps.{DoesNext, IsShort, Requests, Resolves, Steps, TurnsTo, resolved_by, starting};
ghost use Rattle.tx_transfer.specs.declared.progress.TheConstants.{TRIES};
ghost use Rattle.tx_transfer.specs.declared.progress.TransferProgress.TheVariants as progress;
ghost use Rattle.tx_transfer.specs.Transfers.{Moves};
ghost use Rattle.tx_transfer.specs.declared.balance.TheConstants.{BALANCES};

mod reads;
mod writes;

use crate::context::Context;
use crate::lock_slots::slots_of;
use crate::order::Order;
use crate::progress::{TRIES, TransferPhase, TransferProgress};
use crate::source::Source;
use std::alloc::Global;
use std::marker::Model;
use std::sync::Wait;
use tx_cells::Families;
use tx_client::{Session, Status};
use tx_journal::JournalId;
use tx_latch::{Slot, slot_of};
use tx_types::{Fault, Key, LockInfo};

/// How many requests a step makes at most.
const REQUESTS: u32 = 16;

// Which latches a request asks for: none, those of the two keys, or those of the lock that
// stands in the way.
#[derive(Clone, Copy, Debug, PartialEq, Eq)]
enum TransferLatches {
    Nothing,
    Keys,
    Met,
}

/// A transfer on its way: a session that writes its two keys. Contracts see the number of its line,
/// what that moves, its session, and how far it is.
#[derive(Drop)]
pub struct TransferState<J: JournalId, L: Source> {
    session: Session<J>,
    order: Order<L>,
    phase: TransferPhase,
    /// The balance of the first key, once it is read.
    found: u64,
    /// How often a lock was resolved.
    resolved: u32,
    /// How often the commit came too late.
    late: u32,
    /// The slots of the lock that is to be resolved next.
    resolving: Option<Vec<Slot>>,
    ghost small: { found < BALANCES },
}

// What resolving a lock makes of it.
fn resolved(came: &Result<Option<Status>, Fault>) -> TransferProgress
    ensures { result ≡ resolved_by came.now }
{
    match came {
        Ok(_) => TransferProgress::More,
        Err(_) => TransferProgress::OutOfMemory,
    }
}

impl<J: JournalId, L: Source> Model for TransferState<J, L> {
    ghost use Rattle.tx_transfer.specs.TransferSteps.{Moving};
    ghost use Rattle.tx_transfer.specs.Transfers.{Moves};

    ghost Value = { Moving };

    ghost view = { λ m. record {
      number = m.order.number;
      what = record { from = m.order.from; to = m.order.to; amount = m.order.amount; mode = m.order.mode };
      session = m.session;
      next = m.phase;
      found = m.found;
      resolved = m.resolved;
      late = m.late;
    } };

    ghost invariant = { λ m. Moves m.order.from m.order.to m.session.state };
}

impl<J: JournalId, L: Source> TransferState<J, L> {
    /// A transfer of which nothing is read yet, in a session that has just begun.
    pub fn new(session: Session<J>, order: Order<L>) -> TransferState<J, L>
        requires { session.state ≡ begun session.state.start }
        ensures { result ≡ starting order.number (record {
          from = order.from;
          to = order.to;
          amount = order.amount;
          mode = order.mode;
        }) session }
    {
        TransferState {
            session,
            order,
            phase: TransferPhase::ReadFrom,
            found: 0,
            resolved: 0,
            late: 0,
            resolving: None,
        }
    }

    /// Its session, the number of its line, and the keys that it moves between.
    pub fn into_parts(self) -> (Session<J>, u64, (Key, Key))
        ensures session { result.0 ≡ self.session }
        ensures number { result.1 ≡ self.number }
        ensures keys { result.2 ≡ (self.what.from, self.what.to) }
        ensures moves { Moves result.2.0 result.2.1 result.0.state }
        ensures pair { HasPair L.text result.1 (Some result.2) }
    {
        let TransferState {
            session,
            order,
            phase: _,
            found: _,
            resolved: _,
            late: _,
            resolving: _,
        } = self;
        let (number, keys) = order.into_pair();
        (session, number, keys)
    }

    /// Appends the latch slots of its next step's keys to `slots`.
    pub fn slots(&self, slots: &mut Vec<Slot>) -> Result<(), Fault>
        ensures ok { OnOk result ((more : List ℕ) × (slots.new.items ≡ slots.old.items ++ more)) }
        ensures err { IfErr result (λ e. e ≡ fault.OutOfMemory) }
    {
        if let Some(met) = &self.resolving {
            slots.extend_from_slice(met.as_slice())?;
            return Ok(());
        }
        if self.latches() == TransferLatches::Keys {
            slots.push(slot_of(&self.order.from))?;
            slots.push(slot_of(&self.order.to))?;
        }
        Ok(())
    }

    // Which latches its next request asks for.
    fn latches(&self) -> TransferLatches {
        if self.resolving.is_some() {
            return TransferLatches::Met;
        }
        match self.phase {
            TransferPhase::ReadFrom | TransferPhase::ReadTo => TransferLatches::Nothing,
            TransferPhase::Prewrite | TransferPhase::Commit | TransferPhase::Abort =>
                TransferLatches::Keys,
        }
    }

    // What it does next.
    fn next(&self) -> TransferPhase
        ensures { result ≡ self.now.next }
    {
        self.phase
    }

    // Does this next, and goes on.
    fn turn_to(&mut self, phase: TransferPhase) -> TransferProgress
        ensures { TurnsTo phase self.old result self.new }
    {
        self.phase = phase;
        TransferProgress::More
    }

    // Whether it met as many locks as it resolves.
    fn met_enough(&self) -> bool
        ensures yes { result ≡ true → TRIES ≤ self.now.resolved }
        ensures no { result ≡ false → self.now.resolved < TRIES }
    {
        self.resolved >= TRIES
    }

    // A lock stands in the way: it is to be resolved next.
    fn meet(&mut self, alloc: Global, info: &LockInfo) -> TransferProgress
        requires { self.old.resolved < TRIES }
        ensures { ((result ≡ progress.More) × (self.new ≡ record self.old { resolved = self.old.resolved + 1 }))
            ⊎ IsShort self.old result self.new }
    {
        match slots_of(alloc, info) {
            Ok(slots) => {
                self.resolved += 1;
                self.resolving = Some(slots);
                TransferProgress::More
            }
            Err(_) => TransferProgress::OutOfMemory,
        }
    }

    // Whether the lock that was met is to be resolved next: it is then about to be.
    fn takes_lock(&mut self) -> bool
        ensures { self.new ≡ self.old }
    {
        let resolves = self.resolving.is_some();
        self.resolving = None;
        resolves
    }

    // Resolves the lock that its session met.
    fn resolve<F: Families + Drop, R: Wait + Drop>(
        &mut self,
        context: &mut Context<J, F, R>,
    ) -> TransferProgress
        ensures { Resolves J.bounds self.old result self.new }
    {
        let came = context.resolve(&mut self.session, None);
        resolved(&came)
    }

    // Does what it does next.
    fn go_on<F: Families + Drop, R: Wait + Drop>(
        &mut self,
        context: &mut Context<J, F, R>,
    ) -> TransferProgress
        ensures { DoesNext J.bounds self.old.next self.old result self.new }
    {
        match self.next() {
            TransferPhase::ReadFrom => self.read(context),
            TransferPhase::ReadTo => self.read(context),
            TransferPhase::Prewrite => self.prewrite(context),
            TransferPhase::Commit => self.commit(context),
            TransferPhase::Abort => self.abort(context),
        }
    }

    // Makes the next request.
    fn request<F: Families + Drop, R: Wait + Drop>(
        &mut self,
        context: &mut Context<J, F, R>,
    ) -> TransferProgress
        ensures { Requests J.bounds self.old result self.new }
    {
        if self.takes_lock() {
            self.resolve(context)
        } else {
            self.go_on(context)
        }
    }

    /// Makes the next step: the requests that ask for the same latches.
    pub fn step<F: Families + Drop, R: Wait + Drop>(
        &mut self,
        context: &mut Context<J, F, R>,
    ) -> TransferProgress
        ensures { Steps J.bounds self.old result self.new }
    {
        let latches = self.latches();
        'requests: for _ in 0..REQUESTS {
            match self.request(context) {
                TransferProgress::More => if self.latches() != latches {
                    return TransferProgress::More;
                },
                other => return other,
            }
        }
        TransferProgress::More
    }
}
