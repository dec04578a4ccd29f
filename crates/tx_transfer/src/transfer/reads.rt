//! What a transfer reads, and what it then writes.
ghost use Rattle.std.specs.Prelude.{◌≡◌, ◌<◌, true, false, Some, Err, IfSome};
ghost use Rattle.tx_transaction.specs.Sessions.{is_declared};
ghost use Rattle.tx_client.specs.Walks.{get_walk};
ghost use Rattle.tx_transfer.specs.Balances.{after_transfer};
ghost use Rattle.tx_transfer.specs.TransferSteps.{AfterRead, Asks, Finds, PutsBoth, Reads, Writes, came_to, key_read, reads_first};
ghost use Rattle.tx_transfer.specs.declared.balance.TheConstants.{BALANCES};

use super::TransferState;
use crate::balance::{after_transfer, balance_of};
use crate::changes::declare;
use crate::context::Context;
use crate::order::Order;
use crate::progress::{TransferPhase, TransferProgress};
use crate::requests;
use crate::source::Source;
use std::alloc::Global;
use std::sync::Wait;
use tx_cells::Families;
use tx_client::Miss;
use tx_core::Answer;
use tx_journal::JournalId;
use tx_types::{Fault, Key};

// Whether the first key is read in this phase.
fn reads_first(phase: TransferPhase) -> bool
    ensures { result ≡ reads_first phase }
{
    match phase {
        TransferPhase::ReadFrom => true,
        TransferPhase::ReadTo
        | TransferPhase::Prewrite
        | TransferPhase::Commit
        | TransferPhase::Abort => false,
    }
}

// The key that is read: the first, or the second.
fn key_of<L: Source>(order: &Order<L>, first: bool) -> &Key
    ensures { result.now ≡ key_read first (record {
      from = order.now.from;
      to = order.now.to;
      amount = order.now.amount;
      mode = order.now.mode;
    }) }
{
    if first { &order.from } else { &order.to }
}

// What a refusal of its writes makes of it.
fn refused(fault: Fault) -> TransferProgress
    ensures { result ≡ came_to (Err fault) }
{
    match fault {
        Fault::OracleSpent => TransferProgress::Spent,
        _ => TransferProgress::OutOfMemory,
    }
}

impl<J: JournalId, L: Source> TransferState<J, L> {
    // Keeps the balance of the first key.
    fn keep_found(&mut self, balance: u64) -> TransferProgress
        requires { balance < BALANCES }
        ensures { Finds J.bounds true balance self.old result self.new }
    {
        self.found = balance;
        self.phase = TransferPhase::ReadTo;
        TransferProgress::More
    }

    // Whether it has declared what it writes.
    pub(super) fn has_declared(&self) -> bool
        ensures { result ≡ is_declared self.now.session.state }
    {
        self.session.is_declared()
    }

    // Enters what is left of both balances, and declares it.
    fn enter(&mut self, alloc: Global, left: (u64, u64)) -> Result<(), Fault>
        requires declared { is_declared self.old.session.state ≡ false }
        requires most { (left.0 < BALANCES) × (left.1 < BALANCES) }
        ensures same { self.new ≡ record self.old { session = self.new.session } }
        ensures puts { PutsBoth J.bounds self.old.what left self.old.session result self.new.session }
    {
        declare(&mut self.session, alloc, &self.order, left)
    }

    // What is left of both balances is written, once.
    fn write(&mut self, alloc: Global, left: (u64, u64)) -> TransferProgress
        requires { (left.0 < BALANCES) × (left.1 < BALANCES) }
        ensures { Writes J.bounds (Some left) self.old result self.new }
    {
        if self.has_declared() {
            return TransferProgress::Over;
        }
        match self.enter(alloc, left) {
            Ok(()) => self.turn_to(TransferPhase::Prewrite),
            Err(fault) => refused(fault),
        }
    }

    // What is left of both balances.
    fn left(&self, balance: u64) -> Option<(u64, u64)>
        requires { balance < BALANCES }
        ensures value { result ≡ after_transfer self.now.found balance self.now.what.amount }
        ensures most { IfSome result (λ left. (left.0 < BALANCES) × (left.1 < BALANCES)) }
    {
        after_transfer(self.found, balance, self.order.amount)
    }

    // The balance of a key was read.
    fn on_balance(&mut self, alloc: Global, balance: u64) -> TransferProgress
        requires { balance < BALANCES }
        ensures { Finds J.bounds (reads_first self.old.next) balance self.old result self.new }
    {
        if reads_first(self.next()) {
            return self.keep_found(balance);
        }
        match self.left(balance) {
            Some(left) => self.write(alloc, left),
            None => TransferProgress::Over,
        }
    }

    // What comes of a read that is answered.
    fn on_read(&mut self, alloc: Global, answer: Answer) -> TransferProgress
        ensures { AfterRead J.bounds answer self.old result self.new }
    {
        match answer {
            Answer::Found(value) => self.on_balance(alloc, balance_of(value.as_bytes())),
            Answer::Nothing => self.on_balance(alloc, 0),
            Answer::KeyIsLocked(info) => {
                if self.met_enough() {
                    TransferProgress::Over
                } else {
                    self.meet(alloc, &info)
                }
            }
            _ => TransferProgress::Over,
        }
    }

    // Reads the key that is read next.
    fn look<F: Families + Drop, R: Wait + Drop>(
        &mut self,
        context: &mut Context<J, F, R>,
    ) -> Result<Answer, Miss>
        ensures { Asks J.bounds self.old (λ s. get_walk s (key_read (reads_first self.old.next) self.old.what)) result
            self.new }
    {
        context.show();
        let key = key_of(&self.order, reads_first(self.phase));
        requests::get(&mut self.session, key, context)
    }

    // Reads the balance that is read next.
    pub(super) fn read<F: Families + Drop, R: Wait + Drop>(
        &mut self,
        context: &mut Context<J, F, R>,
    ) -> TransferProgress
        ensures { Reads J.bounds self.old result self.new }
    {
        match self.look(context) {
            Ok(answer) => self.on_read(context.alloc, answer),
            Err(_) => TransferProgress::OutOfMemory,
        }
    }
}
