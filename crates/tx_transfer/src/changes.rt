//! What a transfer writes: a balance on each of its two keys.
ghost use Rattle.std.specs.Prelude.{◌≡◌, ◌<◌, false, decimal, OnOk, OnErr};
ghost use Rattle.tx_transaction.specs.Sessions.{is_declared};
ghost use Rattle.tx_transfer.specs.TransferSteps.{PutsBoth};
ghost use Rattle.tx_transfer.specs.Steps.{Enters};
ghost use Rattle.tx_transfer.specs.Transfers.{HasEntered, Moves};
ghost use Rattle.tx_transfer.specs.declared.balance.TheConstants.{BALANCES};

use crate::balance::value_of;
use crate::order::Order;
use crate::source::Source;
use std::alloc::Global;
use tx_client::{Session, Terms};
use tx_journal::JournalId;
use tx_types::{Fault, Key};

/// How long its locks live, in ticks.
pub(crate) const TTL: u32 = 64;

// Enters a balance of a key.
fn enter<J: JournalId>(
    session: &mut Session<J>,
    alloc: Global,
    key: &Key,
    balance: u64,
) -> Result<(), Fault>
    requires declared { is_declared session.old.state ≡ false }
    requires most { balance < BALANCES }
    ensures enters { Enters key.now (decimal balance) session.old result session.new }
    ensures entered { OnOk result (HasEntered session.old.state key.now session.new.state) }
    ensures same { OnErr result (session.new ≡ session.old) }
{
    let value = value_of(alloc, balance)?;
    session.put(key.clone()?, value)
}

// Enters both changes, and declares them.
pub(crate) fn declare<J: JournalId, L: Source>(
    session: &mut Session<J>,
    alloc: Global,
    order: &Order<L>,
    left: (u64, u64),
) -> Result<(), Fault>
    requires declared { is_declared session.old.state ≡ false }
    requires most { (left.0 < BALANCES) × (left.1 < BALANCES) }
    requires moves { Moves order.now.from order.now.to session.old.state }
    ensures moves { Moves order.now.from order.now.to session.new.state }
    ensures puts { PutsBoth J.bounds (record {
      from = order.now.from;
      to = order.now.to;
      amount = order.now.amount;
      mode = order.now.mode;
    }) left session.old result session.new }
{
    let (from, to) = left;
    enter(session, alloc, &order.from, from)?;
    enter(session, alloc, &order.to, to)?;
    session.declare(Terms {
        mode: order.mode,
        ttl: TTL,
        max_commit: None,
    })
}
