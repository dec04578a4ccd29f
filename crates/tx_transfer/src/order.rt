//! What a line orders a transfer to move.
ghost use Rattle.std.specs.Prelude.{◌≡◌, ◌≢◌, ◌⊎◌, ◌&&◌, false, Some, IfOk, IfErr};
ghost use Rattle.std.proofs.Props.{props};
ghost use Rattle.tx_types.specs.declared.fault.Fault.TheVariants as fault;
ghost use Rattle.tx_types.specs.Lengths.{is_key};
ghost use Rattle.tx_steps.specs.Steps.{moved};
ghost use Rattle.tx_transfer.specs.Sources.{HasPair, HasTransfer};

use crate::source::Source;
use std::alloc::Global;
use std::marker::PhantomData;
use tx_steps::Transfer;
use tx_types::{Fault, Key, Mode};

/// What the line of a number orders a transfer to move between two keys, and how its
/// transaction commits.
#[derive(Drop)]
pub struct Order<L: Source> {
    pub number: u64,
    pub from: Key,
    pub to: Key,
    pub amount: u64,
    pub mode: Mode,
    of: PhantomData<L>,
    ghost apart: { from ≢ to },
    ghost said: { HasTransfer L.text number (Some (record {
      from = from;
      to = to;
      amount = amount;
      mode = mode;
    })) } by { Prim.hlevel props },
}

impl<L: Source> Order<L> {
    /// What the line of this number orders.
    pub fn new(alloc: Global, number: u64, line: &Transfer<&str>) -> Result<Order<L>, Fault>
        requires apart { line.now.from.now ≢ line.now.to.now }
        requires said { HasTransfer L.text number (Some (moved line.now)) }
        ensures number { IfOk result (λ order. order.number ≡ number) }
        ensures keys { IfOk result (λ order. (order.from ≡ line.now.from.now) × (order.to ≡ line.now.to.now)) }
        ensures moves { IfOk result (λ order. (order.amount ≡ line.now.amount) × (order.mode ≡ line.now.mode)) }
        ensures err { IfErr result (λ e. (e ≡ fault.OutOfMemory)
            ⊎ ((e ≡ fault.KeyLength) × (is_key line.now.from.now && is_key line.now.to.now ≡ false))) }
    {
        let from = Key::new(alloc, line.from.as_bytes())?;
        let to = Key::new(alloc, line.to.as_bytes())?;
        Ok(Order {
            number,
            from,
            to,
            amount: line.amount,
            mode: line.mode,
            of: PhantomData,
        })
    }

    /// The number of its line, and the keys that it moves between.
    pub fn into_pair(self) -> (u64, (Key, Key))
        ensures number { result.0 ≡ self.number }
        ensures keys { (result.1.0 ≡ self.from) × (result.1.1 ≡ self.to) }
        ensures pair { HasPair L.text result.0 (Some result.1) }
    {
        let Order {
            number,
            from,
            to,
            amount: _,
            mode: _,
            of: _,
        } = self;
        (number, (from, to))
    }
}
