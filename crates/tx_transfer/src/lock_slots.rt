//! The latch slots that are asked for where a lock is to be resolved.
ghost use Rattle.std.specs.Prelude.{◌≡◌, IfOk, IfErr};
ghost use Rattle.tx_types.specs.declared.fault.Fault.TheVariants as fault;
ghost use Rattle.tx_transfer.specs.Slots.{slots_of};

use std::alloc::Global;
use tx_latch::{Slot, slot_of};
use tx_types::{Fault, LockInfo};

/// The slots of a lock, its primary and the keys that it lists.
pub fn slots_of(alloc: Global, info: &LockInfo) -> Result<Vec<Slot>, Fault>
    ensures ok { IfOk result (λ slots. slots.items ≡ slots_of info.now) }
    ensures err { IfErr result (λ e. e ≡ fault.OutOfMemory) }
{
    let mut slots = Vec::new(alloc);
    slots.push(slot_of(&info.facts().key))?;
    slots.push(slot_of(&info.facts().primary))?;
    for key in info.facts().secondaries.as_slice() {
        slots.push(slot_of(key))?;
    }
    Ok(slots)
}
