//! The commands that were asked: those in the queues of the slots, and behind them a few that need
//! none, since each asks for one slot that no command before it asks for. Mostly all commands are
//! of these, and then a call looks at a few numbers that lie together, and takes no memory.
//!
//! A command that has to wait, or that asks for more slots than one, goes to the queues, and those
//! that stood there without one go before it, in their order. So the list is the same whether one
//! of them was moved or not.
ghost use Rattle.std.specs.Prelude.{◌≡◌, ◌-◌, ◌<◌, ◌≤◌, nat_eq, ◌++◌, ◌∷◌, [], true, false, length, IfOk, IfErr, OnOk, OnErr, IsTrue};
ghost use Rattle.std.specs.List.{list_any, position};
ghost use Rattle.tx_latch.specs.Asked.{blocked, is_asked, is_granted, newly_granted, without};
ghost use Rattle.tx_latch.specs.Lone.{KeptAll, all_asked, alone};

use crate::cid::Cid;
use crate::queues::Queues;
use crate::slot::Slot;
use arrayvec::ArrayVec;
use std::alloc::Global;
use tx_types::Fault;

/// How many commands may stand without a queue.
const FEW: usize = 4;

/// A command that asks for one slot.
#[derive(Clone, Copy, Debug, Default, Drop)]
pub struct Lone {
    pub cid: u64,
    pub slot: u8,
}

/// The commands that were asked, in asking order: those in the queues, and then the others.
#[derive(Debug, Drop)]
pub struct AskedCommands {
    pub queues: Queues,
    pub lone: ArrayVec<Lone, FEW>,
}

// Whether a command of this number is one of these.
fn has_command(lone: &[Lone], cid: Cid) -> bool
    ensures { result ≡ list_any (λ one. nat_eq cid one.cid) lone.now }
{
    lone.iter().any(|one| cid.get() == one.cid)
}

// Whether one of these asks for this slot.
fn has_slot(lone: &[Lone], slot: Slot) -> bool
    ensures { result ≡ list_any (λ one. nat_eq one.slot slot) lone.now }
{
    lone.iter().any(|one| one.slot == slot.get())
}

// The position of the command of this number.
fn position_of(lone: &[Lone], cid: Cid) -> Option<usize>
    ensures { result ≡ position (λ one. nat_eq one.cid cid) lone.now }
{
    lone.iter().position(|one| one.cid == cid.get())
}

impl AskedCommands {
    /// No command.
    pub fn new(alloc: Global) -> AskedCommands
        ensures kept { KeptAll result }
        ensures empty { all_asked result ≡ [] }
    {
        AskedCommands {
            queues: Queues::new(alloc),
            lone: ArrayVec::new(),
        }
    }

    /// Whether a command of this number stands in the list.
    pub fn is_asked(&self, cid: Cid) -> bool
        requires { KeptAll self.now }
        ensures { result ≡ is_asked (all_asked self.now) cid }
    {
        has_command(self.lone.as_slice(), cid) || self.queues.is_asked(cid)
    }

    /// Whether a command of this number is granted.
    pub fn is_granted(&self, cid: Cid) -> bool
        requires { KeptAll self.now }
        ensures { result ≡ is_granted (all_asked self.now) cid }
    {
        has_command(self.lone.as_slice(), cid) || self.queues.is_granted(cid)
    }

    // Whether a command that asks for this slot alone needs no queue.
    fn needs_no_queue(&self, slot: Slot) -> bool
        ensures free { IsTrue result → blocked (all_asked self.now) (alone record { cid = 0; slot = slot }) ≡ false }
        ensures room { IsTrue result → length self.now.lone.items < FEW }
    {
        if self.lone.is_full() || !self.queues.is_empty() {
            return false;
        }
        !has_slot(self.lone.as_slice(), slot)
    }

    // Moves the first of those without a queue to the end of the queues, if there is one.
    #[inline(never)]
    fn queue_one(&mut self) -> Result<(), Fault>
        requires { KeptAll self.old }
        ensures kept { KeptAll self.new }
        ensures same { all_asked self.new ≡ all_asked self.old }
        ensures fewer { OnOk result (length self.new.lone.items ≡ length self.old.lone.items - 1) }
        ensures few { length self.old.lone.items ≤ FEW }
        ensures err { IfErr result (λ e. e ≡ Fault.OutOfMemory) }
    {
        let Some(one) = self.lone.as_slice().first().copied() else {
            return Ok(());
        };
        self.queues.add(Cid::new(one.cid), &[Slot::new(one.slot)])?;
        let _ = self.lone.remove(0);
        Ok(())
    }

    // Moves all of them to the end of the queues. Where memory is refused, some may have moved.
    fn queue_all(&mut self) -> Result<(), Fault>
        requires { KeptAll self.old }
        ensures kept { KeptAll self.new }
        ensures same { all_asked self.new ≡ all_asked self.old }
        ensures none { OnOk result (self.new.lone.items ≡ []) }
        ensures err { IfErr result (λ e. e ≡ Fault.OutOfMemory) }
    {
        if self.lone.is_empty() {
            return Ok(());
        }
        self.queue_few()
    }

    // Puts the few commands beside the queues into them, one after the other.
    #[inline(never)]
    fn queue_few(&mut self) -> Result<(), Fault>
        requires { KeptAll self.old }
        ensures kept { KeptAll self.new }
        ensures same { all_asked self.new ≡ all_asked self.old }
        ensures none { OnOk result (self.new.lone.items ≡ []) }
        ensures err { IfErr result (λ e. e ≡ Fault.OutOfMemory) }
    {
        self.queue_one()?;
        self.queue_one()?;
        self.queue_one()?;
        self.queue_one()
    }

    // Adds a command at the end of the queues.
    #[inline(never)]
    fn add_queued(&mut self, cid: Cid, slots: &[Slot]) -> Result<bool, Fault>
        requires kept { KeptAll self.old }
        requires absent { is_asked (all_asked self.old) cid ≡ false }
        ensures kept { KeptAll self.new }
        ensures ok { IfOk result (λ now. all_asked self.new ≡ all_asked self.old ++ record {
          cid = cid;
          slots = slots.now;
        } ∷ []) }
        ensures granted { IfOk result (λ now. now ≡ is_granted (all_asked self.new) cid) }
        ensures same { OnErr result (all_asked self.new ≡ all_asked self.old) }
        ensures err { IfErr result (λ e. e ≡ Fault.OutOfMemory) }
    {
        self.queue_all()?;
        self.queues.add(cid, slots)
    }

    // Adds a command that asks for one slot, and needs no queue.
    fn add_lone(&mut self, cid: Cid, slot: Slot)
        requires kept { KeptAll self.old }
        requires absent { is_asked (all_asked self.old) cid ≡ false }
        requires free { blocked (all_asked self.old) (alone record { cid = 0; slot = slot }) ≡ false }
        requires room { length self.old.lone.items < FEW }
        ensures kept { KeptAll self.new }
        ensures added { all_asked self.new ≡ all_asked self.old ++ record { cid = cid; slots = slot ∷ [] } ∷ [] }
        ensures granted { is_granted (all_asked self.new) cid ≡ true }
    {
        self.lone.push(Lone {
            cid: cid.get(),
            slot: slot.get(),
        });
    }

    /// Adds a command at the end of the list, and says whether it is granted.
    pub fn add(&mut self, cid: Cid, slots: &[Slot]) -> Result<bool, Fault>
        requires kept { KeptAll self.old }
        requires absent { is_asked (all_asked self.old) cid ≡ false }
        ensures kept { KeptAll self.new }
        ensures ok { IfOk result (λ now. all_asked self.new ≡ all_asked self.old ++ record {
          cid = cid;
          slots = slots.now;
        } ∷ []) }
        ensures granted { IfOk result (λ now. now ≡ is_granted (all_asked self.new) cid) }
        ensures same { OnErr result (all_asked self.new ≡ all_asked self.old) }
        ensures err { IfErr result (λ e. e ≡ Fault.OutOfMemory) }
    {
        match slots {
            [slot] if self.needs_no_queue(*slot) => {
                self.add_lone(cid, *slot);
                Ok(true)
            }
            _ => self.add_queued(cid, slots),
        }
    }

    /// Takes a granted command out of the list. Gives those that become granted by it, in asking
    /// order: none where it needed no queue.
    pub fn remove(&mut self, cid: Cid) -> Vec<Cid>
        requires kept { KeptAll self.old }
        requires granted { is_granted (all_asked self.old) cid ≡ true }
        ensures kept { KeptAll self.new }
        ensures left { all_asked self.new ≡ without cid (all_asked self.old) }
        ensures freed { result.items ≡ newly_granted (all_asked self.old) (all_asked self.new) }
    {
        match position_of(self.lone.as_slice(), cid) {
            Some(position) => {
                let _ = self.lone.remove(position);
                Vec::new(self.queues.allocator())
            }
            None => self.queues.remove(cid),
        }
    }
}
