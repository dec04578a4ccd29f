//! Latches: what keeps two workers off one key.
ghost use Rattle.std.specs.Prelude.{◌≡◌, ◌++◌, ◌∷◌, [], ◌↔◌, true, false, IsTrue, IsOk, IfOk, IfErr, OnErr};
ghost use Rattle.tx_latch.specs.Asked.{is_asked, is_granted, newly_granted, without};

use crate::asked_commands::AskedCommands;
use crate::cid::Cid;
use crate::slot::Slot;
use std::alloc::Global;
use std::marker::Model;
use tx_types::Fault;

/// The commands that were asked, in asking order, each with its slots. A command is granted where
/// no earlier one shares a slot with it. Contracts see the list of the commands.
#[derive(Debug, Drop)]
pub struct Latches {
    asked: AskedCommands,
}

impl Model for Latches {
    ghost use Rattle.std.specs.Prelude.{List};
    ghost use Rattle.tx_latch.specs.Asked.{Command};
    ghost use Rattle.tx_latch.specs.Lone.{KeptAll, all_asked};

    ghost Value = { List Command };

    ghost view = { λ l. all_asked l.asked };

    ghost invariant = { λ l. KeptAll l.asked };
}

impl Latches {
    /// No command is asked.
    pub fn new(alloc: Global) -> Latches
        ensures { result ≡ [] }
    {
        Latches {
            asked: AskedCommands::new(alloc),
        }
    }

    /// Whether a command of this number stands in the list.
    pub fn is_asked(&self, cid: Cid) -> bool
        ensures { IsTrue result ↔ (is_asked self.now cid ≡ true) }
    {
        self.asked.is_asked(cid)
    }

    /// Whether a command of this number is granted.
    pub fn is_granted(&self, cid: Cid) -> bool
        ensures { IsTrue result ↔ (is_granted self.now cid ≡ true) }
    {
        self.asked.is_granted(cid)
    }

    /// Asks for a command, whose number must not stand in the list, at its end; `is_asked` tells.
    /// Repeated slots count once. True where it is granted at once, as a command with no slots is.
    /// `OutOfMemory` leaves the list as it was.
    pub fn acquire(&mut self, cid: Cid, slots: &[Slot]) -> Result<bool, Fault>
        requires { is_asked self.old cid ≡ false }
        ensures joined { IfOk result (λ now. self.new ≡ self.old ++ record { cid = cid; slots = slots.now } ∷ []) }
        ensures granted { IfOk result (λ now. IsTrue now ↔ (is_granted self.new cid ≡ true)) }
        ensures same { OnErr result (self.new ≡ self.old) }
        ensures err { IfErr result (λ e. e ≡ Fault.OutOfMemory) }
    {
        self.asked.add(cid, slots)
    }

    /// Takes a granted command out of the list; `is_granted` tells. Gives the numbers of those that
    /// become granted by it, in asking order. It takes no memory, and is never refused.
    pub fn release(&mut self, cid: Cid) -> Result<Vec<Cid>, Fault>
        requires { is_granted self.old cid ≡ true }
        ensures left { self.new ≡ without cid self.old }
        ensures freed { IfOk result (λ freed. freed.items ≡ newly_granted self.old self.new) }
        ensures succeeds { IsOk result }
    {
        Ok(self.asked.remove(cid))
    }
}
