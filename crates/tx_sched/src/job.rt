//! What a worker can make steps of.
ghost use Rattle.std.specs.Prelude.{◌≡◌, ℕ, IfErr};
ghost use Rattle.tx_types.specs.declared.fault.Fault.TheVariants.{OutOfMemory};
ghost use Rattle.tx_sched.specs.Turns.{IfMore, IfDone};
ghost use Rattle.tx_sched.specs.Promises.{Leads};

use crate::turn::Turn;
use tx_latch::Slot;
use tx_types::Fault;

/// Steps that are made one after the other, and end in a result.
pub trait Job: Drop {
    /// Its result, which tells its number.
    type Out;

    /// Its number.
    ghost numbered: { Self → ℕ };

    /// The number that a result tells.
    ghost tells: { Self.Out → ℕ };

    /// What it promises of its result. A step may promise more than was promised before
    /// it, and never less.
    ghost promised: { Self → Self.Out → Type 0 };

    /// Its number, which no other job of a run has.
    fn number(&self) -> u32
        ensures { result ≡ numbered self.now };

    /// Appends the latch slots of the next step's keys to `slots`, which a worker passes empty.
    /// `OutOfMemory` is the only refusal.
    fn slots(&self, slots: &mut Vec<Slot>) -> Result<(), Fault>
        ensures err { IfErr result (λ e. e ≡ OutOfMemory) };

    /// Makes the next step.
    fn step(&mut self) -> Turn<Self::Out>
        ensures number { IfMore result (numbered self.new ≡ numbered self.old) }
        ensures leads { IfMore result (Leads promised self.old self.new) }
        ensures out { IfDone result (λ out. promised self.old out) }
        ensures told { IfDone result (λ out. tells out ≡ numbered self.old) };
}
