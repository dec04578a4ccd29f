//! Traces: lists of steps, checked one by one.
ghost use Rattle.std.specs.Prelude.{◌≡◌, reverse, IfOk, IfSome, IsErrOf};
ghost use Rattle.tx_machine.specs.Machine.{IsRun};

use crate::machine::{Machine, Refused};
use crate::step::Step;
use std::alloc::Global;

/// A list of steps that the machine makes from its beginning, oldest first.
#[derive(Drop)]
pub struct Checked<'a> {
    steps: &'a [Step],
    ghost run: { ∥ IsRun (reverse steps.now) ∥₁ },
}

impl<'a> Checked<'a> {
    /// The steps, which are a run.
    pub fn steps(&self) -> &'a [Step]
        ensures run { ∥ IsRun (reverse result.now) ∥₁ }
        ensures same { result.now ≡ self.now.steps.now }
    {
        self.steps
    }
}

/// The steps as a run. `Refused::Step` where they are none, `Refused::Memory` where there was no
/// room to find out.
pub fn check_steps(alloc: Global, steps: &[Step]) -> Result<Checked<'_>, Refused>
    ensures ok { IfOk result (λ checked. checked.steps.now ≡ steps.now) }
    ensures refused { IsErrOf result Refused.Step → IsRun (reverse steps.now) → ⊥ }
{
    let mut machine = Machine::new(alloc);
    for step in steps {
        if let Err(refused) = machine.step(step) {
            return Err(refused);
        }
    }
    Ok(Checked { steps })
}

/// The steps as a run, or none where they are no run or where there was no room to find out. A
/// trace of n steps over many keys costs about n log n.
pub fn check_trace(alloc: Global, steps: &[Step]) -> Option<Checked<'_>>
    ensures { IfSome result (λ checked. checked.steps.now ≡ steps.now) }
{
    check_steps(alloc, steps).ok()
}
