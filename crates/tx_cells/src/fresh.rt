//! Families of regions in which nothing happened.
ghost use Rattle.std.specs.Prelude.{◌≡◌, All, IfOk, IfErr, vec_len};
ghost use Rattle.tx_cells.specs.Contents.{nothing_held};

use crate::families::Families;
use std::alloc::Global;
use tx_types::Fault;

/// Families that one can begin with.
pub trait Fresh: Families + Drop {
    /// Families that hold nothing. It takes no memory.
    fn fresh(alloc: Global) -> Self
        ensures { Self.content result ≡ (λ k. nothing_held) };
}

/// Makes the families of a region.
pub trait Makes<F: Families> {
    /// Families that hold nothing. `OutOfMemory` is its only refusal.
    fn make(&self, alloc: Global) -> Result<F, Fault>
        ensures empty { IfOk result (λ f. F.content f ≡ (λ k. nothing_held)) }
        ensures err { IfErr result (λ e. e ≡ Fault.OutOfMemory) };
}

/// Makes families of their own for each region.
#[derive(Clone, Copy, Debug)]
pub struct Plain;

impl<F: Fresh> Makes<F> for Plain {
    fn make(&self, alloc: Global) -> Result<F, Fault> {
        Ok(F::fresh(alloc))
    }
}

/// Families for so many regions. `OutOfMemory` is its only refusal.
pub fn make_families<F: Families + Drop, M: Makes<F>>(
    alloc: Global,
    make: &M,
    count: usize,
) -> Result<Vec<F>, Fault>
    ensures count { IfOk result (λ fs. vec_len fs ≡ count) }
    ensures empty { IfOk result (λ fs. All (λ f. F.content f ≡ (λ k. nothing_held)) fs.items) }
    ensures err { IfErr result (λ e. e ≡ Fault.OutOfMemory) }
{
    let mut families = Vec::with_capacity(alloc, count)?;
    for _i in 0..count {
        families.push(make.make(alloc)?)?;
    }
    Ok(families)
}
