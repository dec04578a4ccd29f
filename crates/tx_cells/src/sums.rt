//! Sums that fit.
ghost use Rattle.std.specs.Prelude.{◌≡◌, ◌+◌, IfOk, IfErr};

use tx_types::Fault;

/// The sum. `OutOfMemory` where a number does not hold it.
pub fn sum(a: u64, b: u64) -> Result<u64, Fault>
    ensures ok { IfOk result (λ n. n ≡ a + b) }
    ensures err { IfErr result (λ e. e ≡ Fault.OutOfMemory) }
{
    match a.checked_add(b) {
        Some(n) => Ok(n),
        None => Err(Fault::OutOfMemory),
    }
}
