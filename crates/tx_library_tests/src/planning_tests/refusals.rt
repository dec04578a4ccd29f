//! One call of families is refused memory.
use std::sync::atomic::{AtomicU64, Ordering};
use tx_harness::{Call, Watch};
use tx_types::Fault;

/// Counts the calls: the Nth is refused memory, and no other.
#[derive(Drop)]
pub struct Failing {
    number: u64,
    calls: AtomicU64,
}

impl Failing {
    /// The call of this number fails, counted from 1.
    pub fn new(number: u64) -> Failing {
        Failing {
            number,
            calls: AtomicU64::new(1),
        }
    }
}

impl Watch for Failing {
    fn before(&self, _call: Call<'_>) -> Result<(), Fault> {
        if self.calls.fetch_add(1, Ordering::SeqCst) == self.number {
            return Err(Fault::OutOfMemory);
        }
        Ok(())
    }
}
