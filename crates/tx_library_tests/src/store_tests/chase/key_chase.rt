//! Looks at a key for a transaction that wait until another thread has read.
use std::sync::atomic::{AtomicU64, Ordering};
use std::thread::yield_now;
use tx_harness::{Call, Watch};
use tx_types::Fault;

/// How far two threads are, of which one reads while the other prewrites.
#[derive(Drop)]
pub struct Chase {
    /// How many reads ended.
    reads: AtomicU64,
    /// How often a transaction looked at a key.
    looks: AtomicU64,
    /// 1 once the prewrite is answered.
    done: AtomicU64,
    /// How often a look looks for reads.
    turns: u64,
}

impl Chase {
    pub fn new(turns: u64) -> Chase {
        Chase {
            reads: AtomicU64::new(0),
            looks: AtomicU64::new(0),
            done: AtomicU64::new(0),
            turns,
        }
    }

    /// How often a transaction looked at a key.
    pub fn looks(&self) -> u64 {
        self.looks.load(Ordering::SeqCst)
    }

    /// One more read ended.
    pub fn note_read(&self) {
        self.reads.fetch_add(1, Ordering::SeqCst);
    }

    /// The prewrite is answered.
    pub fn end(&self) {
        self.done.store(1, Ordering::SeqCst);
    }

    /// Whether the prewrite is answered.
    pub fn is_done(&self) -> bool {
        self.done.load(Ordering::SeqCst) == 1
    }

    // Looks, and stays until two reads ended, of which the second began since, or all turns are
    // over.
    fn look(&self) {
        self.looks.fetch_add(1, Ordering::SeqCst);
        let seen = self.reads.load(Ordering::SeqCst);
        for _ in 0..self.turns {
            if self.reads.load(Ordering::SeqCst) >= seen.saturating_add(2) {
                break;
            }
            yield_now();
        }
    }
}

impl Watch for Chase {
    fn before(&self, call: Call<'_>) -> Result<(), Fault> {
        if let Call::View(_) = call {
            self.look();
        }
        Ok(())
    }
}
