//! Looks at two keys that look for each other.
use crate::watched::{Call, Watch};
use std::sync::atomic::{AtomicU64, Ordering};
use std::thread::yield_now;
use tx_types::{Fault, Key};

/// The first looks at `a` and `b` for writes, each of which looks for the other.
#[derive(Drop)]
pub struct Rendezvous {
    /// How often each was looked at.
    a: AtomicU64,
    b: AtomicU64,
    /// How many looked in vain.
    alone: AtomicU64,
    /// How often one looks for the other.
    turns: u64,
}

impl Rendezvous {
    /// Each looks so often for the other.
    pub fn new(turns: u64) -> Rendezvous {
        Rendezvous {
            a: AtomicU64::new(0),
            b: AtomicU64::new(0),
            alone: AtomicU64::new(0),
            turns,
        }
    }

    /// Whether both were looked at.
    pub fn is_complete(&self) -> bool {
        self.a.load(Ordering::SeqCst) > 0 && self.b.load(Ordering::SeqCst) > 0
    }

    /// Whether none looked in vain.
    pub fn has_met(&self) -> bool {
        self.alone.load(Ordering::SeqCst) == 0
    }

    // A key is looked at for a write.
    fn visit(&self, key: &Key) {
        match key.as_bytes() {
            b"a" => self.meet(&self.a, &self.b),
            b"b" => self.meet(&self.b, &self.a),
            _ => {}
        }
    }

    // The first look at a key tells of itself, and looks for the other's.
    fn meet(&self, own: &AtomicU64, other: &AtomicU64) {
        if own.fetch_add(1, Ordering::SeqCst) > 0 {
            return;
        }
        for _ in 0..self.turns {
            if other.load(Ordering::SeqCst) > 0 {
                return;
            }
            yield_now();
        }
        self.alone.fetch_add(1, Ordering::SeqCst);
    }
}

impl Watch for Rendezvous {
    fn before(&self, call: Call<'_>) -> Result<(), Fault> {
        if let Call::View(key) = call {
            self.visit(key);
        }
        Ok(())
    }
}
