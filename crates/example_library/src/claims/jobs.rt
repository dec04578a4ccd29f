//! The jobs of a queue of claims: where they lie, and what workers do to them.
use std::alloc::Global;
use tx_kv::{Fault, Key, KeyRange};
use tx_tuple::Part::{Text, Unsigned};
use tx_tuple::{OwnedPart, pack, unpack};

/// How many jobs there are.
pub const JOBS: u64 = 12;

/// After how many ticks a claim is old.
pub const OLD: u64 = 40;

/// A job, and the timestamp at which it was claimed: 0 where nobody has claimed it.
#[derive(Clone, Copy, Drop)]
pub struct Place {
    pub at: u64,
    pub job: u64,
}

impl Place {
    /// The key at which it lies.
    pub fn key(self, alloc: Global) -> Result<Key, Fault> {
        pack(alloc, &[Text("job"), Unsigned(self.at), Unsigned(self.job)])
    }

    /// The place that has this key.
    pub fn of(alloc: Global, key: &Key) -> Result<Option<Place>, Fault> {
        let Some(parts) = unpack(alloc, key)? else {
            return Ok(None);
        };
        Ok(match parts.as_slice() {
            [_, OwnedPart::Unsigned(at), OwnedPart::Unsigned(job)] => {
                let (at, job) = (*at, *job);
                Some(Place { at, job })
            }
            _ => None,
        })
    }
}

/// The range of all jobs: those that nobody has claimed, and then those that were claimed longest
/// ago.
pub fn all(alloc: Global) -> Result<KeyRange, Fault> {
    KeyRange::prefix(alloc, pack(alloc, &[Text("job")])?.as_bytes())
}

/// What a worker does to the queue: it adds the jobs, claims one, or takes off one that it claimed.
#[derive(Drop)]
pub enum Order {
    Fill,
    Claim,
    Finish(Place),
}

/// How many jobs a worker has done, how many claims it took over, and how many it lost or forgot.
#[derive(Clone, Copy, Drop)]
pub struct Tally(pub u64, pub u64, pub u64);

impl Tally {
    /// The sum of two.
    pub fn and(self, other: Tally) -> Tally {
        Tally(
            self.0.saturating_add(other.0),
            self.1.saturating_add(other.1),
            self.2.saturating_add(other.2),
        )
    }
}
