//! When the transactions of a recording start and commit.
ghost use Rattle.std.specs.Prelude.{◌≡◌, ◌++◌, IfOk, OnOk, false, slice_index, slice_index_or};
ghost use Rattle.std.specs.List.Sorted.{IsPermutation};
ghost use Rattle.tx_answers.specs.Traces.{each_of, moments_at};

use std::alloc::{AllocError, Global};
use tx_types::Ts;
use tx_verdict::Timestamps;

/// What a transaction does at one number of the machine.
#[derive(Clone, Copy, Debug)]
pub(crate) enum Moment {
    /// This transaction starts here.
    Start(u32, Ts),
    /// This transaction, which started at the first number, commits at the second.
    Commit(u32, Ts, Ts),
}

impl Moment {
    // The number of the moment.
    fn at(self) -> Ts {
        match self {
            Moment::Start(_, at) => at,
            Moment::Commit(_, _, at) => at,
        }
    }
}

// The timestamp of a transaction.
fn number(numbers: &[usize], txn: usize) -> Ts
    ensures { result ≡ slice_index numbers.now txn }
{
    match numbers.get(txn) {
        Some(number) => Ts::new(*number as u64),
        None => Ts::ZERO,
    }
}

// Whether a transaction committed.
fn is_committed(committed: &[bool], txn: usize) -> bool
    ensures { result ≡ slice_index_or committed.now txn false }
{
    match committed.get(txn) {
        Some(committed) => *committed,
        None => false,
    }
}

// Adds the moments of a transaction, where it committed.
fn put_moments(
    moments: &mut Vec<Moment>,
    timestamps: &Timestamps,
    txn: u32,
) -> Result<(), AllocError>
    ensures { OnOk result (moments.new.items ≡ moments.old.items ++ moments_at timestamps.now txn) }
{
    let place = txn as usize;
    if !is_committed(timestamps.committed.as_slice(), place) {
        return Ok(());
    }
    let start = number(timestamps.starts.as_slice(), place);
    let commit = number(timestamps.commits.as_slice(), place);
    moments.push(Moment::Start(txn, start))?;
    moments.push(Moment::Commit(txn, start, commit))?;
    Ok(())
}

// The moments of so many transactions, one transaction after the other.
fn moments_in_turn(
    alloc: Global,
    timestamps: &Timestamps,
    count: u32,
) -> Result<Vec<Moment>, AllocError>
    ensures { IfOk result (λ moments. moments.items ≡ each_of (moments_at timestamps.now) count) }
{
    let mut moments = Vec::new(alloc);
    for txn in 0..count {
        put_moments(&mut moments, timestamps, txn)?;
    }
    Ok(moments)
}

/// The moments of so many transactions, in the order of their numbers.
pub(crate) fn moments_of(
    alloc: Global,
    timestamps: &Timestamps,
    count: u32,
) -> Result<Vec<Moment>, AllocError>
    ensures { IfOk result (λ moments. IsPermutation (each_of (moments_at timestamps.now) count) moments.items) }
{
    let mut moments = moments_in_turn(alloc, timestamps, count)?;
    moments.sort_by_key(|moment| moment.at())?;
    Ok(moments)
}
