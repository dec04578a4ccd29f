//! What stood in the way of the requests of a run.
ghost use Rattle.std.specs.Prelude.{◌≡◌};
ghost use Rattle.tx_transfer.specs.RequestCounts.{sum_of, both_of, with_answer};

use std::fmt;
use std::fmt::{Display, Formatter};
use tx_core::Answer;

/// How many requests were refused, by their answers, and how many locks were asked after.
#[derive(Clone, Copy, Debug, PartialEq, Eq)]
pub struct Refusals {
    pub key_is_locked: u64,
    pub write_conflict: u64,
    pub already_rolled_back: u64,
    pub txn_lock_not_found: u64,
    pub commit_ts_expired: u64,
    pub already_exists: u64,
    pub below_safe_point: u64,
    /// How often the resolver was asked what became of a lock.
    pub resolves: u64,
}

// Counts one more, as far as 64 bits count it.
fn count_one(count: &mut u64)
    ensures { count.new ≡ sum_of count.old 1 }
{
    *count = count.saturating_add(1);
}

impl Refusals {
    /// Nothing was refused, and no lock asked after.
    pub const NONE: Refusals = Refusals {
        key_is_locked: 0,
        write_conflict: 0,
        already_rolled_back: 0,
        txn_lock_not_found: 0,
        commit_ts_expired: 0,
        already_exists: 0,
        below_safe_point: 0,
        resolves: 0,
    };

    /// Counts a request that was answered so.
    pub(crate) fn add(&mut self, answer: &Answer)
        ensures { self.new ≡ with_answer self.old answer.now }
    {
        match answer {
            Answer::KeyIsLocked(_) => count_one(&mut self.key_is_locked),
            Answer::WriteConflict { .. } => count_one(&mut self.write_conflict),
            Answer::AlreadyRolledBack => count_one(&mut self.already_rolled_back),
            Answer::TxnLockNotFound => count_one(&mut self.txn_lock_not_found),
            Answer::CommitTsExpired { .. } => count_one(&mut self.commit_ts_expired),
            Answer::AlreadyExists => count_one(&mut self.already_exists),
            Answer::BelowSafePoint { .. } => count_one(&mut self.below_safe_point),
            _ => {}
        }
    }

    /// Counts a lock that is asked after.
    pub(crate) fn add_resolve(&mut self)
        ensures { self.new ≡ record self.old { resolves = sum_of self.old.resolves 1 } }
    {
        count_one(&mut self.resolves);
    }

    /// These and others.
    pub fn and(self, others: Refusals) -> Refusals
        ensures { result ≡ both_of self others }
    {
        Refusals {
            key_is_locked: self.key_is_locked.saturating_add(others.key_is_locked),
            write_conflict: self.write_conflict.saturating_add(others.write_conflict),
            already_rolled_back: self
                .already_rolled_back
                .saturating_add(others.already_rolled_back),
            txn_lock_not_found: self
                .txn_lock_not_found
                .saturating_add(others.txn_lock_not_found),
            commit_ts_expired: self
                .commit_ts_expired
                .saturating_add(others.commit_ts_expired),
            already_exists: self.already_exists.saturating_add(others.already_exists),
            below_safe_point: self
                .below_safe_point
                .saturating_add(others.below_safe_point),
            resolves: self.resolves.saturating_add(others.resolves),
        }
    }
}

impl Display for Refusals {
    fn fmt<W: fmt::Write>(&self, f: &mut Formatter<W>) -> fmt::Result {
        write!(
            f,
            "{} KeyIsLocked, {} WriteConflict, {} AlreadyRolledBack, {} TxnLockNotFound, ",
            self.key_is_locked,
            self.write_conflict,
            self.already_rolled_back,
            self.txn_lock_not_found
        )?;
        write!(
            f,
            "{} CommitTsExpired, {} AlreadyExists, {} BelowSafePoint",
            self.commit_ts_expired, self.already_exists, self.below_safe_point
        )
    }
}
