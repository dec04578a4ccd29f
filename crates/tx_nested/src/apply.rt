//! A change on a key.
ghost use Rattle.std.specs.Prelude.{◌≡◌, ℕ, Some, OnOk, OnErr, IfErr};
ghost use Rattle.std.specs.BTreeMap as tree;
ghost use Rattle.std.specs.Ordering.{nat_cmp};
ghost use Rattle.tx_plan.specs.Changes.{Applies, SomeLock, RaisesMinimum, HasCommitAt, changed};
ghost use Rattle.tx_plan.specs.declared.key_change.KeyChange.TheVariants as change;
ghost use Rattle.tx_cells.specs.Contents.{cells_of};
ghost use Rattle.tx_cells.specs.Afterwards.{after, after_left};

use crate::key::KeyFamilies;
use crate::records::HeldWrite;
use crate::timeline::Timeline;
use tx_plan::{KeyChange, Left};
use tx_types::{Fault, Ts};

/// Leaves the rollback of the transaction that started then. `OutOfMemory` leaves the records as
/// they were.
fn leave(writes: &mut Timeline<HeldWrite>, start: Ts, left: Left) -> Result<(), Fault>
    ensures ok { OnOk result ((q : ℕ) → tree.get nat_cmp writes.new q
        ≡ after_left (tree.get nat_cmp writes.old) start left q) }
    ensures same { OnErr result (writes.new.entries ≡ writes.old.entries) }
    ensures err { IfErr result (λ e. e ≡ Fault.OutOfMemory) }
{
    match left {
        Left::Already => Ok(()),
        Left::Record => {
            writes.insert(start, HeldWrite::rollback(start))?;
            Ok(())
        }
        Left::Mark => {
            let rec = match writes.get(start) {
                Some(rec) => rec.marked()?,
                None => return Ok(()),
            };
            writes.insert(start, rec)?;
            Ok(())
        }
    }
}

impl KeyFamilies {
    ghost use Rattle.tx_nested.specs.Nested.{held};

    // Gives the lock another time to live.
    fn set_ttl(&mut self, ttl: u32)
        requires { SomeLock (cells_of (held self.old)).lock }
        ensures set { held self.new ≡ after (held self.old) (change.Ttl ttl) }
        ensures number { self.new.number ≡ self.old.number }
    {
        if let Some(lock) = &mut self.lock {
            lock.set_ttl(ttl);
        }
    }

    // Gives the lock another minimum.
    fn set_minimum(&mut self, min: Ts)
        requires { RaisesMinimum (cells_of (held self.old)).lock min }
        ensures set { held self.new ≡ after (held self.old) (change.Minimum min) }
        ensures number { self.new.number ≡ self.old.number }
    {
        if let Some(lock) = &mut self.lock {
            lock.set_min(min);
        }
    }

    // Makes a commit record of the lock. `OutOfMemory` leaves the key as it was.
    fn commit(&mut self, commit: Ts, overlapped_rollback: bool) -> Result<(), Fault>
        requires { HasCommitAt (cells_of (held self.old)) commit overlapped_rollback }
        ensures ok { OnOk result (held self.new ≡ after (held self.old) (change.Commit commit overlapped_rollback)) }
        ensures same { OnErr result (held self.new ≡ held self.old) }
        ensures number { self.new.number ≡ self.old.number }
        ensures err { IfErr result (λ e. e ≡ Fault.OutOfMemory) }
    {
        // For proofs: it is a number of 64 bits.
        let _ticks = commit.get();
        let Some(lock) = &self.lock else {
            return Ok(());
        };
        let rec = lock.commit_record(overlapped_rollback)?;
        self.writes.insert(commit, rec)?;
        self.lock = None;
        Ok(())
    }

    // Rolls a transaction back. `OutOfMemory` leaves the key as it was.
    fn roll_back(&mut self, start: Ts, removes_lock: bool, left: Left) -> Result<(), Fault>
        requires { Applies (cells_of (held self.old)) (change.RollBack start removes_lock left) }
        ensures ok { OnOk result (held self.new ≡ after (held self.old) (change.RollBack start removes_lock left)) }
        ensures same { OnErr result (held self.new ≡ held self.old) }
        ensures number { self.new.number ≡ self.old.number }
        ensures err { IfErr result (λ e. e ≡ Fault.OutOfMemory) }
    {
        // For proofs: it is a number of 64 bits.
        let _ticks = start.get();
        leave(&mut self.writes, start, left)?;
        if !removes_lock {
            return Ok(());
        }
        self.lock = None;
        self.values.remove(&start);
        Ok(())
    }

    // Makes a change. `OutOfMemory` leaves the key as it was.
    fn make(&mut self, change: KeyChange) -> Result<(), Fault>
        requires { Applies (cells_of (held self.old)) change }
        ensures ok { OnOk result (held self.new ≡ after (held self.old) change) }
        ensures cells { OnOk result (cells_of (held self.new) ≡ changed (cells_of (held self.old)) change) }
        ensures same { OnErr result (held self.new ≡ held self.old) }
        ensures number { self.new.number ≡ self.old.number }
        ensures err { IfErr result (λ e. e ≡ Fault.OutOfMemory) }
    {
        match change {
            KeyChange::Nothing => Ok(()),
            KeyChange::Lock(_) => Ok(()),
            KeyChange::Ttl(ttl) => {
                self.set_ttl(ttl);
                Ok(())
            }
            KeyChange::Minimum(min) => {
                self.set_minimum(min);
                Ok(())
            }
            KeyChange::Commit {
                commit,
                overlapped_rollback,
            } => self.commit(commit, overlapped_rollback),
            KeyChange::RollBack {
                start,
                removes_lock,
                left,
            } => self.roll_back(start, removes_lock, left),
        }
    }

    /// Makes a change, and notes the number where it is one. `OutOfMemory` leaves the key as it
    /// was.
    pub(crate) fn apply(&mut self, change: KeyChange, number: u64) -> Result<(), Fault>
        requires { Applies (cells_of (held self.old)) change }
        ensures ok { OnOk result (held self.new ≡ after (held self.old) change) }
        ensures cells { OnOk result (cells_of (held self.new) ≡ changed (cells_of (held self.old)) change) }
        ensures number { OnOk result (self.new.number ≡ number) }
        ensures same { OnErr result (held self.new ≡ held self.old) }
        ensures kept { OnErr result (self.new.number ≡ self.old.number) }
        ensures err { IfErr result (λ e. e ≡ Fault.OutOfMemory) }
    {
        self.make(change)?;
        self.number = number;
        Ok(())
    }
}
