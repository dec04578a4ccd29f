//! How a transaction is rolled back on a key.
ghost use Rattle.std.specs.Prelude.{◌≡◌, ℕ};
ghost use Rattle.tx_plan.specs.Cells.{Cells};
ghost use Rattle.tx_plan.specs.Own.{leave_rollback, roll_back};
ghost use Rattle.tx_plan.specs.Changes.{changed, Applies, IsLeft, after_left};
ghost use Rattle.tx_plan.specs.RealChanges.{Makes, IsNewOr};
ghost use Rattle.tx_plan.specs.Views.{Shows};

use crate::key_change::{KeyChange, Left};
use crate::plan::own::own_lock;
use crate::view::{RecordHead, TxnView};
use tx_types::Ts;

// How the transaction's rollback is left: the mark goes on another's commit record alone.
fn left_of(view: &TxnView, start: Ts) -> Left
    ensures writes { (cells : Cells) (commit : ℕ) → Shows cells start commit view.now
        → after_left cells.write start result ≡ (leave_rollback cells start).write }
    ensures is { (cells : Cells) (commit : ℕ) → Shows cells start commit view.now → IsLeft cells.write start result }
    ensures new { (cells : Cells) (commit : ℕ) → Shows cells start commit view.now → IsNewOr cells.write start result }
{
    match view.at_start {
        None => Left::Record,
        Some(RecordHead::Rollback) => Left::Already,
        Some(RecordHead::Commit { start: other, .. }) if other == start => Left::Record,
        Some(
            RecordHead::Commit {
                overlapped_rollback,
                ..
            },
        ) if overlapped_rollback => Left::Already,
        Some(RecordHead::Commit { .. }) => Left::Mark,
    }
}

// A rollback, which is a change where it removes a lock or does not stand yet.
fn rolls(start: Ts, removes_lock: bool, left: Left) -> KeyChange
    ensures leaves { (cells : Cells) → changed cells result
        ≡ changed cells (KeyChange.RollBack start removes_lock left) }
    ensures applies { (cells : Cells) → Applies cells (KeyChange.RollBack start removes_lock left)
        → Applies cells result }
    ensures makes { (cells : Cells) → IsNewOr cells.write start left → Makes cells result }
{
    match left {
        Left::Already if !removes_lock => KeyChange::Nothing,
        _ => KeyChange::RollBack {
            start,
            removes_lock,
            left,
        },
    }
}

/// Leaves the transaction's rollback; a lock on the key stays. Where its rollback stands, nothing
/// changes.
pub fn leave_rollback(view: &TxnView, start: Ts) -> KeyChange
    ensures leaves { (cells : Cells) (commit : ℕ) → Shows cells start commit view.now
        → changed cells result ≡ leave_rollback cells start }
    ensures applies { (cells : Cells) (commit : ℕ) → Shows cells start commit view.now → Applies cells result }
    ensures makes { (cells : Cells) (commit : ℕ) → Shows cells start commit view.now → Makes cells result }
{
    rolls(start, false, left_of(view, start))
}

/// Rolls the transaction back: its lock goes where it is there, and its rollback is left. Where it
/// has no lock and its rollback stands, nothing changes.
pub fn roll_back(view: &TxnView, start: Ts) -> KeyChange
    ensures leaves { (cells : Cells) (commit : ℕ) → Shows cells start commit view.now
        → changed cells result ≡ roll_back cells start }
    ensures applies { (cells : Cells) (commit : ℕ) → Shows cells start commit view.now → Applies cells result }
    ensures makes { (cells : Cells) (commit : ℕ) → Shows cells start commit view.now → Makes cells result }
{
    rolls(start, own_lock(view, start).is_some(), left_of(view, start))
}
