//! Any plan of a copy.
ghost use Rattle.std.specs.Prelude.{◌≡◌, ◌<◌, ◌↔◌, ℕ, IsTrue};
ghost use Rattle.tx_plan.specs.Cells.{Cells, Region};
ghost use Rattle.tx_region.specs.Attempts.{IsRead};
ghost use Rattle.tx_region.specs.Copies.{IsOfKey, key_in, SeesRead, LooksLike, IsPlan};
ghost use Rattle.tx_region.specs.declared.copy.KeyView.TheVariants.{Read};

use crate::copy::{KeyView, Loaded, RegionNumbers};
use tx_plan::{
    Body, Plan, ReadView, plan_batch_rollback, plan_check_secondary_locks, plan_check_txn_status,
    plan_commit, plan_get, plan_prewrite, plan_resolve_lock, plan_txn_heart_beat,
};
use tx_types::Key;

/// Whether a request is of one key: whether its answer can be planned of a copy.
pub fn is_of_key(body: &Body) -> bool
    ensures { IsTrue result ↔ IsOfKey body.now }
{
    match body {
        Body::Get(_)
        | Body::Prewrite(_)
        | Body::Commit(_)
        | Body::BatchRollback(_)
        | Body::TxnHeartBeat(_)
        | Body::CheckTxnStatus(_)
        | Body::CheckSecondaryLocks(_)
        | Body::ResolveLock(_) => true,
        Body::Scan(_) | Body::RaiseSafe(_) | Body::LocksBelow(_) | Body::Collect(_) => false,
    }
}

/// The key of a request of one key.
pub(crate) fn key_of(body: &Body) -> &Key
    requires { IsOfKey body.now }
    ensures { result.now ≡ key_in body.now }
{
    match body {
        Body::Get(body) => &body.key,
        Body::Prewrite(body) => &body.asked().key,
        Body::Commit(body) => &body.key,
        Body::BatchRollback(body) => &body.key,
        Body::TxnHeartBeat(body) => &body.key,
        Body::CheckTxnStatus(body) => &body.key,
        Body::CheckSecondaryLocks(body) => &body.key,
        Body::ResolveLock(body) => &body.key,
        Body::Scan(_) | Body::RaiseSafe(_) | Body::LocksBelow(_) | Body::Collect(_) => {
            unreachable!()
        }
    }
}

// What a region that looks like this copy makes of a request of a transaction of one key, where its
// seat loaded this.
#[inline(always)]
fn plan_seen(view: &KeyView, numbers: &RegionNumbers, loaded: &Loaded, body: &Body) -> Plan
    requires room { (loaded.now.last < u64.MAX) × (loaded.now.mark < u64.MAX) }
    requires seen { (region : Region) × LooksLike region body.now view.now numbers.now }
    requires txn { IsRead body.now → ⊥ }
    ensures { (region : Region) → LooksLike region body.now view.now numbers.now
        → IsPlan loaded.now.mark region loaded.now.last body.now result }
{
    let collected = numbers.collected;
    match (view, body) {
        (KeyView::Prewrite { view, has_value }, Body::Prewrite(body)) => plan_prewrite(
            view,
            *has_value,
            numbers.safe,
            loaded.last,
            loaded.mark,
            body.asked(),
        ),
        (KeyView::Txn(view), Body::Commit(body)) => plan_commit(view, collected, body),
        (KeyView::Txn(view), Body::BatchRollback(body)) => {
            plan_batch_rollback(view, collected, body)
        }
        (KeyView::Txn(view), Body::TxnHeartBeat(body)) => {
            plan_txn_heart_beat(view, collected, body)
        }
        (KeyView::Txn(view), Body::CheckTxnStatus(body)) => {
            plan_check_txn_status(view, collected, loaded.last, body)
        }
        (KeyView::Txn(view), Body::CheckSecondaryLocks(body)) => {
            plan_check_secondary_locks(view, collected, body)
        }
        (KeyView::Txn(view), Body::ResolveLock(body)) => plan_resolve_lock(view, collected, body),
        _ => unreachable!(),
    }
}

// What a read sees, taken out of a copy.
fn take_read(view: &mut KeyView) -> ReadView
    requires { (cells : Cells) × ((at : ℕ) × SeesRead cells at view.old) }
    ensures { view.old ≡ Read result }
{
    let KeyView::Read(seen) = view else {
        unreachable!()
    };
    ReadView {
        lock: seen.lock,
        value: seen.value.take(),
    }
}

/// What a region that looks like this copy makes of a request of one key, where its seat loaded
/// this. The copy stays where it is; only what a read sees is taken out of it.
#[inline(always)]
pub(crate) fn plan(
    view: &mut KeyView,
    numbers: &RegionNumbers,
    loaded: &Loaded,
    body: &Body,
) -> Plan
    requires room { (loaded.now.last < u64.MAX) × (loaded.now.mark < u64.MAX) }
    requires seen { (region : Region) × LooksLike region body.now view.old numbers.now }
    ensures { (region : Region) → LooksLike region body.now view.old numbers.now
        → IsPlan loaded.now.mark region loaded.now.last body.now result }
{
    match body {
        Body::Get(body) => plan_get(take_read(view), numbers.safe, loaded.last, body),
        _ => plan_seen(view, numbers, loaded, body),
    }
}
