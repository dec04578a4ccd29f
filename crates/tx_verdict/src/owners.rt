//! What a view says of who put into its key.
ghost use Rattle.std.specs.Prelude.{◌≡◌, [], Some, IfSome, IfNone, IsTrue};
ghost use Rattle.tx_views.specs.Views.{IsViewOf, Saw};
ghost use Rattle.tx_views.specs.Owners.{owner_at};
ghost use Rattle.tx_views.specs.declared.owner.Owner.{Owner};
ghost use Rattle.tx_verdict.specs.Cases.{IsCase};
ghost use Rattle.tx_verdict.specs.Reasons.{SawOf};

use crate::case::Case;
use tx_recording::Recording;
use tx_views::{Owner, RecordedView};

/// Who put a value.
pub(crate) fn owner_of(owners: &[Option<Owner>], value: u32) -> Option<Owner>
    ensures some { IfSome result (λ o. owner_at owners.now value ≡ Some o) }
    ensures none { IfNone result ((o : Owner) → owner_at owners.now value ≡ Some o → ⊥) }
{
    if value as usize >= owners.len() {
        return None;
    }
    owners[value as usize]
}

/// Whether a value was put by the transaction.
pub(crate) fn is_by(owners: &[Option<Owner>], value: u32, txn: u32) -> bool
    ensures { IsTrue result → (o : Owner) × (owner_at owners.now value ≡ Some o) × (o.txn ≡ txn) }
{
    match owner_of(owners, value) {
        Some(owner) => owner.txn == txn,
        None => false,
    }
}

/// Whether a view is of what the writer left of a key, by the last value.
pub(crate) fn sees_writer(
    case: &Case<'_>,
    view: RecordedView,
    txn: u32,
    key: u32,
    writer: u32,
) -> bool
    requires case { IsCase case.now }
    requires view { IsViewOf case.now.recording.now view }
    ensures { IsTrue result → SawOf case.now.recording.now txn key writer }
{
    if view.txn != txn {
        return false;
    }
    if view.key != key {
        return false;
    }
    let list = case.recording.list_of(view.span);
    let count = list.len();
    if count == 0 {
        return false;
    }
    is_by(case.owners, list[count - 1], writer)
}

/// Whether a view is of a key that holds nothing.
pub(crate) fn sees_nothing(recording: &Recording, view: RecordedView, txn: u32, key: u32) -> bool
    requires view { IsViewOf recording.now view }
    ensures { IsTrue result → Saw recording.now txn key [] }
{
    if view.txn != txn {
        return false;
    }
    if view.key != key {
        return false;
    }
    view.span.count == 0
}
