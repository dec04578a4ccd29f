//! What is asked of records, read from their bytes.
ghost use Rattle.std.specs.Prelude.{◌≡◌, Bool, IfSome};
ghost use Rattle.tx_plan.specs.declared.view.RecordHead.TheVariants as head;
ghost use Rattle.tx_cells.specs.Heads.{write_head, lock_head, record_kind};
ghost use Rattle.tx_cells.specs.Histories.{IsSeenKind};

use crate::records::{LockBytes, WriteBytes};
use tx_cells::SeenRecord;
use tx_plan::{LockHead, RecordHead, RecordKind};
use tx_types::{LockKind, Ts};

/// What is asked of a write record.
pub fn head_of(bytes: &WriteBytes) -> RecordHead
    ensures { result ≡ write_head bytes.now }
{
    if bytes.is_rollback() {
        return RecordHead::Rollback;
    }
    RecordHead::Commit {
        kind: bytes.kind(),
        start: bytes.start(),
        overlapped_rollback: bytes.is_marked(),
    }
}

/// What collection asks of a write record.
pub fn kind_of(bytes: &WriteBytes) -> RecordKind
    ensures { result ≡ record_kind bytes.now }
{
    if bytes.is_rollback() {
        return RecordKind {
            puts: false,
            is_seen: false,
            has_long_value: false,
        };
    }
    match bytes.kind() {
        LockKind::Put => RecordKind {
            puts: true,
            is_seen: true,
            has_long_value: bytes.keeps_value_apart(),
        },
        LockKind::Delete => RecordKind {
            puts: false,
            is_seen: true,
            has_long_value: false,
        },
        LockKind::Lock => RecordKind {
            puts: false,
            is_seen: false,
            has_long_value: false,
        },
    }
}

/// What is asked of a lock.
pub fn lock_head_of(bytes: &LockBytes) -> LockHead
    ensures { result ≡ lock_head bytes.now }
{
    LockHead {
        start: bytes.start(),
        min: bytes.min(),
        ttl: bytes.ttl(),
        kind: bytes.kind(),
        mode: bytes.mode(),
    }
}

/// The record at a timestamp as reads see it, where it is a put or a delete.
pub fn seen_in(commit: Ts, bytes: &WriteBytes) -> Option<SeenRecord>
    ensures commit { IfSome result (λ seen. seen.commit ≡ commit) }
    ensures kind { IfSome result (λ seen. IsSeenKind seen.kind
        × ((mark : Bool) × (write_head bytes.now ≡ head.Commit seen.kind seen.start mark))) }
{
    let RecordHead::Commit { kind, start, .. } = head_of(bytes) else {
        return None;
    };
    if kind == LockKind::Lock {
        return None;
    }
    Some(SeenRecord {
        commit,
        start,
        kind,
    })
}
