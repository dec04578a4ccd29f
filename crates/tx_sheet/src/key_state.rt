//! What stands on a key.
ghost use Rattle.std.specs.Prelude.{◌≡◌, map, IfOk, option_map};
ghost use Rattle.tx_sheet.specs.Seen.{kind_of, lock_of, record_of, lock_in, records_in};

use std::alloc::{AllocError, Global};
use tx_cells::{KeyVersions, RecordAt};
use tx_plan::{LockHead, RecordHead};
use tx_types::{LockKind, Mode};

/// What a lock or a record does.
#[derive(Clone, Copy, Debug, PartialEq, Eq)]
pub enum Kind {
    Put,
    Delete,
    Lock,
    Rollback,
}

/// A lock.
#[derive(Clone, Copy, Debug, PartialEq, Eq)]
pub struct SeenLock {
    pub kind: Kind,
    pub start: u64,
    pub minimum: u64,
    pub is_async: bool,
}

/// A write record.
#[derive(Clone, Copy, Debug, PartialEq, Eq)]
pub struct SeenRecord {
    pub at: u64,
    pub kind: Kind,
    pub start: u64,
    pub is_marked: bool,
}

impl Kind {
    /// Its word.
    pub fn word(self) -> &'static str {
        match self {
            Kind::Put => "put",
            Kind::Delete => "delete",
            Kind::Lock => "lock",
            Kind::Rollback => "rolled back",
        }
    }
}

fn kind_of(kind: LockKind) -> Kind
    ensures { result ≡ kind_of kind }
{
    match kind {
        LockKind::Put => Kind::Put,
        LockKind::Delete => Kind::Delete,
        LockKind::Lock => Kind::Lock,
    }
}

fn lock_of(lock: LockHead) -> SeenLock
    ensures { result ≡ lock_of lock }
{
    let is_async = match lock.mode {
        Mode::TwoPhase => false,
        Mode::Async => true,
    };
    SeenLock {
        kind: kind_of(lock.kind),
        start: lock.start.get(),
        minimum: lock.min.get(),
        is_async,
    }
}

fn record_of(record: &RecordAt) -> SeenRecord
    ensures { result ≡ record_of «record».now }
{
    let at = record.at.get();
    match record.head {
        RecordHead::Commit {
            kind,
            start,
            overlapped_rollback,
        } => SeenRecord {
            at,
            kind: kind_of(kind),
            start: start.get(),
            is_marked: overlapped_rollback,
        },
        RecordHead::Rollback => SeenRecord {
            at,
            kind: Kind::Rollback,
            start: at,
            is_marked: false,
        },
    }
}

/// The lock that stands on a key, by what was shown of it last.
pub(crate) fn lock_in(shown: Option<&KeyVersions>) -> Option<SeenLock>
    ensures { result ≡ lock_in (option_map (λ s. s.now) shown.entry) }
{
    match shown?.lock {
        Some(lock) => Some(lock_of(lock)),
        None => None,
    }
}

// Write records as they are shown.
fn records_of(alloc: Global, records: &[RecordAt]) -> Result<Vec<SeenRecord>, AllocError>
    ensures { IfOk result (λ seen. seen.items ≡ map record_of records.now) }
{
    let mut seen = Vec::new(alloc);
    'records: for at in records {
        seen.push(record_of(at))?;
    }
    Ok(seen)
}

/// The write records that stand on a key, by what was shown of it last.
pub(crate) fn records_in(
    alloc: Global,
    shown: Option<&KeyVersions>,
) -> Result<Vec<SeenRecord>, AllocError>
    ensures { IfOk result (λ records. records.items ≡ records_in (option_map (λ s. s.now) shown.entry)) }
{
    match shown {
        Some(shown) => records_of(alloc, shown.records.as_slice()),
        None => Ok(Vec::new(alloc)),
    }
}
