//! What stood in the way of a request, and which line had made it.
use tx_core::{Answer, Body, Target};
use tx_film::Film;
use tx_sheet::{Change, Kind, Row, SeenRecord};
use tx_trace::Taking;
use tx_types::{Key, LockInfo};

/// What a request met on a key. A transaction goes by its start.
#[derive(Clone, Copy)]
pub(crate) enum KeyObstacle {
    /// The lock of a transaction.
    Lock(u64),
    /// The least timestamp at which the lock of a transaction allows to commit.
    Minimum(u64),
    /// A write record that was committed at a timestamp.
    Commit(u64),
    /// The value that a read at a timestamp finds.
    Value(u64),
    /// The rollback of a transaction.
    Rollback(u64),
}

/// What a request met.
#[derive(Clone, Copy)]
pub(crate) enum Obstacle {
    /// This, on the key at this place.
    OnKey(usize, KeyObstacle),
    /// A safe point.
    SafePoint(u64),
}

// Where the transaction starts for which a request locks, commits or rolls back.
fn start_of(body: &Body) -> Option<u64> {
    match body {
        Body::Prewrite(prewrite) => Some(prewrite.asked().start.get()),
        Body::Commit(commit) => Some(commit.start.get()),
        Body::BatchRollback(rollback) => Some(rollback.start.get()),
        Body::TxnHeartBeat(heartbeat) => Some(heartbeat.start.get()),
        _ => None,
    }
}

// The lock that an answer tells of.
fn lock_met(keys: &[Key], info: &LockInfo) -> Option<Obstacle> {
    let facts = info.facts();
    let place = keys.binary_search(&facts.key).ok()?;
    Some(Obstacle::OnKey(place, KeyObstacle::Lock(facts.start.get())))
}

// What a request met of transactions on its own key.
fn met_on_key(taking: &Taking) -> Option<KeyObstacle> {
    match &taking.answer {
        Answer::WriteConflict { commit, .. } | Answer::AlreadyCommitted { commit } => {
            Some(KeyObstacle::Commit(commit.get()))
        }
        Answer::AlreadyRolledBack => Some(KeyObstacle::Rollback(start_of(&taking.body)?)),
        Answer::CommitTsExpired { .. } => Some(KeyObstacle::Minimum(start_of(&taking.body)?)),
        Answer::AlreadyExists => Some(KeyObstacle::Value(start_of(&taking.body)?)),
        _ => None,
    }
}

/// What a request met that a region took, where something stood in its way.
pub(crate) fn met_by(keys: &[Key], taking: &Taking) -> Option<Obstacle> {
    match &taking.answer {
        Answer::KeyIsLocked(info) | Answer::LocksRemain(info) | Answer::Locked(info) => {
            return lock_met(keys, info);
        }
        Answer::BelowSafePoint { safe } => return Some(Obstacle::SafePoint(safe.get())),
        _ => {}
    }
    let Target::Key(key) = taking.body.target() else {
        return None;
    };
    let place = keys.binary_search(key).ok()?;
    Some(Obstacle::OnKey(place, met_on_key(taking)?))
}

// Whether a change left the lock of this transaction, with this minimum or another.
fn changed_lock(change: &Change, start: u64) -> bool {
    match change.lock {
        Some(lock) => lock.start == start,
        None => false,
    }
}

// Whether a change left the lock of this transaction where none of it stood.
fn left_lock(change: &Change, start: u64) -> bool {
    let stood = match change.old_lock {
        Some(old) => old.start == start,
        None => false,
    };
    !stood && changed_lock(change, start)
}

// Whether one of these records is a commit at this timestamp.
fn has_commit(records: &[SeenRecord], at: u64) -> bool {
    records
        .iter()
        .any(|record| record.at == at && record.kind != Kind::Rollback)
}

// Whether one of these records is a rollback of this transaction, maybe with a commit of another.
fn has_rollback(records: &[SeenRecord], start: u64) -> bool {
    records.iter().any(|record| record.at == start
        && (record.kind == Kind::Rollback || record.is_marked))
}

// Whether a change left a value that was committed at this timestamp or below.
fn left_value(change: &Change, at: u64) -> bool {
    let went = change.went.as_slice();
    change.came.iter().any(|record| {
        record.kind == Kind::Put && record.at <= at && !has_commit(went, record.at)
    })
}

// Whether a change left this in the way: of a record that it changed it was there before.
fn has_left(change: &Change, obstacle: KeyObstacle) -> bool {
    let (came, went) = (change.came.as_slice(), change.went.as_slice());
    match obstacle {
        KeyObstacle::Lock(start) => left_lock(change, start),
        KeyObstacle::Minimum(start) => changed_lock(change, start),
        KeyObstacle::Commit(at) => has_commit(came, at) && !has_commit(went, at),
        KeyObstacle::Value(at) => left_value(change, at),
        KeyObstacle::Rollback(start) => has_rollback(came, start) && !has_rollback(went, start),
    }
}

// The place of the last of these rows that left this on the key at a place.
fn last_left(rows: &[Row], key: usize, obstacle: KeyObstacle) -> Option<usize> {
    'rows: for (place, row) in rows.iter().enumerate().rev() {
        let mut changes = row.changes.iter();
        if changes.any(|change| change.key == key && has_left(change, obstacle)) {
            return Some(place);
        }
    }
    None
}

// Whether a request raised a safe point to this timestamp.
fn has_raised(taking: &Taking, safe: u64) -> bool {
    match (&taking.body, &taking.answer) {
        (Body::RaiseSafe(raise), Answer::Raised) => raise.safe.get() == safe,
        _ => false,
    }
}

// The place of the first of so many lines that raised a safe point to this timestamp.
fn first_raised(film: &Film, count: usize, safe: u64) -> Option<usize> {
    'lines: for place in 0..count {
        let mut takings = film.takings(place).iter();
        if takings.any(|taking| has_raised(taking, safe)) {
            return Some(place);
        }
    }
    None
}

/// The place of the line that made this what it is, among the first of a film, whose rows these
/// are.
pub(crate) fn maker_of(rows: &[Row], film: &Film, obstacle: Obstacle) -> Option<usize> {
    match obstacle {
        Obstacle::OnKey(key, on_key) => last_left(rows, key, on_key),
        Obstacle::SafePoint(safe) => first_raised(film, rows.len(), safe),
    }
}
