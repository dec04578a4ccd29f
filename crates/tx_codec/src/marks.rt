//! The bytes by which records tell their cases apart.

/// The kind of a put.
pub(crate) const PUT: u8 = 0x50;

/// The kind of a delete.
pub(crate) const DELETE: u8 = 0x44;

/// The kind of a lock that changes nothing.
pub(crate) const LOCK: u8 = 0x4c;

/// The write record of a rollback.
pub(crate) const ROLLBACK: u8 = 0x52;

/// A lock whose transaction commits in two phases.
pub(crate) const TWO_PHASE: u8 = 0;

/// A lock whose transaction commits asynchronously.
pub(crate) const ASYNC: u8 = 1;

/// The value of a put stands elsewhere.
pub(crate) const ELSEWHERE: u8 = 0;

/// The value of a put follows, behind its length.
pub(crate) const INLINE: u8 = 1;
