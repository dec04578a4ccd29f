//! The bytes by which a key tells its parts.

/// Bytes follow, escaped, and their end.
pub(crate) const BYTES: u8 = 1;

/// The bytes of a text follow, escaped, and their end.
pub(crate) const TEXT: u8 = 2;

/// A signed number follows, raised by half of all numbers, in 8 bytes, the highest first.
pub(crate) const SIGNED: u8 = 3;

/// An unsigned number follows, in 8 bytes, the highest first.
pub(crate) const UNSIGNED: u8 = 4;

/// What stands behind a zero that is one of the bytes.
pub(crate) const ESCAPED: u8 = 255;

/// What stands behind a zero that ends the bytes.
pub(crate) const END: u8 = 1;

/// How far signed numbers are raised.
pub(crate) const HALF: u64 = 1 << 63;
