//! The parts of a tuple.

/// A part of a tuple, as it is packed. Parts of one kind are ordered as their bytes or numbers
/// are, and of different kinds in the order in which these stand here.
#[derive(Clone, Copy, Debug, PartialEq, Eq)]
pub enum Part<'a> {
    /// Any bytes.
    Bytes(&'a [u8]),
    /// A text.
    Text(&'a str),
    /// A signed number.
    Signed(i64),
    /// An unsigned number.
    Unsigned(u64),
}

/// A part of a tuple, as a key gives it back.
#[derive(Debug, Drop, PartialEq, Eq)]
pub enum OwnedPart {
    /// Any bytes.
    Bytes(Vec<u8>),
    /// A text.
    Text(String),
    /// A signed number.
    Signed(i64),
    /// An unsigned number.
    Unsigned(u64),
}
