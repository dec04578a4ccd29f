//! How keys are shown to a person.
use std::fmt;

// The bytes between quotes; those that are no printable ASCII as escapes.
pub(crate) fn escape<W: fmt::Write>(bytes: &[u8], f: &mut fmt::Formatter<W>) -> fmt::Result {
    write!(f, "\"")?;
    for byte in bytes {
        match *byte {
            b'"' | b'\\' => write!(f, "\\{}", char::from(*byte))?,
            b' '..=b'~' => write!(f, "{}", char::from(*byte))?,
            other => write!(f, "\\x{other:02x}")?,
        }
    }
    write!(f, "\"")
}
