//! How an answer names a line.
use std::alloc::AllocError;
use tx_text::put_digits;

/// Appends the number of the line at a place, and the line.
pub(crate) fn put_line(out: &mut Vec<u8>, lines: &[&[u8]], place: usize) -> Result<(), AllocError> {
    out.extend_from_slice(b"line ")?;
    put_digits(out, (place as u64).saturating_add(1))?;
    out.extend_from_slice(b" ")?;
    out.extend_from_slice(lines.get(place).copied().unwrap_or_default().trim_ascii())
}
