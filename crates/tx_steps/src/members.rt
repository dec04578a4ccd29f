//! The members of a step, read one after the other.
ghost use Rattle.std.specs.Prelude.{◌≡◌, option_map};
ghost use Rattle.tx_text.specs.Parts.{parts_items};
ghost use Rattle.tx_steps.specs.Steps.{text_in, number_in, within as within_in, none_left as none_in, one_text, one_number};

use tx_text::Part;

/// The text that comes first, and the members after it.
pub(crate) fn text<'m, 'a>(members: &'m [Part<'a>]) -> Option<(&'a str, &'m [Part<'a>])>
    ensures { option_map (λ found. (found.0.now, parts_items found.1.now)) result ≡ text_in (parts_items members.now) }
{
    let (first, rest) = members.split_first()?;
    Some((first.as_str()?, rest))
}

/// The number that comes first, and the members after it.
pub(crate) fn number<'m, 'a>(members: &'m [Part<'a>]) -> Option<(u64, &'m [Part<'a>])>
    ensures { option_map (λ found. (found.0, parts_items found.1.now)) result ≡ number_in (parts_items members.now) }
{
    let (first, rest) = members.split_first()?;
    Some((first.as_u64()?, rest))
}

/// The number that comes first, where it lies from `low` to `high`, and the members after it.
pub(crate) fn within<'m, 'a>(
    low: u64,
    high: u32,
    members: &'m [Part<'a>],
) -> Option<(u32, &'m [Part<'a>])>
    ensures { option_map (λ found. (found.0, parts_items found.1.now)) result
        ≡ within_in low high (parts_items members.now) }
{
    let (found, rest) = number(members)?;
    if found >= low && found <= u64::from(high) {
        Some((found as u32, rest))
    } else {
        None
    }
}

/// The number that comes first, where it lies between these, which may be of 64 bits, and the
/// members after it.
pub(crate) fn between<'m, 'a>(
    low: u64,
    high: u64,
    members: &'m [Part<'a>],
) -> Option<(u64, &'m [Part<'a>])>
    ensures { option_map (λ found. (found.0, parts_items found.1.now)) result
        ≡ within_in low high (parts_items members.now) }
{
    let (found, rest) = number(members)?;
    if found >= low && found <= high {
        Some((found, rest))
    } else {
        None
    }
}

/// Whether no member is left.
pub(crate) fn none_left(members: &[Part<'_>]) -> bool
    ensures { result ≡ none_in (parts_items members.now) }
{
    members.is_empty()
}

/// A text that nothing comes after.
pub(crate) fn last_text<'a>(members: &[Part<'a>]) -> Option<&'a str>
    ensures { option_map (λ text. text.now) result ≡ one_text (parts_items members.now) }
{
    let (found, rest) = text(members)?;
    if none_left(rest) { Some(found) } else { None }
}

/// A number that nothing comes after.
pub(crate) fn last_number(members: &[Part<'_>]) -> Option<u64>
    ensures { result ≡ one_number (parts_items members.now) }
{
    let (found, rest) = number(members)?;
    if none_left(rest) { Some(found) } else { None }
}
