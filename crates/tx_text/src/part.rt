//! The members of a line's array.
ghost use Rattle.std.specs.Prelude.{◌≡◌, ◌<◌, option_map, option_and_then, is_some, Some, IfSome, IfNone};
ghost use Rattle.serde_json.specs.Data.{Items, array};
ghost use Rattle.serde_json.specs.Find.{as_array as array_in, as_str as str_in, as_null as null_in, as_number as number_in, as_u64 as u64_in};
ghost use Rattle.serde_json.specs.View.{view, items_view};
ghost use Rattle.tx_text.specs.Parts.{count, part_data, parts_items};

use arrayvec::ArrayVec;
use serde_json::Value;

/// The most members that a step has.
pub const MAX_PARTS: usize = 7;

/// A member: a whole number from 0 to 2^64 - 1, null, a string, or what else a value may be. What
/// it is by default is all zeros.
#[derive(Clone, Copy, Debug, Drop)]
pub enum Part<'a> {
    Number(u64),
    Null,
    Text(&'a str),
    Other(&'a Value),
}

/// The members of an array, in order.
pub type Parts<'a> = ArrayVec<Part<'a>, MAX_PARTS>;

impl<'a> Default for Part<'a> {
    fn default() -> Part<'a> {
        Part::Number(0)
    }
}

impl<'a> Part<'a> {
    /// A member of a value that was read.
    pub fn of(value: &'a Value) -> Part<'a>
        ensures { part_data result ≡ view value.now }
    {
        if let Some(text) = value.as_str() {
            return Part::Text(text);
        }
        if let Some(number) = value.as_u64() {
            return Part::Number(number);
        }
        Part::Other(value)
    }

    /// The text of a string.
    pub fn as_str(&self) -> Option<&'a str>
        ensures { option_map (λ s. s.now) result ≡ str_in (part_data self.now) }
    {
        match *self {
            Part::Text(text) => Some(text),
            Part::Number(_) | Part::Null => None,
            Part::Other(value) => value.as_str(),
        }
    }

    /// The number, where it is one.
    pub fn as_u64(&self) -> Option<u64>
        ensures { result ≡ option_and_then u64_in (number_in (part_data self.now)) }
    {
        match *self {
            Part::Text(_) | Part::Null => None,
            Part::Number(number) => Some(number),
            Part::Other(value) => value.as_u64(),
        }
    }

    /// The members of an array.
    pub fn as_array(&self) -> Option<&'a [Value]>
        ensures { option_map (λ items. items_view items.now) result ≡ array_in (part_data self.now) }
    {
        match *self {
            Part::Text(_) | Part::Number(_) | Part::Null => None,
            Part::Other(value) => Some(value.as_array()?.as_slice()),
        }
    }

    /// Whether it is `null`.
    pub fn is_null(&self) -> bool
        ensures { result ≡ is_some (null_in (part_data self.now)) }
    {
        match *self {
            Part::Text(_) | Part::Number(_) => false,
            Part::Null => true,
            Part::Other(value) => value.is_null(),
        }
    }
}

/// The members of an array, where there are at most `MAX_PARTS`.
pub fn parts_of(value: &Value) -> Option<Parts<'_>>
    ensures some { IfSome result (λ parts. view value.now ≡ array (parts_items parts.items)) }
    ensures none { IfNone result ((items : Items) → array_in (view value.now) ≡ Some items → MAX_PARTS < count items) }
{
    let items = value.as_array()?;
    if items.len() > MAX_PARTS {
        return None;
    }
    let mut parts = Parts::new();
    for item in items {
        parts.push(Part::of(item));
    }
    Some(parts)
}
