//! A part that holds its bytes, lent to be packed again.
ghost use Rattle.std.specs.Prelude.{◌≡◌};
ghost use Rattle.tx_tuple.specs.Tuples.{element, owned_element};

use crate::part::{OwnedPart, Part};

impl OwnedPart {
    /// The part, to be packed again.
    pub fn as_part(&self) -> Part<'_>
        ensures { element result ≡ owned_element self.now }
    {
        match self {
            OwnedPart::Bytes(bytes) => Part::Bytes(bytes.as_slice()),
            OwnedPart::Text(text) => Part::Text(text.as_str()),
            OwnedPart::Signed(number) => Part::Signed(*number),
            OwnedPart::Unsigned(number) => Part::Unsigned(*number),
        }
    }
}
