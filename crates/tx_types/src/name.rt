//! Names of sessions and of held requests.
ghost use Rattle.std.specs.Prelude.{◌≡◌};
ghost use Rattle.tx_types.specs.Names.{is_name as name_test};

use crate::limits::MAX_NAME_BYTES;

/// Whether a name is of 1 to 64 bytes.
pub fn is_name(name: &str) -> bool
    ensures { result ≡ name_test name.now }
{
    !name.is_empty() && name.len() <= MAX_NAME_BYTES
}
