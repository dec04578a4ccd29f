//! The two keys of a transfer, for contracts.
ghost use Rattle.std.specs.Prelude.{◌≡◌};

use std::marker::Model;
use std::snapshot::Snapshot;
use tx_types::Key;

/// Two keys, as contracts see them. It takes no memory.
#[derive(Drop)]
pub struct KeyPair {
    keys: Snapshot<(Key, Key)>,
}

impl Model for KeyPair {
    ghost use Rattle.tx_types.specs.declared.key.Key.{Key};

    ghost Value = { Key × Key };

    ghost view = { λ p. p.keys.value };
}

impl KeyPair {
    /// That of these keys.
    pub fn of(keys: &(Key, Key)) -> KeyPair
        ensures { result ≡ keys.now }
    {
        KeyPair {
            keys: Snapshot::of(keys),
        }
    }
}
