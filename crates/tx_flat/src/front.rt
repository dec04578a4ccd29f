//! The key of a version, spelt into a buffer that is there.
ghost use Rattle.std.specs.Prelude.{◌≡◌, ◌^◌, ◌<◌, ◌≤◌, ℕ, List, [], take, cond, bytes_eq};
ghost use Rattle.tx_codec.specs.Keys.{encoded_key};
ghost use Rattle.tx_spelling.specs.Spelt.{spelt};
ghost use Rattle.tx_spelling.specs.declared.spelling.TheConstants.{MAX_ENCODED_REST};

use std::marker::Model;
use tx_spelling::{MAX_ENCODED_REST, ROOM, VersionBytes};

/// The bytes of an encoded key, or none.
#[derive(Drop)]
pub(crate) struct Front {
    is_there: bool,
    first: u64,
    marker: u8,
    rest: [u8; MAX_ENCODED_REST],
    len: usize,
}

impl Model for Front {
    ghost Value = { List ℕ };

    ghost view = { λ f. cond f.is_there (spelt f.first f.marker (take f.len f.rest)) [] };

    ghost invariant = { λ f. (f.first < 2 ^ 64) × (f.len ≤ MAX_ENCODED_REST) };
}

impl Front {
    /// No bytes.
    pub fn new() -> Front
        ensures { result ≡ [] }
    {
        Front {
            is_there: false,
            first: 0,
            marker: 0,
            rest: [0; MAX_ENCODED_REST],
            len: 0,
        }
    }

    /// Whether they are those of this version's key.
    pub fn is_of(&self, version: &VersionBytes) -> bool
        ensures { result ≡ bytes_eq self.now (encoded_key version.now.0) }
    {
        let mut room = [0; ROOM];
        let (first, marker, rest) = version.spelt().parts(&mut room);
        self.is_there
            && self.first == first
            && self.marker == marker
            && self.rest[..self.len] == rest[..]
    }

    /// Takes those of this version's key.
    pub fn set(&mut self, version: &VersionBytes)
        ensures { self.new ≡ encoded_key version.now.0 }
    {
        let mut room = [0; ROOM];
        let (first, marker, rest) = version.spelt().parts(&mut room);
        self.is_there = true;
        self.first = first;
        self.marker = marker;
        self.len = rest.len();
        self.rest[..rest.len()].copy_from_slice(rest);
    }
}
