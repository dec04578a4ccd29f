//! A pass over the write records, from version to version, that tells which of them collection
//! keeps. It takes no memory.
ghost use Rattle.std.specs.Prelude.{◌≡◌, ◌&&◌, ◌||◌, not, nat_lt, [], false};
ghost use Rattle.tx_codec.specs.Keys.{encoded_key};
ghost use Rattle.tx_cells.specs.Heads.{record_kind};
ghost use Rattle.tx_flat.specs.Sieves.{is_followed, is_kept};

use crate::front::Front;
use tx_records::{WriteBytes, kind_of};
use tx_spelling::VersionBytes;
use tx_types::Ts;

/// What the records so far say of the next: the key of the last, and whether a put or delete of it
/// stands at the safe point or below.
#[derive(Drop)]
pub(crate) struct Sieve {
    pub safe: Ts,
    pub key: Front,
    pub followed: bool,
}

impl Sieve {
    /// Before the first record.
    pub fn new(safe: Ts) -> Sieve
        ensures { (result.safe ≡ safe) × (result.key ≡ []) × (result.followed ≡ false) }
    {
        Sieve {
            safe,
            key: Front::new(),
            followed: false,
        }
    }

    /// Whether collection keeps the next record.
    pub fn keeps(&mut self, version: &VersionBytes, rec: &WriteBytes) -> bool
        ensures says { result ≡ is_kept self.old version.now rec.now }
        ensures followed { self.new.followed ≡ (is_followed self.old version.now || (record_kind rec.now).is_seen
            && not (nat_lt self.old.safe version.now.1)) }
        ensures key { self.new.key ≡ encoded_key version.now.0 }
        ensures safe { self.new.safe ≡ self.old.safe }
    {
        let at = version.at();
        let kind = kind_of(rec);
        let followed = self.followed && self.key.is_of(version);
        self.key.set(version);
        self.followed = followed || kind.is_seen && !(self.safe < at);
        !(at < self.safe) || kind.puts && !followed
    }
}
