//! Versions that are kept as the bytes of their key, and a timestamp. Contracts see the key
//! and the timestamp.
ghost use Rattle.std.specs.Prelude.{◌≡◌, ◌↔◌, ℕ, List, Some, refl, IfOk, IfErr, IsTrue};
ghost use Rattle.std.specs.Ordering.{eq_by_cmp};
ghost use Rattle.std.specs.Cmp.{partial_equiv_from_equiv, eq_by_cmp_equiv, po};
ghost use Rattle.tx_spelling.specs.Spelt.{version_cmp, versions_total};

use crate::spelling::KeyBytes;
use std::alloc::{AllocError, Global};
use std::cmp::Ordering;
use std::marker::Model;
use tx_types::{Fault, Key, Ts};

/// A version: the bytes of its key, and its timestamp.
#[derive(Drop)]
pub struct VersionBytes {
    key: KeyBytes,
    at: Ts,
}

impl Model for VersionBytes {
    ghost Value = { List ℕ × ℕ };

    ghost view = { λ v. (v.key, v.at) };
}

impl VersionBytes {
    /// The version of this key at this timestamp.
    pub fn new(alloc: Global, key: &Key, at: Ts) -> Result<VersionBytes, AllocError>
        ensures { IfOk result (λ version. version ≡ (key.now, at)) }
    {
        let key = KeyBytes::new(alloc, key)?;
        Ok(VersionBytes { key, at })
    }

    /// The version at this timestamp of the key that these bytes spell.
    #[inline(always)]
    pub fn of(alloc: Global, key: &KeyBytes, at: Ts) -> Result<VersionBytes, AllocError>
        ensures { IfOk result (λ version. version ≡ (key.now, at)) }
    {
        let key = key.copy(alloc)?;
        Ok(VersionBytes { key, at })
    }

    /// Its timestamp.
    pub fn at(&self) -> Ts
        ensures { result ≡ self.now.1 }
    {
        self.at
    }

    /// The bytes of its key.
    pub fn spelt(&self) -> &KeyBytes
        ensures { result.now ≡ self.now.0 }
    {
        &self.key
    }

    /// Its key.
    pub fn key(&self, alloc: Global) -> Result<Key, Fault>
        ensures ok { IfOk result (λ key. key ≡ self.now.0) }
        ensures err { IfErr result (λ e. e ≡ Fault.OutOfMemory) }
    {
        self.key.read(alloc)
    }

    /// Gives it another timestamp.
    pub fn set_at(&mut self, at: Ts)
        ensures { self.new ≡ (self.old.0, at) }
    {
        self.at = at;
    }

    /// Whether it is a version of the same key as another.
    pub fn is_beside(&self, other: &VersionBytes) -> bool
        ensures { IsTrue result ↔ (self.now.0 ≡ other.now.0) }
    {
        self.key == other.key
    }
}

impl PartialEq for VersionBytes {
    ghost eq = { eq_by_cmp version_cmp };

    ghost laws = { partial_equiv_from_equiv (eq_by_cmp_equiv versions_total) };

    fn eq(&self, other: &VersionBytes) -> bool {
        self.cmp(other) == Ordering::Equal
    }
}

impl Eq for VersionBytes {
    ghost laws = { eq_by_cmp_equiv versions_total };
}

impl PartialOrd for VersionBytes {
    ghost partial_cmp = { λ x y. Some (version_cmp x y) };

    ghost laws = { po versions_total (λ x y. refl) };

    fn partial_cmp(&self, other: &VersionBytes) -> Option<Ordering> {
        Some(self.cmp(other))
    }
}

impl Ord for VersionBytes {
    ghost cmp = { version_cmp };

    ghost total = { versions_total };

    ghost matches_partial_cmp = { λ x y. refl };

    ghost matches_eq = { λ x y. refl };

    fn cmp(&self, other: &VersionBytes) -> Ordering {
        match self.key.cmp(&other.key) {
            Ordering::Equal => other.at.cmp(&self.at),
            decided => decided,
        }
    }
}
