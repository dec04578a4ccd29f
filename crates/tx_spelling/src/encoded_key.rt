//! A key that is handed on with its bytes. Contracts see the key.
ghost use Rattle.std.specs.Prelude.{◌≡◌, ℕ, List, IfOk, IfErr};

use crate::spelling::KeyBytes;
use crate::version::VersionBytes;
use std::alloc::{AllocError, Global};
use std::marker::Model;
use tx_types::{Fault, Key, Ts};

/// A key and its bytes: it is spelt once, by who answers a request, for all that look it up.
#[derive(Drop)]
pub struct EncodedKey<'a> {
    key: &'a Key,
    bytes: KeyBytes,
}

impl<'a> Model for EncodedKey<'a> {
    ghost Value = { List ℕ };

    ghost view = { λ k. k.key.now };

    ghost invariant = { λ k. k.bytes ≡ k.key.now };
}

impl<'a> EncodedKey<'a> {
    /// This key, spelt.
    #[inline(always)]
    pub fn new(alloc: Global, key: &'a Key) -> Result<EncodedKey<'a>, Fault>
        ensures ok { IfOk result (λ spelt. spelt ≡ key.now) }
        ensures err { IfErr result (λ e. e ≡ Fault.OutOfMemory) }
    {
        let bytes = KeyBytes::new(alloc, key)?;
        Ok(EncodedKey { key, bytes })
    }

    /// This key, with the bytes that it was spelt with before.
    #[inline(always)]
    pub fn with_bytes(key: &'a Key, bytes: KeyBytes) -> EncodedKey<'a>
        requires { bytes ≡ key.now }
        ensures { result ≡ key.now }
    {
        EncodedKey { key, bytes }
    }

    /// The key.
    #[inline(always)]
    pub fn key(&self) -> &Key
        ensures { result.now ≡ self.now }
    {
        self.key
    }

    /// Its bytes.
    #[inline(always)]
    pub fn bytes(&self) -> &KeyBytes
        ensures { result.now ≡ self.now }
    {
        &self.bytes
    }

    /// Its bytes alone.
    #[inline(always)]
    pub fn into_bytes(self) -> KeyBytes
        ensures { result ≡ self.entry }
    {
        self.bytes
    }

    /// Its version at this timestamp.
    #[inline(always)]
    pub fn version(&self, alloc: Global, at: Ts) -> Result<VersionBytes, AllocError>
        ensures { IfOk result (λ version. version ≡ (self.now, at)) }
    {
        VersionBytes::of(alloc, &self.bytes, at)
    }
}
