//! Bytes that stand for themselves in a string of JSON, eight at a time.
ghost use Rattle.std.specs.Prelude.{◌≡◌, ◌<◌, ◌≤◌, ◌+◌, ℕ, length, get_or, map, false, IsTrue};
ghost use Rattle.tx_text.specs.declared.plain.TheConstants.{BLOCK};
ghost use Rattle.std.specs.Simd.Lanes.{mask_l};
ghost use Rattle.tx_text.specs.Plain.{is_stop, is_foreign};

use std::simd::prelude::*;

/// The bytes of a block.
pub(crate) const BLOCK: usize = 8;

// A bit for each lane that does not stand for itself.
#[inline(always)]
fn stops(lanes: u8x8) -> u64
    ensures { result ≡ mask_l (map is_stop lanes) }
{
    (lanes.simd_eq(u8x8::splat(b'"'))
        | lanes.simd_eq(u8x8::splat(b'\\'))
        | lanes.simd_lt(u8x8::splat(32))).to_bitmask()
}

// A bit for each lane that does not stand for itself, or that is no ASCII.
#[inline(always)]
fn foreign(lanes: u8x8) -> u64
    ensures { result ≡ mask_l (map is_foreign lanes) }
{
    (lanes.simd_eq(u8x8::splat(b'"'))
        | lanes.simd_eq(u8x8::splat(b'\\'))
        | lanes.simd_lt(u8x8::splat(32))
        | lanes.simd_ge(u8x8::splat(128))).to_bitmask()
}

/// How many bytes of the block from here on stand for themselves, before the first that does not.
#[inline(always)]
pub(crate) fn plain_in(bytes: &[u8], at: usize) -> usize
    requires { at + BLOCK ≤ length bytes.now }
    ensures few { result ≤ BLOCK }
    ensures plain { (k : ℕ) → at ≤ k → k < at + result → is_stop (get_or bytes.now k 0) ≡ false }
{
    let found = stops(u8x8::from_slice(&bytes[at..]));
    if found == 0 {
        BLOCK
    } else {
        found.trailing_zeros() as usize
    }
}

/// Whether each byte of the block from here on is ASCII that stands for itself.
#[inline(always)]
pub(crate) fn is_simple_block(bytes: &[u8], at: usize) -> bool
    requires { at + BLOCK ≤ length bytes.now }
    ensures { IsTrue result → (k : ℕ) → at ≤ k → k < at + BLOCK → is_foreign (get_or bytes.now k 0) ≡ false }
{
    foreign(u8x8::from_slice(&bytes[at..])) == 0
}
