//! Bytes that stand in the value itself where they are few, and else in memory that
//! its copies share.
ghost use Rattle.std.specs.Prelude.{◌≡◌, ◌<◌, ◌≤◌, ◌+◌, ◌-◌, ◌++◌, length, replicate, take, nat_eq, IfOk};
ghost use Rattle.std.specs.Cmp.Lexicographic.{pointwise, nat_list_eq_equiv};
ghost use Rattle.std.specs.Cmp.{partial_equiv_from_equiv};
ghost use Rattle.tx_types.specs.Texts.{bytes_of};
ghost use Rattle.tx_types.specs.declared.text.TheConstants.{MAX_SHORT_BYTES};

use crate::limits::MAX_KEY_BYTES;
use bytes::Bytes;
use std::alloc::{AllocError, Global};
use std::fmt;
use std::marker::Model;
use std::sync::{Arc, ArcSlice};

/// The most bytes that stand in the value itself.
const MAX_SHORT_BYTES: usize = 22;

/// The most bytes that lie in a slice. No key has more.
const MAX_SLICE_BYTES: usize = MAX_KEY_BYTES;

// Few bytes: the first of an array, behind which it has zeros.
#[derive(Clone, Copy)]
struct Short {
    len: u8,
    bytes: [u8; MAX_SHORT_BYTES],
}

// The first bytes of an array that are these.
fn short_of(bytes: &[u8]) -> Short
    requires { length bytes.now ≤ MAX_SHORT_BYTES }
    ensures len { result.len ≡ length bytes.now }
    ensures bytes { result.bytes ≡ bytes.now ++ replicate (MAX_SHORT_BYTES - length bytes.now) 0 }
{
    let mut kept = [0; MAX_SHORT_BYTES];
    kept[..bytes.len()].copy_from_slice(bytes);
    Short {
        len: bytes.len() as u8,
        bytes: kept,
    }
}

// The first bytes of an array that are these, of two parts one behind the other.
fn short_of_two(front: &[u8], back: &[u8]) -> Short
    requires { length front.now + length back.now ≤ MAX_SHORT_BYTES }
    ensures len { result.len ≡ length front.now + length back.now }
    ensures bytes { result.bytes ≡ (front.now ++ back.now)
        ++ replicate (MAX_SHORT_BYTES - (length front.now + length back.now)) 0 }
{
    let mut kept = [0; MAX_SHORT_BYTES];
    let len = front.len() + back.len();
    kept[..front.len()].copy_from_slice(front);
    kept[front.len()..len].copy_from_slice(back);
    Short {
        len: len as u8,
        bytes: kept,
    }
}

// Bytes, by how many they are. All but few lie behind one pointer, so that a text is
// three words large.
#[derive(Drop)]
enum Storage {
    Short(Short),
    Slice(ArcSlice<u8>),
    Long(Arc<Bytes>),
}

// These bytes, which are not few, where they lie.
fn kept_of(bytes: Vec<u8>) -> Result<Storage, AllocError>
    requires { MAX_SHORT_BYTES < length bytes.items }
    ensures { IfOk result (λ kept. bytes_of kept ≡ bytes.items) }
{
    if bytes.len() <= MAX_SLICE_BYTES {
        return Ok(Storage::Slice(ArcSlice::from_vec(bytes)?));
    }
    let alloc = *bytes.allocator();
    let bytes = Bytes::from_vec(bytes)?;
    Ok(Storage::Long(Arc::new(alloc, bytes)?))
}

/// Bytes. Up to 22 stand in the value itself, which is three words large; a copy of more shares
/// them. Contracts see the bytes.
pub struct Text {
    kept: Storage,
}

impl Model for Text {
    ghost use Rattle.std.specs.Prelude.{List, ℕ};
    ghost use Rattle.tx_types.specs.Texts.{bytes_of, IsWithin};

    ghost Value = { List ℕ };

    ghost view = { λ t. bytes_of t.kept };

    ghost invariant = { λ t. IsWithin t.kept };
}

// Lets bytes that lie elsewhere go.
#[inline(never)]
fn drop_kept(_kept: Storage) {}

impl Drop for Text {
    // Mostly the bytes stand in the value itself.
    #[inline(always)]
    fn drop(self) {
        let Self { kept } = self;
        match kept {
            Storage::Short(_) => {}
            kept => drop_kept(kept),
        }
    }
}

impl Text {
    /// These bytes.
    pub fn new(alloc: Global, bytes: &[u8]) -> Result<Text, AllocError>
        ensures ok { IfOk result (λ text. text ≡ bytes.now) }
    {
        let kept = if bytes.len() <= MAX_SHORT_BYTES {
            Storage::Short(short_of(bytes))
        } else {
            kept_of(Vec::from_slice(alloc, bytes)?)?
        };
        Ok(Text { kept })
    }

    /// Bytes that have memory of their own, which are not copied where they are many.
    pub fn from_vec(bytes: Vec<u8>) -> Result<Text, AllocError>
        ensures ok { IfOk result (λ text. text ≡ bytes.items) }
    {
        let kept = if bytes.len() <= MAX_SHORT_BYTES {
            Storage::Short(short_of(bytes.as_slice()))
        } else {
            kept_of(bytes)?
        };
        Ok(Text { kept })
    }

    /// The bytes of two parts, one behind the other.
    pub fn of_two(alloc: Global, front: &[u8], back: &[u8]) -> Result<Text, AllocError>
        ensures ok { IfOk result (λ text. text ≡ front.now ++ back.now) }
    {
        if front.len() <= MAX_SHORT_BYTES && back.len() <= MAX_SHORT_BYTES - front.len() {
            let kept = Storage::Short(short_of_two(front, back));
            return Ok(Text { kept });
        }
        let mut bytes = Vec::with_capacity(alloc, front.len().saturating_add(back.len()))?;
        bytes.extend_from_slice(front)?;
        bytes.extend_from_slice(back)?;
        let kept = kept_of(bytes)?;
        Ok(Text { kept })
    }

    /// Its first eight bytes, with zeros behind them where it has fewer.
    pub fn first_eight(&self) -> [u8; 8]
        ensures { result ≡ take 8 (self.now ++ replicate 8 0) }
    {
        let mut first = [0; 8];
        match &self.kept {
            Storage::Short(short) => first.copy_from_slice(&short.bytes[..8]),
            Storage::Slice(bytes) => first.copy_from_slice(&bytes.as_slice()[..8]),
            Storage::Long(bytes) => first.copy_from_slice(&bytes.as_slice()[..8]),
        }
        first
    }

    /// Its bytes.
    pub fn as_slice(&self) -> &[u8]
        ensures { result.now ≡ self.now }
    {
        match &self.kept {
            Storage::Short(short) => &short.bytes[..short.len as usize],
            Storage::Slice(bytes) => bytes.as_slice(),
            Storage::Long(bytes) => bytes.as_slice(),
        }
    }
}

impl Clone for Text {
    ghost is_clone = { λ text copy. copy ≡ text };

    fn clone(&self) -> Result<Text, AllocError> {
        let kept = match &self.kept {
            Storage::Short(short) => Storage::Short(*short),
            Storage::Slice(bytes) => Storage::Slice(bytes.clone()?),
            Storage::Long(bytes) => Storage::Long(Arc::try_clone(bytes)?),
        };
        Ok(Text { kept })
    }
}

impl PartialEq for Text {
    ghost eq = { pointwise nat_eq };

    ghost laws = { partial_equiv_from_equiv nat_list_eq_equiv };

    fn eq(&self, other: &Text) -> bool {
        self.as_slice() == other.as_slice()
    }
}

impl Eq for Text {
    ghost laws = { nat_list_eq_equiv };
}

impl fmt::Debug for Text {
    fn fmt<W: fmt::Write>(&self, f: &mut fmt::Formatter<W>) -> fmt::Result {
        fmt::Debug::fmt(self.as_slice(), f)
    }
}
