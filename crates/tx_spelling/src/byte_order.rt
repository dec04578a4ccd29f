//! The order of bytes, eight at a time.
ghost use Rattle.std.specs.Prelude.{◌≡◌};
ghost use Rattle.std.specs.Ordering.{nat_cmp};
ghost use Rattle.std.specs.Cmp.Lexicographic.{slice_cmp};

use byteorder::{BigEndian, ByteOrder};
use std::cmp::Ordering;

/// The bytes that are compared at a time.
const WORD: usize = 8;

/// The order of bytes: the first that differ decide, and else the lengths do.
pub(crate) fn order(a: &[u8], b: &[u8]) -> Ordering
    ensures { result ≡ slice_cmp nat_cmp a.now b.now }
{
    let (mut x, mut y) = (a, b);
    'words: while x.len() >= WORD && y.len() >= WORD {
        let (first, second) = (BigEndian::read_u64(x), BigEndian::read_u64(y));
        if first != second {
            return first.cmp(&second);
        }
        x = &x[WORD..];
        y = &y[WORD..];
    }
    x.cmp(y)
}
