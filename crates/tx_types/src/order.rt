//! The order of bytes.
ghost use Rattle.std.specs.Prelude.{◌≡◌};
ghost use Rattle.std.specs.Ordering.{nat_cmp};
ghost use Rattle.std.specs.Cmp.Lexicographic.{slice_cmp};

use std::cmp::Ordering;

/// The order of bytes: the first that differ decide, and else the lengths do.
pub(crate) fn order(a: &[u8], b: &[u8]) -> Ordering
    ensures { result ≡ slice_cmp nat_cmp a.now b.now }
{
    let both = a.len().min(b.len());
    let mut at = 0;
    'bytes: while at < both && a[at] == b[at] {
        at += 1;
    }
    if at < both {
        a[at].cmp(&b[at])
    } else {
        a.len().cmp(&b.len())
    }
}
