//! The first write record of the next key.
ghost use Rattle.std.specs.Prelude.{◌≡◌, ◌∷◌, IfOk};
ghost use Rattle.std.specs.List.Sorted.{IsStrictlySortedBy};
ghost use Rattle.std.specs.Map.{keys_of};
ghost use Rattle.std.specs.Map.Iter.{deref_pair};
ghost use Rattle.tx_types.specs.Keys.{key_lt, key_le};
ghost use Rattle.tx_spelling.specs.Spelt.{version_cmp};
ghost use Rattle.tx_flat.specs.Positions.{coming, writes_where};

use std::alloc::{AllocError, Global};
use std::collections::BTreeMap;
use std::collections::btree_map::Range;
use std::ops::Bound;
use tx_records::WriteBytes;
use tx_spelling::VersionBytes;
use tx_types::{Key, Ts};

/// How many entries are passed one by one before a search.
const STEPS: usize = 4;

/// A version and its write record, in the maps.
pub(crate) type Record<'a> = (&'a VersionBytes, &'a WriteBytes);

/// The first record behind those of a key, by its newest. `rest` is what lies behind that, of which
/// mostly the first is of another key. Where more than a few are of this one, a search finds what
/// lies behind the last version that a key may have.
pub(crate) fn next_front<'a>(
    writes: &'a BTreeMap<VersionBytes, WriteBytes>,
    rest: &mut Range<'a, VersionBytes, WriteBytes>,
    alloc: Global,
    key: &Key,
    newest: Record<'a>,
) -> Result<Option<Record<'a>>, AllocError>
    requires of { newest.0.now.0 ≡ key.now }
    requires order { IsStrictlySortedBy version_cmp (keys_of writes.now.entries) }
    requires left { deref_pair newest ∷ rest.old ≡ writes_where (key_le key.now) writes.now.entries }
    ensures { IfOk result (λ next. coming next rest.new ≡ writes_where (key_lt key.now) writes.now.entries) }
{
    let version = newest.0;
    'steps: for _ in 0..STEPS {
        let Some(next) = rest.next() else {
            return Ok(None);
        };
        if !next.0.is_beside(version) {
            return Ok(Some(next));
        }
    }
    let last = VersionBytes::new(alloc, key, Ts::ZERO)?;
    *rest = writes.range((Bound::Excluded(&last), Bound::Unbounded));
    Ok(rest.next())
}
