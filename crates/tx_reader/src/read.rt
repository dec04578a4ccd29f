//! What is read, and how far a read of one region goes.
ghost use Rattle.std.specs.Prelude.{◌≡◌, IsTrue};
ghost use Rattle.tx_types.specs.Keys.{key_lt, key_le};
ghost use Rattle.tx_reader.specs.Readers.{AreTogether, part_end};

use tx_types::Key;

/// What is read: a key, or the first rows from a key up to but not including another, all of one
/// region.
#[derive(Drop)]
pub(crate) enum Read {
    Key(Key),
    Part(Key, Key, u32),
}

// The least of the bounds above a key, where that lies below `to`; else `to`.
fn part_end<'k>(bounds: &'k [Key], from: &Key, to: &'k Key) -> &'k Key
    ensures { result.now ≡ part_end bounds.now from.now to.now }
{
    match bounds {
        [] => to,
        [bound, rest @ ..] => {
            let end = if *from < *bound && *bound < *to {
                bound
            } else {
                to
            };
            part_end(rest, from, end)
        }
    }
}

/// Up to where the keys from one on, below another, lie in the region of the first, between regions
/// with these bounds.
pub fn end_of_part<'k>(bounds: &'k [Key], from: &Key, to: &'k Key) -> &'k Key
    ensures together { AreTogether bounds.now from.now result.now }
    ensures upto { IsTrue (key_le result.now to.now) }
    ensures some { IsTrue (key_lt from.now to.now) → IsTrue (key_lt from.now result.now) }
{
    part_end(bounds, from, to)
}
