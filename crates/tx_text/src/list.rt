//! Lists in a reply line, in one pass over what is told.
ghost use Rattle.std.specs.Prelude.{◌≡◌, ◌++◌, map, OnOk};
ghost use Rattle.serde_json.specs.Data.{array};
ghost use Rattle.serde_json.specs.View.{items_of};
ghost use Rattle.serde_json.specs.Written.{compact_text};
ghost use Rattle.tx_text.specs.Texts.{members_text};

use std::alloc::AllocError;

/// A form of a list: each entry stands in it as one JSON value.
pub trait Entries<T> {
    ghost use Rattle.serde_json.specs.Data.{Data};

    /// The value of an entry.
    ghost value: { T → Data };

    /// Appends the text of an entry.
    fn put(out: &mut Vec<u8>, entry: &T) -> Result<(), AllocError>
        ensures { OnOk result (out.new.items ≡ out.old.items ++ compact_text (value entry.now)) };
}

// Each with a comma before it.
fn put_more<T, E: Entries<T>>(out: &mut Vec<u8>, list: &[T]) -> Result<(), AllocError>
    ensures { OnOk result (out.new.items ≡ out.old.items ++ members_text (items_of (map E.value list.now))) }
{
    for entry in list {
        out.push(b',')?;
        E::put(out, entry)?;
    }
    Ok(())
}

/// Appends a list as a JSON array.
pub fn put_list<T, E: Entries<T>>(out: &mut Vec<u8>, list: &[T]) -> Result<(), AllocError>
    ensures { OnOk result (out.new.items ≡ out.old.items ++ compact_text (array (items_of (map E.value list.now)))) }
{
    let Some((first, others)) = list.split_first() else {
        return out.extend_from_slice(b"[]");
    };
    out.extend_from_slice(b"[")?;
    E::put(out, first)?;
    put_more::<T, E>(out, others)?;
    out.extend_from_slice(b"]")
}
