//! The values that puts bring to keys.
use crate::key_state::SeenLock;
use crate::row::Change;
use crate::words::shown_bytes;
use std::alloc::{AllocError, Global};
use std::mem;
use tx_core::Body;
use tx_trace::Taking;
use tx_types::{Key, Mutation};

/// Of each key the value that its last lock puts there, as it is shown.
#[derive(Drop)]
pub(crate) struct Values {
    texts: Vec<String>,
}

// Whether a lock is the one that stood there, maybe with another minimum.
fn is_still(old: Option<SeenLock>, lock: SeenLock) -> bool {
    match old {
        Some(old) => old.start == lock.start,
        None => false,
    }
}

// The value that a put of this start brought to a key, as it is shown; empty where none did.
fn value_put(
    alloc: Global,
    takings: &[Taking],
    key: &Key,
    start: u64,
) -> Result<String, AllocError> {
    'takings: for taking in takings {
        if let Body::Prewrite(prewrite) = &taking.body {
            let prewrite = prewrite.asked();
            if prewrite.key == *key && prewrite.start.get() == start {
                return match &prewrite.mutation {
                    Mutation::Put(value) | Mutation::Insert(value) => {
                        shown_bytes(alloc, value.as_bytes())
                    }
                    _ => Ok(String::new(alloc)),
                };
            }
        }
    }
    Ok(String::new(alloc))
}

impl Values {
    /// Of each key no value.
    pub fn new(alloc: Global, count: usize) -> Result<Values, AllocError> {
        let mut texts = Vec::new(alloc);
        for _ in 0..count {
            texts.push(String::new(alloc))?;
        }
        Ok(Values { texts })
    }

    /// The value that the lock puts which stands on a key after a change by these requests; empty
    /// where none stands there.
    pub fn after(
        &mut self,
        alloc: Global,
        keys: &[Key],
        takings: &[Taking],
        change: &Change,
    ) -> Result<String, AllocError> {
        let (Some(text), Some(key)) = (self.texts.get_mut(change.key), keys.get(change.key)) else {
            return Ok(String::new(alloc));
        };
        let Some(lock) = change.lock else {
            return Ok(String::new(alloc));
        };
        if !is_still(change.old_lock, lock) {
            let value = value_put(alloc, takings, key, lock.start)?;
            drop(mem::replace(text, value));
        }
        String::from_str(alloc, text.as_str())
    }
}
