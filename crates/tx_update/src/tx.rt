//! What an update reads and writes within its transaction.

use crate::rows::{KeyRange, Page, last_of};
use crate::stops::Stop;
use std::alloc::Global;
use tx_types::{Key, KeyValue, Ts, Value};

/// A transaction that declares nothing yet, as it is lent to an update: it reads at its start, and
/// enters changes into its buffer, which nobody else sees. A lock in the way of a read is resolved,
/// and the read is made again.
///
/// ```
/// let before = tx.range(None, None)?.len();
/// tx.delete(key_of(tx, 3)?)?;
/// tx.lock(key_of(tx, 7)?)?;
/// put(tx, 1_500)?;
/// let after = tx.range(None, None)?.len();
/// ```
pub trait Tx {
    ghost use Rattle.std.specs.Prelude.{◌≡◌, ◌⊎◌, ℕ, OnOk, OnErr, IfOk, IfErr, Some, None, false};
    ghost use Rattle.tx_types.specs.declared.mutation.Mutation.TheVariants as mutation;
    ghost use Rattle.tx_core.specs.Histories.{History, Begins};
    ghost use Rattle.tx_transaction.specs.Buffers.{Entries, touched, put_over, inserted, locked, buffered, is_full};
    ghost use Rattle.tx_types.specs.declared.fault.Fault.TheVariants as fault;
    ghost use Rattle.tx_types.specs.Lengths.{is_key};
    ghost use Rattle.tx_update.specs.declared.stops.Stop.TheVariants as stop;
    ghost use Rattle.tx_update.specs.Ranges.{IsRestOf, after_prefix, end_of_page};
    ghost use Rattle.tx_update.specs.Reads.{Finds, FindsEach, FindsRows, FindsRange, FindsLast};
    ghost use Rattle.tx_update.specs.Stops.{IsReadStop, IsEntryStop, NamesKey};

    /// What is entered so far.
    ghost buffer: { Self → Entries };

    /// Its start timestamp, which stays.
    ghost begins: { Self → ℕ };

    /// What its seat has seen of the history.
    ghost seen: { Self → History };

    /// Whether a read at a timestamp may be lost on its way, or its reply. Of a transaction of an
    /// update it is what the update's sender may lose (`LosesRead`).
    ghost loses: { ℕ → Type 0 };

    /// Where it takes memory.
    fn alloc(&self) -> Global;

    /// Its start timestamp.
    fn start(&self) -> Ts
        ensures { result ≡ begins self.now };

    /// The value of a key at the start, or what was entered of it: what the one-step machine sees.
    /// It stops by `Waits` of the key where a lock stands in the way whose transaction lives or
    /// cannot be asked, `BelowSafePoint` where the start lies below the safe point, `Lost` where no
    /// reply came, `Refused` for want of memory, and by nothing else: never by a conflict. By the
    /// first two it stops only as a read at the start was answered, in what its seat has seen then;
    /// by `Lost` only where such a read may be lost on its way.
    fn get(&mut self, key: &Key) -> Result<Option<Value>, Stop>
        ensures same { (buffer self.new ≡ buffer self.old) × (begins self.new ≡ begins self.old) }
        ensures more { Begins (seen self.old) (seen self.new) }
        ensures finds { IfOk result
            (λ found. Finds (buffered (buffer self.old) key.now) (seen self.new) (begins self.old) key.now found) }
        ensures err { IfErr result (IsReadStop loses (seen self.new) (begins self.old)) }
        ensures names { IfErr result (NamesKey key.now) };

    /// The values of some keys, in their order: of each what `get` finds of it. It stops only by
    /// what `get` does, and then there are none.
    ///
    /// ```
    /// let found = tx.get_many(keys.as_slice())?;
    /// ```
    fn get_many(&mut self, keys: &[Key]) -> Result<Vec<Option<Value>>, Stop>
        ensures same { (buffer self.new ≡ buffer self.old) × (begins self.new ≡ begins self.old) }
        ensures more { Begins (seen self.old) (seen self.new) }
        ensures finds { IfOk result
            (λ found. FindsEach (buffer self.old) (seen self.new) (begins self.old) keys.now found.items) }
        ensures err { IfErr result (IsReadStop loses (seen self.new) (begins self.old)) };

    /// The first `limit` keys with a value at the start, from `from` up to but not including `to`;
    /// what was entered is not looked at. It stops only by what `get` does.
    fn scan(&mut self, from: &Key, to: &Key, limit: u32) -> Result<Vec<KeyValue>, Stop>
        ensures same { (buffer self.new ≡ buffer self.old) × (begins self.new ≡ begins self.old) }
        ensures more { Begins (seen self.old) (seen self.new) }
        ensures finds { IfOk result
            (λ rows. FindsRows (seen self.new) (begins self.old) from.now to.now limit rows.items) }
        ensures err { IfErr result (IsReadStop loses (seen self.new) (begins self.old)) };

    /// The rows of a range, of any number, from a key, or from the least, and up to but not
    /// including another, or to the greatest: each as `get` finds it, so that what was entered
    /// lies over what is seen at the start. It asks page by page, and stops only by what `get`
    /// does.
    fn range(&mut self, from: Option<Key>, to: Option<Key>) -> Result<Vec<KeyValue>, Stop>
        ensures same { (buffer self.new ≡ buffer self.old) × (begins self.new ≡ begins self.old) }
        ensures more { Begins (seen self.old) (seen self.new) }
        ensures finds { IfOk result
            (λ rows. FindsRange (buffer self.old) (seen self.new) (begins self.old) from to rows.items) }
        ensures err { IfErr result (IsReadStop loses (seen self.new) (begins self.old)) };

    /// The last `limit` rows of a range, told from its end: the last ones that `range` has, the
    /// last of them first. It asks for the whole range, and costs what that does. It stops only by
    /// what `get` does.
    ///
    /// ```
    /// let newest = tx.range_back(None, None, 2)?;
    /// ```
    fn range_back(
        &mut self,
        from: Option<Key>,
        to: Option<Key>,
        limit: u32,
    ) -> Result<Vec<KeyValue>, Stop>
        ensures same { (buffer self.new ≡ buffer self.old) × (begins self.new ≡ begins self.old) }
        ensures more { Begins (seen self.old) (seen self.new) }
        ensures finds { IfOk result
            (λ rows. FindsLast (buffer self.old) (seen self.new) (begins self.old) from to limit rows.items) }
        ensures err { IfErr result (IsReadStop loses (seen self.new) (begins self.old)) }
    {
        let rows = self.range(from, to)?;
        Ok(last_of(rows, limit))
    }

    /// The rows of the keys that begin with these bytes, as `range` has them: those of
    /// `KeyRange::prefix`. `Refused(KeyLength)` for no or more than 512 bytes; else it stops only
    /// by what `get` does.
    ///
    /// ```
    /// let items = tx.range_prefix(b"k\x00")?.len();
    /// ```
    fn range_prefix(&mut self, bytes: &[u8]) -> Result<Vec<KeyValue>, Stop>
        ensures same { (buffer self.new ≡ buffer self.old) × (begins self.new ≡ begins self.old) }
        ensures more { Begins (seen self.old) (seen self.new) }
        ensures finds { IfOk result (λ rows. FindsRange (buffer self.old) (seen self.new) (begins self.old)
            (Some bytes.now) (after_prefix bytes.now) rows.items) }
        ensures err { IfErr result (λ s. IsReadStop loses (seen self.new) (begins self.old) s
            ⊎ ((s ≡ stop.Refused fault.KeyLength) × (is_key bytes.now ≡ false))) };

    /// The first rows of a range, and what is left of it: about `limit` of them, since it asks for
    /// no more, and what was entered lies over what it is told, as in `range`. Page by page, each
    /// of the rest of the one before, they are those of `range`; the rest begins above where the
    /// range does. It stops only by what `get` does.
    ///
    /// ```
    /// let page = tx.page(range, 2)?;
    /// ```
    fn page(&mut self, range: KeyRange, limit: u32) -> Result<Page, Stop>
        ensures same { (buffer self.new ≡ buffer self.old) × (begins self.new ≡ begins self.old) }
        ensures more { Begins (seen self.old) (seen self.new) }
        ensures finds { IfOk result (λ page. FindsRange (buffer self.old) (seen self.new) (begins self.old)
            (Some range.from) (end_of_page range page.rest) page.rows.items) }
        ensures rest { IfOk result (λ page. IsRestOf range page.rest) }
        ensures err { IfErr result (IsReadStop loses (seen self.new) (begins self.old)) };

    /// Enters a put. `Refused` for more than 1,024 keys, or for want of memory: nothing is entered
    /// then.
    fn put(&mut self, key: Key, value: Value) -> Result<(), Stop>
        ensures ok { OnOk result (buffer self.new
            ≡ touched (buffer self.old) key (put_over (buffered (buffer self.old) key) value)) }
        ensures same { OnErr result (buffer self.new ≡ buffer self.old) }
        ensures seen { seen self.new ≡ seen self.old }
        ensures err { IfErr result (IsEntryStop (is_full (buffer self.old) key)) }
        ensures start { begins self.new ≡ begins self.old };

    /// Enters an insert: a put of a key that is to have no value. `AlreadyExists` where a put or an
    /// insert of it was entered; where the key has a value at the start, the transaction stops by
    /// that as it commits. `Refused` as for a put.
    fn insert(&mut self, key: Key, value: Value) -> Result<(), Stop>
        ensures ok { OnOk result (inserted (buffer self.old) key value ≡ Some (buffer self.new)) }
        ensures same { OnErr result (buffer self.new ≡ buffer self.old) }
        ensures seen { seen self.new ≡ seen self.old }
        ensures err { IfErr result (λ s. IsEntryStop (is_full (buffer self.old) key) s
            ⊎ ((s ≡ stop.AlreadyExists key) × (inserted (buffer self.old) key value ≡ None))) }
        ensures start { begins self.new ≡ begins self.old };

    /// Enters a delete. `Refused` as for a put.
    fn delete(&mut self, key: Key) -> Result<(), Stop>
        ensures ok { OnOk result (buffer self.new ≡ touched (buffer self.old) key mutation.Delete) }
        ensures same { OnErr result (buffer self.new ≡ buffer self.old) }
        ensures seen { seen self.new ≡ seen self.old }
        ensures err { IfErr result (IsEntryStop (is_full (buffer self.old) key)) }
        ensures start { begins self.new ≡ begins self.old };

    /// Enters a lock, where the key is not entered: it is not to change before the transaction
    /// commits. `Refused` as for a put.
    fn lock(&mut self, key: Key) -> Result<(), Stop>
        ensures ok { OnOk result (buffer self.new ≡ locked (buffer self.old) key) }
        ensures same { OnErr result (buffer self.new ≡ buffer self.old) }
        ensures seen { seen self.new ≡ seen self.old }
        ensures err { IfErr result (IsEntryStop (is_full (buffer self.old) key)) }
        ensures start { begins self.new ≡ begins self.old };
}
