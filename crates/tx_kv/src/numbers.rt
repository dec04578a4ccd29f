//! Values that are numbers.
ghost use Rattle.std.specs.Prelude.{◌≡◌, ◌⊎◌, IfOk, IfErr, OnOk, OnErr};
ghost use Rattle.std.specs.Int.{to_be_bytes, w64};
ghost use Rattle.tx_core.specs.Histories.{Begins};
ghost use Rattle.tx_types.specs.declared.fault.Fault.TheVariants as fault;
ghost use Rattle.tx_transaction.specs.Buffers.{buffered, is_full, put_over, touched};
ghost use Rattle.tx_update.specs.declared.stops.Stop.TheVariants as stop;
ghost use Rattle.tx_update.specs.Stops.{IsEntryStop, IsReadStop, NamesKey};
ghost use Rattle.tx_kv.specs.NumberValues.{FindsNumber, number_of, sum_of};

use std::alloc::Global;
use tx_types::{Fault, Key, KeyValue, Value};
use tx_update::{Stop, Tx};

/// The value that a number has: its eight bytes, the highest first.
///
/// ```
/// tx.insert(account(alloc, number)?, pack_number(alloc, FIRST)?)?;
/// ```
pub fn pack_number(alloc: Global, number: u64) -> Result<Value, Fault>
    ensures ok { IfOk result (λ value. value ≡ to_be_bytes w64 number) }
    ensures err { IfErr result (λ e. e ≡ Fault.OutOfMemory) }
{
    Value::new(alloc, &number.to_be_bytes())
}

/// The number that has this value; none where it has not eight bytes.
///
/// ```
/// let held = unpack_number(&row.value).unwrap_or(0);
/// ```
pub fn unpack_number(value: &Value) -> Option<u64>
    ensures { result ≡ number_of value.now }
{
    match value.as_bytes() {
        [a, b, c, d, e, f, g, h] => { Some(u64::from_be_bytes([*a, *b, *c, *d, *e, *f, *g, *h])) }
        _ => None,
    }
}

/// The number that a transaction finds at a key: that of the value that `tx.get` finds, and none
/// where it finds none, or one that has not eight bytes. It stops only by what `tx.get` does.
///
/// ```
/// let (Some(less), Some(more)) = (get_number(tx, &from)?, get_number(tx, &to)?) else {
/// ```
pub fn get_number<T: Tx>(tx: &mut T, key: &Key) -> Result<Option<u64>, Stop>
    ensures same { (T.buffer tx.new ≡ T.buffer tx.old) × (T.begins tx.new ≡ T.begins tx.old) }
    ensures more { Begins (T.seen tx.old) (T.seen tx.new) }
    ensures finds { IfOk result
        (FindsNumber (buffered (T.buffer tx.old) key.now) (T.seen tx.new) (T.begins tx.old) key.now) }
    ensures err { IfErr result (IsReadStop T.loses (T.seen tx.new) (T.begins tx.old)) }
    ensures names { IfErr result (NamesKey key.now) }
{
    match tx.get(key)? {
        Some(value) => Ok(unpack_number(&value)),
        None => Ok(None),
    }
}

/// Enters the put of a number, as `pack_number` makes it a value. It stops only by what `tx.put`
/// does.
///
/// ```
/// put_number(tx, from, less)?;
/// ```
pub fn put_number<T: Tx>(tx: &mut T, key: Key, number: u64) -> Result<(), Stop>
    ensures ok { OnOk result (T.buffer tx.new ≡ touched (T.buffer tx.old) key
        (put_over (buffered (T.buffer tx.old) key) (to_be_bytes w64 number))) }
    ensures same { OnErr result (T.buffer tx.new ≡ T.buffer tx.old) }
    ensures err { IfErr result (λ s. IsEntryStop (is_full (T.buffer tx.old) key) s
        ⊎ (s ≡ stop.Refused fault.OutOfMemory)) }
    ensures stays { (T.begins tx.new ≡ T.begins tx.old) × (T.seen tx.new ≡ T.seen tx.old) }
{
    let value = pack_number(tx.alloc(), number)?;
    tx.put(key, value)
}

/// The sum of the numbers of these rows. A row whose value has not eight bytes adds nothing, and
/// the sum stops at 2^64 - 1.
///
/// ```
/// let all = sum_of(rows.as_slice());
/// ```
pub fn sum_of(rows: &[KeyValue]) -> u64
    ensures { result ≡ sum_of rows.now }
{
    let mut sum: u64 = 0;
    for row in rows {
        sum = sum.saturating_add(unpack_number(&row.value).unwrap_or(0));
    }
    sum
}
