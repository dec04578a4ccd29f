//! Requests as bytes: which client asks, what it asks, and a key and a value.
ghost use Rattle.std.specs.Prelude.{◌≡◌, ◌⊎◌, ◌<◌, length, false, option_map, IfOk, IfErr};
ghost use Rattle.tx_types.specs.declared.limits.TheConstants.{MAX_VALUE_BYTES};
ghost use Rattle.tx_types.specs.declared.fault.Fault.TheVariants as fault;
ghost use Rattle.tx_types.specs.Lengths.{is_key};
ghost use Rattle.tx_embed.specs.Requests.{parts_in, parts_by, refusal, Asks, IsByKey, IsByValue, IsRefused};

use crate::answer::Said;
use std::alloc::Global;
use tx_types::{Key, Value};

/// What a client asks.
#[derive(Debug, Drop)]
pub enum ClientAct {
    /// A transaction begins.
    Begin,
    /// The value of a key.
    Get(Key),
    /// A put, an insert, a delete and a lock are entered.
    Put(Key, Value),
    Insert(Key, Value),
    Delete(Key),
    Lock(Key),
    /// The first row from a key up to but not including another.
    Next(Key, Key),
    /// What is entered is committed.
    Commit,
    /// The transaction is left.
    Abort,
}

/// What a request has: the number of what is asked and that of its client, a key and a value.
#[derive(Clone, Copy, Debug)]
pub(crate) struct Parts<'a> {
    pub(crate) op: u8,
    pub(crate) client: usize,
    pub(crate) key: &'a [u8],
    pub(crate) value: &'a [u8],
}

// What lies behind the length of a key.
fn parts_by(op: u8, client: usize, length: usize, rest: &[u8]) -> Option<Parts<'_>>
    ensures { option_map (λ p. record { op = p.op; client = p.client; key = p.key.now; value = p.value.now }) result
        ≡ parts_by op client length rest.now }
{
    if length > rest.len() {
        return None;
    }
    let (key, value) = rest.split_at(length);
    Some(Parts {
        op,
        client,
        key,
        value,
    })
}

/// What a request has, which is a byte that says what is asked, two of the client's number and two
/// of the length of its key, each the lesser first, its key, and its value. None where it has not.
pub(crate) fn parts_in(request: &[u8]) -> Option<Parts<'_>>
    ensures { option_map (λ p. record { op = p.op; client = p.client; key = p.key.now; value = p.value.now }) result
        ≡ parts_in request.now }
{
    let [op, c0, c1, k0, k1, rest @ ..] = request else {
        return None;
    };
    let client = usize::from(*c0) + 256 * usize::from(*c1);
    let length = usize::from(*k0) + 256 * usize::from(*k1);
    parts_by(*op, client, length, rest)
}

// The key of these bytes.
fn key_of(alloc: Global, bytes: &[u8]) -> Result<Key, Said>
    ensures ok { IfOk result (λ key. key ≡ bytes.now) }
    ensures err { IfErr result (λ said. ((said ≡ refusal fault.KeyLength) × (is_key bytes.now ≡ false))
        ⊎ (said ≡ refusal fault.OutOfMemory)) }
{
    Ok(Key::new(alloc, bytes)?)
}

// The value of these bytes.
fn value_of(alloc: Global, bytes: &[u8]) -> Result<Value, Said>
    ensures ok { IfOk result (λ value. value ≡ bytes.now) }
    ensures err { IfErr result (λ said. ((said ≡ refusal fault.ValueLength) × (MAX_VALUE_BYTES < length bytes.now))
        ⊎ (said ≡ refusal fault.OutOfMemory)) }
{
    Ok(Value::new(alloc, bytes)?)
}

// What is asked by a key alone, or of a range.
fn by_key(alloc: Global, op: u8, key: &[u8], value: &[u8]) -> Result<ClientAct, Said>
    requires { IsByKey op }
    ensures ok { IfOk result (Asks op key.now value.now) }
    ensures err { IfErr result (IsRefused op key.now value.now) }
{
    let key = key_of(alloc, key)?;
    match op {
        2 => Ok(ClientAct::Get(key)),
        5 => Ok(ClientAct::Delete(key)),
        6 => Ok(ClientAct::Lock(key)),
        7 => Ok(ClientAct::Next(key, key_of(alloc, value)?)),
        _ => unreachable!(),
    }
}

// What is asked by a key and its value.
fn by_value(alloc: Global, op: u8, key: &[u8], value: &[u8]) -> Result<ClientAct, Said>
    requires { IsByValue op }
    ensures ok { IfOk result (Asks op key.now value.now) }
    ensures err { IfErr result (IsRefused op key.now value.now) }
{
    let key = key_of(alloc, key)?;
    let value = value_of(alloc, value)?;
    match op {
        3 => Ok(ClientAct::Put(key, value)),
        4 => Ok(ClientAct::Insert(key, value)),
        _ => unreachable!(),
    }
}

/// What is asked, of what a request has.
pub(crate) fn act_of(alloc: Global, op: u8, key: &[u8], value: &[u8]) -> Result<ClientAct, Said>
    ensures ok { IfOk result (Asks op key.now value.now) }
    ensures err { IfErr result (IsRefused op key.now value.now) }
{
    match op {
        1 => Ok(ClientAct::Begin),
        8 => Ok(ClientAct::Commit),
        9 => Ok(ClientAct::Abort),
        3 | 4 => by_value(alloc, op, key, value),
        2 | 5 | 6 | 7 => by_key(alloc, op, key, value),
        _ => Err(Said::Misused),
    }
}
