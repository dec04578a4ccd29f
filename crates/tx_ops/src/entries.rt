//! What enters the buffer: the key and the value get memory of their own, and the session takes
//! them.
ghost use Rattle.std.specs.Prelude.{◌≡◌, Some, true, false, is_some, IfErr, OnOk, OnErr};
ghost use Rattle.tx_types.specs.declared.mutation.Mutation.TheVariants as mutation;
ghost use Rattle.tx_types.specs.Lengths.{is_key as key_test};
ghost use Rattle.tx_transaction.specs.Buffers.{touched, put_over, inserted, buffered, locked, is_full};
ghost use Rattle.tx_transaction.specs.Sessions.{is_declared};
ghost use Rattle.tx_client.specs.Calls.{seated};
ghost use Rattle.tx_ops.specs.Edits.{is_value as value_test};

use std::alloc::Global;
use tx_client::Session;
use tx_journal::JournalId;
use tx_types::{Fault, Key, Value};

/// Enters a put into the buffer.
pub(crate) fn enter_put<J: JournalId>(
    alloc: Global,
    session: &mut Session<J>,
    key: &str,
    value: &str,
) -> Result<(), Fault>
    requires undeclared { is_declared session.old.state ≡ false }
    requires fits { (key_test key.now ≡ true) × (value_test value.now ≡ true) }
    requires room { is_full session.old.state.buffer key.now ≡ false }
    ensures ok { OnOk result (session.new ≡ seated
        (record session.old.state {
          buffer = touched session.old.state.buffer key.now
              (put_over (buffered session.old.state.buffer key.now) value.now);
        }) session.old.seat) }
    ensures same { OnErr result (session.new ≡ session.old) }
    ensures err { IfErr result (λ e. e ≡ Fault.OutOfMemory) }
{
    let key = Key::new(alloc, key.as_bytes())?;
    let value = Value::new(alloc, value.as_bytes())?;
    session.put(key, value)
}

/// Enters an insert into the buffer, which has no value of the key.
pub(crate) fn enter_insert<J: JournalId>(
    alloc: Global,
    session: &mut Session<J>,
    key: &str,
    value: &str,
) -> Result<(), Fault>
    requires undeclared { is_declared session.old.state ≡ false }
    requires fits { (key_test key.now ≡ true) × (value_test value.now ≡ true) }
    requires room { is_full session.old.state.buffer key.now ≡ false }
    requires free { is_some (inserted session.old.state.buffer key.now value.now) ≡ true }
    ensures ok { OnOk result ((inserted session.old.state.buffer key.now value.now ≡ Some session.new.state.buffer)
        × (session.new ≡ seated (record session.old.state { buffer = session.new.state.buffer }) session.old.seat)) }
    ensures same { OnErr result (session.new ≡ session.old) }
    ensures err { IfErr result (λ e. e ≡ Fault.OutOfMemory) }
{
    let key = Key::new(alloc, key.as_bytes())?;
    let value = Value::new(alloc, value.as_bytes())?;
    session.insert(key, value)
}

/// Enters a delete into the buffer.
pub(crate) fn enter_delete<J: JournalId>(
    alloc: Global,
    session: &mut Session<J>,
    key: &str,
) -> Result<(), Fault>
    requires undeclared { is_declared session.old.state ≡ false }
    requires fits { key_test key.now ≡ true }
    requires room { is_full session.old.state.buffer key.now ≡ false }
    ensures ok { OnOk result (session.new ≡ seated
        (record session.old.state { buffer = touched session.old.state.buffer key.now mutation.Delete })
        session.old.seat) }
    ensures same { OnErr result (session.new ≡ session.old) }
    ensures err { IfErr result (λ e. e ≡ Fault.OutOfMemory) }
{
    let key = Key::new(alloc, key.as_bytes())?;
    session.delete(key)
}

/// Enters a lock into the buffer, where the key is not there.
pub(crate) fn enter_lock<J: JournalId>(
    alloc: Global,
    session: &mut Session<J>,
    key: &str,
) -> Result<(), Fault>
    requires undeclared { is_declared session.old.state ≡ false }
    requires fits { key_test key.now ≡ true }
    requires room { is_full session.old.state.buffer key.now ≡ false }
    ensures ok { OnOk result (session.new ≡ seated
        (record session.old.state { buffer = locked session.old.state.buffer key.now }) session.old.seat) }
    ensures same { OnErr result (session.new ≡ session.old) }
    ensures err { IfErr result (λ e. e ≡ Fault.OutOfMemory) }
{
    let key = Key::new(alloc, key.as_bytes())?;
    session.lock(key)
}
