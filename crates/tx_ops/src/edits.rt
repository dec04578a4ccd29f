//! The edits: each makes the tests of its definition in their order, and then what it enters.
ghost use Rattle.std.specs.Prelude.{◌≡◌, true, None, Ok, OnOk, OnErr};
ghost use Rattle.tx_transaction.specs.Buffers.{inserted};
ghost use Rattle.tx_ops.specs.Edits.{is_value as value_test, puts, inserts_by, inserts, deletes, locks, Edited};
ghost use Rattle.tx_ops.specs.Refusals.{Refuses};

use crate::entries::{enter_delete, enter_insert, enter_lock, enter_put};
use std::alloc::Global;
use tx_client::Session;
use tx_journal::JournalId;
use tx_reply::ScriptReply;
use tx_types::limits::MAX_VALUE_BYTES;
use tx_types::{Cause, Fault, is_key};

fn is_value(value: &str) -> bool
    ensures { result ≡ value_test value.now }
{
    value.len() <= MAX_VALUE_BYTES
}

// What is refused of a change of a key before memory is asked for. `Order` after the session
// declared.
fn refusal<J: JournalId>(
    session: &Session<J>,
    key: &str,
    fits: bool,
) -> Result<Option<ScriptReply>, Cause>
    ensures { Refuses session.now.state key.now fits result }
{
    if session.is_declared() {
        return Err(Cause::Order);
    }
    if !is_key(key.as_bytes()) {
        return Ok(Some(ScriptReply::KeyLength));
    }
    if !fits {
        return Ok(Some(ScriptReply::ValueLength));
    }
    if !session.transaction().has_room(key.as_bytes()) {
        return Ok(Some(ScriptReply::TooManyKeys));
    }
    Ok(None)
}

// What is said where something was to enter: memory for it was refused, or nothing.
fn said(entered: Result<(), Fault>) -> ScriptReply
    ensures ok { OnOk entered (result ≡ ScriptReply.Fine) }
    ensures err { OnErr entered (result ≡ ScriptReply.OutOfMemory) }
{
    match entered {
        Ok(()) => ScriptReply::Fine,
        Err(_) => ScriptReply::OutOfMemory,
    }
}

/// A session enters a put into its buffer. A key that is there keeps its place. `Order` after it
/// declared.
#[inline(never)]
pub(crate) fn put<J: JournalId>(
    alloc: Global,
    session: &mut Session<J>,
    key: &str,
    value: &str,
) -> Result<ScriptReply, Cause>
    ensures { Edited (λ refused s. puts refused s key.now value.now) result session.old session.new }
{
    match refusal(session, key, is_value(value)) {
        Err(cause) => Err(cause),
        Ok(Some(reply)) => Ok(reply),
        Ok(None) => Ok(said(enter_put(alloc, session, key, value))),
    }
}

// An insert of which nothing else is refused enters, where the buffer has no value of the key.
fn insert_new<J: JournalId>(
    alloc: Global,
    session: &mut Session<J>,
    key: &str,
    value: &str,
) -> ScriptReply
    requires { Refuses session.old.state key.now (value_test value.now) (Ok None) }
    ensures { Edited (λ refused s. inserts_by refused s (inserted s.buffer key.now value.now)) (Ok result) session.old
        session.new }
{
    if !session.transaction().can_insert(key.as_bytes()) {
        return ScriptReply::AlreadyExists;
    }
    said(enter_insert(alloc, session, key, value))
}

/// It enters an insert, where its buffer has no value of the key, and over a delete a put. `Order`
/// after it declared.
#[inline(never)]
pub(crate) fn insert<J: JournalId>(
    alloc: Global,
    session: &mut Session<J>,
    key: &str,
    value: &str,
) -> Result<ScriptReply, Cause>
    ensures { Edited (λ refused s. inserts refused s key.now value.now) result session.old session.new }
{
    match refusal(session, key, is_value(value)) {
        Err(cause) => Err(cause),
        Ok(Some(reply)) => Ok(reply),
        Ok(None) => Ok(insert_new(alloc, session, key, value)),
    }
}

/// It enters a delete. `Order` after it declared.
#[inline(never)]
pub(crate) fn delete<J: JournalId>(
    alloc: Global,
    session: &mut Session<J>,
    key: &str,
) -> Result<ScriptReply, Cause>
    ensures { Edited (λ refused s. deletes refused s key.now) result session.old session.new }
{
    match refusal(session, key, true) {
        Err(cause) => Err(cause),
        Ok(Some(reply)) => Ok(reply),
        Ok(None) => Ok(said(enter_delete(alloc, session, key))),
    }
}

/// It enters a lock, where the key is not in its buffer. `Order` after it declared.
#[inline(never)]
pub(crate) fn lock<J: JournalId>(
    alloc: Global,
    session: &mut Session<J>,
    key: &str,
) -> Result<ScriptReply, Cause>
    ensures { Edited (λ refused s. locks refused s key.now) result session.old session.new }
{
    match refusal(session, key, true) {
        Err(cause) => Err(cause),
        Ok(Some(reply)) => Ok(reply),
        Ok(None) => Ok(said(enter_lock(alloc, session, key))),
    }
}
