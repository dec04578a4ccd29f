//! What is said of a request, and the bytes that tell it.
ghost use Rattle.std.specs.Prelude.{◌≡◌, ◌++◌, OnOk};
ghost use Rattle.tx_embed.specs.Answers.{code_of, fault_code, stop_code, row_bytes, said_bytes};

use std::alloc::AllocError;
use tx_types::{Fault, KeyValue, Ts, Value};
use tx_update::Stop;

/// What is said of a request.
#[derive(Debug, Drop)]
pub enum Said {
    /// It is done.
    Done,
    /// The key has no value, or the range has no row.
    Absent,
    /// The value of the key.
    Found(Value),
    /// The row.
    Row(KeyValue),
    /// It is committed.
    Committed(Ts),
    /// It has ended, and nothing was to be written.
    ReadOnly,
    /// What becomes of the transaction is not known. It has ended.
    Unknown,
    /// It went no further. After a commit it has ended, and nothing is written.
    Stopped(Stop),
    /// The ticks of the client are spent: no transaction began.
    Spent,
    /// A transaction of the client is open.
    Busy,
    /// No transaction of the client is open.
    NoTransaction,
    /// There is no such client, or nothing like it can be asked.
    Misused,
}

impl From<Fault> for Said {
    ghost use Rattle.std.specs.Prelude.{◌≡◌};
    ghost use Rattle.tx_update.specs.declared.stops.Stop.TheVariants.{Refused};
    ghost use Rattle.tx_embed.specs.declared.answer.Said.TheVariants.{Stopped};

    ghost from_gives = { λ fault said. said ≡ Stopped (Refused fault) };

    fn from(fault: Fault) -> Said {
        Said::Stopped(Stop::Refused(fault))
    }
}

// The code of a fault.
fn fault_code(fault: &Fault) -> u8
    ensures { result ≡ fault_code fault.now }
{
    match fault {
        Fault::OutOfMemory => 20,
        Fault::KeyLength => 21,
        Fault::ValueLength => 22,
        Fault::TooManyKeys => 23,
        Fault::OracleSpent => 24,
        _ => 25,
    }
}

// The code of why it went no further.
fn stop_code(stop: &Stop) -> u8
    ensures { result ≡ stop_code stop.now }
{
    match stop {
        Stop::Waits(..) => 10,
        Stop::Conflict(_) => 11,
        Stop::RolledBack => 12,
        Stop::AlreadyExists(_) => 13,
        Stop::BelowSafePoint => 14,
        Stop::Lost => 15,
        Stop::Refused(fault) => fault_code(fault),
    }
}

/// The code of what is said.
pub(crate) fn code_of(said: &Said) -> u8
    ensures { result ≡ code_of said.now }
{
    match said {
        Said::Done | Said::Found(_) | Said::Row(_) | Said::Committed(_) => 0,
        Said::Absent => 1,
        Said::ReadOnly => 2,
        Said::Unknown => 3,
        Said::Busy => 4,
        Said::NoTransaction => 5,
        Said::Misused => 6,
        Said::Spent => 24,
        Said::Stopped(stop) => stop_code(stop),
    }
}

// Appends a row: its key's length in two bytes, the lesser first, its key, and its value.
fn put_row(bytes: &mut Vec<u8>, row: &KeyValue) -> Result<(), AllocError>
    ensures { OnOk result (bytes.new.items ≡ bytes.old.items ++ row_bytes row.now) }
{
    let key = row.key.as_bytes();
    let length = key.len() as u16;
    bytes.extend_from_slice(&length.to_le_bytes())?;
    bytes.extend_from_slice(key)?;
    bytes.extend_from_slice(row.value.as_bytes())?;
    Ok(())
}

/// Appends what is said: a value; a row; the eight bytes of a commit timestamp, the least first;
/// the key that is in the way; else nothing.
pub(crate) fn put_said(bytes: &mut Vec<u8>, said: &Said) -> Result<(), AllocError>
    ensures { OnOk result (bytes.new.items ≡ bytes.old.items ++ said_bytes said.now) }
{
    match said {
        Said::Found(value) => bytes.extend_from_slice(value.as_bytes()),
        Said::Row(row) => put_row(bytes, row),
        Said::Committed(at) => bytes.extend_from_slice(&at.get().to_le_bytes()),
        Said::Stopped(Stop::Waits(key, _) | Stop::Conflict(key) | Stop::AlreadyExists(key)) => {
            bytes.extend_from_slice(key.as_bytes())
        }
        _ => Ok(()),
    }
}
