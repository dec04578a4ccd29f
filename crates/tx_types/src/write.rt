//! Write records.
ghost use Rattle.std.specs.Prelude.{◌≡◌, IfOk, IfErr};

use crate::fault::Fault;
use crate::mutation::StoredMutation;
use crate::ts::Ts;

/// That a transaction committed, as the `write` family keeps it under the key and the
/// commit timestamp.
#[derive(Clone, Debug, Drop, PartialEq, Eq)]
pub struct CommitRec {
    /// What the transaction did to the key.
    pub mutation: StoredMutation,
    /// The start timestamp of the transaction.
    pub start: Ts,
    /// Whether the transaction that started at this record's own timestamp was rolled back on this
    /// key: its rollback and this record claim one cell, and share it.
    pub overlapped_rollback: bool,
}

/// The write record of a key at a timestamp.
#[derive(Clone, Debug, Drop, PartialEq, Eq)]
pub enum WriteRec {
    /// A transaction committed at the record's timestamp.
    Commit(CommitRec),
    /// The transaction that started at this timestamp, which is the record's own, was rolled back.
    Rollback(Ts),
}

impl WriteRec {
    /// A copy. `OutOfMemory` is its only fault.
    pub fn clone(&self) -> Result<WriteRec, Fault>
        ensures ok { IfOk result (λ copy. copy ≡ self.now) }
        ensures err { IfErr result (λ e. e ≡ Fault.OutOfMemory) }
    {
        Ok(Clone::clone(self)?)
    }
}
