//! What was found out of a transaction, with the history that proves it.
ghost use Rattle.std.specs.Prelude.{◌≡◌};
ghost use Rattle.tx_machine.specs.Machine.{Done};
ghost use Rattle.tx_core.specs.Decisions.{decided};
ghost use Rattle.tx_core.specs.Laws.{WasToldOf};
ghost use Rattle.tx_client.specs.Facts.{WasMet};
ghost use Rattle.tx_client.specs.Statuses.{Ends, lies_above};

use std::marker::Model;
use tx_journal::{JournalId, Told};
use tx_types::{Fate, LockInfo, Ts};

/// Why a transaction was not resolved.
#[derive(Clone, Copy, Debug, PartialEq, Eq)]
pub enum WaitCause {
    /// Its locks live.
    Live,
    /// Nothing of it stands on its primary.
    NotFound,
    /// No reply came.
    Reply,
    /// E7: a request was refused below the safe point.
    BelowSafePoint,
    /// E12: a request was refused for want of memory.
    OutOfMemory,
}

/// What became of the transaction of a lock that was met.
#[derive(Clone, Copy, Debug, PartialEq, Eq)]
pub enum Status {
    /// Committed at this timestamp.
    Committed(Ts),
    Aborted,
    /// Its lock on its primary has at least this minimum.
    Pushed(Ts),
    Waiting(WaitCause),
}

impl Status {
    /// Whether reads at this timestamp may pass by the transaction's locks.
    pub fn lies_above(self, at: Ts) -> bool
        ensures { result ≡ lies_above self at }
    {
        match self {
            Status::Committed(commit) => at < commit,
            Status::Aborted => true,
            Status::Pushed(minimum) => at < minimum,
            Status::Waiting(_) => false,
        }
    }
}

/// What a resolver found of the transaction that started here. In the history that it has seen that
/// is so: a fate is decided, a pushed lock was shown.
#[derive(Drop)]
pub struct Resolved<J: JournalId> {
    start: Ts,
    status: Status,
    told: Told<J>,
}

impl<J: JournalId> Model for Resolved<J> {
    ghost use Rattle.tx_client.specs.Statuses.{FoundStatus, Ends};

    ghost Value = { FoundStatus };

    ghost view = { λ r. record { start = r.start; status = r.status; events = r.told } };

    ghost invariant = { λ r. Ends r.told r.start r.status };
}

impl<J: JournalId> Resolved<J> {
    /// Of one who has seen this.
    pub fn new(start: Ts, status: Status, told: Told<J>) -> Resolved<J>
        requires { Ends told start status }
        ensures { result ≡ record { start = start; status = status; events = told } }
    {
        Resolved {
            start,
            status,
            told,
        }
    }

    /// The start of the transaction.
    pub fn start(&self) -> Ts
        ensures { result ≡ self.now.start }
    {
        self.start
    }

    /// What became of it.
    pub fn status(&self) -> Status
        ensures { result ≡ self.now.status }
    {
        self.status
    }

    /// Its start, what became of it, and the history.
    pub fn into_parts(self) -> (Ts, Status, Told<J>)
        ensures parts { (result.0 ≡ self.start) × (result.1 ≡ self.status) × (result.2 ≡ self.events) }
        ensures ends { Ends self.events self.start self.status }
    {
        let Resolved {
            start,
            status,
            told,
        } = self;
        (start, status, told)
    }
}

/// The fate of the transaction that started here, which is decided in the history
/// that goes with it.
#[derive(Drop)]
pub struct Decision<J: JournalId> {
    start: Ts,
    fate: Fate,
    told: Told<J>,
}

impl<J: JournalId> Model for Decision<J> {
    ghost use Rattle.std.specs.Prelude.{◌≡◌};
    ghost use Rattle.tx_machine.specs.Machine.{Done};
    ghost use Rattle.tx_core.specs.Decisions.{decided};
    ghost use Rattle.tx_client.specs.Statuses.{Decided};

    ghost Value = { Decided };

    ghost view = { λ d. record { start = d.start; fate = d.fate; events = d.told } };

    ghost invariant = { λ d. decided d.told d.start ≡ Done d.fate };
}

impl<J: JournalId> Decision<J> {
    /// Of one who has seen this.
    pub fn new(start: Ts, fate: Fate, told: Told<J>) -> Decision<J>
        requires { decided told start ≡ Done fate }
        ensures { result ≡ record { start = start; fate = fate; events = told } }
    {
        Decision { start, fate, told }
    }

    /// Its start, its fate, and the history.
    pub fn into_parts(self) -> (Ts, Fate, Told<J>)
        ensures parts { (result.0 ≡ self.start) × (result.1 ≡ self.fate) × (result.2 ≡ self.events) }
        ensures decided { decided self.events self.start ≡ Done self.fate }
    {
        let Decision { start, fate, told } = self;
        (start, fate, told)
    }
}

/// A lock that stood in a session's way: an answer of the history that goes with it said so (E1).
#[derive(Drop)]
pub struct Met<J: JournalId> {
    info: LockInfo,
    told: Told<J>,
}

impl<J: JournalId> Model for Met<J> {
    ghost use Rattle.tx_client.specs.Facts.{WasMet};
    ghost use Rattle.tx_client.specs.Statuses.{Stopping};

    ghost Value = { Stopping };

    ghost view = { λ m. record { info = m.info; events = m.told } };

    ghost invariant = { λ m. WasMet m.told m.info };
}

impl<J: JournalId> Met<J> {
    /// Of one who has seen this.
    pub(crate) fn new(info: LockInfo, told: Told<J>) -> Met<J>
        requires { WasMet told info }
        ensures { result ≡ record { info = info; events = told } }
    {
        Met { info, told }
    }

    /// The lock, and the history.
    pub fn into_parts(self) -> (LockInfo, Told<J>)
        ensures parts { (result.0 ≡ self.info) × (result.1 ≡ self.events) }
        ensures met { WasMet self.events self.info }
        ensures told { WasToldOf self.events self.info }
    {
        let Met { info, told } = self;
        (info, told)
    }
}
