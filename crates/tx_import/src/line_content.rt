//! What a line of a history says, by the names that it gives to keys, and by its values.
ghost use Rattle.std.specs.Prelude.{◌≡◌};
ghost use Rattle.tx_import.specs.Numbers.{reads_list};
ghost use Rattle.tx_import.specs.Drafts.{width};

use crate::name::{Name, Scalar};
use tx_recording::RecordedOutcome;
use tx_types::Items;

/// What an operation did with its key.
#[derive(Debug, Drop)]
pub enum SaidAct {
    /// It put this value behind those that were there.
    Append(Scalar),
    /// It put this value in place of those that were there.
    Write(Scalar),
    /// It read a register, and found this value, or none.
    Read(Items<Scalar>),
    /// It read a list, and found these values.
    ReadList(Items<Scalar>),
}

impl SaidAct {
    /// How many values it read.
    pub(crate) fn width(&self) -> usize
        ensures { result ≡ width self.now }
    {
        match self {
            SaidAct::Append(_) | SaidAct::Write(_) => 0,
            SaidAct::Read(values) => values.as_slice().len(),
            SaidAct::ReadList(values) => values.as_slice().len(),
        }
    }

    /// Whether it read a list.
    pub(crate) fn reads_list(&self) -> bool
        ensures { result ≡ reads_list self.now }
    {
        match self {
            SaidAct::Append(_) | SaidAct::Write(_) | SaidAct::Read(_) => false,
            SaidAct::ReadList(_) => true,
        }
    }
}

/// An operation.
#[derive(Debug, Drop)]
pub struct SaidOp {
    pub key: Name,
    pub act: SaidAct,
}

/// A transaction.
#[derive(Debug, Drop)]
pub struct SaidTransaction {
    /// The number of its line, where the line gives it none.
    pub id: u64,
    pub outcome: RecordedOutcome,
    /// Who ran it.
    pub process: Option<Name>,
    /// When it began by the recorder's clock.
    pub began: Option<u64>,
    /// When it ended by the recorder's clock.
    pub ended: Option<u64>,
    pub ops: Items<SaidOp>,
}
