//! The lines of a script that say a step.
ghost use Rattle.std.specs.Prelude.{◌≡◌, IfOk};
ghost use Rattle.std.proofs.Props.{props};
ghost use Rattle.tx_transfer.specs.Sources.{HasLine};
ghost use Rattle.tx_workload.specs.Steps.{SaysStep};

use std::alloc::{AllocError, Global};
use std::marker::PhantomData;
use tx_client::Phase;
use tx_steps::{Call, Op, Step};
use tx_transfer::{Order, Source};

/// Which latches a line asks for.
#[derive(Clone, Copy, Debug, PartialEq, Eq)]
pub enum LatchNeed {
    /// It changes nothing in the store.
    Nothing,
    /// That of the key which its session's next request of a phase is of.
    Due(Phase),
    /// That of its session's primary.
    Primary,
    /// Those of the lock that last stood in its session's way.
    Met,
}

/// A line that says a step, with its number. Where the text of the script is known, it has this
/// line, which says one.
#[derive(Drop)]
pub struct ScriptLine<L: Source> {
    pub number: u64,
    pub latches: LatchNeed,
    pub text: Vec<u8>,
    of: PhantomData<L>,
    ghost line: { HasLine L.text number text.items } by { Prim.hlevel props },
    ghost says: { SaysStep L.text number } by { Prim.hlevel props },
}

// The latches that a step asks for. Those of a transfer change on its way.
fn latches_of(step: Step<&str>) -> LatchNeed {
    match step {
        Step::Send(_, Call::Prewrite, _) => LatchNeed::Due(Phase::Prewrite),
        Step::Send(_, Call::Commit, _) => LatchNeed::Due(Phase::Commit),
        Step::Send(_, Call::Abort, _) => LatchNeed::Due(Phase::Abort),
        Step::Send(_, Call::Heartbeat(_), _) => LatchNeed::Primary,
        Step::Act(_, Op::Resolve(_)) => LatchNeed::Met,
        _ => LatchNeed::Nothing,
    }
}

impl<L: Source> ScriptLine<L> {
    /// The line of this number, which says a step.
    pub fn new(
        alloc: Global,
        number: u64,
        text: &[u8],
        step: Step<&str>,
    ) -> Result<ScriptLine<L>, AllocError>
        requires line { HasLine L.text number text.now }
        requires says { SaysStep L.text number }
        ensures { IfOk result (λ line. line.number ≡ number) }
    {
        let latches = latches_of(step);
        Ok(ScriptLine {
            number,
            latches,
            text: Vec::from_slice(alloc, text)?,
            of: PhantomData,
        })
    }
}

/// A line of a session.
#[derive(Drop)]
pub enum SessionLine<L: Source> {
    /// A transfer, of a session whose name is one. It stands in the list of lines, and not apart:
    /// mostly all lines are transfers.
    Transfer(Order<L>),
    /// Any other, which is read again when it is played.
    Line(Box<ScriptLine<L>>),
}

impl<L: Source> SessionLine<L> {
    /// Which latches its step asks for. Those of a transfer's requests come later.
    pub fn latches(&self) -> LatchNeed {
        match self {
            SessionLine::Transfer(_) => LatchNeed::Nothing,
            SessionLine::Line(line) => line.latches,
        }
    }
}
