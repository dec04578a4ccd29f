//! What comes of a session of a run.
ghost use Rattle.std.specs.Prelude.{◌≡◌, ◌⊎◌, ◌++◌};
ghost use Rattle.std.specs.Option.{option_to_list};
ghost use Rattle.tx_run.specs.Jobs.{IsSubsequence, stages_in};

use std::alloc::Global;
use std::marker::Model;
use tx_journal::{JournalId, Told};
use tx_ops::SessionStage;
use tx_transfer::{Refusals, Source};
use tx_workload::RunLog;

/// What came of a session's lines. Contracts see its number, its log, whether a fault of the
/// script ended it, how far it was, and what its seat knew at last.
#[derive(Drop)]
pub(crate) struct JobOutput<J: JournalId, L: Source> {
    pub number: u32,
    pub log: RunLog<J, L>,
    /// Whether a fault of the script ended it.
    pub faulted: bool,
    /// How far it was, with the number of its last line, where that was out of order and drew,
    /// committed or aborted.
    pub stage: Option<(u64, SessionStage)>,
    /// How many write records it collected.
    pub collected: u64,
    /// What stood in the way of its requests.
    pub requests: Refusals,
    /// What its seat knew at last.
    pub last: Option<Told<J>>,
}

impl<J: JournalId, L: Source> Model for JobOutput<J, L> {
    ghost use Rattle.tx_run.specs.Jobs.{Output};

    ghost Value = { Output };

    ghost view = { λ o. record {
      number = o.number;
      log = o.log;
      faulted = o.faulted;
      stage = o.stage;
      last = o.last;
    } };
}

/// How many write records were collected.
pub(crate) fn count_collected<J: JournalId, L: Source>(outputs: &[JobOutput<J, L>]) -> u64 {
    let mut collected: u64 = 0;
    for output in outputs {
        collected = collected.saturating_add(output.collected);
    }
    collected
}

/// What stood in the way of the requests of all sessions.
pub(crate) fn count_requests<J: JournalId, L: Source>(outputs: &[JobOutput<J, L>]) -> Refusals {
    let mut requests = Refusals::NONE;
    for output in outputs {
        requests = requests.and(output.requests);
    }
    requests
}

// Adds how far a session was, where that is told, unless there is no memory for it.
fn add_stage<J: JournalId, L: Source>(
    stages: &mut Vec<(u64, SessionStage)>,
    output: &JobOutput<J, L>,
)
    ensures { (stages.new.items ≡ stages.old.items)
        ⊎ (stages.new.items ≡ stages.old.items ++ option_to_list output.now.stage) }
{
    if let Some(stage) = output.stage {
        let _ = stages.push(stage);
    }
}

/// How far sessions were of which that is told, each with the number of its last line, in their
/// order. One for which there is no memory is left out.
pub(crate) fn stages_of<J: JournalId, L: Source>(
    alloc: Global,
    outputs: &[JobOutput<J, L>],
) -> Vec<(u64, SessionStage)>
    ensures { IsSubsequence result.items (stages_in outputs.now) }
{
    let mut stages = Vec::new(alloc);
    for output in outputs {
        add_stage(&mut stages, output);
    }
    stages
}
