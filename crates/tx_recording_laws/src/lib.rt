//! A recording of a run of the one-step machine is explained by the run's timestamps: so what
//! nothing explains is a recording of no run.
#![tactic(auto)]

ghost use Rattle.std.specs.Prelude.{ℕ, List};
ghost use Rattle.tx_types.specs.declared.key.Key.{Key};
ghost use Rattle.tx_types.specs.declared.value.Value.{Value};
ghost use Rattle.tx_machine.specs.Machine.{IsRun, table_of};
ghost use Rattle.tx_machine.specs.declared.step.Step.{Step};
ghost use Rattle.tx_recording.specs.declared.recording.Orders.{Orders};
ghost use Rattle.tx_recording.specs.declared.recording.Recording.{Recording};
ghost use Rattle.tx_recording.specs.Explanations.{Explanation, Explains};
ghost use Rattle.tx_recording_laws.specs.Runs.{IsRecordingOf};

use tx_machine::runs_are_snapshots;

/// The timestamps of a run of the machine explain each recording of it.
pub fn runs_explain()
    ensures { (r : Recording) (orders : Orders) (steps : List Step) (x : Explanation) (key : ℕ → Key)
        (value : List ℕ → Value)
        → IsRun steps → IsRecordingOf r orders x (table_of steps).row key value → Explains r orders x }
{
    runs_are_snapshots();
}

/// What nothing explains is a recording of no run of the machine.
pub fn unexplained_has_no_run()
    ensures { (r : Recording) (orders : Orders) (steps : List Step) (x : Explanation) (key : ℕ → Key)
        (value : List ℕ → Value)
        → ((y : Explanation) → Explains r orders y → ⊥)
        → IsRun steps → IsRecordingOf r orders x (table_of steps).row key value → ⊥ }
{
    runs_explain();
}
