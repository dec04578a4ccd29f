//! A history that is of a run of the one-step machine has timestamps: so where its graph has a
//! cycle there is no such run.
#![tactic(auto)]

ghost use Rattle.std.specs.Prelude.{ℕ, List};
ghost use Rattle.tx_types.specs.declared.key.Key.{Key};
ghost use Rattle.tx_types.specs.declared.value.Value.{Value};
ghost use Rattle.tx_machine.specs.Machine.{IsRun, table_of};
ghost use Rattle.tx_machine.specs.declared.step.Step.{Step};
ghost use Rattle.tx_history.specs.Histories.{History, IsAssignment, Rises};
ghost use Rattle.tx_history_laws.specs.Runs.{IsOf};

use tx_history::assignments_are_orders;
use tx_machine::runs_are_snapshots;

/// Where a history is that of a run of the machine, the run's timestamps are an assignment of it.
pub fn runs_are_assignments()
    ensures { (h : History) (steps : List Step) (key : ℕ → Key) (value : ℕ → ℕ → Value) (start commit : ℕ → ℕ)
        → IsRun steps → IsOf h (table_of steps).row key value start commit → IsAssignment h start commit }
{
    runs_are_snapshots();
}

/// Where the graph of a history has a cycle, it is that of no run of the machine: no numbers rise
/// along all its edges, and a run's timestamps would give some.
pub fn cycles_refuse_runs()
    ensures { (h : History) (steps : List Step) (key : ℕ → Key) (value : ℕ → ℕ → Value) (start commit : ℕ → ℕ)
        → ((starts commits : ℕ → ℕ) → Rises h starts commits → ⊥)
        → IsRun steps → IsOf h (table_of steps).row key value start commit → ⊥ }
{
    runs_are_assignments();
    assignments_are_orders();
}

/// A history that has no timestamps is that of no run of the machine: so a decision that it has
/// none is one about all runs.
pub fn refused_histories_have_no_run()
    ensures { (h : History) (steps : List Step) (key : ℕ → Key) (value : ℕ → ℕ → Value) (start commit : ℕ → ℕ)
        → ((s c : ℕ → ℕ) → IsAssignment h s c → ⊥)
        → IsRun steps → IsOf h (table_of steps).row key value start commit → ⊥ }
{
    runs_are_assignments();
}
