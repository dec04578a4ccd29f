//! Laws of the rules of a session, which callers may cite.
ghost use Rattle.std.specs.Prelude.{◌≡◌, List, Some};
ghost use Rattle.tx_types.specs.declared.mutation.Fate.{Fate};
ghost use Rattle.tx_plan.specs.declared.body.BatchRollback.{BatchRollback};
ghost use Rattle.tx_plan.specs.declared.body.Body.TheVariants as request;
ghost use Rattle.tx_transaction.specs.declared.state.Due.{Due};
ghost use Rattle.tx_transaction.specs.Sessions.{SessionState, outcome_of, finish_of, due_prewrite, due_commit, due_abort};
ghost use Rattle.tx_transaction.specs.Turns.{SessionTurn, after_turns, MayRollBack};

/// What a session once knows of the fate of its transaction stays, whatever it does and hears from
/// then on, and is the outcome that it answers.
pub fn decision_stays()
    ensures known { (s : SessionState) (turns : List SessionTurn) (end : Fate) → s.decision ≡ Some end
        → (after_turns s turns).decision ≡ Some end }
    ensures answered { (s : SessionState) (turns : List SessionTurn) (end : Fate) → s.decision ≡ Some end
        → finish_of (after_turns s turns) ≡ Some (outcome_of end) }
{}

/// A rollback of anything but the primary is due only once the transaction is known to be aborted;
/// of the primary before that only in two phases, as long as no fate is known. Only an abort makes
/// one due.
pub fn rollback_once_aborted()
    ensures abort { (s : SessionState) (due : Due) (b : BatchRollback) → due_abort s ≡ Some due
        → due.body ≡ request.BatchRollback b → MayRollBack s b }
    ensures prewrite { (s : SessionState) (due : Due) (b : BatchRollback) → due_prewrite s ≡ Some due
        → due.body ≡ request.BatchRollback b → ⊥ }
    ensures commit { (s : SessionState) (due : Due) (b : BatchRollback) → due_commit s ≡ Some due
        → due.body ≡ request.BatchRollback b → ⊥ }
{}
